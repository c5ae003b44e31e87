//! Kinds of field, and the normal form of a text for each: texts of one field compare as their
//! normal forms do, byte by byte.
//!
//! | Kind | Reads | Normal form |
//! |---|---|---|
//! | TEXT | any text | NFD, then without the characters of general category Mn, then case folded (full, by default); none where nothing is left |
//! | NOOP | any text but the empty one | itself |
//! | NUMBER | `+` or `-` or neither, 1 to 18 digits, and then nothing or `.` and 1 to 9 digits | `+` and 27 digits, of the magnitude times 10^9; below zero `!` and each of those digits taken from 9 |
//! | DATE | `yyyyMMdd` or `yyyy-MM-dd`, a day of the years 0001 to 9999; then nothing or `T` or a space and `HH:mm:ss`, `HH` to 23, `mm` and `ss` to 59; behind a time nothing or `.` and 1 to 9 digits, which are dropped, and then nothing, `Z`, `+hh:mm` or `-hh:mm`, `hh` to 23 and `mm` to 59. Without an offset it is UTC, without a time midnight | `yyyy-MM-ddTHH:mm:ssZ` in UTC; none where that leaves the years 0001 to 9999 |
//! | IPV4 | four groups of 1 to 3 digits parted by `.`, each at most 255 | each group in three digits, parted by `.` |
//!
//! So `-0` is `+` and zeros. The Unicode version is 18, that of the crates below.
#![tactic(auto)]

mod address;
mod calendar;
mod date;
mod days;
mod digits;
mod folding;
mod kind;
mod laws;
mod number;
mod reversal;

pub use days::read_day;
pub use kind::{Kind, normal};
pub use laws::{
    addresses_keep_order, digits_spell_numbers, ends_are_fronts_reversed, instants_have_moments,
    instants_keep_order, nines_complement, no_zero_is_made, no_zero_is_reversed,
    numbers_keep_order, reversal_takes_back, texts_are_read_whole,
};
pub use reversal::reversed;
pub use std::alloc::AllocError as OutOfMemory;

#[cfg(test)]
mod tests;
