//! What every layer stands on: lists, sets, bytes and texts, the names of fields, days and limits.
#![tactic(auto)]

mod bytes;
mod callers;
mod exact;
mod field_names;
mod limits;
mod listed;
mod numerals;
mod sorted;
mod text;
mod twin;

pub use bytes::Bytes;
pub use callers::{is_auth, is_caller};
pub use exact::{Exact, Named};
pub use field_names::{is_field_name, is_folded_name};
pub use limits::{
    MAX_CALLER, MAX_CANONICAL, MAX_CELLS, MAX_NAME, MAX_NAMES, MAX_VALUE, MAX_VISIBILITY,
};
pub use listed::Listed;
pub use numerals::read_numeral;
pub use sorted::Sorted;
pub use std::alloc::AllocError as OutOfMemory;
pub use text::Text;
pub use twin::Twin;

/// A list of texts.
pub type Names = Listed<Text>;

#[cfg(test)]
mod tests;
