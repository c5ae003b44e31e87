//! Decimal digits, as bytes of a text.

ghost use Rattle.std.specs.Prelude.{◌≡◌, ◌+◌, ◌*◌, ◌∷◌, ◌++◌, ◌<◌, ◌≤◌, ◌^◌, [], length, string_bytes, IsTrue, OnOk, drop};
ghost use Rattle.std.specs.List.{list_all, prefix_len};
ghost use Rattle.std.specs.Char.{is_ascii_digit, digit_value as value_of_digit};
ghost use Rattle.std.specs.Str.Parse.{digits_value};
ghost use Rattle.dw_norm.specs.Digits.{fits as fits_place, has_layout as text_has_layout, is_fraction as text_is_fraction, decimal};

use crate::OutOfMemory;

/// How many digits a text begins with.
#[tactic(auto, using(crate::proofs::Runs::run_ends, crate::proofs::Runs::run_goes_on))]
pub(crate) fn digits_len(text: &[u8]) -> usize
    ensures value { result ≡ prefix_len is_ascii_digit text.now }
    ensures within { result ≤ length text.now }
{
    for (i, byte) in text.iter().enumerate() {
        if !byte.is_ascii_digit() {
            return i;
        }
    }
    text.len()
}

pub(crate) fn are_digits(text: &[u8]) -> bool
    ensures { result ≡ list_all is_ascii_digit text.now }
{
    text.iter().all(|byte| byte.is_ascii_digit())
}

/// What a byte counts as a digit: a letter goes on behind 9, and anything else counts 36.
fn digit_value(byte: u8) -> u32
    ensures value { result ≡ value_of_digit byte }
    ensures bound { result ≤ 36 }
{
    char::from(byte).to_digit(36).unwrap_or(36)
}

/// The number that at most four digits spell.
pub(crate) fn numeral(digits: &[u8]) -> u32
    requires { length digits.now ≤ 4 }
    ensures { result ≡ digits_value 10 digits.now }
{
    let mut number: u32 = 0;
    for digit in digits {
        number = 10 * number + digit_value(*digit);
    }
    number
}

fn fits(place: u8, byte: u8) -> bool
    ensures { result ≡ fits_place place byte }
{
    if place == b'0' {
        byte.is_ascii_digit()
    } else {
        place == byte
    }
}

/// Whether the text is as long as the layout, with a digit wherever the layout has a 0 and
/// elsewhere the byte that the layout has.
#[tactic(auto, using(crate::proofs::Runs::pair_fails, crate::proofs::Runs::pair_passes, crate::proofs::Runs::pairs_end))]
pub(crate) fn has_layout(layout: &[u8], text: &[u8]) -> bool
    ensures { result ≡ text_has_layout layout.now text.now }
{
    if layout.len() != text.len() {
        return false;
    }
    for (i, byte) in text.iter().enumerate() {
        if !fits(layout[i], *byte) {
            return false;
        }
    }
    true
}

/// Whether the text is empty, or a point and 1 to 9 digits.
pub(crate) fn is_fraction(text: &[u8]) -> bool
    ensures { result ≡ text_is_fraction text.now }
{
    if text.is_empty() {
        return true;
    }
    text[0] == b'.' && 2 <= text.len() && text.len() <= 10 && are_digits(&text[1..])
}

/// Appends an ASCII character.
pub(crate) fn put(out: &mut String, byte: u8) -> Result<(), OutOfMemory>
    requires { byte < 128 }
    ensures { OnOk result (string_bytes out.new ≡ string_bytes out.old ++ byte ∷ []) }
{
    out.push(byte as char)
}

/// Appends digits.
pub(crate) fn put_digits(out: &mut String, digits: &[u8]) -> Result<(), OutOfMemory>
    requires { IsTrue (list_all is_ascii_digit digits.now) }
    ensures { OnOk result (string_bytes out.new ≡ string_bytes out.old ++ digits.now) }
{
    for digit in digits {
        put(out, *digit)?;
    }
    Ok(())
}

/// Appends the lowest digit of a number.
#[tactic(auto, unfolding(crate::specs::Digits::decimal))]
fn put_digit(out: &mut String, number: u32) -> Result<(), OutOfMemory>
    ensures { OnOk result (string_bytes out.new ≡ string_bytes out.old ++ decimal 1 number) }
{
    put(out, b'0' + (number % 10) as u8)
}

/// Appends the lowest two digits of a number.
#[tactic(auto, unfolding(crate::specs::Digits::decimal))]
pub(crate) fn put_two(out: &mut String, number: u32) -> Result<(), OutOfMemory>
    ensures { OnOk result (string_bytes out.new ≡ string_bytes out.old ++ decimal 2 number) }
{
    put_digit(out, number / 10)?;
    put_digit(out, number)
}

/// Appends the lowest three digits of a number.
#[tactic(auto, unfolding(crate::specs::Digits::decimal))]
pub(crate) fn put_three(out: &mut String, number: u32) -> Result<(), OutOfMemory>
    ensures { OnOk result (string_bytes out.new ≡ string_bytes out.old ++ decimal 3 number) }
{
    put_two(out, number / 10)?;
    put_digit(out, number)
}

/// Appends the lowest four digits of a number.
#[tactic(auto, unfolding(crate::specs::Digits::decimal))]
pub(crate) fn put_four(out: &mut String, number: u32) -> Result<(), OutOfMemory>
    ensures { OnOk result (string_bytes out.new ≡ string_bytes out.old ++ decimal 4 number) }
{
    put_three(out, number / 10)?;
    put_digit(out, number)
}
