//! Numbers as they are written, and their normal form.

ghost use Rattle.std.specs.Prelude.{◌≡◌, ◌≤◌, ◌-◌, ◌∷◌, ◌++◌, ◌==◌, ◌&&◌, [], not, length, replicate, slice_index, IsTrue, string_bytes, IfOk, OnOk, if◌then◌else◌};
ghost use Rattle.std.specs.Option.{option_map};
ghost use Rattle.std.specs.List.{list_all};
ghost use Rattle.std.specs.Char.{is_ascii_digit};
ghost use Rattle.dw_norm.specs.Digits.{decimal, is_fraction};
ghost use Rattle.dw_norm.specs.Numbers.{padded as padded_digits, sign_len as sign_len_of, whole_part, fraction_part, decimals as decimals_of, is_number as text_is_number, magnitude, number_of, nines, number_text as text_of_number, norm_number};

use crate::OutOfMemory;
use crate::digits::{digits_len, is_fraction, put, put_digits};
use std::alloc::Global;

/// The normal form of a number, or none where the text is no number.
#[tactic(auto, unfolding(crate::specs::Numbers::norm_number))]
pub(crate) fn normal_number(alloc: Global, raw: &[u8]) -> Result<Option<String>, OutOfMemory>
    ensures { IfOk result (λ r. option_map string_bytes r ≡ norm_number raw.now) }
{
    if !is_number(raw) {
        return Ok(None);
    }
    Ok(Some(number_text(alloc, raw)?))
}

fn sign_len(raw: &[u8]) -> usize
    ensures value { result ≡ sign_len_of raw.now }
    ensures within { result ≤ length raw.now }
{
    match raw {
        [b'+' | b'-', ..] => 1,
        _ => 0,
    }
}

/// The digits behind the sign.
fn whole_digits(raw: &[u8]) -> &[u8]
    ensures { result.now ≡ whole_part raw.now }
{
    let unsigned = &raw[sign_len(raw)..];
    &unsigned[..digits_len(unsigned)]
}

/// What stands behind those digits.
fn fraction(raw: &[u8]) -> &[u8]
    ensures { result.now ≡ fraction_part raw.now }
{
    let unsigned = &raw[sign_len(raw)..];
    &unsigned[digits_len(unsigned)..]
}

/// The digits behind the point.
fn decimals(raw: &[u8]) -> &[u8]
    ensures { result.now ≡ decimals_of raw.now }
{
    let fraction = fraction(raw);
    if fraction.is_empty() {
        fraction
    } else {
        &fraction[1..]
    }
}

#[tactic(auto, unfolding(crate::specs::Numbers::is_number))]
fn is_number(raw: &[u8]) -> bool
    ensures { result ≡ text_is_number raw.now }
{
    let count = whole_digits(raw).len();
    1 <= count && count <= 18 && is_fraction(fraction(raw))
}

/// The digits with zeros before and behind them, 18 and 9 in all.
fn padded(alloc: Global, whole: &[u8], decimals: &[u8]) -> Result<Vec<u8>, OutOfMemory>
    requires whole { length whole.now ≤ 18 }
    requires decimals { length decimals.now ≤ 9 }
    ensures { IfOk result (λ ds. ds.items ≡ padded_digits whole.now decimals.now) }
{
    let mut digits = vec![in alloc; b'0'; 18 - whole.len()]?;
    digits.extend_from_slice(whole)?;
    digits.extend_from_slice(decimals)?;
    let zeros = vec![in alloc; b'0'; 9 - decimals.len()]?;
    digits.extend_from_slice(&zeros)?;
    Ok(digits)
}

/// The 27 digits of the number without its sign, in units of the ninth decimal.
#[tactic(auto, using(crate::proofs::Numbers::whole_few, crate::proofs::Numbers::few_behind, crate::proofs::Numbers::magnitude_padded, crate::proofs::Numbers::digits_padded))]
fn digits_of(alloc: Global, raw: &[u8]) -> Result<Vec<u8>, OutOfMemory>
    requires { IsTrue (text_is_number raw.now) }
    ensures value { IfOk result (λ ds. ds.items ≡ decimal 27 (magnitude raw.now)) }
    ensures digits { IfOk result (λ ds. IsTrue (list_all is_ascii_digit ds.items)) }
{
    padded(alloc, whole_digits(raw), decimals(raw))
}

fn has_minus(raw: &[u8]) -> bool
    ensures { result ≡ (slice_index raw.now 0 == 45) }
{
    matches!(raw, [b'-', ..])
}

fn are_zeros(digits: &[u8]) -> bool
    ensures { result ≡ list_all (λ d. d == 48) digits.now }
{
    digits.iter().all(|digit| *digit == b'0')
}

/// Appends each digit taken from 9.
fn put_nines(out: &mut String, digits: &[u8]) -> Result<(), OutOfMemory>
    requires { IsTrue (list_all is_ascii_digit digits.now) }
    ensures { OnOk result (string_bytes out.new ≡ string_bytes out.old ++ nines digits.now) }
{
    for digit in digits {
        put(out, b'9' - (*digit - b'0'))?;
    }
    Ok(())
}

fn positive_text(alloc: Global, digits: &[u8]) -> Result<String, OutOfMemory>
    requires { IsTrue (list_all is_ascii_digit digits.now) }
    ensures { IfOk result (λ t. string_bytes t ≡ 43 ∷ digits.now) }
{
    let mut out = String::new(alloc);
    put(&mut out, b'+')?;
    put_digits(&mut out, digits)?;
    Ok(out)
}

fn negative_text(alloc: Global, digits: &[u8]) -> Result<String, OutOfMemory>
    requires { IsTrue (list_all is_ascii_digit digits.now) }
    ensures { IfOk result (λ t. string_bytes t ≡ 33 ∷ nines digits.now) }
{
    let mut out = String::new(alloc);
    put(&mut out, b'!')?;
    put_nines(&mut out, digits)?;
    Ok(out)
}

/// The text of a number with these digits.
fn signed_text(alloc: Global, is_negative: bool, digits: &[u8]) -> Result<String, OutOfMemory>
    requires { IsTrue (list_all is_ascii_digit digits.now) }
    ensures { IfOk result (λ t. string_bytes t ≡ (if is_negative then 33 ∷ nines digits.now else 43 ∷ digits.now)) }
{
    if is_negative {
        negative_text(alloc, digits)
    } else {
        positive_text(alloc, digits)
    }
}

/// Whether it is below zero: a minus alone does not make it so.
fn is_negative(raw: &[u8], digits: &[u8]) -> bool
    ensures { result ≡ ((slice_index raw.now 0 == 45) && not (list_all (λ d. d == 48) digits.now)) }
{
    has_minus(raw) && !are_zeros(digits)
}

/// The text of a number that is written.
fn number_text(alloc: Global, raw: &[u8]) -> Result<String, OutOfMemory>
    requires { IsTrue (text_is_number raw.now) }
    ensures { IfOk result (λ t. string_bytes t ≡ text_of_number (number_of raw.now)) }
{
    let digits = digits_of(alloc, raw)?;
    let digits = digits.as_slice();
    signed_text(alloc, is_negative(raw, digits), digits)
}
