//! Addresses as they are written, and their normal form.

ghost use Rattle.std.specs.Prelude.{◌≡◌, ◌++◌, ◌≤◌, map, length, IsTrue, string_bytes, IfOk, OnOk};
ghost use Rattle.std.specs.Option.{option_map};
ghost use Rattle.std.specs.List.{before_first, after_first, position_or_len, join_with_byte};
ghost use Rattle.std.specs.Str.Parse.{digits_value};
ghost use Rattle.dw_norm.specs.Digits.{decimal};
ghost use Rattle.dw_norm.specs.Addresses.{is_point, is_group as text_is_group, is_address as text_is_address, address_of, norm_address};

use crate::OutOfMemory;
use crate::digits::{are_digits, numeral, put, put_three};
use std::alloc::Global;

/// The normal form of an address, or none where the text is no address.
#[tactic(auto, unfolding(crate::specs::Addresses::norm_address))]
pub(crate) fn normal_address(alloc: Global, raw: &[u8]) -> Result<Option<String>, OutOfMemory>
    ensures { IfOk result (λ r. option_map string_bytes r ≡ norm_address raw.now) }
{
    if !is_address(raw) {
        return Ok(None);
    }
    Ok(Some(address_text(alloc, raw)?))
}

#[tactic(auto, using(crate::proofs::Runs::run_ends, crate::proofs::Runs::run_goes_on))]
fn point_at(text: &[u8]) -> usize
    ensures value { result ≡ position_or_len is_point text.now }
    ensures within { result ≤ length text.now }
{
    for (i, byte) in text.iter().enumerate() {
        if *byte == b'.' {
            return i;
        }
    }
    text.len()
}

/// What stands before the first point, or all where there is none.
fn before_point(text: &[u8]) -> &[u8]
    ensures { result.now ≡ before_first is_point text.now }
{
    &text[..point_at(text)]
}

/// What stands behind the first point, or nothing where there is none.
fn behind_point(text: &[u8]) -> &[u8]
    ensures { result.now ≡ after_first is_point text.now }
{
    let at = point_at(text);
    if at < text.len() {
        &text[at + 1..]
    } else {
        &text[at..]
    }
}

#[tactic(auto, unfolding(crate::specs::Addresses::is_group))]
fn is_group(text: &[u8]) -> bool
    ensures { result ≡ text_is_group text.now }
{
    1 <= text.len() && text.len() <= 3 && are_digits(text) && numeral(text) <= 255
}

#[tactic(auto, unfolding(crate::specs::Addresses::is_address))]
fn is_address(raw: &[u8]) -> bool
    ensures { result ≡ text_is_address raw.now }
{
    let behind_first = behind_point(raw);
    let behind_second = behind_point(behind_first);
    is_group(before_point(raw))
        && is_group(before_point(behind_first))
        && is_group(before_point(behind_second))
        && is_group(behind_point(behind_second))
}

/// Appends the number of a group in three digits.
#[tactic(auto, unfolding(crate::specs::Addresses::is_group))]
fn put_group(out: &mut String, group: &[u8]) -> Result<(), OutOfMemory>
    requires { IsTrue (text_is_group group.now) }
    ensures { OnOk result (string_bytes out.new ≡ string_bytes out.old ++ decimal 3 (digits_value 10 group.now)) }
{
    put_three(out, numeral(group))
}

#[tactic(auto, unfolding(crate::specs::Addresses::is_address, crate::specs::Addresses::address_of))]
fn put_groups(out: &mut String, raw: &[u8]) -> Result<(), OutOfMemory>
    requires { IsTrue (text_is_address raw.now) }
    ensures { OnOk result (string_bytes out.new ≡ string_bytes out.old ++ join_with_byte 46 (map (decimal 3) (address_of raw.now))) }
{
    let behind_first = behind_point(raw);
    let behind_second = behind_point(behind_first);
    put_group(out, before_point(raw))?;
    put(out, b'.')?;
    put_group(out, before_point(behind_first))?;
    put(out, b'.')?;
    put_group(out, before_point(behind_second))?;
    put(out, b'.')?;
    put_group(out, behind_point(behind_second))
}

fn address_text(alloc: Global, raw: &[u8]) -> Result<String, OutOfMemory>
    requires { IsTrue (text_is_address raw.now) }
    ensures { IfOk result (λ t. string_bytes t ≡ join_with_byte 46 (map (decimal 3) (address_of raw.now))) }
{
    let mut out = String::new(alloc);
    put_groups(&mut out, raw)?;
    Ok(out)
}
