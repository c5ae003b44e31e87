ghost use Rattle.std.specs.Prelude.{◌≡◌, ◌<◌, ◌≤◌, ◌&&◌, ◌==◌, true, false, length, map, nat_le};
ghost use Rattle.std.specs.List.{list_all};
ghost use Rattle.std.specs.Option.{option_map_or};
ghost use Rattle.std.specs.Str.{all_ascii_digits};
ghost use Rattle.std.specs.Str.Parse.{digits_value};
ghost use Rattle.dw_http.specs.Lengths.{number_of, length_in, body_size, size_by};

use crate::why::HttpWhy;
use std::str;

/// The most bytes of a body.
pub(crate) const MAX_BODY: u64 = 4_194_304;

fn is_number(value: &[u8]) -> bool
    ensures { result ≡ (nat_le 1 (length value.now) && nat_le (length value.now) 19 && all_ascii_digits value.now) }
{
    !value.is_empty() && value.len() <= 19 && all_digits(value)
}

fn all_digits(value: &[u8]) -> bool
    ensures { result ≡ all_ascii_digits value.now }
{
    for byte in value {
        if !byte.is_ascii_digit() {
            return false;
        }
    }
    true
}

fn text_of(value: &[u8]) -> &str
    requires { all_ascii_digits value.now ≡ true }
    ensures { result.now ≡ value.now }
{
    str::from_utf8(value).unwrap()
}

/// The number that digits write.
fn digits(value: &[u8]) -> u64
    requires some { 0 < length value.now }
    requires few { length value.now ≤ 19 }
    requires digits { all_ascii_digits value.now ≡ true }
    ensures { result ≡ digits_value 10 value.now }
{
    text_of(value).parse::<u64>().unwrap()
}

/// The number that 1 to 19 digits write.
fn number(value: &[u8]) -> Option<u64>
    ensures { result ≡ number_of value.now }
{
    if is_number(value) {
        Some(digits(value))
    } else {
        None
    }
}

fn writes(value: &[u8], length: u64) -> bool
    ensures { result ≡ option_map_or (λ n. n == length) (number_of value.now) false }
{
    match number(value) {
        Some(number) => number == length,
        None => false,
    }
}

fn all_write(values: &[&[u8]], length: u64) -> bool
    ensures { result ≡ list_all (λ v. option_map_or (λ n. n == length) (number_of v) false) (map (λ v. v.now) values.now) }
{
    for value in values {
        if !writes(value, length) {
            return false;
        }
    }
    true
}

/// The number that each value writes, 0 without one, where they write the same.
fn one_length(values: &[&[u8]]) -> Option<u64>
    ensures { result ≡ length_in (map (λ v. v.now) values.now) }
{
    match values {
        [] => Some(0),
        [first, others @ ..] => {
            let length = number(first)?;
            if all_write(others, length) {
                Some(length)
            } else {
                None
            }
        }
    }
}

/// How long a body is, or the first rule that the headers on it break.
pub(crate) fn size(codings: &[&[u8]], lengths: &[&[u8]]) -> Result<usize, HttpWhy>
    ensures { result ≡ size_by (map (λ v. v.now) codings.now) (map (λ v. v.now) lengths.now) }
{
    if !codings.is_empty() {
        return Err(HttpWhy::Transfer);
    }
    match one_length(lengths) {
        None => Err(HttpWhy::Length),
        Some(length) if length > MAX_BODY => Err(HttpWhy::Body),
        Some(length) => Ok(length as usize),
    }
}
