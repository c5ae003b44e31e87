ghost use Rattle.std.specs.Prelude.{◌≡◌, ◌+◌, ◌*◌, ◌≤◌, true};
ghost use Rattle.std.specs.Option.{SomeIff};
ghost use Rattle.std.specs.Char.{digit_value, is_ascii_digit};
ghost use Rattle.dw_base.specs.Numerals.{numeral_up_to};

/// The number with one digit more behind it, where it is at most `most`.
fn with_digit(value: u64, digit: u8, most: u64) -> Option<u64>
    requires { is_ascii_digit digit ≡ true }
    ensures { SomeIff result (value * 10 + digit_value digit ≤ most) (value * 10 + digit_value digit) }
{
    let more = u128::from(value) * 10 + u128::from(digit - b'0');
    if more <= u128::from(most) {
        Some(more as u64)
    } else {
        None
    }
}

/// The number that one or more decimal digits spell, where it is at most `most`.
pub fn read_numeral(text: &[u8], most: u64) -> Option<u64>
    ensures { result ≡ numeral_up_to most text.now }
{
    if text.is_empty() {
        return None;
    }
    let mut value = 0u64;
    for byte in text {
        if !byte.is_ascii_digit() {
            return None;
        }
        value = with_digit(value, *byte, most)?;
    }
    Some(value)
}
