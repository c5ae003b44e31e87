ghost use Rattle.std.specs.Prelude.{◌≡◌};
ghost use Rattle.std.specs.List.{list_all, list_any};
ghost use Rattle.std.specs.Char.{is_ascii_lowercase};
ghost use Rattle.dw_base.specs.FieldNames.{is_word_byte as is_word, begins_with_digit as has_digit_first, is_field_name as names_field, is_folded_name as names_folded};

use crate::limits::MAX_NAME;

fn is_word_byte(byte: u8) -> bool
    ensures { result ≡ is_word byte }
{
    byte.is_ascii_lowercase() || byte.is_ascii_uppercase() || byte.is_ascii_digit() || byte == b'_'
}

fn are_word_bytes(bytes: &[u8]) -> bool
    ensures { result ≡ list_all is_word bytes.now }
{
    bytes.iter().all(|byte| is_word_byte(*byte))
}

fn begins_with_digit(bytes: &[u8]) -> bool
    ensures { result ≡ has_digit_first bytes.now }
{
    match bytes {
        [first, ..] => first.is_ascii_digit(),
        [] => false,
    }
}

/// Whether a text is the name of a field, as it may be written: 1 to 64 ASCII letters, digits and `_`, the
/// first no digit. Names are kept with their letters in upper case.
pub fn is_field_name(text: &str) -> bool
    ensures { result ≡ names_field text.now }
{
    let bytes = text.as_bytes();
    !bytes.is_empty()
        && bytes.len() <= MAX_NAME
        && !begins_with_digit(bytes)
        && are_word_bytes(bytes)
}

fn has_lower_case(bytes: &[u8]) -> bool
    ensures { result ≡ list_any is_ascii_lowercase bytes.now }
{
    bytes.iter().any(|byte| byte.is_ascii_lowercase())
}

/// Whether a text is the name of a field as it is kept, with its letters in upper case.
pub fn is_folded_name(text: &str) -> bool
    ensures { result ≡ names_folded text.now }
{
    is_field_name(text) && !has_lower_case(text.as_bytes())
}
