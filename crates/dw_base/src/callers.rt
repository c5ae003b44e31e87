ghost use Rattle.std.specs.Prelude.{◌≡◌, ◌==◌, not};
ghost use Rattle.std.specs.List.{list_all};
ghost use Rattle.dw_base.specs.Callers.{is_visible as may_name_caller, is_caller as names_caller, is_auth as names_auth};

use crate::limits::{MAX_CALLER, MAX_VISIBILITY};

fn is_visible(byte: u8) -> bool
    ensures { result ≡ may_name_caller byte }
{
    33 <= byte && byte <= 126
}

fn are_visible(bytes: &[u8]) -> bool
    ensures { result ≡ list_all may_name_caller bytes.now }
{
    bytes.iter().all(|byte| is_visible(*byte))
}

fn lack_zero(bytes: &[u8]) -> bool
    ensures { result ≡ list_all (λ b. not (b == 0)) bytes.now }
{
    bytes.iter().all(|byte| *byte != 0)
}

/// Whether a text names a caller: 1 to 128 visible ASCII characters.
pub fn is_caller(text: &str) -> bool
    ensures { result ≡ names_caller text.now }
{
    let bytes = text.as_bytes();
    !bytes.is_empty() && bytes.len() <= MAX_CALLER && are_visible(bytes)
}

/// Whether a text names an authorisation: 1 to 512 bytes, none of them 0.
pub fn is_auth(text: &str) -> bool
    ensures { result ≡ names_auth text.now }
{
    let bytes = text.as_bytes();
    !bytes.is_empty() && bytes.len() <= MAX_VISIBILITY && lack_zero(bytes)
}
