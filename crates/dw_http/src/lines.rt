ghost use Rattle.std.specs.Prelude.{◌≡◌, ◌+◌, length, Some, None, option_map};
ghost use Rattle.std.specs.Option.{option_copied};
ghost use Rattle.dw_http.specs.Lines.{after_line, after_lines, skip_empty, begins_no_empty, is_large};

use crate::head::{MAX_FIELDS, MAX_HEAD};

/// What follows the first line, where it is whole.
fn next_line(bytes: &[u8]) -> Option<&[u8]>
    ensures { option_map (λ r. r.now) result ≡ after_line bytes.now }
{
    for (i, byte) in bytes.iter().enumerate() {
        if *byte == b'\n' {
            return Some(&bytes[i + 1..]);
        }
    }
    None
}

/// What follows the first so many lines, where they are whole.
fn past_lines(count: usize, bytes: &[u8]) -> Option<&[u8]>
    ensures { option_map (λ r. r.now) result ≡ after_lines count bytes.now }
{
    let mut rest = bytes;
    for _line in 0..count {
        rest = next_line(rest)?;
    }
    Some(rest)
}

/// The bytes after the empty lines at the front.
fn past_empty(bytes: &[u8]) -> &[u8]
    ensures { result.now ≡ skip_empty bytes.now }
{
    let mut rest = bytes;
    loop {
        match rest {
            [b'\n', more @ ..] => rest = more,
            [b'\r', b'\n', more @ ..] => rest = more,
            _ => return rest,
        }
    }
}

/// Whether there are bytes, and they begin no empty line.
fn begins_line(bytes: &[u8]) -> bool
    ensures { result ≡ begins_no_empty bytes.now }
{
    match bytes {
        [] => false,
        [b'\n', ..] => false,
        [b'\r'] => false,
        [b'\r', b'\n', ..] => false,
        _ => true,
    }
}

/// Whether there are more bytes than a head may have, or more header lines.
pub(crate) fn too_large(bytes: &[u8]) -> bool
    ensures { result ≡ is_large bytes.now }
{
    if bytes.len() > MAX_HEAD {
        return true;
    }
    match past_lines(MAX_FIELDS + 1, past_empty(bytes)) {
        Some(rest) => begins_line(rest),
        None => false,
    }
}
