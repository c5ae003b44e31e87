ghost use Rattle.std.specs.Prelude.{◌≡◌, ◌≤◌, map, length, IfOk, All};
ghost use Rattle.httparse.specs.Spans.{header_bytes, IsHeaderWithin};
ghost use Rattle.dw_http.specs.Fields.{values_named, is_same_text, is_blank, without_blanks, is_at_stop, is_word, has_later_close, has_close, is_csv};

use crate::OutOfMemory;
use httparse::spans::HeaderSpan;
use std::alloc::Global;

/// Whether two texts are the same, case aside.
fn is_same(bytes: &[u8], text: &str) -> bool
    ensures { result ≡ is_same_text text.now bytes.now }
{
    bytes.eq_ignore_ascii_case(text.as_bytes())
}

/// The values of the headers of a name, case aside, in order.
pub(crate) fn values<'b>(
    alloc: Global,
    buf: &'b [u8],
    headers: &[HeaderSpan],
    name: &str,
) -> Result<Vec<&'b [u8]>, OutOfMemory>
    requires { All (IsHeaderWithin (length buf.now)) headers.now }
    ensures { IfOk result (λ v. map (λ x. x.now) v.items ≡ values_named name.now (map (header_bytes buf.now) headers.now)) }
{
    let mut found = Vec::new(alloc);
    for header in headers {
        if is_same(header.name.of(buf), name) {
            found.push(header.value.of(buf))?;
        }
    }
    Ok(found)
}

fn blank(tabs: bool, byte: u8) -> bool
    ensures { result ≡ is_blank tabs byte }
{
    byte == b' ' || (tabs && byte == b'\t')
}

fn skip_blanks(tabs: bool, bytes: &[u8]) -> &[u8]
    ensures { result.now ≡ without_blanks tabs bytes.now }
{
    let mut rest = bytes;
    while let [first, more @ ..] = rest {
        if !blank(tabs, *first) {
            break;
        }
        rest = more;
    }
    rest
}

fn at_stop(stop: u8, bytes: &[u8]) -> bool
    ensures { result ≡ is_at_stop stop bytes.now }
{
    match bytes {
        [] => true,
        [first, ..] => *first == stop,
    }
}

/// Whether the word stands there, case aside, with nothing but blanks before it and after it up to the stop or the end.
fn spells(tabs: bool, word: &str, stop: u8, bytes: &[u8]) -> bool
    ensures { result ≡ is_word tabs word.now stop bytes.now }
{
    let rest = skip_blanks(tabs, bytes);
    if rest.len() < word.len() {
        return false;
    }
    let (front, tail) = rest.split_at(word.len());
    is_same(front, word) && at_stop(stop, skip_blanks(tabs, tail))
}

fn says_close_later(value: &[u8]) -> bool
    ensures { result ≡ has_later_close value.now }
{
    let mut rest = value;
    while let [first, more @ ..] = rest {
        if *first == b',' && spells(true, "close", b',', more) {
            return true;
        }
        rest = more;
    }
    false
}

/// Whether one of the words between commas is `close`.
pub(crate) fn says_close(value: &[u8]) -> bool
    ensures { result ≡ has_close value.now }
{
    spells(true, "close", b',', value) || says_close_later(value)
}

/// Whether a content type is that of CSV, whatever parameters it has.
pub(crate) fn says_csv(value: &[u8]) -> bool
    ensures { result ≡ is_csv value.now }
{
    spells(false, "text/csv", b';', value)
}
