ghost use Rattle.std.specs.Prelude.{◌≡◌, ◌≤◌, List, ℕ, length, take, drop};
ghost use Rattle.httparse.specs.Grammar.{RequestHead, NeverHasRequest};
ghost use Rattle.httparse.specs.Spans.{IsRequestAt, IsRequestWithin};
ghost use Rattle.dw_http.specs.Heads.{Stands, NoneStands, max_head};
ghost use Rattle.dw_http.specs.Found.{IfHead, OnNoHead, OnNever};

use httparse::spans::{HeaderSpan, RequestSpans, parse_request};
use httparse::{Error, Status};

/// The most bytes of a head.
pub(crate) const MAX_HEAD: usize = 16_384;

/// The most header lines of a head.
pub(crate) const MAX_FIELDS: usize = 64;

/// What stands at the front of some bytes.
#[derive(Clone, Copy, Debug)]
pub(crate) enum Found {
    Head(RequestSpans),
    NotYet,
    TooMany,
    Never,
}

/// The head at the front of the first bytes after the last message.
pub(crate) fn find_head(buf: &[u8], headers: &mut [HeaderSpan]) -> Found
    requires room { length headers.old ≡ 64 }
    requires size { length buf.now ≤ 16384 }
    ensures head { IfHead result (λ r. (h : RequestHead) × Stands buf.now h (drop r.len buf.now) × IsRequestAt buf.now headers.new r h) }
    ensures within { IfHead result (IsRequestWithin buf.now headers.new) }
    ensures none { OnNoHead result (NoneStands buf.now) }
    ensures never { OnNever result (NeverHasRequest buf.now) }
{
    match parse_request(buf, headers) {
        Ok(Status::Complete(head)) => Found::Head(head),
        Ok(Status::Partial) => Found::NotYet,
        Err(Error::TooManyHeaders) => Found::TooMany,
        Err(_) => Found::Never,
    }
}

/// The first bytes, as many as there are up to a number.
fn first(bytes: &[u8], most: usize) -> &[u8]
    ensures front { result.now ≡ take most bytes.now }
    ensures few { length result.now ≤ most }
{
    if bytes.len() > most {
        &bytes[..most]
    } else {
        bytes
    }
}

/// The bytes among which a head has to stand.
pub(crate) fn front_of(bytes: &[u8]) -> &[u8]
    ensures front { result.now ≡ take max_head bytes.now }
    ensures few { length result.now ≤ 16384 }
{
    first(bytes, MAX_HEAD)
}
