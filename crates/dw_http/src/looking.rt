ghost use Rattle.std.specs.Prelude.{◌≡◌, ◌≤◌, length, map, All, IfOk};
ghost use Rattle.httparse.specs.Spans.{header_bytes, IsHeaderWithin};
ghost use Rattle.dw_http.specs.Lengths.{size_in};
ghost use Rattle.dw_http.specs.Looks.{LooksAt};

use crate::OutOfMemory;
use crate::fields::values;
use crate::head::{Found, MAX_FIELDS, find_head, front_of};
use crate::lengths::size;
use crate::why::HttpWhy;
use httparse::spans::{EMPTY_HEADER_SPAN, HeaderSpan};
use std::alloc::Global;

/// What stands at the front of the bytes after the last message.
#[derive(Clone, Copy, Debug)]
pub(crate) enum Look {
    /// A head of so many bytes, and a body of so many is to follow it.
    Whole { head: usize, body: usize },
    /// A head whose body is refused.
    Refused(HttpWhy),
    /// No head.
    NotYet,
    /// No head, whatever follows.
    Never,
}

/// The length of the body, or why it is refused.
fn body_size(
    alloc: Global,
    buf: &[u8],
    headers: &[HeaderSpan],
) -> Result<Result<usize, HttpWhy>, OutOfMemory>
    requires { All (IsHeaderWithin (length buf.now)) headers.now }
    ensures { IfOk result (λ size. size ≡ size_in (map (header_bytes buf.now) headers.now)) }
{
    let codings = values(alloc, buf, headers, "transfer-encoding")?;
    let lengths = values(alloc, buf, headers, "content-length")?;
    Ok(size(codings.as_slice(), lengths.as_slice()))
}

/// Looks for a head at the front.
pub(crate) fn look_at(alloc: Global, bytes: &[u8]) -> Result<Look, OutOfMemory>
    ensures { IfOk result (LooksAt bytes.now) }
{
    if bytes.is_empty() {
        return Ok(Look::NotYet);
    }
    let front = front_of(bytes);
    let mut headers = [EMPTY_HEADER_SPAN; MAX_FIELDS];
    match find_head(front, &mut headers) {
        Found::Head(spans) => match body_size(alloc, front, &headers[..spans.headers])? {
            Ok(body) => Ok(Look::Whole {
                head: spans.len,
                body,
            }),
            Err(why) => Ok(Look::Refused(why)),
        },
        Found::NotYet => Ok(Look::NotYet),
        Found::TooMany => Ok(Look::NotYet),
        Found::Never => Ok(Look::Never),
    }
}
