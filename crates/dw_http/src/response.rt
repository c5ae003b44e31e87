ghost use Rattle.std.specs.Prelude.{◌≡◌, IfOk, option_map, string_bytes};
ghost use Rattle.dw_http.specs.Texts.{response_head, response_text, allow_line, close_line, last_reply, why_text};

use crate::OutOfMemory;
use crate::why::HttpWhy;
use dw_key::Bytes;
use http::StatusCode;
use std::alloc::Global;

/// A response with a text, which may name the one method that is allowed and say that the connection
/// ends after it.
pub fn write_response(
    alloc: Global,
    status: StatusCode,
    allow: Option<&str>,
    close: bool,
    text: &[u8],
) -> Result<Bytes, OutOfMemory>
    ensures { IfOk result (λ bytes. bytes ≡ response_text status (option_map (λ m. m.now) allow.entry) close text.now) }
{
    let head = write_head(alloc, status, allow, close, text.len())?;
    let mut bytes = Vec::new(alloc);
    bytes.extend_from_slice(head.as_bytes())?;
    bytes.extend_from_slice(text)?;
    Ok(Bytes::from_vec(bytes))
}

/// A response to its empty line, for a text of so many bytes.
fn write_head(
    alloc: Global,
    status: StatusCode,
    allow: Option<&str>,
    close: bool,
    count: usize,
) -> Result<String, OutOfMemory>
    ensures { IfOk result (λ head. string_bytes head ≡ response_head status (option_map (λ m. m.now) allow.entry) close count) }
{
    let allow = allowing(alloc, allow)?;
    let count = format!(in alloc; "{count}")?;
    let mut head = format!(in alloc; "HTTP/1.1 {status}\r\n")?;
    head.push_str(allow.as_str())?;
    head.push_str(closing(close))?;
    head.push_str("content-length: ")?;
    head.push_str(count.as_str())?;
    head.push_str("\r\ncontent-type: application/json\r\n\r\n")?;
    Ok(head)
}

fn allowing(alloc: Global, allow: Option<&str>) -> Result<String, OutOfMemory>
    ensures { IfOk result (λ line. string_bytes line ≡ allow_line (option_map (λ m. m.now) allow.entry)) }
{
    match allow {
        None => Ok(String::new(alloc)),
        Some(method) => format!(in alloc; "allow: {method}\r\n"),
    }
}

fn closing(close: bool) -> &'static str
    ensures { result.now ≡ close_line close }
{
    if close { "connection: close\r\n" } else { "" }
}

fn write_why(alloc: Global, why: HttpWhy) -> Result<String, OutOfMemory>
    ensures { IfOk result (λ text. string_bytes text ≡ why_text why) }
{
    let word = why.word();
    format!(in alloc; "{{\"error\":\"badHttp\",\"why\":\"{word}\"}}\n")
}

/// The last reply to bytes that are no message.
pub(crate) fn write_last(alloc: Global, why: HttpWhy) -> Result<Bytes, OutOfMemory>
    ensures { IfOk result (λ bytes. bytes ≡ last_reply why) }
{
    let text = write_why(alloc, why)?;
    write_response(alloc, why.status(), None, true, text.as_bytes())
}
