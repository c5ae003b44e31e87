ghost use Rattle.std.specs.Prelude.{◌≡◌, ◌≤◌, ◌+◌, ◌⊎◌, List, ℕ, length, map, drop, codes, All, IfOk, OnErr};
ghost use Rattle.httparse.specs.Spans.{header_bytes, IsHeaderWithin};
ghost use Rattle.dw_http.specs.Messages.{Ask, Takes, closes, asker_in, csv_in};
ghost use Rattle.dw_http.specs.Fields.{values_named, has_close};
ghost use Rattle.std.specs.List.{list_any};
ghost use Rattle.dw_http.specs.Asks.{asker_of};
ghost use Rattle.dw_http.specs.Looks.{HasHead};

use crate::OutOfMemory;
use crate::fields::{says_close, says_csv, values};
use crate::head::{Found, MAX_FIELDS, find_head, front_of};
use crate::service::{Caller, HttpAsk, Service};
use dw_key::Bytes;
use httparse::spans::{EMPTY_HEADER_SPAN, HeaderSpan};
use std::alloc::Global;

/// A response, and whether the connection ends after it.
#[derive(Drop)]
pub(crate) struct Answered {
    pub(crate) response: Bytes,
    pub(crate) close: bool,
}

/// Who asks, by the values of `x-caller`.
fn caller<'b>(
    alloc: Global,
    buf: &'b [u8],
    headers: &[HeaderSpan],
) -> Result<Caller<'b>, OutOfMemory>
    requires { All (IsHeaderWithin (length buf.now)) headers.now }
    ensures { IfOk result (λ c. asker_of c ≡ asker_in (values_named (codes "x-caller") (map (header_bytes buf.now) headers.now))) }
{
    let values = values(alloc, buf, headers, "x-caller")?;
    Ok(match values.as_slice() {
        [] => Caller::None,
        [value] => Caller::One(value),
        _ => Caller::Many,
    })
}

/// Whether the first content type is that of CSV.
fn csv(alloc: Global, buf: &[u8], headers: &[HeaderSpan]) -> Result<bool, OutOfMemory>
    requires { All (IsHeaderWithin (length buf.now)) headers.now }
    ensures { IfOk result (λ b. b ≡ csv_in (values_named (codes "content-type") (map (header_bytes buf.now) headers.now))) }
{
    let values = values(alloc, buf, headers, "content-type")?;
    Ok(match values.as_slice() {
        [] => false,
        [value, ..] => says_csv(value),
    })
}

/// Whether the connection ends after the reply.
fn close(alloc: Global, buf: &[u8], headers: &[HeaderSpan], minor: u8) -> Result<bool, OutOfMemory>
    requires { All (IsHeaderWithin (length buf.now)) headers.now }
    ensures { IfOk result (λ b. b ≡ closes minor (map (header_bytes buf.now) headers.now)) }
{
    if minor == 0 {
        return Ok(true);
    }
    let values = values(alloc, buf, headers, "connection")?;
    Ok(any_close(values.as_slice()))
}

fn any_close(values: &[&[u8]]) -> bool
    ensures { result ≡ list_any has_close (map (λ v. v.now) values.now) }
{
    for value in values {
        if says_close(value) {
            return true;
        }
    }
    false
}

/// Lets the service answer the message at the front, whose head has so many bytes and its body as well.
pub(crate) fn answer<H: Service>(
    alloc: Global,
    bytes: &[u8],
    head: usize,
    body: usize,
    service: &mut H,
) -> Result<Answered, OutOfMemory>
    requires head { HasHead bytes.now head body }
    requires whole { head + body ≤ length bytes.now }
    ensures ok { IfOk result (λ a. (ask : Ask) × Takes bytes.now ask (drop (head + body) bytes.now)
        × H.answers service.old ask a.response service.new × (a.close ≡ ask.close)) }
    ensures err { OnErr result ((service.new ≡ service.old) ⊎ ((ask : Ask) × Takes bytes.now ask (drop (head + body) bytes.now)
        × (H.stays service.old service.new ⊎ ((text : List ℕ) × H.answers service.old ask text service.new)))) }
{
    let front = front_of(bytes);
    let mut headers = [EMPTY_HEADER_SPAN; MAX_FIELDS];
    let Found::Head(spans) = find_head(front, &mut headers) else {
        unreachable!()
    };
    let fields = &headers[..spans.headers];
    let close = close(alloc, front, fields, spans.version)?;
    let ask = HttpAsk {
        method: spans.method.of(front),
        target: spans.path.of(front),
        caller: caller(alloc, front, fields)?,
        csv: csv(alloc, front, fields)?,
        body: &bytes[head..head + body],
        close,
    };
    let response = service.reply(ask)?;
    Ok(Answered { response, close })
}
