ghost use Rattle.std.specs.Prelude.{◌≤◌};

use crate::{Caller, Ended, HttpAsk, HttpWhy, OutOfMemory, Service, converse, write_response};
use dw_key::Bytes;
use dw_outside::{MemLink, MemSink, MemSource};
use http::StatusCode;
use std::alloc::Global;
use std::process::Abort;
use std::test::Fail;

/// A service that says what it was asked.
#[derive(Drop)]
struct Teller {
    alloc: Global,
}

impl Service for Teller {
    ghost answers = { λ _ _ _ _. Unit {0} };

    ghost stays = { λ _ _. Unit {0} };

    fn reply(&mut self, ask: HttpAsk<'_>) -> Result<Bytes, OutOfMemory> {
        match tell(self.alloc, ask) {
            Ok(bytes) => Ok(bytes),
            Err(error) => Err(error),
        }
    }
}

fn tell(alloc: Global, ask: HttpAsk<'_>) -> Result<Bytes, OutOfMemory> {
    let mut text = Vec::new(alloc);
    text.extend_from_slice(ask.method)?;
    text.extend_from_slice(b" ")?;
    text.extend_from_slice(ask.target)?;
    match ask.caller {
        Caller::None => text.extend_from_slice(b" none")?,
        Caller::One(name) => {
            text.extend_from_slice(b" by ")?;
            text.extend_from_slice(name)?;
        }
        Caller::Many => text.extend_from_slice(b" many")?,
    }
    if ask.csv {
        text.extend_from_slice(b" csv")?;
    }
    text.extend_from_slice(b" <")?;
    text.extend_from_slice(ask.body)?;
    text.extend_from_slice(b">")?;
    write_response(alloc, StatusCode::OK, None, ask.close, text.as_slice())
}

fn talk(alloc: Global, input: &[u8], piece: usize) -> Result<(Ended, MemLink), OutOfMemory>
    requires { 1 ≤ piece }
{
    let source = MemSource::new(Bytes::of(alloc, input)?, piece, Vec::new(alloc));
    let sink = MemSink::new(alloc, 65_536, Vec::new(alloc))?;
    let mut link = MemLink::new(source, sink);
    let mut service = Teller { alloc };
    let ended = converse(alloc, &mut link, &mut service);
    Ok((ended, link))
}

/// The responses of the table, one after the other: a text, and whether the connection ends after it.
fn responses(alloc: Global, texts: &[(&str, bool)]) -> Result<Vec<u8>, OutOfMemory> {
    let mut bytes = Vec::new(alloc);
    for (text, close) in texts {
        let closing = if *close { "connection: close\r\n" } else { "" };
        let length = text.len();
        let head = format!(in alloc;
            "HTTP/1.1 200 OK\r\n{closing}content-length: {length}\r\ncontent-type: application/json\r\n\r\n"
        )?;
        bytes.extend_from_slice(head.as_bytes())?;
        bytes.extend_from_slice(text.as_bytes())?;
    }
    Ok(bytes)
}

/// The last reply, written out.
fn last_reply(why: HttpWhy) -> &'static str {
    match why {
        HttpWhy::Head => {
            "HTTP/1.1 400 Bad Request\r\nconnection: close\r\ncontent-length: 33\r\ncontent-type: application/json\r\n\r\n{\"error\":\"badHttp\",\"why\":\"head\"}\n"
        }
        HttpWhy::Large => {
            "HTTP/1.1 431 Request Header Fields Too Large\r\nconnection: close\r\ncontent-length: 34\r\ncontent-type: application/json\r\n\r\n{\"error\":\"badHttp\",\"why\":\"large\"}\n"
        }
        HttpWhy::Transfer => {
            "HTTP/1.1 501 Not Implemented\r\nconnection: close\r\ncontent-length: 37\r\ncontent-type: application/json\r\n\r\n{\"error\":\"badHttp\",\"why\":\"transfer\"}\n"
        }
        HttpWhy::Length => {
            "HTTP/1.1 400 Bad Request\r\nconnection: close\r\ncontent-length: 35\r\ncontent-type: application/json\r\n\r\n{\"error\":\"badHttp\",\"why\":\"length\"}\n"
        }
        HttpWhy::Body => {
            "HTTP/1.1 413 Payload Too Large\r\nconnection: close\r\ncontent-length: 33\r\ncontent-type: application/json\r\n\r\n{\"error\":\"badHttp\",\"why\":\"body\"}\n"
        }
        HttpWhy::Cut => {
            "HTTP/1.1 400 Bad Request\r\nconnection: close\r\ncontent-length: 32\r\ncontent-type: application/json\r\n\r\n{\"error\":\"badHttp\",\"why\":\"cut\"}\n"
        }
    }
}

/// The input gives these responses and this end, whole, in pieces of 7 bytes and byte by byte.
fn check(
    rt: &impl Abort,
    alloc: Global,
    input: &[u8],
    texts: &[(&str, bool)],
    ended: Ended,
) -> Result<(), OutOfMemory> {
    let mut wanted = responses(alloc, texts)?;
    if let Ended::BadHttp(why) = ended {
        wanted.extend_from_slice(last_reply(why).as_bytes())?;
    }
    for piece in [1usize, 7, 1_000_000] {
        let (how, link) = talk(alloc, input, piece.max(1))?;
        assert_eq!(rt; how, ended);
        assert_eq!(rt; link.sink().bytes(), wanted.as_slice());
    }
    Ok(())
}

#[test]
fn messages_are_answered_in_turn(rt: HostRuntime) -> Result<(), Fail> {
    let alloc = rt.alloc();
    let post =
        b"POST /query HTTP/1.1\r\nhost: x\r\nx-caller: ann\r\ncontent-length: 5\r\n\r\nhello";
    check(&rt, alloc, b"", &[], Ended::Done)?;
    check(
        &rt,
        alloc,
        post,
        &[("POST /query by ann <hello>", false)],
        Ended::Done,
    )?;
    let both =
        b"\r\n\nGET /a HTTP/1.1\r\nX-CALLER:\t bob \r\nx-caller: c\r\n\r\nPOST /b HTTP/1.1\nContent-Length: 3\nContent-Length: 03\ncontent-type:  Text/CSV ; q\n\nx,yDELETE /c HTTP/1.1\r\nconnection: keep-alive,\t CLOSE \r\n\r\nGET /lost HTTP/1.1\r\n\r\n";
    let texts = [
        ("GET /a many <>", false),
        ("POST /b none csv <x,y>", false),
        ("DELETE /c none <>", true),
    ];
    check(&rt, alloc, both, &texts, Ended::Done)?;
    let old = b"GET / HTTP/1.0\r\n\r\nGET / HTTP/1.1\r\n\r\n";
    check(&rt, alloc, old, &[("GET / none <>", true)], Ended::Done)?;
    let open = b"GET / HTTP/1.1\r\nconnection: closed, open close\r\n\r\n";
    check(&rt, alloc, open, &[("GET / none <>", false)], Ended::Done)?;
    Ok(())
}

#[test]
fn bytes_that_are_no_message_have_one_last_reply(rt: HostRuntime) -> Result<(), Fail> {
    let alloc = rt.alloc();
    let cases: [(&[u8], HttpWhy); 10] = [
        (
            b"POST / HTTP/1.1\r\ntransfer-encoding: chunked\r\ncontent-length: x\r\n\r\n",
            HttpWhy::Transfer,
        ),
        (
            b"POST / HTTP/1.1\r\ncontent-length: 2\r\n\r\nx",
            HttpWhy::Cut,
        ),
        (
            b"POST / HTTP/1.1\r\ncontent-length: 4194305\r\n\r\n",
            HttpWhy::Body,
        ),
        (
            b"POST / HTTP/1.1\r\ncontent-length: 9999999999999999999\r\n\r\n",
            HttpWhy::Body,
        ),
        (
            b"POST / HTTP/1.1\r\ncontent-length: 00000000000000000001\r\n\r\nx",
            HttpWhy::Length,
        ),
        (
            b"POST / HTTP/1.1\r\ncontent-length: 1\r\ncontent-length: 2\r\n\r\nxy",
            HttpWhy::Length,
        ),
        (
            b"POST / HTTP/1.1\r\ncontent-length: +1\r\n\r\nx",
            HttpWhy::Length,
        ),
        (b"G(T / HTTP/1.1\r\n\r\n", HttpWhy::Head),
        (b"\r\n\n", HttpWhy::Cut),
        (b"GET / HTTP/1.1\r\n", HttpWhy::Cut),
    ];
    for (input, why) in &cases {
        check(&rt, alloc, input, &[], Ended::BadHttp(*why))?;
    }
    Ok(())
}

#[test]
fn a_message_cut_anywhere_is_cut(rt: HostRuntime) -> Result<(), Fail> {
    let alloc = rt.alloc();
    let post =
        b"POST /query HTTP/1.1\r\nx-caller: ann\r\ncontent-length: 5\r\n\r\nhello".as_slice();
    for end in 1..post.len() {
        check(&rt, alloc, &post[..end], &[], Ended::BadHttp(HttpWhy::Cut))?;
    }
    Ok(())
}

/// A head with so many header lines, and then so many bytes in the last value.
fn long_head(alloc: Global, lines: usize, fill: usize) -> Result<Vec<u8>, OutOfMemory> {
    let mut head = Vec::new(alloc);
    head.extend_from_slice(b"GET / HTTP/1.1\r\n")?;
    for _line in 0..lines {
        head.extend_from_slice(b"a: b\r\n")?;
    }
    if fill > 0 {
        head.extend_from_slice(b"x:")?;
        for _byte in 0..fill {
            head.push(b'y')?;
        }
        head.extend_from_slice(b"\r\n")?;
    }
    head.extend_from_slice(b"\r\n")?;
    Ok(head)
}

#[test]
fn a_head_has_its_limits(rt: HostRuntime) -> Result<(), Fail> {
    let alloc = rt.alloc();
    let texts = [("GET / none <>", false)];
    let most_lines = long_head(alloc, 64, 0)?;
    check(&rt, alloc, most_lines.as_slice(), &texts, Ended::Done)?;
    let more_lines = long_head(alloc, 65, 0)?;
    check(
        &rt,
        alloc,
        more_lines.as_slice(),
        &[],
        Ended::BadHttp(HttpWhy::Large),
    )?;
    let most_bytes = long_head(alloc, 0, 16_362)?;
    assert_eq!(rt; most_bytes.len(), 16_384);
    check(&rt, alloc, most_bytes.as_slice(), &texts, Ended::Done)?;
    let more_bytes = long_head(alloc, 0, 16_363)?;
    check(
        &rt,
        alloc,
        more_bytes.as_slice(),
        &[],
        Ended::BadHttp(HttpWhy::Large),
    )?;
    Ok(())
}

// The second read would fail.
#[test]
fn a_head_of_too_many_lines_is_answered_before_it_ends(rt: HostRuntime) -> Result<(), Fail> {
    let alloc = rt.alloc();
    let cases: [(&[u8], Ended); 3] = [
        (b"", Ended::ReadFault),
        (b"\r", Ended::ReadFault),
        (b"a", Ended::BadHttp(HttpWhy::Large)),
    ];
    for (more, ended) in cases {
        let mut head = long_head(alloc, 64, 0)?;
        head.truncate(head.len().saturating_sub(2));
        head.extend_from_slice(more)?;
        let source = MemSource::new(Bytes::from_vec(head), 1_000, vec![in alloc; 2u64]?);
        let sink = MemSink::new(alloc, 4096, Vec::new(alloc))?;
        let mut link = MemLink::new(source, sink);
        let mut service = Teller { alloc };
        assert_eq!(rt; converse(alloc, &mut link, &mut service), ended);
    }
    Ok(())
}

#[test]
fn faults_of_either_side_are_told_apart(rt: HostRuntime) -> Result<(), Fail> {
    let alloc = rt.alloc();
    let input = b"GET /a HTTP/1.1\r\n\r\nGET /b HTTP/1.1\r\n\r\n";
    let source = MemSource::new(Bytes::of(alloc, input)?, 19, vec![in alloc; 2u64]?);
    let sink = MemSink::new(alloc, 4096, Vec::new(alloc))?;
    let mut link = MemLink::new(source, sink);
    let mut service = Teller { alloc };
    assert_eq!(rt; converse(alloc, &mut link, &mut service), Ended::ReadFault);
    let wanted = responses(alloc, &[("GET /a none <>", false)])?;
    assert_eq!(rt; link.sink().bytes(), wanted.as_slice());
    let source = MemSource::new(Bytes::of(alloc, input)?, 100, Vec::new(alloc));
    let sink = MemSink::new(alloc, 4096, vec![in alloc; 2u64]?)?;
    let mut link = MemLink::new(source, sink);
    assert_eq!(rt; converse(alloc, &mut link, &mut service), Ended::WriteFault);
    assert_eq!(rt; link.sink().bytes(), wanted.as_slice());
    Ok(())
}
