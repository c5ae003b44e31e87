ghost use Rattle.std.specs.Prelude.{◌≡◌, false, IfOk, IfSome};

use crate::{
    Door, Failed, Link, MemDoor, MemLink, MemSink, MemSource, Sink, Source, StdInput, StdOutput,
    TcpDoor,
};
use dw_key::Bytes;
use std::alloc::{AllocError, Global};
use std::io;
use std::io::{Cursor, Error, ErrorKind, Read, Write};
use std::net::{Ipv4Addr, SocketAddr, SocketAddrV4, TcpStream};
use std::test::Fail;

mod keepers;

#[test]
fn a_source_gives_pieces_and_fails_at_the_named_call(rt: HostRuntime) -> Result<(), Fail> {
    let alloc = rt.alloc();
    let bytes = Bytes::of(alloc, b"abcdefg")?;
    let mut source = MemSource::new(bytes, 3, vec![in alloc; 2u64]?);
    let calls = [
        (Ok(3), b"abc\0"),
        (Err(Failed), b"\0\0\0\0"),
        (Ok(3), b"def\0"),
        (Ok(1), b"g\0\0\0"),
        (Ok(0), b"\0\0\0\0"),
    ];
    for (answer, given) in calls {
        let mut buf = [0u8; 4];
        assert_eq!(rt; source.take(&mut buf), answer);
        assert_eq!(rt; buf, *given);
    }
    Ok(())
}

#[test]
fn a_sink_takes_what_fits_and_fails_once_full(rt: HostRuntime) -> Result<(), Fail> {
    let alloc = rt.alloc();
    let mut sink = MemSink::new(alloc, 5, vec![in alloc; 2u64]?)?;
    let calls = [
        (b"abc", Ok(3)),
        (b"xyz", Err(Failed)),
        (b"def", Ok(2)),
        (b"ghi", Err(Failed)),
    ];
    for (piece, answer) in calls {
        assert_eq!(rt; sink.put(piece), answer);
    }
    assert_eq!(rt; sink.put(b""), Ok(0));
    assert_eq!(rt; sink.bytes(), b"abcde".as_slice());
    Ok(())
}

/// Interrupted at the first call, one byte at the second, and broken from then on.
#[derive(Drop)]
struct Broken {
    calls: u8,
}

impl Broken {
    fn count(&mut self) -> io::Result<usize>
        ensures { IfOk result (λ n. n ≡ 1) }
    {
        self.calls = self.calls.saturating_add(1);
        match self.calls {
            1 => Err(Error::from(ErrorKind::Interrupted)),
            2 => Ok(1),
            _ => Err(Error::from(ErrorKind::BrokenPipe)),
        }
    }
}

impl Read for Broken {
    fn read(&mut self, buf: &mut [u8]) -> io::Result<usize> {
        if buf.is_empty() {
            return Ok(0);
        }
        let count = self.count()?;
        buf[0] = b'x';
        Ok(count)
    }
}

impl Write for Broken {
    fn write(&mut self, buf: &[u8]) -> io::Result<usize> {
        if buf.is_empty() {
            return Ok(0);
        }
        self.count()
    }

    fn flush(&mut self) -> io::Result<()> {
        Ok(())
    }
}

#[test]
fn a_reader_is_a_source(rt: HostRuntime) {
    let mut input = StdInput::new(Cursor::new(b"abc".as_slice()));
    let mut buf = [0u8; 2];
    assert_eq!(rt; input.take(&mut buf), Ok(2));
    assert_eq!(rt; buf, *b"ab");
    assert_eq!(rt; input.take(&mut buf), Ok(1));
    assert_eq!(rt; buf, *b"cb");
    assert_eq!(rt; input.take(&mut buf), Ok(0));
    let mut broken = StdInput::new(Broken { calls: 0 });
    assert_eq!(rt; broken.take(&mut buf), Ok(1));
    assert_eq!(rt; buf, *b"xb");
    assert_eq!(rt; broken.take(&mut buf), Err(Failed));
}

#[test]
fn a_writer_is_a_sink(rt: HostRuntime) {
    let mut output = StdOutput::new(rt.stdout());
    assert_eq!(rt; output.put(b"taken\n"), Ok(6));
    assert_eq!(rt; output.put(b""), Ok(0));
    let mut broken = StdOutput::new(Broken { calls: 0 });
    assert_eq!(rt; broken.put(b"ab"), Ok(1));
    assert_eq!(rt; broken.put(b"ab"), Err(Failed));
    let mut full = StdOutput::new(Cursor::new([0u8; 0]));
    assert_eq!(rt; full.put(b"ab"), Err(Failed));
}

fn link_of(alloc: Global, text: &[u8], fail_calls: Vec<u64>) -> Result<MemLink, AllocError> {
    let source = MemSource::new(Bytes::of(alloc, text)?, 3, fail_calls);
    let sink = MemSink::new(alloc, 16, Vec::new(alloc))?;
    Ok(MemLink::new(source, sink))
}

#[test]
fn a_door_gives_its_links_in_order_and_keeps_those_handed_back(
    rt: HostRuntime,
) -> Result<(), Fail> {
    let alloc = rt.alloc();
    let mut links = Vec::new(alloc);
    links.push(link_of(alloc, b"ab", Vec::new(alloc))?)?;
    links.push(link_of(alloc, b"cd", vec![in alloc; 1u64]?)?)?;
    let mut door = MemDoor::new(alloc, links, vec![in alloc; 2u64]?)?;
    let Ok(Some(mut first)) = door.admit() else {
        panic!(rt; "no link")
    };
    let mut buf = [0u8; 4];
    assert_eq!(rt; first.receive(&mut buf), Ok(2));
    assert_eq!(rt; first.send(&buf[..2]), Ok(()));
    door.dismiss(first);
    assert!(rt; matches!(door.admit(), Err(Failed)));
    let Ok(Some(mut second)) = door.admit() else {
        panic!(rt; "no link")
    };
    assert_eq!(rt; second.receive(&mut buf), Err(Failed));
    assert_eq!(rt; second.receive(&mut buf), Ok(2));
    door.dismiss(second);
    assert!(rt; matches!(door.admit(), Ok(None)));
    let past = door.past();
    assert_eq!(rt; past.len(), 2);
    assert_eq!(rt; past[0].sink().bytes(), b"ab".as_slice());
    assert_eq!(rt; past[1].sink().bytes(), b"".as_slice());
    Ok(())
}

/// A door at a port that is free, and the port.
fn open_door(rt: &HostRuntime) -> Option<(TcpDoor<HostRuntime>, u16)>
    ensures { IfSome result (λ opened. opened.0.out ≡ false) }
{
    for port in 28_100..28_200 {
        if let Ok(door) = TcpDoor::bind(rt, port) {
            return Some((door, port));
        }
    }
    None
}

// The peer connects and writes before the door admits it, so that no thread is wanted.
#[test]
fn a_connection_is_a_link(rt: HostRuntime) -> Result<(), Fail> {
    let (mut door, port) = open_door(&rt).ok_or("no port is free")?;
    let address = SocketAddr::V4(SocketAddrV4::new(Ipv4Addr::LOCALHOST, port));
    let mut peer = TcpStream::connect(&rt, address)?;
    peer.write_all(b"ask")?;
    let Ok(Some(mut link)) = door.admit() else {
        panic!(rt; "no link")
    };
    let mut buf = [0u8; 8];
    assert_eq!(rt; link.receive(&mut buf), Ok(3));
    assert_eq!(rt; &buf[..3], b"ask".as_slice());
    assert_eq!(rt; link.send(b"reply"), Ok(()));
    let mut got = [0u8; 5];
    peer.read_exact(&mut got)?;
    assert_eq!(rt; got, *b"reply");
    door.dismiss(link);
    assert_eq!(rt; peer.read(&mut got)?, 0);
    Ok(())
}

// The bytes that nobody took would else reset the connection, and the reply would be lost.
#[test]
fn a_peer_that_still_writes_gets_the_reply(rt: HostRuntime) -> Result<(), Fail> {
    let (mut door, port) = open_door(&rt).ok_or("no port is free")?;
    let address = SocketAddr::V4(SocketAddrV4::new(Ipv4Addr::LOCALHOST, port));
    let mut peer = TcpStream::connect(&rt, address)?;
    peer.write_all(&[b'x'; 10_000])?;
    let Ok(Some(mut link)) = door.admit() else {
        panic!(rt; "no link")
    };
    assert_eq!(rt; link.send(b"reply"), Ok(()));
    door.dismiss(link);
    let mut got = [0u8; 6];
    assert_eq!(rt; peer.read(&mut got)?, 5);
    assert_eq!(rt; &got[..5], b"reply".as_slice());
    assert_eq!(rt; peer.read(&mut got)?, 0);
    Ok(())
}
