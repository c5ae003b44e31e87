ghost use Rattle.std.specs.Prelude.{◌≡◌, ◌<◌, ◌≤◌, None, length, take, refl, IfOk, OnErr};
ghost use Rattle.std.specs.Io.{ReadsAtMost, WritesAtMost};
ghost use Rattle.std.specs.Io.KnownBytes.{append_known, prepend_known, Appends, IsAtEnd, ReadConsumes};
ghost use Rattle.dw_outside.specs.Faults.{Rose};
ghost use Rattle.dw_outside.specs.Moved.{done_bytes};
ghost use Rattle.dw_outside.specs.Streams.{stream_meaning};

use crate::again::{read_again, write_again};
use crate::link::Link;
use crate::traits::{Failed, Sink, Source};
use std::io::{Read, Write};
use std::marker::Model;
use std::net::{OpenStream, Shutdown, TcpStream};
use std::time::Duration;

/// How many pieces are taken at most of what still comes where a connection ends.
const LAST_PIECES: u32 = 64;

/// How many bytes a piece has at most.
const LAST_PIECE: usize = 65_536;

/// How many milliseconds each piece is waited for.
const LAST_WAIT: u64 = 100;

/// A connection, or another stream that is read and written, as a link that tells nothing of its bytes.
#[derive(Drop)]
pub struct TcpLink<S: Read + Write + Drop = TcpStream> {
    stream: S,
    read_faults: u64,
    write_faults: u64,
}

impl<S: Read + Write + Drop> Model for TcpLink<S> {
    ghost use Rattle.dw_outside.specs.Streams.{TwoWay};

    ghost Value = { TwoWay S };

    ghost view = { λ l. record { inner = l.stream; read_faults = l.read_faults; write_faults = l.write_faults } };
}

impl<S: Read + Write + OpenStream + Drop> TcpLink<S> {
    /// A link over a stream, which sends what it takes at once and waits for no acknowledgement first.
    pub fn new(stream: S) -> TcpLink<S>
        ensures stream { result.inner ≡ stream }
        ensures read_faults { result.read_faults ≡ 0 }
        ensures write_faults { result.write_faults ≡ 0 }
    {
        // A stream that refuses is slower and no less a link.
        let _ = stream.set_nodelay(true);
        TcpLink {
            stream,
            read_faults: 0,
            write_faults: 0,
        }
    }

    /// Sends no more, takes what still comes, up to a limit and while it comes soon, and closes. A stream that
    /// is closed while bytes come is reset, and its peer may lose what was sent last (RFC 9112, section 9.6).
    pub(crate) fn close(self) {
        let TcpLink { mut stream, .. } = self;
        let wait = Some(Duration::from_millis(LAST_WAIT));
        if stream.shutdown(Shutdown::Write).is_ok() && stream.set_read_timeout(wait).is_ok() {
            take_rest(&mut stream);
        }
    }
}

/// Takes what comes, and drops it.
fn take_rest<S: Read>(stream: &mut S) {
    let mut piece = [0u8; LAST_PIECE];
    for _piece in 0..LAST_PIECES {
        match stream.read(&mut piece) {
            Ok(count) if count > 0 => {}
            _ => return,
        }
    }
}

impl<S: Read + Write + Drop> Source for TcpLink<S> {
    ghost left = { λ _. None };

    ghost faults = { λ l. l.read_faults };

    ghost beside = { λ l. (stream_meaning l).writing };

    /// Reads once, and again after an interruption, which counts as a fault too.
    fn take(&mut self, buf: &mut [u8]) -> Result<usize, Failed>
        ensures bound { ReadsAtMost result buf.new }
        ensures bytes { None ≡ prepend_known (done_bytes result buf.new) None }
        ensures ended { IfOk result (λ n. n ≡ 0 → 0 < length buf.new → IsAtEnd None) }
        ensures counted { self.old.read_faults ≤ self.new.read_faults }
        ensures failed { OnErr result (Rose self.old.read_faults self.new.read_faults) }
        ensures beside { (stream_meaning self.new).writing ≡ (stream_meaning self.old).writing }

        // It gives what the stream gave, and its end is the stream's.
        ensures read { ReadConsumes (S.remaining self.old.inner) (S.remaining self.new.inner) result buf.new }
    {
        read_again(&mut self.stream, &mut self.read_faults, buf)
    }
}

impl<S: Read + Write + Drop> Sink for TcpLink<S> {
    ghost taken = { λ _. None };

    ghost faults = { λ l. l.write_faults };

    ghost beside = { λ l. (stream_meaning l).reading };

    /// Writes and flushes once, and again after an interruption, which counts as a fault too. Nothing
    /// taken of a piece that is not empty is a fault.
    fn put(&mut self, bytes: &[u8]) -> Result<usize, Failed>
        ensures bound { WritesAtMost result bytes.now }
        ensures some { IfOk result (λ n. 0 < length bytes.now → 0 < n) }
        ensures bytes { None ≡ append_known None (done_bytes result bytes.now) }
        ensures counted { self.old.write_faults ≤ self.new.write_faults }
        ensures failed { OnErr result (Rose self.old.write_faults self.new.write_faults) }
        ensures beside { (stream_meaning self.new).reading ≡ (stream_meaning self.old).reading }

        // The stream holds what is said to be taken, and no more.
        ensures written { IfOk result (λ n. Appends (S.contents self.old.inner) (S.contents self.new.inner) (take n bytes.now)) }
    {
        write_again(&mut self.stream, &mut self.write_faults, bytes)
    }
}

impl<S: Read + Write + Drop> Link for TcpLink<S> {
    ghost meaning = { stream_meaning };

    ghost reading = { λ _. refl };

    ghost writing = { λ _. refl };

    ghost beside_reading = { λ _. refl };

    ghost beside_writing = { λ _. refl };
}
