ghost use Rattle.std.specs.Prelude.{◌≡◌, ◌<◌, ◌≤◌, None, length, take, IfOk, OnErr};
ghost use Rattle.std.specs.Io.{WritesAtMost};
ghost use Rattle.std.specs.Io.KnownBytes.{append_known, Appends};
ghost use Rattle.dw_outside.specs.Faults.{Rose};
ghost use Rattle.dw_outside.specs.Links.{no_side};
ghost use Rattle.dw_outside.specs.Moved.{done_bytes};

use crate::again::write_again;
use crate::traits::{Failed, Sink};
use std::io::Write;
use std::marker::Model;

/// Standard output, or another writer, as a sink that tells nothing of its bytes.
#[derive(Drop)]
pub struct StdOutput<W: Write + Drop> {
    writer: W,
    faults: u64,
}

impl<W: Write + Drop> Model for StdOutput<W> {
    ghost use Rattle.dw_outside.specs.Streams.{Stream};

    ghost Value = { Stream W };

    ghost view = { λ s. record { inner = s.writer; faults = s.faults } };
}

impl<W: Write + Drop> StdOutput<W> {
    pub fn new(writer: W) -> StdOutput<W>
        ensures writer { result.inner ≡ writer }
        ensures faults { result.faults ≡ 0 }
    {
        StdOutput { writer, faults: 0 }
    }
}

impl<W: Write + Drop> Sink for StdOutput<W> {
    ghost taken = { λ _. None };

    ghost faults = { λ s. s.faults };

    /// Writes and flushes once, and again after an interruption, which counts as a fault too. Nothing
    /// taken of a piece that is not empty is a fault.
    fn put(&mut self, bytes: &[u8]) -> Result<usize, Failed>
        ensures bound { WritesAtMost result bytes.now }
        ensures some { IfOk result (λ n. 0 < length bytes.now → 0 < n) }
        ensures bytes { None ≡ append_known None (done_bytes result bytes.now) }
        ensures counted { self.old.faults ≤ self.new.faults }
        ensures failed { OnErr result (Rose self.old.faults self.new.faults) }
        ensures beside { no_side ≡ no_side }

        // The writer holds what is said to be taken, and no more.
        ensures written { IfOk result (λ n. Appends (W.contents self.old.inner) (W.contents self.new.inner) (take n bytes.now)) }
    {
        write_again(&mut self.writer, &mut self.faults, bytes)
    }
}
