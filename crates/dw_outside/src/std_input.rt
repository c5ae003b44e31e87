ghost use Rattle.std.specs.Prelude.{◌≡◌, ◌<◌, ◌≤◌, None, length, IfOk, OnErr};
ghost use Rattle.std.specs.Io.{ReadsAtMost};
ghost use Rattle.std.specs.Io.KnownBytes.{prepend_known, IsAtEnd, ReadConsumes};
ghost use Rattle.dw_outside.specs.Faults.{Rose};
ghost use Rattle.dw_outside.specs.Links.{no_side};
ghost use Rattle.dw_outside.specs.Moved.{done_bytes};

use crate::again::read_again;
use crate::traits::{Failed, Source};
use std::io::Read;
use std::marker::Model;

/// Standard input, or another reader, as a source that tells nothing of its bytes.
#[derive(Drop)]
pub struct StdInput<R: Read + Drop> {
    reader: R,
    faults: u64,
}

impl<R: Read + Drop> Model for StdInput<R> {
    ghost use Rattle.dw_outside.specs.Streams.{Stream};

    ghost Value = { Stream R };

    ghost view = { λ s. record { inner = s.reader; faults = s.faults } };
}

impl<R: Read + Drop> StdInput<R> {
    pub fn new(reader: R) -> StdInput<R>
        ensures reader { result.inner ≡ reader }
        ensures faults { result.faults ≡ 0 }
    {
        StdInput { reader, faults: 0 }
    }
}

impl<R: Read + Drop> Source for StdInput<R> {
    ghost left = { λ _. None };

    ghost faults = { λ s. s.faults };

    /// Reads once, and again after an interruption, which counts as a fault too.
    fn take(&mut self, buf: &mut [u8]) -> Result<usize, Failed>
        ensures bound { ReadsAtMost result buf.new }
        ensures bytes { None ≡ prepend_known (done_bytes result buf.new) None }
        ensures ended { IfOk result (λ n. n ≡ 0 → 0 < length buf.new → IsAtEnd None) }
        ensures counted { self.old.faults ≤ self.new.faults }
        ensures failed { OnErr result (Rose self.old.faults self.new.faults) }
        ensures beside { no_side ≡ no_side }

        // It gives what the reader gave, and its end is the reader's.
        ensures read { ReadConsumes (R.remaining self.old.inner) (R.remaining self.new.inner) result buf.new }
    {
        read_again(&mut self.reader, &mut self.faults, buf)
    }
}
