ghost use Rattle.std.specs.Prelude.{◌≡◌, ◌<◌, ◌≤◌, ℕ, length, take, IfOk, OnOk, OnErr};
ghost use Rattle.std.specs.Io.{ReadsAtMost};
ghost use Rattle.std.specs.Io.KnownBytes.{append_known, prepend_known, IsAtEnd};
ghost use Rattle.dw_outside.specs.Faults.{Rose};
ghost use Rattle.dw_outside.specs.Links.{Meaning};
ghost use Rattle.dw_outside.specs.Moved.{done_bytes};

use crate::traits::{Failed, Sink, Source};

/// A source and a sink in one. Reading leaves the side that is written as it was, and writing the side
/// that is read.
pub trait Link: Source + Sink {
    /// Both sides.
    ghost meaning: { Self → Meaning };

    // The laws: the sides are those of the source and of the sink, and each is beside the other.
    ghost reading: { (l : Self) → (meaning l).reading ≡ record { bytes = Self.left l; faults = Self.Source.faults l } };

    ghost writing: { (l : Self) → (meaning l).writing ≡ record { bytes = Self.taken l; faults = Self.Sink.faults l } };

    ghost beside_reading: { (l : Self) → Self.Source.beside l ≡ (meaning l).writing };

    ghost beside_writing: { (l : Self) → Self.Sink.beside l ≡ (meaning l).reading };

    /// `take`, said by the two sides.
    final fn receive(&mut self, buf: &mut [u8]) -> Result<usize, Failed>
        ensures bound { ReadsAtMost result buf.new }
        ensures bytes { (meaning self.old).reading.bytes ≡ prepend_known (done_bytes result buf.new) (meaning self.new).reading.bytes }
        ensures ended { IfOk result (λ n. n ≡ 0 → 0 < length buf.new → IsAtEnd (meaning self.new).reading.bytes) }
        ensures counted { (meaning self.old).reading.faults ≤ (meaning self.new).reading.faults }
        ensures failed { OnErr result (Rose (meaning self.old).reading.faults (meaning self.new).reading.faults) }
        ensures writing { (meaning self.new).writing ≡ (meaning self.old).writing }
    {
        self.take(buf)
    }

    /// Puts all of a piece. Where that fails, a beginning of it was taken.
    final fn send(&mut self, bytes: &[u8]) -> Result<(), Failed>
        ensures bytes { OnOk result ((meaning self.new).writing.bytes ≡ append_known (meaning self.old).writing.bytes bytes.now) }
        ensures begun { OnErr result ((n : ℕ) × ((meaning self.new).writing.bytes ≡ append_known (meaning self.old).writing.bytes (take n bytes.now))) }
        ensures counted { (meaning self.old).writing.faults ≤ (meaning self.new).writing.faults }
        ensures failed { OnErr result (Rose (meaning self.old).writing.faults (meaning self.new).writing.faults) }
        ensures reading { (meaning self.new).reading ≡ (meaning self.old).reading }
    {
        put_all(self, bytes)
    }
}

/// Puts all of a piece to any sink. Where that fails, a beginning of it was taken.
pub fn put_all<K: Sink>(sink: &mut K, bytes: &[u8]) -> Result<(), Failed>
    ensures bytes { OnOk result (K.taken sink.new ≡ append_known (K.taken sink.old) bytes.now) }
    ensures begun { OnErr result ((n : ℕ) × (K.taken sink.new ≡ append_known (K.taken sink.old) (take n bytes.now))) }
    ensures counted { K.faults sink.old ≤ K.faults sink.new }
    ensures failed { OnErr result (Rose (K.faults sink.old) (K.faults sink.new)) }
    ensures beside { K.beside sink.new ≡ K.beside sink.old }
{
    let mut at = 0;
    while at < bytes.len() {
        at += sink.put(&bytes[at..])?;
    }
    Ok(())
}
