ghost use Rattle.std.specs.Prelude.{◌≡◌, ◌⊎◌, ◌↔◌, ◌<◌, ◌≤◌, Some, length, min, refl, IfOk, IsErr, OnErr};
ghost use Rattle.std.specs.Io.{ReadsAtMost, WritesAtMost};
ghost use Rattle.std.specs.Io.KnownBytes.{append_known, prepend_known, IsAtEnd};
ghost use Rattle.dw_outside.specs.Faults.{Rose};
ghost use Rattle.dw_outside.specs.Moved.{done_bytes};
ghost use Rattle.dw_outside.specs.Memory.{memory_meaning, FailsNext, IsFull, input_after, output_after, room_left};

use crate::link::Link;
use crate::mem_sink::MemSink;
use crate::mem_source::MemSource;
use crate::traits::{Failed, Sink, Source};
use std::marker::Model;

/// A source and a sink in memory, joined.
#[derive(Debug, Drop)]
pub struct MemLink {
    source: MemSource,
    sink: MemSink,
}

impl Model for MemLink {
    ghost use Rattle.dw_outside.specs.Memory.{MemoryLink};

    ghost Value = { MemoryLink };

    ghost view = { λ l. record { input = l.source; output = l.sink } };
}

impl MemLink {
    pub fn new(source: MemSource, sink: MemSink) -> MemLink
        ensures { result ≡ record { input = source; output = sink } }
    {
        MemLink { source, sink }
    }

    pub fn sink(&self) -> &MemSink
        ensures { result.now ≡ self.now.output }
    {
        &self.sink
    }
}

impl Source for MemLink {
    ghost left = { λ l. Some l.input.left };

    ghost faults = { λ l. l.input.faults };

    ghost beside = { λ l. (memory_meaning l).writing };

    fn take(&mut self, buf: &mut [u8]) -> Result<usize, Failed>
        ensures bound { ReadsAtMost result buf.new }
        ensures bytes { Some self.old.input.left ≡ prepend_known (done_bytes result buf.new) (Some self.new.input.left) }
        ensures ended { IfOk result (λ n. n ≡ 0 → 0 < length buf.new → IsAtEnd (Some self.new.input.left)) }
        ensures counted { self.old.input.faults ≤ self.new.input.faults }
        ensures failed { OnErr result (Rose self.old.input.faults self.new.input.faults) }
        ensures beside { (memory_meaning self.new).writing ≡ (memory_meaning self.old).writing }

        // It is the source's own call.
        ensures fails { IsErr result ↔ FailsNext self.old.input.fail_calls self.old.input.calls }
        ensures given { IfOk result (λ n. n ≡ min (length self.old.input.left) (min self.old.input.piece (length buf.old))) }
        ensures after { self.new ≡ record self.old { input = input_after self.old.input result } }
    {
        self.source.take(buf)
    }
}

impl Sink for MemLink {
    ghost taken = { λ l. Some l.output.taken };

    ghost faults = { λ l. l.output.faults };

    ghost beside = { λ l. (memory_meaning l).reading };

    fn put(&mut self, bytes: &[u8]) -> Result<usize, Failed>
        ensures bound { WritesAtMost result bytes.now }
        ensures some { IfOk result (λ n. 0 < length bytes.now → 0 < n) }
        ensures bytes { Some self.new.output.taken ≡ append_known (Some self.old.output.taken) (done_bytes result bytes.now) }
        ensures counted { self.old.output.faults ≤ self.new.output.faults }
        ensures failed { OnErr result (Rose self.old.output.faults self.new.output.faults) }
        ensures beside { (memory_meaning self.new).reading ≡ (memory_meaning self.old).reading }

        // It is the sink's own call.
        ensures fails { IsErr result ↔ (FailsNext self.old.output.fail_calls self.old.output.calls ⊎ IsFull self.old.output bytes.now) }
        ensures count { IfOk result (λ n. n ≡ min (length bytes.now) (room_left self.old.output)) }
        ensures after { self.new ≡ record self.old { output = output_after self.old.output bytes.now result } }
    {
        self.sink.put(bytes)
    }
}

impl Link for MemLink {
    ghost meaning = { memory_meaning };

    ghost reading = { λ _. refl };

    ghost writing = { λ _. refl };

    ghost beside_reading = { λ _. refl };

    ghost beside_writing = { λ _. refl };
}
