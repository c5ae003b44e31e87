ghost use Rattle.std.specs.Prelude.{◌≡◌, ◌⊎◌, ◌↔◌, ◌<◌, ◌≤◌, ◌+◌, ◌++◌, [], Some, length, min, vec_len, vec_capacity, IfOk, OnErr, IsErr};
ghost use Rattle.std.specs.Io.{WritesAtMost};
ghost use Rattle.std.specs.Io.KnownBytes.{append_known};
ghost use Rattle.dw_outside.specs.Faults.{Rose};
ghost use Rattle.dw_outside.specs.Links.{no_side};
ghost use Rattle.dw_outside.specs.Moved.{done_bytes};
ghost use Rattle.dw_outside.specs.Memory.{FailsNext, IsFull, output_after, room_left};

use crate::OutOfMemory;
use crate::traits::{Failed, Sink};
use std::alloc::Global;
use std::marker::Model;

/// A sink in memory, which fails at the calls that are named and where its room is full. Calls are
/// numbered from 1.
#[derive(Debug, Drop)]
pub struct MemSink {
    bytes: Vec<u8>,
    room: usize,
    fail_calls: Vec<u64>,
    calls: u64,
    faults: u64,
}

impl Model for MemSink {
    ghost use Rattle.std.specs.Prelude.{◌≤◌, vec_len, vec_capacity};
    ghost use Rattle.dw_outside.specs.Memory.{MemoryOutput};

    ghost Value = { MemoryOutput };

    ghost view = { λ s. record {
      taken = s.bytes.items;
      room = s.room;
      fail_calls = s.fail_calls.items;
      calls = s.calls;
      faults = s.faults;
    } };

    ghost invariant = { λ s. (vec_len s.bytes ≤ s.room) × (s.room ≤ vec_capacity s.bytes) };
}

impl MemSink {
    /// A sink that takes `room` bytes in all. It takes its memory at once.
    pub fn new(alloc: Global, room: u32, fail_calls: Vec<u64>) -> Result<MemSink, OutOfMemory>
        ensures taken { IfOk result (λ s. s.taken ≡ []) }
        ensures room { IfOk result (λ s. s.room ≡ room) }
        ensures fail_calls { IfOk result (λ s. s.fail_calls ≡ fail_calls.items) }
        ensures calls { IfOk result (λ s. s.calls ≡ 0) }
        ensures faults { IfOk result (λ s. s.faults ≡ 0) }
    {
        let bytes = Vec::with_capacity(alloc, room as usize)?;
        Ok(MemSink {
            bytes,
            room: room as usize,
            fail_calls,
            calls: 0,
            faults: 0,
        })
    }

    /// The bytes taken so far.
    pub fn bytes(&self) -> &[u8]
        ensures { result.now ≡ self.now.taken }
    {
        self.bytes.as_slice()
    }
}

impl Sink for MemSink {
    ghost taken = { λ s. Some s.taken };

    ghost faults = { λ s. s.faults };

    /// Takes as much of the piece as there is room for.
    fn put(&mut self, bytes: &[u8]) -> Result<usize, Failed>
        ensures bound { WritesAtMost result bytes.now }
        ensures some { IfOk result (λ n. 0 < length bytes.now → 0 < n) }
        ensures bytes { Some self.new.taken ≡ append_known (Some self.old.taken) (done_bytes result bytes.now) }
        ensures counted { self.old.faults ≤ self.new.faults }
        ensures failed { OnErr result (Rose self.old.faults self.new.faults) }
        ensures beside { no_side ≡ no_side }

        // It fails at the named calls and where it is full, and nowhere else.
        ensures fails { IsErr result ↔ (FailsNext self.old.fail_calls self.old.calls ⊎ IsFull self.old bytes.now) }
        ensures count { IfOk result (λ n. n ≡ min (length bytes.now) (room_left self.old)) }
        ensures after { self.new ≡ output_after self.old bytes.now result }
    {
        self.calls = self.calls.saturating_add(1);
        let room = self.room - self.bytes.len();
        if self.fail_calls.contains(&self.calls) || (room == 0 && !bytes.is_empty()) {
            self.faults = self.faults.saturating_add(1);
            return Err(Failed);
        }
        let count = bytes.len().min(room);
        extend_reserved(&mut self.bytes, &bytes[..count]);
        Ok(count)
    }
}

/// Appends bytes for which there is room.
fn extend_reserved(list: &mut Vec<u8>, bytes: &[u8])
    requires { vec_len list.old + length bytes.now ≤ vec_capacity list.old }
    ensures items { list.new.items ≡ list.old.items ++ bytes.now }
    ensures len { vec_len list.new ≡ vec_len list.old + length bytes.now }
    ensures capacity { vec_capacity list.old ≤ vec_capacity list.new }
{
    list.extend_from_slice(bytes).unwrap();
}
