ghost use Rattle.std.specs.Prelude.{◌≡◌, ◌↔◌, ◌<◌, ◌≤◌, Some, length, min, take, IfOk, OnErr, IsErr};
ghost use Rattle.std.specs.Io.{ReadsAtMost};
ghost use Rattle.std.specs.Io.KnownBytes.{prepend_known, IsAtEnd};
ghost use Rattle.dw_outside.specs.Faults.{Rose};
ghost use Rattle.dw_outside.specs.Links.{no_side};
ghost use Rattle.dw_outside.specs.Moved.{done_bytes};
ghost use Rattle.dw_outside.specs.Memory.{FailsNext, input_after};

use crate::traits::{Failed, Source};
use dw_key::Bytes;
use std::marker::Model;

/// A source over bytes in memory, which fails at the calls that are named. Calls are numbered from 1.
#[derive(Debug, Drop)]
pub struct MemSource {
    bytes: Bytes,
    at: usize,
    piece: usize,
    fail_calls: Vec<u64>,
    calls: u64,
    faults: u64,
}

impl Model for MemSource {
    ghost use Rattle.std.specs.Prelude.{◌≤◌, length, drop};
    ghost use Rattle.dw_outside.specs.Memory.{MemoryInput};

    ghost Value = { MemoryInput };

    ghost view = { λ s. record {
      left = drop s.at s.bytes;
      piece = s.piece;
      fail_calls = s.fail_calls.items;
      calls = s.calls;
      faults = s.faults;
    } };

    ghost invariant = { λ s. (s.at ≤ length s.bytes) × (1 ≤ s.piece) };
}

impl MemSource {
    /// A source that gives at most `piece` bytes a call.
    pub fn new(bytes: Bytes, piece: usize, fail_calls: Vec<u64>) -> MemSource
        requires { 1 ≤ piece }
        ensures left { result.left ≡ bytes }
        ensures piece { result.piece ≡ piece }
        ensures fail_calls { result.fail_calls ≡ fail_calls.items }
        ensures calls { result.calls ≡ 0 }
        ensures faults { result.faults ≡ 0 }
    {
        MemSource {
            bytes,
            at: 0,
            piece,
            fail_calls,
            calls: 0,
            faults: 0,
        }
    }
}

impl Source for MemSource {
    ghost left = { λ s. Some s.left };

    ghost faults = { λ s. s.faults };

    /// Gives as many bytes as the piece, the buffer and what is left allow.
    fn take(&mut self, buf: &mut [u8]) -> Result<usize, Failed>
        ensures bound { ReadsAtMost result buf.new }
        ensures bytes { Some self.old.left ≡ prepend_known (done_bytes result buf.new) (Some self.new.left) }
        ensures ended { IfOk result (λ n. n ≡ 0 → 0 < length buf.new → IsAtEnd (Some self.new.left)) }
        ensures counted { self.old.faults ≤ self.new.faults }
        ensures failed { OnErr result (Rose self.old.faults self.new.faults) }
        ensures beside { no_side ≡ no_side }

        // It fails at the named calls and at no others.
        ensures fails { IsErr result ↔ FailsNext self.old.fail_calls self.old.calls }
        ensures given { IfOk result (λ n. n ≡ min (length self.old.left) (min self.old.piece (length buf.old))) }
        ensures after { self.new ≡ input_after self.old result }
    {
        self.calls = self.calls.saturating_add(1);
        if self.fail_calls.contains(&self.calls) {
            self.faults = self.faults.saturating_add(1);
            return Err(Failed);
        }
        let count = copy_front(&self.bytes.as_slice()[self.at..], self.piece, buf);
        self.at += count;
        Ok(count)
    }
}

/// Copies bytes to the front of `buf`, at most `most` of them, and says how many.
fn copy_front(bytes: &[u8], most: usize, buf: &mut [u8]) -> usize
    ensures count { result ≡ min (length bytes.now) (min most (length buf.old)) }
    ensures front { take result buf.new ≡ take result bytes.now }
{
    let count = bytes.len().min(most.min(buf.len()));
    buf[..count].copy_from_slice(&bytes[..count]);
    count
}
