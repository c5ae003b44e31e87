ghost use Rattle.std.specs.Prelude.{◌≡◌, ◌⊎◌, ◌↔◌, ◌<◌, ◌≤◌, ◌+◌, ◌-◌, ◌^◌, ◌++◌, ℕ, Some, [], ◌∷◌, length, take, drop, min, slice_index, vec_len, vec_capacity, IfOk, OnOk, OnErr, IsErr, IsTrue};
ghost use Rattle.std.specs.Io.{ReadsAtMost};
ghost use Rattle.std.specs.VecDeque.{deque_len, deque_capacity};
ghost use Rattle.dw_outside.specs.Faults.{Rose, one_more};
ghost use Rattle.dw_outside.specs.Disks.{MayLeave, IsLoose, Now, after, wrote, synced, overlay, IsTorn};
ghost use Rattle.dw_outside.specs.Memory.{FailsNext};
ghost use Rattle.dw_outside.specs.MemoryDisks.{memory_model, FailsAnyway, called, disk_written, disk_synced, IsLeft};
ghost use Rattle.dw_outside.specs.DiskStands.{memory_stands};

use crate::OutOfMemory;
use crate::disk::Disk;
use crate::traits::Failed;
use std::alloc::Global;
use std::collections::VecDeque;
use std::marker::Model;

/// What was done to a disk: a write at a place, of so many of the bytes of all writes from one on; a write
/// that failed, from a place up to before another; or a sync.
#[derive(Clone, Copy, Debug)]
pub enum Step {
    Write(u64, usize, usize),
    Torn(u64, u64),
    Sync,
}

/// What a stop makes of the bytes that are not stable: what they were at the last sync, what was written,
/// or all of them this byte.
#[derive(Clone, Copy, Debug, PartialEq, Eq)]
pub enum Leave {
    Old,
    New,
    Byte(u8),
}

/// A disk in memory, which keeps all that was done to it. It fails at the calls that are named, past the
/// calls and past the bytes written that it has room for. Calls are numbered from 1.
#[derive(Debug, Drop)]
pub struct MemDisk {
    first: Vec<u8>,
    seen: Vec<u8>,
    kept: Vec<u8>,
    written: Vec<u8>,
    steps: Vec<Step>,
    loose: VecDeque<(u64, u64)>,
    room: u32,
    limit: u32,
    fail_calls: Vec<u64>,
    calls: u64,
    faults: u64,
}

impl Model for MemDisk {
    ghost use Rattle.std.specs.Prelude.{length, vec_capacity};
    ghost use Rattle.std.specs.VecDeque.{deque_capacity};
    ghost use Rattle.dw_outside.specs.MemoryDisks.{MemoryDisk, StandsFor, HasRoom};

    ghost Value = { MemoryDisk };

    ghost view = { λ d. record {
      first = d.first.items;
      written = d.written.items;
      steps = d.steps.items;
      room = d.room;
      limit = d.limit;
      fail_calls = d.fail_calls.items;
      calls = d.calls;
      faults = d.faults;
    } };

    ghost invariant = { λ d. StandsFor (record {
      first = d.first.items;
      written = d.written.items;
      steps = d.steps.items;
      room = d.room;
      limit = d.limit;
      fail_calls = d.fail_calls.items;
      calls = d.calls;
      faults = d.faults;
    }) d.seen.items d.kept.items d.loose.items
        × HasRoom (length d.first.items) d.room d.limit (vec_capacity d.seen) (vec_capacity d.kept) (vec_capacity d.written) (vec_capacity d.steps) (deque_capacity d.loose) };
}

impl MemDisk {
    /// An empty disk. It takes its memory at once.
    pub fn new(
        alloc: Global,
        room: u32,
        calls: u32,
        fail_calls: Vec<u64>,
    ) -> Result<MemDisk, OutOfMemory>
        ensures { IfOk result (λ d. d ≡ record { first = []; written = []; steps = []; room = room; limit = calls; fail_calls = fail_calls.items; calls = 0; faults = 0 }) }
    {
        MemDisk::holding(alloc, Vec::new(alloc), room, calls, fail_calls)
    }

    /// A disk that holds these bytes.
    fn holding(
        alloc: Global,
        first: Vec<u8>,
        room: u32,
        limit: u32,
        fail_calls: Vec<u64>,
    ) -> Result<MemDisk, OutOfMemory>
        ensures { IfOk result (λ d. d ≡ record { first = first.items; written = []; steps = []; room = room; limit = limit; fail_calls = fail_calls.items; calls = 0; faults = 0 }) }
    {
        let seen = with_room(alloc, &first, room as usize)?;
        let kept = with_room(alloc, &first, room as usize)?;
        let written = Vec::with_capacity(alloc, room as usize)?;
        let steps = Vec::with_capacity(alloc, limit as usize)?;
        let loose = VecDeque::with_capacity(alloc, limit as usize)?;
        Ok(MemDisk {
            first,
            seen,
            kept,
            written,
            steps,
            loose,
            room,
            limit,
            fail_calls,
            calls: 0,
            faults: 0,
        })
    }

    /// A disk with what one stop leaves of this one, which fails at no named call.
    pub fn stop(&self, alloc: Global, leave: Leave) -> Result<MemDisk, OutOfMemory>
        ensures left { IfOk result (λ d. IsLeft leave (memory_model self.now).now d.first) }
        ensures anew { IfOk result (λ d. d ≡ record { first = d.first; written = []; steps = []; room = self.now.room; limit = self.now.limit; fail_calls = []; calls = 0; faults = 0 }) }

        // It is among what a stop may leave.
        ensures among { IfOk result (λ d. MayLeave (memory_model self.now).now d.first) }
    {
        let first = self.left(alloc, leave)?;
        MemDisk::holding(alloc, first, self.room, self.limit, Vec::new(alloc))
    }

    /// The bytes that one stop leaves.
    fn left(&self, alloc: Global, leave: Leave) -> Result<Vec<u8>, OutOfMemory>
        ensures { IfOk result (λ v. IsLeft leave (memory_model self.now).now v.items) }
    {
        match leave {
            Leave::Old => self.kept.to_vec(alloc),
            Leave::New => self.seen.to_vec(alloc),
            Leave::Byte(byte) => {
                let mut bytes = self.seen.to_vec(alloc)?;
                fill_ranges(&mut bytes, &self.loose, byte);
                Ok(bytes)
            }
        }
    }
}

/// Counts a call, and says whether it fails, whatever it is.
fn next_fails(calls: &mut u64, limit: u32, fail_calls: &[u64]) -> bool
    ensures fails { IsTrue result ↔ (FailsNext fail_calls.now calls.old ⊎ limit ≤ calls.old) }
    ensures counted { calls.new ≡ one_more calls.old }
{
    let is_spent = *calls >= u64::from(limit);
    *calls = calls.saturating_add(1);
    is_spent || fail_calls.contains(calls)
}

fn fault(faults: &mut u64) -> Failed
    ensures { faults.new ≡ one_more faults.old }
{
    *faults = faults.saturating_add(1);
    Failed
}

/// These bytes, with room for so many more.
fn with_room(alloc: Global, bytes: &[u8], room: usize) -> Result<Vec<u8>, OutOfMemory>
    requires { length bytes.now + room < 2 ^ 64 }
    ensures items { IfOk result (λ v. v.items ≡ bytes.now) }
    ensures capacity { IfOk result (λ v. length bytes.now + room ≤ vec_capacity v) }
{
    let mut list = Vec::with_capacity(alloc, bytes.len() + room)?;
    list.extend_from_slice(bytes).unwrap();
    Ok(list)
}

/// Puts these bytes at this place, for which there is room.
fn put_over(seen: &mut Vec<u8>, at: usize, bytes: &[u8])
    requires place { at ≤ vec_len seen.old }
    requires room { at + length bytes.now ≤ vec_capacity seen.old }
    ensures over { seen.new.items ≡ overlay at bytes.now seen.old.items }
    ensures capacity { vec_capacity seen.old ≤ vec_capacity seen.new }
{
    let within = bytes.len().min(seen.len() - at);
    seen[at..at + within].copy_from_slice(&bytes[..within]);
    seen.extend_from_slice(&bytes[within..]).unwrap();
}

/// Makes a list what another is, for which there is room.
fn make_same(list: &mut Vec<u8>, other: &[u8])
    requires { length other.now ≤ vec_capacity list.old }
    ensures same { list.new.items ≡ other.now }
    ensures capacity { vec_capacity list.old ≤ vec_capacity list.new }
{
    list.clear();
    list.extend_from_slice(other).unwrap();
}

/// Fills a range, as far as there are bytes.
fn fill_range(bytes: &mut [u8], from: u64, before: u64, byte: u8)
    ensures inside { (place : ℕ) → place < length bytes.new → from ≤ place → place < before → slice_index bytes.new place ≡ byte }
    ensures outside { (place : ℕ) → ((from ≤ place) × (place < before) → ⊥) → slice_index bytes.new place ≡ slice_index bytes.old place }
{
    let end = bytes.len().min(before as usize);
    let start = end.min(from as usize);
    bytes[start..end].fill(byte);
}

/// Fills these ranges, as far as there are bytes.
fn fill_ranges(bytes: &mut [u8], ranges: &VecDeque<(u64, u64)>, byte: u8)
    ensures inside { (place : ℕ) → place < length bytes.new → IsLoose ranges.now.items place → slice_index bytes.new place ≡ byte }
    ensures outside { (place : ℕ) → (IsLoose ranges.now.items place → ⊥) → slice_index bytes.new place ≡ slice_index bytes.old place }
{
    for index in 0..ranges.len() {
        let (from, before) = ranges[index];
        fill_range(bytes, from, before, byte);
    }
}

impl Disk for MemDisk {
    ghost model = { λ d. Some (memory_model d) };

    ghost faults = { λ d. d.faults };

    ghost stands = { memory_stands };

    /// Fails at the named calls and past the last call.
    fn length(&mut self) -> Result<u64, Failed>
        ensures length { IfOk result (λ n. n ≡ length (memory_model self.old).now.seen) }
        ensures same { Some (memory_model self.new) ≡ Some (memory_model self.old) }
        ensures counted { self.old.faults ≤ self.new.faults }
        ensures failed { OnErr result (Rose self.old.faults self.new.faults) }

        ensures fails { IsErr result ↔ FailsAnyway self.old }
        ensures after { self.new ≡ called self.old result }
    {
        if next_fails(&mut self.calls, self.limit, &self.fail_calls) {
            return Err(fault(&mut self.faults));
        }
        Ok(self.seen.len() as u64)
    }

    /// Fails at the named calls and past the last call.
    fn read(&mut self, at: u64, buf: &mut [u8]) -> Result<usize, Failed>
        ensures bound { ReadsAtMost result buf.new }
        ensures count { IfOk result (λ n. n ≡ min (length buf.old) (length (memory_model self.old).now.seen - at)) }
        ensures bytes { IfOk result (λ n. take n buf.new ≡ take n (drop at (memory_model self.old).now.seen)) }
        ensures same { Some (memory_model self.new) ≡ Some (memory_model self.old) }
        ensures counted { self.old.faults ≤ self.new.faults }
        ensures failed { OnErr result (Rose self.old.faults self.new.faults) }

        ensures fails { IsErr result ↔ FailsAnyway self.old }
        ensures after { self.new ≡ called self.old result }
    {
        if next_fails(&mut self.calls, self.limit, &self.fail_calls) {
            return Err(fault(&mut self.faults));
        }
        let from = self.seen.len().min(at as usize);
        let count = buf.len().min(self.seen.len() - from);
        buf[..count].copy_from_slice(&self.seen[from..from + count]);
        Ok(count)
    }

    /// Fails at the named calls, past the last call and where there is no room. It puts nothing then.
    fn write_at(&mut self, at: u64, bytes: &[u8]) -> Result<(), Failed>
        requires { at ≤ length (memory_model self.old).now.seen }
        ensures written { OnOk result (Some (memory_model self.new) ≡ after (wrote at bytes.now) (Some (memory_model self.old))) }
        ensures bound { OnOk result (at + length bytes.now < 2 ^ 63) }
        ensures torn { OnErr result (IsTorn at (length bytes.now) (Some (memory_model self.old)) (Some (memory_model self.new))) }
        ensures counted { self.old.faults ≤ self.new.faults }
        ensures failed { OnErr result (Rose self.old.faults self.new.faults) }

        ensures fails { IsErr result ↔ (FailsAnyway self.old ⊎ self.old.room < length self.old.written + length bytes.now) }
        ensures after { self.new ≡ disk_written self.old at bytes.now result }
    {
        let fails = next_fails(&mut self.calls, self.limit, &self.fail_calls);
        if self.calls > u64::from(self.limit) {
            return Err(fault(&mut self.faults));
        }
        let end = at + bytes.len() as u64;
        if fails || bytes.len() > self.room as usize - self.written.len() {
            self.steps.push_reserved(Step::Torn(at, end));
            self.loose.push_front_reserved((at, end));
            return Err(fault(&mut self.faults));
        }
        let start = self.written.len();
        self.written.extend_from_slice(bytes).unwrap();
        self.steps
            .push_reserved(Step::Write(at, start, bytes.len()));
        self.loose.push_front_reserved((at, end));
        put_over(&mut self.seen, at as usize, bytes);
        Ok(())
    }

    /// Fails at the named calls and past the last call.
    fn sync(&mut self) -> Result<(), Failed>
        ensures synced { OnOk result (Some (memory_model self.new) ≡ after synced (Some (memory_model self.old))) }
        ensures unsynced { OnErr result (Some (memory_model self.new) ≡ Some (memory_model self.old)) }
        ensures counted { self.old.faults ≤ self.new.faults }
        ensures failed { OnErr result (Rose self.old.faults self.new.faults) }

        ensures fails { IsErr result ↔ FailsAnyway self.old }
        ensures after { self.new ≡ disk_synced self.old result }
    {
        if next_fails(&mut self.calls, self.limit, &self.fail_calls) {
            return Err(fault(&mut self.faults));
        }
        self.steps.push_reserved(Step::Sync);
        self.loose.clear();
        make_same(&mut self.kept, &self.seen);
        Ok(())
    }
}
