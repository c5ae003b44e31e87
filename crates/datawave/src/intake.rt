ghost use Rattle.std.specs.Prelude.{◌≡◌, ◌≢◌, ◌≤◌, ◌<◌, ◌+◌, ◌^◌, [], ℕ, List, Option, Some, length, take, IfOk, IfSome, OnErr, IfNone};
ghost use Rattle.std.specs.Io.KnownBytes.{prepend_known, IsAtEnd};
ghost use Rattle.dw_outside.specs.Faults.{Rose};
ghost use Rattle.dw_outside.specs.Moved.{done_bytes};
ghost use Rattle.dw_derive.specs.World.{World};
ghost use Rattle.datawave.specs.Outside.{Outside, seen};
ghost use Rattle.datawave.specs.Session.{Reading, Runs};
ghost use Rattle.datawave.specs.Working.{Held, IsFresh};
ghost use Rattle.datawave.specs.Exchange.{Begun, Progress};
ghost use Rattle.datawave.specs.Statuses.{status_of};

use crate::exchange::Broken;
use crate::status::Status;
use crate::tools::Tools;
use crate::work::Work;
use dw_desk::Desk;
use dw_event::UidMaker;
use dw_key::OutOfMemory;
use dw_outside::{Failed, Keeper, Sink, Source};
use dw_pool::Gate;
use std::alloc::Global;
use std::thread::Threads;

#[cfg(test)]
mod tests;

/// How many bytes of input are asked for at once.
const PIECE: usize = 65_536;

/// A run between two pieces of its input.
#[derive(Drop)]
struct Talk {
    desk: Desk,
    work: Work,
    /// The most bytes that are taken.
    most: u64,
    /// How many bytes were taken so far.
    total: u64,
    ghost small: { most ≤ 2 ^ 40 },
    ghost within: { total ≤ most },
}

fn end_of(broken: Broken) -> Status
    ensures { result ≡ status_of broken }
{
    match broken {
        Broken::WriteFault => Status::WriteFault,
        Broken::OutOfMemory => Status::OutOfMemory,
    }
}

/// Takes at most so many bytes to the front of a buffer.
fn take_at_most<S: Source>(input: &mut S, buffer: &mut [u8], most: usize) -> Result<usize, Failed>
    requires some { 0 < most }
    requires room { most ≤ length buffer.old }
    ensures most { IfOk result (λ n. n ≤ most) }
    ensures bytes { S.left input.old ≡ prepend_known (done_bytes result buffer.new) (S.left input.new) }
    ensures ended { IfOk result (λ n. n ≡ 0 → IsAtEnd (S.left input.new)) }
    ensures counted { S.faults input.old ≤ S.faults input.new }
    ensures failed { OnErr result (Rose (S.faults input.old) (S.faults input.new)) }
{
    input.take(&mut buffer[..most])
}

/// How many bytes to ask for next: no more than a run takes, but one where it took all of them, so as to
/// see whether more is there.
fn piece_size(most: u64, total: u64, room: usize) -> usize
    requires total { total ≤ most }
    requires room { 0 < room }
    ensures some { 0 < result }
    ensures room { result ≤ room }
    ensures whole { total + room ≤ most → result ≡ room }
    ensures last { most < total + result → (total ≡ most) × (result ≡ 1) }
{
    let left = most - total;
    if left == 0 {
        1
    } else if left < room as u64 {
        left as usize
    } else {
        room
    }
}

/// The first `count` bytes.
fn front_of(bytes: &[u8], count: usize) -> &[u8]
    requires { count ≤ length bytes.now }
    ensures { result.now ≡ take count bytes.now }
{
    &bytes[..count]
}

/// Answers what is left at the end of the input.
fn finish<R: Threads + Sync, K: Keeper, U: UidMaker, G: Gate, O: Sink>(
    tools: &Tools<'_, R, U, G>,
    keeper: &mut K,
    talk: &mut Talk,
    output: &mut O,
) -> Status
    ensures runs { (reading : Reading) (w : World) (start left : Option (List ℕ)) (before : Outside) → IsAtEnd left → reading.most ≡ talk.old.most →
        Progress U.digest reading (Held reading talk.old.work) w start left before talk.old.desk (seen (K.told keeper.old) (K.faults keeper.old) (O.taken output.old)) talk.old.total →
        Runs U.digest reading result w start left before (seen (K.told keeper.new) (K.faults keeper.new) (O.taken output.new)) }
    ensures same { talk.new.most ≡ talk.old.most }
    ensures ends { (result ≢ Status.BadWords) × (result ≢ Status.ReadFault) × (result ≢ Status.StoreFault) × (result ≢ Status.TooMuch) }
    ensures counted { O.faults output.old ≤ O.faults output.new }
    ensures write_fault { result ≡ Status.WriteFault → Rose (O.faults output.old) (O.faults output.new) }
{
    match talk.work.finish(tools, &mut talk.desk, keeper, output) {
        Ok(()) => Status::Done,
        Err(broken) => end_of(broken),
    }
}

/// Takes one piece of the input and answers what is whole with it. Gives the status where the run ends here.
fn turn<R: Threads + Sync, K: Keeper, U: UidMaker, G: Gate, S: Source, O: Sink>(
    tools: &Tools<'_, R, U, G>,
    keeper: &mut K,
    talk: &mut Talk,
    buffer: &mut [u8],
    input: &mut S,
    output: &mut O,
) -> Option<Status>
    requires room { 0 < length buffer.old }
    ensures goes { IfNone result (talk.old.total < talk.new.total) }
    ensures same { talk.new.most ≡ talk.old.most }
    ensures between { IfNone result ((reading : Reading) (w : World) (start : Option (List ℕ)) (before : Outside) → reading.most ≡ talk.old.most →
        Progress U.digest reading (Held reading talk.old.work) w start (S.left input.old) before talk.old.desk (seen (K.told keeper.old) (K.faults keeper.old) (O.taken output.old)) talk.old.total →
        Progress U.digest reading (Held reading talk.new.work) w start (S.left input.new) before talk.new.desk (seen (K.told keeper.new) (K.faults keeper.new) (O.taken output.new)) talk.new.total) }
    ensures ends { IfSome result (λ status. (reading : Reading) (w : World) (start : Option (List ℕ)) (before : Outside) → reading.most ≡ talk.old.most →
        Progress U.digest reading (Held reading talk.old.work) w start (S.left input.old) before talk.old.desk (seen (K.told keeper.old) (K.faults keeper.old) (O.taken output.old)) talk.old.total →
        Runs U.digest reading status w start (S.left input.new) before (seen (K.told keeper.new) (K.faults keeper.new) (O.taken output.new))) }
    ensures begun { (result ≢ Some Status.BadWords) × (result ≢ Some Status.StoreFault) }
    ensures taken { S.faults input.old ≤ S.faults input.new }
    ensures put { O.faults output.old ≤ O.faults output.new }
    ensures read_fault { result ≡ Some Status.ReadFault → Rose (S.faults input.old) (S.faults input.new) }
    ensures write_fault { result ≡ Some Status.WriteFault → Rose (O.faults output.old) (O.faults output.new) }
{
    let most = piece_size(talk.most, talk.total, buffer.len());
    let count = match take_at_most(input, buffer, most) {
        Ok(count) => count,
        Err(_) => return Some(Status::ReadFault),
    };
    if count == 0 {
        return Some(finish(tools, keeper, talk, output));
    }
    let total = talk.total + count as u64;
    if total > talk.most {
        return Some(Status::TooMuch);
    }
    talk.total = total;
    let piece = front_of(buffer, count);
    match talk.work.take(tools, &mut talk.desk, keeper, piece, output) {
        Ok(()) => None,
        Err(broken) => Some(end_of(broken)),
    }
}

/// Takes pieces until the run ends.
fn exchange_all<R: Threads + Sync, K: Keeper, U: UidMaker, G: Gate, S: Source, O: Sink>(
    tools: &Tools<'_, R, U, G>,
    keeper: &mut K,
    talk: &mut Talk,
    buffer: &mut [u8],
    input: &mut S,
    output: &mut O,
) -> Status
    requires room { 0 < length buffer.old }
    ensures runs { (reading : Reading) (w : World) (start : Option (List ℕ)) (before : Outside) → reading.most ≡ talk.old.most →
        Progress U.digest reading (Held reading talk.old.work) w start (S.left input.old) before talk.old.desk (seen (K.told keeper.old) (K.faults keeper.old) (O.taken output.old)) talk.old.total →
        Runs U.digest reading result w start (S.left input.new) before (seen (K.told keeper.new) (K.faults keeper.new) (O.taken output.new)) }
    ensures begun { (result ≢ Status.BadWords) × (result ≢ Status.StoreFault) }
    ensures read_fault { result ≡ Status.ReadFault → Rose (S.faults input.old) (S.faults input.new) }
    ensures write_fault { result ≡ Status.WriteFault → Rose (O.faults output.old) (O.faults output.new) }
{
    loop {
        if let Some(status) = turn(tools, keeper, talk, buffer, input, output) {
            return status;
        }
    }
}

/// A buffer of so many bytes.
fn buffer_of(alloc: Global, size: usize) -> Result<Vec<u8>, OutOfMemory>
    requires { 0 < size }
    ensures { IfOk result (λ buffer. 0 < length buffer.items) }
{
    vec![in alloc; 0u8; size]
}

/// Does some work on the bytes of an input, over a desk that was just loaded, until it ends, fails or is too much.
pub fn work_through<R: Threads + Sync, K: Keeper, U: UidMaker, G: Gate, S: Source, O: Sink>(
    tools: &Tools<'_, R, U, G>,
    desk: Desk,
    keeper: &mut K,
    work: Work,
    input: &mut S,
    output: &mut O,
) -> Status
    ensures runs { (reading : Reading) (w : World) (before : Outside) → IsFresh reading work → Begun w before desk (seen (K.told keeper.old) (K.faults keeper.old) (O.taken output.old)) →
        Runs U.digest reading result w (S.left input.old) (S.left input.new) before (seen (K.told keeper.new) (K.faults keeper.new) (O.taken output.new)) }
    ensures begun { (result ≢ Status.BadWords) × (result ≢ Status.StoreFault) }
    ensures read_fault { result ≡ Status.ReadFault → Rose (S.faults input.old) (S.faults input.new) }
    ensures write_fault { result ≡ Status.WriteFault → Rose (O.faults output.old) (O.faults output.new) }
{
    let Ok(mut buffer) = buffer_of(tools.alloc, PIECE) else {
        return Status::OutOfMemory;
    };
    let most = work.most();
    let mut talk = Talk {
        desk,
        work,
        most,
        total: 0,
    };
    exchange_all(
        tools,
        keeper,
        &mut talk,
        buffer.as_mut_slice(),
        input,
        output,
    )
}
