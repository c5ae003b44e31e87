ghost use Rattle.std.specs.Prelude.{◌≡◌, ◌≢◌, ◌<◌, ◌≤◌, ◌+◌, ◌^◌, ◌++◌, ◌∷◌, ℕ, List, Ok, Err, length, take, drop, min, vec_len, IfOk, OnOk, OnErr};
ghost use Rattle.dw_outside.specs.Faults.{Rose};
ghost use Rattle.dw_outside.specs.Disks.{Now};
ghost use Rattle.dw_journal.specs.Frames.{number, IsBadAt};
ghost use Rattle.dw_journal.specs.Reading.{ShowsFrom, IsRead, HasFrame};
ghost use Rattle.dw_journal.specs.Next.{IsNext, is_within};

use crate::frames::{read_body, take_number, take_text};
use crate::open_error::OpenError;
use dw_outside::{Disk, Failed, KeeperError, OutOfMemory, Put, Store};
use std::alloc::Global;

/// How many bytes are asked for at once, at least.
const PIECE: usize = 1 << 16;

/// What stands at a gate: it is closed; a frame, which takes so many bytes with its gate; or it is open and
/// no frame follows.
#[derive(Drop)]
pub(crate) enum Next {
    Closed,
    Frame(Vec<Put>, u64),
    Bad,
}

/// What stands at the gate at the front of these bytes, the first of those that are left of a file.
fn parse(alloc: Global, rest: &[u8], left: u64) -> Result<Next, OutOfMemory>
    ensures next { (whole : List ℕ) → length whole ≡ left → 0 < left → rest.now ≡ take (length rest.now) whole → min 10 left ≤ length rest.now → HasFrame rest.now left → IfOk result (λ next. IsNext next whole) }
    ensures within { IfOk result (λ next. is_within next (length rest.now)) }
{
    let [gate, after @ ..] = rest else {
        return Ok(Next::Bad);
    };
    if *gate != 1 {
        return Ok(Next::Closed);
    }
    let Some((body, behind)) = take_text(after) else {
        return Ok(Next::Bad);
    };
    if behind.is_empty() {
        return Ok(Next::Bad);
    }
    match read_body(alloc, body)? {
        None => Ok(Next::Bad),
        Some(puts) => Ok(Next::Frame(puts, body.len() as u64 + 9)),
    }
}

/// How many bytes the frame at the front of these takes with its gate and the gate behind it, of those that
/// are left of a file.
fn wanted(rest: &[u8], left: u64) -> usize
    ensures left { result ≤ left }
    ensures wanted { (count : ℕ) (more : List ℕ) → count < 2 ^ 64 → rest.now ≡ 1 ∷ (number count ++ more) → count + 10 ≤ left → count + 10 ≤ result }
{
    let [_, after @ ..] = rest else {
        return 0;
    };
    let Some((count, _)) = take_number(after) else {
        return 0;
    };
    if left < 10 || count > left - 10 {
        return 0;
    }
    count as usize + 10
}

/// Reads so many bytes from a place on, or all that are left.
fn read_from<D: Disk>(
    disk: &mut D,
    buf: &mut Vec<u8>,
    place: u64,
    size: usize,
) -> Result<(), KeeperError>
    ensures shows { OnOk result (Now (ShowsFrom place buf.new.items) (D.model disk.old)) }
    ensures enough { OnOk result (Now (λ s. (n : ℕ) → n ≤ size → place + n ≤ length s.seen → n ≤ length buf.new.items) (D.model disk.old)) }
    ensures same { D.model disk.new ≡ D.model disk.old }
    ensures counted { D.faults disk.old ≤ D.faults disk.new }
    ensures failed { result ≡ Err KeeperError.Failed → Rose (D.faults disk.old) (D.faults disk.new) }
{
    buf.clear();
    buf.resize(size, 0)?;
    match disk.read(place, buf) {
        Err(Failed) => Err(KeeperError::Failed),
        Ok(count) => {
            buf.truncate(count);
            Ok(())
        }
    }
}

/// Sees to it that so many bytes are there, or all that are left.
fn fill<D: Disk>(
    disk: &mut D,
    buf: &mut Vec<u8>,
    start: &mut usize,
    place: u64,
    need: usize,
) -> Result<(), KeeperError>
    requires within { start.old ≤ vec_len buf.old }
    requires shows { Now (ShowsFrom place (drop start.old buf.old.items)) (D.model disk.old) }
    ensures within { start.new ≤ vec_len buf.new }
    ensures shows { OnOk result (Now (ShowsFrom place (drop start.new buf.new.items)) (D.model disk.old)) }
    ensures enough { OnOk result (Now (λ s. place + need ≤ length s.seen → need ≤ length (drop start.new buf.new.items)) (D.model disk.old)) }
    ensures same { D.model disk.new ≡ D.model disk.old }
    ensures counted { D.faults disk.old ≤ D.faults disk.new }
    ensures failed { result ≡ Err KeeperError.Failed → Rose (D.faults disk.old) (D.faults disk.new) }
{
    if buf.len() - *start >= need {
        return Ok(());
    }
    *start = 0;
    read_from(disk, buf, place, need.max(PIECE))
}

/// What stands at the gate at this place, with so many bytes left of the file. The buffer has bytes of the
/// file from that place on, behind `start`.
fn next_frame<D: Disk>(
    alloc: Global,
    disk: &mut D,
    buf: &mut Vec<u8>,
    start: &mut usize,
    place: u64,
    left: u64,
) -> Result<Next, KeeperError>
    requires within { start.old ≤ vec_len buf.old }
    requires some { 0 < left }
    requires left { Now (λ s. place + left ≡ length s.seen) (D.model disk.old) }
    requires shows { Now (ShowsFrom place (drop start.old buf.old.items)) (D.model disk.old) }
    ensures next { IfOk result (λ next. Now (λ s. IsNext next (drop place s.seen)) (D.model disk.old)) }
    ensures taken { IfOk result (λ next. is_within next (length (drop start.new buf.new.items))) }
    ensures within { start.new ≤ vec_len buf.new }
    ensures shows { OnOk result (Now (ShowsFrom place (drop start.new buf.new.items)) (D.model disk.old)) }
    ensures same { D.model disk.new ≡ D.model disk.old }
    ensures counted { D.faults disk.old ≤ D.faults disk.new }
    ensures failed { result ≡ Err KeeperError.Failed → Rose (D.faults disk.old) (D.faults disk.new) }
{
    let few = left.min(10) as usize;
    fill(disk, buf, start, place, few)?;
    let need = wanted(rest_of(buf, *start), left).max(few);
    fill(disk, buf, start, place, need)?;
    Ok(parse(alloc, rest_of(buf, *start), left)?)
}

fn rest_of(buf: &[u8], start: usize) -> &[u8]
    requires { start ≤ length buf.now }
    ensures { result.now ≡ drop start buf.now }
{
    &buf[start..]
}

/// The tables of a file of so many bytes, and the place of the closed gate behind its frames.
pub(crate) fn read_frames<D: Disk>(
    alloc: Global,
    disk: &mut D,
    size: u64,
) -> Result<(Store, u64), OpenError>
    requires some { 2 ≤ size }
    requires size { Now (λ s. size ≡ length s.seen) (D.model disk.old) }
    ensures read { IfOk result (λ r. Now (λ s. IsRead s.seen r.0 r.1) (D.model disk.old)) }
    ensures bad { (at : ℕ) → result ≡ Err (OpenError.BadJournal at) → Now (λ s. IsBadAt at s.seen) (D.model disk.old) }
    ensures gate { IfOk result (λ r. r.1 < size) }
    ensures same { D.model disk.new ≡ D.model disk.old }
    ensures counted { D.faults disk.old ≤ D.faults disk.new }
    ensures failed { result ≡ Err OpenError.Failed → Rose (D.faults disk.old) (D.faults disk.new) }
{
    let mut store = Store::new(alloc);
    let mut buf = Vec::new(alloc);
    let mut start = 0;
    let mut place = 0;
    while place < size {
        match next_frame(alloc, disk, &mut buf, &mut start, place, size - place)? {
            Next::Closed => return Ok((store, place)),
            Next::Bad => return Err(OpenError::BadJournal { at: place }),
            Next::Frame(puts, taken) => {
                store.apply(alloc, &puts)?;
                start += taken as usize;
                place = place.saturating_add(taken);
            }
        }
    }
    // No disk that tells its bytes comes here: the gate behind a frame lies in the file.
    Err(OpenError::BadJournal { at: place })
}
