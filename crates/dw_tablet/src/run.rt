ghost use Rattle.std.specs.Prelude.{true, ◌≡◌, ◌≤◌, ◌++◌, length, ◌∷◌, [], not, filter, take, drop, IfOk, OnOk, OnErr, map as list_map};
ghost use Rattle.dw_tablet.specs.Positions.{place_of};
ghost use Rattle.dw_tablet.specs.Places.{below, Ascends, between, onward, with_run, run_end};
ghost use Rattle.dw_tablet.specs.Fronts.{begins, with_front};

use crate::position::Position;
use crate::stored::{KeyReader, Stored};
use dw_base::{Bytes, OutOfMemory};
use dw_outside::Cell;
use std::alloc::Global;

/// The keys of some cells, read.
pub(crate) fn keys_of(alloc: Global, cells: Vec<Cell>) -> Result<Vec<Stored>, OutOfMemory>
    ensures { IfOk result (λ v. v.items ≡ list_map (λ c. c.key) cells.items) }
{
    let mut reader = KeyReader::new(alloc);
    let mut keys = Vec::with_capacity(alloc, cells.len())?;
    for cell in cells {
        keys.push(reader.read(cell.key)?)?;
    }
    Ok(keys)
}

/// Where a run ends: after its last key if it was cut, and else with the shard.
#[tactic(auto, using(crate::proofs::Ending::run_end_cut))]
pub(crate) fn run_end(
    alloc: Global,
    end: &Bytes,
    limit: u32,
    run: &[Stored],
) -> Result<Bytes, OutOfMemory>
    ensures { IfOk result (λ b. b ≡ run_end end.now limit run.now) }
{
    if limit == 0 || run.len() != limit as usize {
        return end.copy();
    }
    match run.last() {
        None => end.copy(),
        Some(key) => next_place(alloc, key.code()),
    }
}

/// The first place after a key.
fn next_place(alloc: Global, key: &[u8]) -> Result<Bytes, OutOfMemory>
    ensures { IfOk result (λ b. b ≡ key.now ++ 0 ∷ []) }
{
    let mut place = Vec::from_slice(alloc, key)?;
    place.push(0)?;
    Ok(Bytes::from_vec(place))
}

/// How many of some ascending keys stand before a place.
fn count_below(keys: &[Stored], position: &Position<'_>) -> usize
    requires { Ascends keys.now }
    ensures bound { result ≤ length keys.now }
    ensures front { take result keys.now ≡ filter (λ k. below k (place_of position.now)) keys.now }
    ensures back { drop result keys.now ≡ onward (place_of position.now) keys.now }
{
    keys.partition_point(|key| position.is_after(key.code()))
}

/// The keys from one place on and before another.
pub(crate) fn keys_between<'t>(
    keys: &'t [Stored],
    from: &Position<'_>,
    upto: &Position<'_>,
) -> &'t [Stored]
    requires { Ascends keys.now }
    ensures { result.now ≡ between (place_of from.now) (place_of upto.now) keys.now }
{
    let high = count_below(keys, upto);
    let front = &keys[..high];
    let low = count_below(front, from);
    &front[low..]
}

/// Those of some ascending keys that begin with some bytes.
pub(crate) fn keys_with_front<'t>(keys: &'t [Stored], front: &[u8]) -> &'t [Stored]
    requires { Ascends keys.now }
    ensures { result.now ≡ with_front front.now keys.now }
{
    let low = count_below(keys, &Position::At { place: front });
    let rest = &keys[low..];
    let count = rest.partition_point(|key| key.code().starts_with(front));
    &rest[..count]
}

/// Puts the keys of a run in place of those from `from` on and before `upto`. After an error all keys are as
/// before.
#[tactic(auto, using(crate::proofs::Searching::run_put))]
pub(crate) fn put_run(
    keys: &mut Vec<Stored>,
    from: &[u8],
    upto: &[u8],
    run: Vec<Stored>,
) -> Result<(), OutOfMemory>
    requires ascends { Ascends keys.old.items }
    requires long { below from.now upto.now ≡ true }
    ensures ok { OnOk result (keys.new.items ≡ with_run from.now upto.now run.items keys.old.items) }
    ensures err { OnErr result (keys.new.items ≡ keys.old.items) }
{
    let mut run = run;
    let low = count_below(keys.as_slice(), &Position::At { place: from });
    let high = count_below(keys.as_slice(), &Position::At { place: upto });
    keys.reserve(run.len())?;
    let mut tail = keys.split_off(high)?;
    keys.truncate(low);
    keys.append(&mut run)?;
    keys.append(&mut tail)?;
    Ok(())
}
