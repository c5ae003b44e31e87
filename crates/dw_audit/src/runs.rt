//! Tables of lists, compared run by run.

ghost use Rattle.std.specs.Prelude.{◌≡◌, ◌≤◌, ◌<◌, ◌++◌, ◌∷◌, [], true, length, Some, IfOk, IfSome, Err, map as list_map};
ghost use Rattle.dw_outside.specs.Faults.{Rose};
ghost use Rattle.dw_outside.specs.Tables.{Tables, span_of};
ghost use Rattle.dw_outside.specs.declared.keeper_error.KeeperError.{KeeperError};
ghost use Rattle.dw_audit.specs.Comparing.{IsCompared};
ghost use Rattle.dw_audit.specs.Runs.{IsNext, IsRun};

use crate::OutOfMemory;
use crate::comparing::{Difference, first_difference};
use dw_base::Bytes;
use dw_outside::{Cell, Keeper, KeeperError, Store};
use std::alloc::Global;

/// How many cells a run has at most.
const RUN: u32 = 1_024;

/// The first key past a key: the key and a byte 0.
fn past(alloc: Global, key: &[u8]) -> Result<Bytes, OutOfMemory>
    ensures { IfOk result (λ b. b ≡ key.now ++ 0 ∷ []) }
{
    let mut all = Vec::from_slice(alloc, key)?;
    all.push(0)?;
    Ok(Bytes::from_vec(all))
}

/// Where the next run begins, or None after the last one, which has fewer cells.
fn next_of(alloc: Global, run: &[Cell]) -> Result<Option<Bytes>, OutOfMemory>
    ensures { IfOk result (λ o. IsNext run.now o) }
{
    if run.len() < RUN as usize {
        return Ok(None);
    }
    match run.split_last() {
        None => Ok(None),
        Some((cell, _)) => Ok(Some(past(alloc, cell.key.as_slice())?)),
    }
}

/// Compares one run: the first difference in it, or else where the next one begins.
fn compare_run<K: Keeper>(
    alloc: Global,
    keeper: &mut K,
    table: u8,
    wanted: &Store,
    from: &[u8],
) -> Result<(Option<Difference>, Option<Bytes>), KeeperError>
    requires { table ≤ 3 }
    ensures same { K.told keeper.new ≡ K.told keeper.old }
    ensures run { (t : Tables) → K.told keeper.old ≡ Some t → IfOk result (λ p. IsRun table from.now t wanted.now p.0 p.1) }
    ensures less { IfOk result (λ p. IfSome p.1 (λ next. length (span_of table next [] wanted.now) < length (span_of table from.now [] wanted.now))) }
    ensures unasked { K.asked keeper.new ≡ K.asked keeper.old }
    ensures counted { K.faults keeper.old ≤ K.faults keeper.new }
    ensures failed { result ≡ Err KeeperError.Failed → Rose (K.faults keeper.old) (K.faults keeper.new) }
{
    let found = keeper.scan(table, from, b"", RUN)?;
    let others = wanted.span(alloc, table, from, b"", RUN)?;
    match first_difference(alloc, true, found.as_slice(), others.as_slice())? {
        Some(difference) => Ok((Some(difference), None)),
        None => {
            let next = next_of(alloc, others.as_slice())?;
            Ok((None, next))
        }
    }
}

/// Reads a table of lists in runs, each once, and compares it with the one that is wanted.
pub fn compare_lists<K: Keeper>(
    alloc: Global,
    keeper: &mut K,
    table: u8,
    wanted: &Store,
) -> Result<Option<Difference>, KeeperError>
    requires { table ≤ 3 }
    ensures same { K.told keeper.new ≡ K.told keeper.old }
    ensures compared { (t : Tables) → K.told keeper.old ≡ Some t → IfOk result (λ o. IsCompared true table t wanted.now o) }
    ensures unasked { K.asked keeper.new ≡ K.asked keeper.old }
    ensures counted { K.faults keeper.old ≤ K.faults keeper.new }
    ensures failed { result ≡ Err KeeperError.Failed → Rose (K.faults keeper.old) (K.faults keeper.new) }
{
    let mut from = Bytes::new(alloc);
    'runs: loop {
        let (difference, next) = compare_run(alloc, keeper, table, wanted, from.as_slice())?;
        match next {
            None => return Ok(difference),
            Some(key) => from = key,
        }
    }
}
