ghost use Rattle.std.specs.Prelude.{◌≡◌, ◌↔◌, ◌≤◌, [], true, Some, IfOk, Err, map as list_map};
ghost use Rattle.dw_outside.specs.Faults.{Rose};
ghost use Rattle.dw_outside.specs.Tables.{Tables, cell_pair, span_of};
ghost use Rattle.dw_outside.specs.declared.keeper_error.KeeperError.{KeeperError};
ghost use Rattle.dw_audit.specs.Comparing.{IsCompared};
ghost use Rattle.dw_audit.specs.Sound.{AreSound, TellsWorld};
ghost use Rattle.dw_audit.specs.WorldOf.{world_of};
ghost use Rattle.dw_audit.specs.Found.{IsVerdict, IsReady, IsJudged, damaged_at};
ghost use Rattle.dw_audit.specs.declared.verdict.Verdict.{Verdict};

use crate::OutOfMemory;
use crate::comparing::{Difference, first_difference};
use crate::making::newer_tables;
use crate::runs::compare_lists;
use crate::verdict::Verdict;
use dw_key::codes_tell_keys;
use dw_outside::{Cell, Keeper, KeeperError, Store};
use std::alloc::Global;

/// Compares a table that was read with the one that is wanted.
fn compare(
    alloc: Global,
    table: u8,
    lists: bool,
    cells: &[Cell],
    wanted: &Store,
) -> Result<Option<Difference>, OutOfMemory>
    requires { table ≤ 3 }
    ensures { (t : Tables) → list_map cell_pair cells.now ≡ span_of table [] [] t → IfOk result (λ o. IsCompared lists table t wanted.now o) }
{
    let others = wanted.span(alloc, table, b"", b"", 0)?;
    first_difference(alloc, lists, cells, others.as_slice())
}

fn damaged(table: u8, difference: Difference) -> Verdict
    ensures { result ≡ damaged_at table difference }
{
    let Difference { key, found, wanted } = difference;
    Verdict::Damaged {
        table,
        key,
        found,
        wanted,
    }
}

/// Whether the tables of a keeper are those of the world that they stand for, or else where they first differ
/// from them, by table and then by key. The tables are left as they are.
pub fn audit<K: Keeper>(alloc: Global, keeper: &mut K) -> Result<Verdict, KeeperError>
    ensures same { K.told keeper.new ≡ K.told keeper.old }
    // Sound exactly where the tables are those of their world, so that the keeper tells a lawful world's,
    ensures sound { (t : Tables) → K.told keeper.old ≡ Some t → IfOk result (λ v. (v ≡ Verdict.Sound) ↔ AreSound t) }
    ensures world { (t : Tables) → K.told keeper.old ≡ Some t → IfOk result (λ v. v ≡ Verdict.Sound → TellsWorld (world_of t) (K.told keeper.new)) }
    // and else the first difference.
    ensures verdict { (t : Tables) → K.told keeper.old ≡ Some t → IfOk result (λ v. IsVerdict t v) }
    ensures unasked { K.asked keeper.new ≡ K.asked keeper.old }
    ensures counted { K.faults keeper.old ≤ K.faults keeper.new }
    ensures failed { result ≡ Err KeeperError.Failed → Rose (K.faults keeper.old) (K.faults keeper.new) }
{
    let verdict = judge(alloc, keeper)?;
    Ok(verdict)
}

/// The same, with what each result says in one clause.
fn judge<K: Keeper>(alloc: Global, keeper: &mut K) -> Result<Verdict, KeeperError>
    ensures same { K.told keeper.new ≡ K.told keeper.old }
    ensures verdict { (t : Tables) → K.told keeper.old ≡ Some t → IfOk result (λ v. IsVerdict t v) }
    ensures unasked { K.asked keeper.new ≡ K.asked keeper.old }
    ensures counted { K.faults keeper.old ≤ K.faults keeper.new }
    ensures failed { result ≡ Err KeeperError.Failed → Rose (K.faults keeper.old) (K.faults keeper.new) }
{
    codes_tell_keys();
    let meta = keeper.scan(3, b"", b"", 0)?;
    let shard = keeper.scan(0, b"", b"", 0)?;
    let wanted = newer_tables(alloc, shard.as_slice(), meta.as_slice())?;
    let difference = compare(alloc, 0, false, shard.as_slice(), &wanted)?;
    drop(shard);
    match difference {
        None => judge_indexes(alloc, keeper, meta.as_slice(), &wanted),
        Some(difference) => Ok(damaged(0, difference)),
    }
}

/// The verdict, where the table before the indexes is as it is wanted.
fn judge_indexes<K: Keeper>(
    alloc: Global,
    keeper: &mut K,
    meta: &[Cell],
    wanted: &Store,
) -> Result<Verdict, KeeperError>
    ensures same { K.told keeper.new ≡ K.told keeper.old }
    ensures verdict { (t : Tables) → K.told keeper.old ≡ Some t → list_map cell_pair meta.now ≡ span_of 3 [] [] t → IsReady t wanted.now 1 → IfOk result (λ v. IsVerdict t v) }
    ensures unasked { K.asked keeper.new ≡ K.asked keeper.old }
    ensures counted { K.faults keeper.old ≤ K.faults keeper.new }
    ensures failed { result ≡ Err KeeperError.Failed → Rose (K.faults keeper.old) (K.faults keeper.new) }
{
    if let Some(verdict) = judge_index(alloc, keeper, 1, wanted)? {
        return Ok(verdict);
    }
    match judge_index(alloc, keeper, 2, wanted)? {
        None => Ok(judge_meta(alloc, meta, wanted)?),
        Some(verdict) => Ok(verdict),
    }
}

/// The verdict, where the tables before an index are as they are wanted and the index is not.
fn judge_index<K: Keeper>(
    alloc: Global,
    keeper: &mut K,
    table: u8,
    wanted: &Store,
) -> Result<Option<Verdict>, KeeperError>
    requires above { 1 ≤ table }
    requires below { table ≤ 2 }
    ensures same { K.told keeper.new ≡ K.told keeper.old }
    ensures judged { (t : Tables) → K.told keeper.old ≡ Some t → IsReady t wanted.now table → IfOk result (λ o. IsJudged t wanted.now table o) }
    ensures unasked { K.asked keeper.new ≡ K.asked keeper.old }
    ensures counted { K.faults keeper.old ≤ K.faults keeper.new }
    ensures failed { result ≡ Err KeeperError.Failed → Rose (K.faults keeper.old) (K.faults keeper.new) }
{
    codes_tell_keys();
    match compare_lists(alloc, keeper, table, wanted)? {
        None => Ok(None),
        Some(difference) => Ok(Some(damaged(table, difference))),
    }
}

/// The verdict, where the three tables before are as they are wanted.
fn judge_meta(alloc: Global, meta: &[Cell], wanted: &Store) -> Result<Verdict, OutOfMemory>
    ensures { (t : Tables) → list_map cell_pair meta.now ≡ span_of 3 [] [] t → IsReady t wanted.now 3 → IfOk result (λ v. IsVerdict t v) }
{
    codes_tell_keys();
    match compare(alloc, 3, false, meta, wanted)? {
        None => Ok(Verdict::Sound),
        Some(difference) => Ok(damaged(3, difference)),
    }
}
