ghost use Rattle.std.specs.Prelude.{◌≡◌, ◌≢◌, ◌+◌, ◌-◌, ◌<◌, ◌≤◌, ◌^◌, ◌⊎◌, length, Some, IfOk, OnOk, OnErr, Err};
ghost use Rattle.std.specs.Option.{option_map};
ghost use Rattle.std.specs.FinMap as map;
ghost use Rattle.dw_event.specs.Take.{taken};
ghost use Rattle.dw_outside.specs.Faults.{Rose, one_more};
ghost use Rattle.dw_outside.specs.Tables.{HasFourTables, over};
ghost use Rattle.dw_derive.specs.Meta.{commit_slot, commit_bytes};
ghost use Rattle.dw_derive.specs.World.{World};
ghost use Rattle.dw_derive.specs.Tables.{tables};
ghost use Rattle.dw_derive.specs.Lawful.{IsWorld};
ghost use Rattle.dw_ingest.specs.Going.{AreWellFormed};
ghost use Rattle.dw_ingest.specs.Ingested.{Ingested, Asks, last_number};
ghost use Rattle.dw_outside.specs.declared.keeper_error.KeeperError.{KeeperError};

use crate::OutOfMemory;
use crate::growing::keep;
use crate::pending::{Pending, take_records};
use dw_derive::{commit_cell, numbers_are_cells};
use dw_dict::Dict;
use dw_event::{BadRecord, Record, Report, UidMaker};
use dw_outside::{Keeper, KeeperError, Store};
use std::alloc::Global;

/// The largest number of a batch.
pub const LAST_BATCH: u64 = 9_223_372_036_854_775_807;

/// Why a batch was not taken. The tables are as before.
#[derive(Clone, Copy, Debug, PartialEq, Eq)]
pub enum IngestError {
    /// The keeper failed.
    StoreFault,
    /// A record is new, and no batch number is left.
    Spent,
    OutOfMemory,
}

impl From<KeeperError> for IngestError {
    ghost use Rattle.dw_ingest.specs.Errors.{ingest_error};

    ghost from_gives = { λ k e. e ≡ ingest_error k };

    fn from(error: KeeperError) -> IngestError {
        match error {
            KeeperError::Failed => IngestError::StoreFault,
            KeeperError::OutOfMemory => IngestError::OutOfMemory,
        }
    }
}

/// Applies a batch, with its number as that of the last one.
fn store_batch<K: Keeper>(
    alloc: Global,
    keeper: &mut K,
    batch: &Store,
    number: u64,
) -> Result<(), KeeperError>
    requires number { number ≢ 0 }
    requires fits { HasFourTables batch.now }
    ensures ok { OnOk result (K.told keeper.new ≡ option_map (λ t. map.insert (over batch.now t) commit_slot (commit_bytes number)) (K.told keeper.old)) }
    ensures err { OnErr result (K.told keeper.new ≡ K.told keeper.old) }
    ensures asked { OnOk result (K.asked keeper.new ≡ option_map one_more (K.asked keeper.old)) }
    ensures asks { Asks (K.asked keeper.old) (K.asked keeper.new) }
    ensures counted { K.faults keeper.old ≤ K.faults keeper.new }
    ensures failed { result ≡ Err KeeperError.Failed → Rose (K.faults keeper.old) (K.faults keeper.new) }
{
    let mut puts = batch.puts(alloc)?;
    keep(&mut puts, commit_cell(alloc, number)?)?;
    keeper.apply(puts.as_slice())
}

/// Takes records in order, as the batch after the last one, all of them or none: one whose place is free is
/// new, one whose cells are held at its place, earlier stored or earlier in this call, is a repeat, and any
/// other clashes. The tables change by one `apply` at most, and by none where no record is new.
pub fn ingest<K: Keeper, U: UidMaker>(
    alloc: Global,
    keeper: &mut K,
    uids: &U,
    dict: &Dict,
    last: u64,
    records: &[Result<Record, BadRecord>],
) -> Result<Report, IngestError>
    requires last { last ≤ 2 ^ 63 - 1 }
    requires few { length records.now < 2 ^ 32 }
    // What is reported, and what the tables are, where the keeper tells those of a world.
    ensures ok { (w : World) → IsWorld w → w.dict ≡ dict.now → w.last ≡ last → AreWellFormed records.now → K.told keeper.old ≡ Some (tables w) → IfOk result (λ r. Ingested U.digest w records.now r (K.told keeper.new)) }
    ensures err { OnErr result (K.told keeper.new ≡ K.told keeper.old) }

    // It is spent exactly where a record is new and no number is left, once all reads succeeded.
    ensures spent { result ≡ Err IngestError.Spent → last ≡ last_number }
    ensures spent_new { (w : World) → IsWorld w → w.dict ≡ dict.now → w.last ≡ last → AreWellFormed records.now → K.told keeper.old ≡ Some (tables w) → result ≡ Err IngestError.Spent → (taken U.digest w.events w.last records.now).new ≢ 0 }
    ensures unspent { last ≡ last_number → IfOk result (λ r. r.new ≡ 0) }

    // One apply, or none where nothing is new.
    ensures asked { IfOk result (λ r. r.new ≢ 0 → K.asked keeper.new ≡ option_map one_more (K.asked keeper.old)) }
    ensures unasked { IfOk result (λ r. r.new ≡ 0 → K.asked keeper.new ≡ K.asked keeper.old) }
    ensures asks { Asks (K.asked keeper.old) (K.asked keeper.new) }
    ensures counted { K.faults keeper.old ≤ K.faults keeper.new }
    ensures fault { result ≡ Err IngestError.StoreFault → Rose (K.faults keeper.old) (K.faults keeper.new) }
{
    numbers_are_cells();
    let Pending { batch, news, tally } = take_records(
        alloc,
        keeper,
        uids,
        dict,
        last + 1,
        records,
    )?;
    drop(news);
    if tally.added == 0 {
        return Ok(tally.report(last));
    }
    if last == LAST_BATCH {
        return Err(IngestError::Spent);
    }
    store_batch(alloc, keeper, &batch, last + 1)?;
    Ok(tally.report(last + 1))
}
