ghost use Rattle.std.specs.Prelude.{◌≡◌, ◌+◌, ◌-◌, ◌<◌, ◌≤◌, ◌^◌, ◌∷◌, [], length, Some, None, Ok, IfOk, OnOk, Err};
ghost use Rattle.std.specs.FinMap as map;
ghost use Rattle.std.specs.BTreeMap.{insert_entry};
ghost use Rattle.dw_key.specs.KeyCode.{AreBytes};
ghost use Rattle.dw_event.specs.Places.{place_cmp, place_of};
ghost use Rattle.dw_event.specs.Records.{IsWellFormed};
ghost use Rattle.dw_event.specs.Take.{Taken, none_taken, with_record, with_records};
ghost use Rattle.dw_outside.specs.Faults.{Rose};
ghost use Rattle.dw_outside.specs.Tables.{Tables, HasFourTables, over};
ghost use Rattle.dw_outside.specs.declared.keeper_error.KeeperError.{KeeperError};
ghost use Rattle.dw_derive.specs.UidLists.{IsUid};
ghost use Rattle.dw_derive.specs.World.{World};
ghost use Rattle.dw_derive.specs.Tables.{tables};
ghost use Rattle.dw_derive.specs.Laws.{stepped};
ghost use Rattle.dw_derive.specs.Lawful.{HasEvents};
ghost use Rattle.dw_ingest.specs.Going.{Going, AreWellFormed};

use crate::OutOfMemory;
use crate::growing::add_event;
use crate::standing::{Standing, compare_at};
use crate::tally::Tally;
use dw_derive::{documents_are_read, events_are_steps};
use dw_dict::Dict;
use dw_event::{BadReason, BadRecord, Event, Held, Place, Record, UidMaker, place};
use dw_key::Uid;
use dw_outside::{Keeper, KeeperError, Store};
use std::alloc::Global;
use std::collections::BTreeMap;

/// A batch that is not yet applied: what is to stand in its slots, the events that it brings, and what has
/// become of its records.
#[derive(Drop)]
pub struct Pending {
    pub batch: Store,
    pub news: BTreeMap<Place, Held>,
    pub tally: Tally,
}

impl Pending {
    /// Takes no memory.
    pub fn new(alloc: Global) -> Pending
        ensures batch { result.batch ≡ map.empty }
        ensures news { result.news.entries ≡ [] }
        ensures tally { result.tally ≡ record { at = 0; added = 0; repeat = 0; bad = [] } }
    {
        Pending {
            batch: Store::new(alloc),
            news: BTreeMap::new(alloc),
            tally: Tally::new(alloc),
        }
    }
}

/// What a slice of bytes holds fits a byte, by its type.
fn are_bytes(bytes: &[u8])
    ensures { AreBytes bytes.now }
{
    let _len = bytes.len();
}

/// A uid is 32 bytes, by its type.
fn uid_is_whole(uid: &Uid)
    ensures { IsUid uid.now }
{
    are_bytes(uid.as_slice());
}

fn keep_new(news: &mut BTreeMap<Place, Held>, place: Place, held: Held) -> Result<(), OutOfMemory>
    ensures { OnOk result (news.new.entries ≡ insert_entry place_cmp news.old.entries place held) }
{
    news.insert(place, held)?;
    Ok(())
}

/// Adds an event whose place is free.
fn add_new<K: Keeper>(
    alloc: Global,
    keeper: &mut K,
    dict: &Dict,
    number: u64,
    rec: &Record,
    place: Place,
    pending: &mut Pending,
) -> Result<(), KeeperError>
    requires at { pending.old.tally.at < 2 ^ 32 - 1 }
    requires added { pending.old.tally.added < 2 ^ 32 - 1 }
    ensures same { K.told keeper.new ≡ K.told keeper.old }
    ensures batch { (t : Tables) → K.told keeper.old ≡ Some t → OnOk result (over pending.new.batch t ≡ stepped dict.now (place, record { cells = rec.now.cells; batch = number }) (over pending.old.batch t)) }
    ensures fits { HasFourTables pending.old.batch → OnOk result (HasFourTables pending.new.batch) }
    ensures news { OnOk result (pending.new.news.entries ≡ insert_entry place_cmp pending.old.news.entries place (record { cells = rec.now.cells; batch = number })) }
    ensures tally { OnOk result (pending.new.tally ≡ record pending.old.tally { at = pending.old.tally.at + 1; added = pending.old.tally.added + 1 }) }
    ensures unasked { K.asked keeper.new ≡ K.asked keeper.old }
    ensures counted { K.faults keeper.old ≤ K.faults keeper.new }
    ensures failed { result ≡ Err KeeperError.Failed → Rose (K.faults keeper.old) (K.faults keeper.new) }
{
    let event = Event {
        shard: place.shard.copy()?,
        key: place.key,
        cells: rec.cells.copy()?,
        batch: number,
    };
    add_event(alloc, keeper, &mut pending.batch, dict, &event)?;
    let held = Held {
        cells: event.cells,
        batch: number,
    };
    keep_new(&mut pending.news, place, held)?;
    pending.tally.count_new();
    Ok(())
}

/// Takes a record that was read.
fn take_read<K: Keeper, U: UidMaker>(
    alloc: Global,
    keeper: &mut K,
    uids: &U,
    dict: &Dict,
    number: u64,
    rec: &Record,
    pending: &mut Pending,
) -> Result<(), KeeperError>
    requires at { pending.old.tally.at < 2 ^ 32 - 1 }
    requires added { pending.old.tally.added < 2 ^ 32 - 1 }
    requires repeat { pending.old.tally.repeat < 2 ^ 32 - 1 }
    requires number { 1 ≤ number }
    ensures same { K.told keeper.new ≡ K.told keeper.old }
    ensures going { (w : World) (so_far : Taken) (t : Tables) → K.told keeper.old ≡ Some t → t ≡ tables w → w.dict ≡ dict.now → HasEvents w → IsWellFormed rec.now → Going w so_far t pending.old → OnOk result (Going w (with_record U.digest number so_far (Ok rec.now)) t pending.new) }
    ensures fits { HasFourTables pending.old.batch → OnOk result (HasFourTables pending.new.batch) }
    ensures at { OnOk result (pending.new.tally.at ≡ pending.old.tally.at + 1) }
    ensures added { OnOk result (pending.new.tally.added ≤ pending.old.tally.added + 1) }
    ensures repeat { OnOk result (pending.new.tally.repeat ≤ pending.old.tally.repeat + 1) }
    ensures unasked { K.asked keeper.new ≡ K.asked keeper.old }
    ensures counted { K.faults keeper.old ≤ K.faults keeper.new }
    ensures failed { result ≡ Err KeeperError.Failed → Rose (K.faults keeper.old) (K.faults keeper.new) }
{
    documents_are_read();
    events_are_steps();
    let place = place(alloc, uids, rec)?;
    uid_is_whole(&place.key.uid);
    match compare_at(alloc, keeper, &pending.news, &place, &rec.cells)? {
        Standing::Free => add_new(alloc, keeper, dict, number, rec, place, pending)?,
        Standing::Same => pending.tally.count_repeat(),
        Standing::Other => pending.tally.count_bad(BadReason::Clash { place })?,
    }
    Ok(())
}

/// Takes one record, or reports the rule that it breaks.
fn take_record<K: Keeper, U: UidMaker>(
    alloc: Global,
    keeper: &mut K,
    uids: &U,
    dict: &Dict,
    number: u64,
    rec: &Result<Record, BadRecord>,
    pending: &mut Pending,
) -> Result<(), KeeperError>
    requires at { pending.old.tally.at < 2 ^ 32 - 1 }
    requires added { pending.old.tally.added < 2 ^ 32 - 1 }
    requires repeat { pending.old.tally.repeat < 2 ^ 32 - 1 }
    requires number { 1 ≤ number }
    ensures same { K.told keeper.new ≡ K.told keeper.old }
    ensures going { (w : World) (so_far : Taken) (t : Tables) → K.told keeper.old ≡ Some t → t ≡ tables w → w.dict ≡ dict.now → HasEvents w → IfOk rec.now IsWellFormed → Going w so_far t pending.old → OnOk result (Going w (with_record U.digest number so_far rec.now) t pending.new) }
    ensures fits { HasFourTables pending.old.batch → OnOk result (HasFourTables pending.new.batch) }
    ensures at { OnOk result (pending.new.tally.at ≡ pending.old.tally.at + 1) }
    ensures added { OnOk result (pending.new.tally.added ≤ pending.old.tally.added + 1) }
    ensures repeat { OnOk result (pending.new.tally.repeat ≤ pending.old.tally.repeat + 1) }
    ensures unasked { K.asked keeper.new ≡ K.asked keeper.old }
    ensures counted { K.faults keeper.old ≤ K.faults keeper.new }
    ensures failed { result ≡ Err KeeperError.Failed → Rose (K.faults keeper.old) (K.faults keeper.new) }
{
    match rec {
        Ok(rec) => take_read(alloc, keeper, uids, dict, number, rec, pending),
        Err(rule) => {
            pending.tally.count_bad(BadReason::Rule { rule: *rule })?;
            Ok(())
        }
    }
}

/// Takes records one after another.
pub fn take_records<K: Keeper, U: UidMaker>(
    alloc: Global,
    keeper: &mut K,
    uids: &U,
    dict: &Dict,
    number: u64,
    records: &[Result<Record, BadRecord>],
) -> Result<Pending, KeeperError>
    requires few { length records.now < 2 ^ 32 }
    requires number { 1 ≤ number }
    ensures same { K.told keeper.new ≡ K.told keeper.old }
    ensures going { (w : World) (t : Tables) → K.told keeper.old ≡ Some t → t ≡ tables w → w.dict ≡ dict.now → HasEvents w → AreWellFormed records.now → IfOk result (λ p. Going w (with_records U.digest number (none_taken w.events) records.now) t p) }
    ensures fits { IfOk result (λ p. HasFourTables p.batch) }
    ensures unasked { K.asked keeper.new ≡ K.asked keeper.old }
    ensures counted { K.faults keeper.old ≤ K.faults keeper.new }
    ensures failed { result ≡ Err KeeperError.Failed → Rose (K.faults keeper.old) (K.faults keeper.new) }
{
    let mut pending = Pending::new(alloc);
    for rec in records {
        take_record(alloc, keeper, uids, dict, number, rec, &mut pending)?;
    }
    Ok(pending)
}
