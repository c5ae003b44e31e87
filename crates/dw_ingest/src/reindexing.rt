ghost use Rattle.std.specs.Prelude.{◌≡◌, ◌≤◌, ◌⊎◌, All, IfOk, OnOk, OnErr, Some, Err, map as list_map};
ghost use Rattle.std.specs.Option.{option_map};
ghost use Rattle.std.specs.FinMap as map;
ghost use Rattle.dw_dict.specs.Rules.{Widens};
ghost use Rattle.dw_dict.specs.Dictionary.{rule_of};
ghost use Rattle.dw_outside.specs.Faults.{Rose, one_more};
ghost use Rattle.dw_outside.specs.Tables.{HasFourTables, over};
ghost use Rattle.dw_outside.specs.declared.keeper_error.KeeperError.{KeeperError};
ghost use Rattle.dw_derive.specs.Entries.{event_of, slot_of};
ghost use Rattle.dw_derive.specs.Laws.{list_with, put_of};
ghost use Rattle.dw_derive.specs.Meta.{field_slot, rule_bytes};
ghost use Rattle.dw_derive.specs.World.{World};
ghost use Rattle.dw_derive.specs.Tables.{tables};
ghost use Rattle.dw_derive.specs.Lawful.{HasEvents, IsWorld};
ghost use Rattle.dw_derive.specs.Indexing.{slots_added, index_stepped, all_stepped, added_tables};
ghost use Rattle.dw_ingest.specs.Ingested.{Asks};
ghost use Rattle.dw_ingest.specs.Reindexed.{Reindexed, adds_cells, with_rule_read};

use crate::OutOfMemory;
use crate::growing::keep;
use crate::making::puts_in;
use dw_derive::{
    added_are_new, entries_added, events_are_gathered, events_of, field_cell, indexes_are_added,
    indexes_are_steps, wider_rules_keep_worlds,
};
use dw_dict::{Dict, FieldRule};
use dw_event::{Event, Held, Place};
use dw_outside::{Keeper, KeeperError, Store};
use std::alloc::Global;
use std::collections::BTreeMap;

/// Why a rule was not stored. The tables are as before.
#[derive(Clone, Copy, Debug, PartialEq, Eq)]
pub enum ReindexError {
    /// The keeper failed.
    StoreFault,
    OutOfMemory,
}

impl From<KeeperError> for ReindexError {
    ghost use Rattle.dw_ingest.specs.Errors.{reindex_error};

    ghost from_gives = { λ k e. e ≡ reindex_error k };

    fn from(error: KeeperError) -> ReindexError {
        match error {
            KeeperError::Failed => ReindexError::StoreFault,
            KeeperError::OutOfMemory => ReindexError::OutOfMemory,
        }
    }
}

/// Adds the cells that a field's new rule adds for an event.
fn add_index(
    alloc: Global,
    batch: &mut Store,
    field: &str,
    old: FieldRule,
    rule: FieldRule,
    event: &Event,
) -> Result<(), OutOfMemory>
    ensures batch { OnOk result (batch.new ≡ index_stepped (slots_added field.now old rule) (event_of event.now) batch.old) }
    ensures fits { HasFourTables batch.old → OnOk result (HasFourTables batch.new) }
{
    let entries = entries_added(alloc, event, field, old, rule)?;
    let puts = puts_in(alloc, batch, entries.as_slice(), &event.key.uid)?;
    batch.apply(alloc, puts.as_slice())?;
    Ok(())
}

pub fn event_at(place: Place, held: Held) -> Event
    ensures { event_of result ≡ (place, held) }
{
    Event {
        shard: place.shard,
        key: place.key,
        cells: held.cells,
        batch: held.batch,
    }
}

/// The cells that a field's new rule adds for all events.
fn index_of(
    alloc: Global,
    events: BTreeMap<Place, Held>,
    field: &str,
    old: FieldRule,
    rule: FieldRule,
) -> Result<Store, OutOfMemory>
    ensures batch { IfOk result (λ b. b ≡ all_stepped (slots_added field.now old rule) events.entries map.empty) }
    ensures fits { IfOk result HasFourTables }
{
    let mut left = events;
    let mut batch = Store::new(alloc);
    while let Some((place, held)) = left.pop_first() {
        let event = event_at(place, held);
        add_index(alloc, &mut batch, field, old, rule, &event)?;
    }
    Ok(batch)
}

/// Whether a rule adds cells to the indexes, beside those of the old one.
fn adds(old: FieldRule, rule: FieldRule) -> bool
    ensures { result ≡ adds_cells old rule }
{
    (rule.indexed && !old.indexed) || (rule.reversed && !old.reversed)
}

/// The cells that a field's new rule adds to the tables, by one read of table 0, or by none where it adds none.
fn added<K: Keeper>(
    alloc: Global,
    keeper: &mut K,
    dict: &Dict,
    field: &str,
    rule: FieldRule,
) -> Result<Store, KeeperError>
    ensures same { K.told keeper.new ≡ K.told keeper.old }
    ensures added { (w : World) → HasEvents w → w.dict ≡ dict.now → Widens rule (rule_of dict.now field.now) → K.told keeper.old ≡ Some (tables w) → IfOk result (λ b. b ≡ added_tables w field.now rule) }
    ensures fits { IfOk result HasFourTables }
    ensures read { OnOk result (K.reads keeper.new ≡ with_rule_read (rule_of dict.now field.now) rule (K.reads keeper.old)) }
    ensures unread { OnErr result ((K.reads keeper.new ≡ K.reads keeper.old) ⊎ (K.reads keeper.new ≡ with_rule_read (rule_of dict.now field.now) rule (K.reads keeper.old))) }
    ensures unasked { K.asked keeper.new ≡ K.asked keeper.old }
    ensures counted { K.faults keeper.old ≤ K.faults keeper.new }
    ensures failed { result ≡ Err KeeperError.Failed → Rose (K.faults keeper.old) (K.faults keeper.new) }
{
    events_are_gathered();
    indexes_are_steps();
    let old = dict.look(field);
    if !adds(old, rule) {
        return Ok(Store::new(alloc));
    }
    let cells = keeper.scan(0, b"", b"", 0)?;
    let events = events_of(alloc, cells.as_slice())?;
    let batch = index_of(alloc, events, field, old, rule)?;
    Ok(batch)
}

/// Applies the cells of indexes, with that of the rule, and gives how many they are without it.
fn store_rule<K: Keeper>(
    alloc: Global,
    keeper: &mut K,
    batch: &Store,
    field: &str,
    rule: FieldRule,
) -> Result<u64, KeeperError>
    requires { HasFourTables batch.now }
    ensures ok { OnOk result (K.told keeper.new ≡ option_map (λ t. map.insert (over batch.now t) (field_slot field.now) (rule_bytes rule)) (K.told keeper.old)) }
    ensures count { IfOk result (λ n. n ≡ map.len batch.now) }
    ensures err { OnErr result (K.told keeper.new ≡ K.told keeper.old) }
    ensures reads { K.reads keeper.new ≡ K.reads keeper.old }
    ensures asked { OnOk result (K.asked keeper.new ≡ option_map one_more (K.asked keeper.old)) }
    ensures asks { Asks (K.asked keeper.old) (K.asked keeper.new) }
    ensures counted { K.faults keeper.old ≤ K.faults keeper.new }
    ensures failed { result ≡ Err KeeperError.Failed → Rose (K.faults keeper.old) (K.faults keeper.new) }
{
    let mut puts = batch.puts(alloc)?;
    let count = puts.as_slice().len() as u64;
    keep(&mut puts, field_cell(alloc, field, rule)?)?;
    keeper.apply(puts.as_slice())?;
    Ok(count)
}

/// Gives a field a rule that is at least as wide as the one that it had: the cells that the rule adds for all
/// events are stored by one `apply`, with that of the rule. Gives how many cells are new in the tables 0 to 2.
pub fn reindex<K: Keeper>(
    alloc: Global,
    keeper: &mut K,
    dict: &Dict,
    field: &str,
    rule: FieldRule,
) -> Result<u64, ReindexError>
    requires { Widens rule (rule_of dict.now field.now) }
    ensures ok { (w : World) → IsWorld w → w.dict ≡ dict.now → K.told keeper.old ≡ Some (tables w) → IfOk result (λ n. Reindexed w field.now rule n (K.told keeper.new)) }
    ensures err { OnErr result (K.told keeper.new ≡ K.told keeper.old) }

    // Table 0 is read whole, and once, where the rule adds cells, and nothing else is.
    ensures read { OnOk result (K.reads keeper.new ≡ with_rule_read (rule_of dict.now field.now) rule (K.reads keeper.old)) }
    ensures unread { OnErr result ((K.reads keeper.new ≡ K.reads keeper.old) ⊎ (K.reads keeper.new ≡ with_rule_read (rule_of dict.now field.now) rule (K.reads keeper.old))) }
    ensures asked { OnOk result (K.asked keeper.new ≡ option_map one_more (K.asked keeper.old)) }
    ensures asks { Asks (K.asked keeper.old) (K.asked keeper.new) }
    ensures counted { K.faults keeper.old ≤ K.faults keeper.new }
    ensures fault { result ≡ Err ReindexError.StoreFault → Rose (K.faults keeper.old) (K.faults keeper.new) }
{
    indexes_are_added();
    added_are_new();
    wider_rules_keep_worlds();
    let batch = added(alloc, keeper, dict, field, rule)?;
    let count = store_rule(alloc, keeper, &batch, field, rule)?;
    Ok(count)
}
