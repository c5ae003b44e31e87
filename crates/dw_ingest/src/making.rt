//! Tables that are made in memory.

ghost use Rattle.std.specs.Prelude.{◌≡◌, ◌≤◌, All, IfOk, OnOk, OnErr, map as list_map};
ghost use Rattle.std.specs.FinMap as map;
ghost use Rattle.dw_derive.specs.Entries.{event_of, slot_of};
ghost use Rattle.dw_derive.specs.Laws.{list_with, put_of, stepped};

use crate::OutOfMemory;
use crate::growing::{keep, more_uids, one_uid};
use dw_base::Bytes;
use dw_derive::{Entry, entries};
use dw_dict::Dict;
use dw_event::Event;
use dw_key::Uid;
use dw_outside::{Put, Slot, Store};
use std::alloc::Global;

/// What a slot of an index is to have, of cells that are made from nothing.
fn list_in(alloc: Global, batch: &Store, slot: &Slot, uid: &Uid) -> Result<Bytes, OutOfMemory>
    ensures { IfOk result (λ b. b ≡ list_with (map.get batch.now slot.now) uid.now) }
{
    match batch.get(slot) {
        None => one_uid(alloc, uid),
        Some(bytes) => more_uids(alloc, bytes.as_slice(), uid),
    }
}

fn put_in(alloc: Global, batch: &Store, slot: Slot, uid: &Uid) -> Result<Put, OutOfMemory>
    ensures put { IfOk result (λ p. p ≡ put_of batch.now uid.now slot) }
    ensures table { IfOk result (λ p. p.table ≡ slot.table) }
{
    let content = if slot.table == 0 {
        Bytes::new(alloc)
    } else {
        list_in(alloc, batch, &slot, uid)?
    };
    let Slot { table, key } = slot;
    Ok(Put {
        table,
        key,
        content,
    })
}

/// What is to stand in the slots of some entries.
pub fn puts_in(
    alloc: Global,
    batch: &Store,
    entries: &[Entry],
    uid: &Uid,
) -> Result<Vec<Put>, OutOfMemory>
    requires { All (λ n. n.table ≤ 3) entries.now }
    ensures fits { IfOk result (λ v. All (λ p. p.table ≤ 3) v.items) }
    ensures puts { IfOk result (λ v. v.items ≡ list_map (put_of batch.now uid.now) (list_map slot_of entries.now)) }
{
    let mut puts = Vec::new(alloc);
    for entry in entries {
        let slot = entry.slot(alloc)?;
        let put = put_in(alloc, batch, slot, uid)?;
        keep(&mut puts, put)?;
    }
    Ok(puts)
}

/// Adds the cells of an event to tables in memory. After an error the tables are as before.
pub fn put_event(
    alloc: Global,
    tables: &mut Store,
    dict: &Dict,
    event: &Event,
) -> Result<(), OutOfMemory>
    ensures ok { OnOk result (tables.new ≡ stepped dict.now (event_of event.now) tables.old) }
    ensures err { OnErr result (tables.new ≡ tables.old) }
{
    let entries = entries(alloc, event, dict)?;
    let puts = puts_in(alloc, tables, entries.as_slice(), &event.key.uid)?;
    tables.apply(alloc, puts.as_slice())?;
    Ok(())
}
