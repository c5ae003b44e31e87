ghost use Rattle.std.specs.Prelude.{◌≡◌, ◌≤◌, ◌++◌, ◌∷◌, [], All, IfOk, OnOk, Some, Err, map as list_map};
ghost use Rattle.std.specs.FinMap as map;
ghost use Rattle.dw_base.specs.Ascending.{set_of};
ghost use Rattle.dw_outside.specs.Faults.{Rose};
ghost use Rattle.dw_outside.specs.Tables.{Tables, HasFourTables, applied, over};
ghost use Rattle.dw_outside.specs.declared.keeper_error.KeeperError.{KeeperError};
ghost use Rattle.dw_derive.specs.Entries.{event_of, entries_of, entry_cmp, slot_of};
ghost use Rattle.dw_derive.specs.Laws.{list_of_one, list_with, grown, put_of, stepped};

use dw_base::{Bytes, OutOfMemory};
use dw_derive::{BadList, Entry, Form, UidList, decode_list, encode_list, entries};
use dw_dict::Dict;
use dw_event::Event;
use dw_key::Uid;
use dw_outside::{Keeper, KeeperError, Put, Slot, Store, batches_are_tables, read_cell};
use std::alloc::Global;

/// The bytes of the list of one uid.
pub fn one_uid(alloc: Global, uid: &Uid) -> Result<Bytes, OutOfMemory>
    ensures { IfOk result (λ b. b ≡ list_of_one uid.now) }
{
    encode_list(alloc, &UidList::one(alloc, *uid)?, Form::Two)
}

/// The bytes of a list with one uid more, in the form that it has. Bytes that are no list count for nothing.
pub fn more_uids(alloc: Global, bytes: &[u8], uid: &Uid) -> Result<Bytes, OutOfMemory>
    ensures { IfOk result (λ b. b ≡ list_with (Some bytes.now) uid.now) }
{
    match decode_list(alloc, bytes) {
        Ok((form, list)) => encode_list(alloc, &list.add(*uid, form)?, form),
        Err(BadList::OutOfMemory) => Err(OutOfMemory),
        Err(BadList::Form) => one_uid(alloc, uid),
        Err(BadList::Cut) => one_uid(alloc, uid),
        Err(BadList::Count) => one_uid(alloc, uid),
        Err(BadList::Order) => one_uid(alloc, uid),
        Err(BadList::Tail) => one_uid(alloc, uid),
    }
}

fn list_of(alloc: Global, before: Option<Bytes>, uid: &Uid) -> Result<Bytes, OutOfMemory>
    ensures { IfOk result (λ b. b ≡ list_with before uid.now) }
{
    match before {
        None => one_uid(alloc, uid),
        Some(bytes) => more_uids(alloc, bytes.as_slice(), uid),
    }
}

/// What stands in a slot once the batch is applied.
fn read_over<K: Keeper>(
    alloc: Global,
    keeper: &mut K,
    batch: &Store,
    slot: &Slot,
) -> Result<Option<Bytes>, KeeperError>
    requires { slot.now.table ≤ 3 }
    ensures same { K.told keeper.new ≡ K.told keeper.old }
    ensures content { (t : Tables) → K.told keeper.old ≡ Some t → IfOk result (λ o. o ≡ map.get (over batch.now t) slot.now) }
    ensures unasked { K.asked keeper.new ≡ K.asked keeper.old }
    ensures counted { K.faults keeper.old ≤ K.faults keeper.new }
    ensures failed { result ≡ Err KeeperError.Failed → Rose (K.faults keeper.old) (K.faults keeper.new) }
{
    match batch.get(slot) {
        Some(bytes) => Ok(Some(bytes.copy()?)),
        None => read_cell(alloc, keeper, slot),
    }
}

/// What a slot of an index is to have.
fn list_for<K: Keeper>(
    alloc: Global,
    keeper: &mut K,
    batch: &Store,
    slot: &Slot,
    uid: &Uid,
) -> Result<Bytes, KeeperError>
    requires { slot.now.table ≤ 3 }
    ensures same { K.told keeper.new ≡ K.told keeper.old }
    ensures list { (t : Tables) → K.told keeper.old ≡ Some t → IfOk result (λ b. b ≡ list_with (map.get (over batch.now t) slot.now) uid.now) }
    ensures unasked { K.asked keeper.new ≡ K.asked keeper.old }
    ensures counted { K.faults keeper.old ≤ K.faults keeper.new }
    ensures failed { result ≡ Err KeeperError.Failed → Rose (K.faults keeper.old) (K.faults keeper.new) }
{
    let before = read_over(alloc, keeper, batch, slot)?;
    let list = list_of(alloc, before, uid)?;
    Ok(list)
}

/// What is to stand in a slot once one event more gives it. A slot of table 0 needs no read.
fn put_for<K: Keeper>(
    alloc: Global,
    keeper: &mut K,
    batch: &Store,
    slot: Slot,
    uid: &Uid,
) -> Result<Put, KeeperError>
    requires { slot.table ≤ 3 }
    ensures same { K.told keeper.new ≡ K.told keeper.old }
    ensures put { (t : Tables) → K.told keeper.old ≡ Some t → IfOk result (λ p. p ≡ put_of (over batch.now t) uid.now slot) }
    ensures table { IfOk result (λ p. p.table ≡ slot.table) }
    ensures unasked { K.asked keeper.new ≡ K.asked keeper.old }
    ensures counted { K.faults keeper.old ≤ K.faults keeper.new }
    ensures failed { result ≡ Err KeeperError.Failed → Rose (K.faults keeper.old) (K.faults keeper.new) }
{
    let content = if slot.table == 0 {
        Bytes::new(alloc)
    } else {
        list_for(alloc, keeper, batch, &slot, uid)?
    };
    let Slot { table, key } = slot;
    Ok(Put {
        table,
        key,
        content,
    })
}

/// What is to stand in the slots of some entries.
fn puts_for<K: Keeper>(
    alloc: Global,
    keeper: &mut K,
    batch: &Store,
    entries: &[Entry],
    uid: &Uid,
) -> Result<Vec<Put>, KeeperError>
    requires { All (λ n. n.table ≤ 3) entries.now }
    ensures same { K.told keeper.new ≡ K.told keeper.old }
    ensures fits { IfOk result (λ v. All (λ p. p.table ≤ 3) v.items) }
    ensures puts { (t : Tables) → K.told keeper.old ≡ Some t → IfOk result (λ v. v.items ≡ list_map (put_of (over batch.now t) uid.now) (list_map slot_of entries.now)) }
    ensures unasked { K.asked keeper.new ≡ K.asked keeper.old }
    ensures counted { K.faults keeper.old ≤ K.faults keeper.new }
    ensures failed { result ≡ Err KeeperError.Failed → Rose (K.faults keeper.old) (K.faults keeper.new) }
{
    let mut puts = Vec::new(alloc);
    for entry in entries {
        let slot = entry.slot(alloc)?;
        let put = put_for(alloc, keeper, batch, slot, uid)?;
        keep(&mut puts, put)?;
    }
    Ok(puts)
}

pub fn keep(puts: &mut Vec<Put>, put: Put) -> Result<(), OutOfMemory>
    ensures kept { OnOk result (puts.new.items ≡ puts.old.items ++ put ∷ []) }
    ensures fits { All (λ p. p.table ≤ 3) puts.old.items → put.table ≤ 3 → OnOk result (All (λ p. p.table ≤ 3) puts.new.items) }
{
    puts.push(put)?;
    Ok(())
}

/// Adds the cells of an event to a batch. After an error the batch is not used again.
pub fn add_event<K: Keeper>(
    alloc: Global,
    keeper: &mut K,
    batch: &mut Store,
    dict: &Dict,
    event: &Event,
) -> Result<(), KeeperError>
    ensures same { K.told keeper.new ≡ K.told keeper.old }
    ensures batch { (t : Tables) → K.told keeper.old ≡ Some t → OnOk result (over batch.new t ≡ stepped dict.now (event_of event.now) (over batch.old t)) }
    ensures fits { HasFourTables batch.old → OnOk result (HasFourTables batch.new) }
    ensures unasked { K.asked keeper.new ≡ K.asked keeper.old }
    ensures counted { K.faults keeper.old ≤ K.faults keeper.new }
    ensures failed { result ≡ Err KeeperError.Failed → Rose (K.faults keeper.old) (K.faults keeper.new) }
{
    batches_are_tables();
    let entries = entries(alloc, event, dict)?;
    let puts = puts_for(alloc, keeper, batch, entries.as_slice(), &event.key.uid)?;
    batch.apply(alloc, puts.as_slice())?;
    Ok(())
}
