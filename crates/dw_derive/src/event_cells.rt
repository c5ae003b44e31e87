ghost use Rattle.std.specs.Prelude.{◌≡◌, ◌++◌, ◌∷◌, [], IfOk, OnOk, Some, map as list_map};
ghost use Rattle.dw_base.specs.Ascending.{set_of};
ghost use Rattle.dw_key.specs.KeyCode.{code};
ghost use Rattle.dw_norm.specs.Reversal.{rev};
ghost use Rattle.dw_derive.specs.Entries.{event_of, zero_joined as joined, doc_text as text_of_doc, field_index, event_key, field_key, global_key, forward_entries, backward_entries, index_entries, cell_entries, entries_of, entry_cmp, slot_of};
ghost use Rattle.dw_derive.specs.Indexing.{entries_beside, cell_adds, entries_added as added_by_rule};

use crate::OutOfMemory;
use dw_base::{Bytes, Exact, Sorted};
use dw_dict::{Dict, FieldRule};
use dw_event::{Event, EventCell};
use dw_key::{DocKey, Key, encode};
use dw_norm::{normal, reversed};
use dw_outside::Slot;
use std::alloc::Global;

/// Where an event's cell stands: the number of the table, and the key.
#[derive(Debug, PartialEq, Eq, PartialOrd, Ord, Drop)]
pub struct Entry {
    pub table: u8,
    pub key: Key,
}

impl Exact for Entry {
    ghost use Rattle.dw_derive.specs.Entries.{exact_entries};

    ghost exact = { exact_entries };
}

impl Entry {
    /// Where it stands among all cells: the table, and the code of its key.
    pub fn slot(&self, alloc: Global) -> Result<Slot, OutOfMemory>
        ensures { IfOk result (λ s. s ≡ slot_of self.now) }
    {
        let key = encode(alloc, &self.key)?;
        Ok(Slot {
            table: self.table,
            key,
        })
    }
}

/// The two texts with a byte 0 between them.
fn zero_joined(alloc: Global, front: &[u8], back: &[u8]) -> Result<Bytes, OutOfMemory>
    ensures { IfOk result (λ b. b ≡ joined front.now back.now) }
{
    let mut all = Vec::from_slice(alloc, front)?;
    all.push(0)?;
    all.extend_from_slice(back)?;
    Ok(Bytes::from_vec(all))
}

/// The text of a document key within a key: the type, a byte 0, and the uid in hexadecimal digits.
pub fn doc_text(alloc: Global, doc: &DocKey) -> Result<Bytes, OutOfMemory>
    ensures { IfOk result (λ b. b ≡ text_of_doc doc.now) }
{
    let uid = hex::encode(alloc, doc.uid.as_slice())?;
    zero_joined(alloc, doc.dtype.as_slice(), uid.as_bytes())
}

fn event_entry(
    alloc: Global,
    event: &Event,
    doc: &[u8],
    cell: &EventCell,
) -> Result<Entry, OutOfMemory>
    requires { doc.now ≡ text_of_doc event.now.key }
    ensures { IfOk result (λ n. n ≡ record { table = 0; key = event_key (event_of event.now) cell.now }) }
{
    let key = Key {
        row: Bytes::of(alloc, event.shard.as_str().as_bytes())?,
        family: Bytes::of(alloc, doc)?,
        qualifier: zero_joined(
            alloc,
            cell.field.as_str().as_bytes(),
            cell.raw.as_str().as_bytes(),
        )?,
        vis: Bytes::of(alloc, cell.vis.text())?,
        stamp: event.batch,
    };
    Ok(Entry { table: 0, key })
}

fn field_entry(
    alloc: Global,
    event: &Event,
    doc: &[u8],
    cell: &EventCell,
    value: &str,
) -> Result<Entry, OutOfMemory>
    requires { doc.now ≡ text_of_doc event.now.key }
    ensures { IfOk result (λ n. n ≡ record { table = 0; key = field_key (event_of event.now) cell.now value.now }) }
{
    let key = Key {
        row: Bytes::of(alloc, event.shard.as_str().as_bytes())?,
        family: zero_joined(alloc, b"fi", cell.field.as_str().as_bytes())?,
        qualifier: zero_joined(alloc, value.as_bytes(), doc)?,
        vis: Bytes::of(alloc, cell.vis.text())?,
        stamp: event.batch,
    };
    Ok(Entry { table: 0, key })
}

fn global_entry(
    alloc: Global,
    table: u8,
    event: &Event,
    cell: &EventCell,
    value: &str,
) -> Result<Entry, OutOfMemory>
    ensures { IfOk result (λ n. n ≡ record { table = table; key = global_key (event_of event.now) cell.now value.now }) }
{
    let key = Key {
        row: Bytes::of(alloc, value.as_bytes())?,
        family: Bytes::of(alloc, cell.field.as_str().as_bytes())?,
        qualifier: zero_joined(
            alloc,
            event.shard.as_str().as_bytes(),
            event.key.dtype.as_slice(),
        )?,
        vis: Bytes::of(alloc, cell.vis.text())?,
        stamp: 0,
    };
    Ok(Entry { table, key })
}

/// Adds the cells of a normal form in the field index and in table 1.
fn put_forward(
    alloc: Global,
    event: &Event,
    doc: &[u8],
    cell: &EventCell,
    value: &str,
    all: &mut Vec<Entry>,
) -> Result<(), OutOfMemory>
    requires { doc.now ≡ text_of_doc event.now.key }
    ensures { OnOk result (all.new.items ≡ all.old.items ++ forward_entries (event_of event.now) cell.now value.now) }
{
    all.push(field_entry(alloc, event, doc, cell, value)?)?;
    all.push(global_entry(alloc, 1, event, cell, value)?)?;
    Ok(())
}

/// Adds the cell of a normal form in table 2, where it stands reversed.
fn put_backward(
    alloc: Global,
    event: &Event,
    cell: &EventCell,
    value: &str,
    all: &mut Vec<Entry>,
) -> Result<(), OutOfMemory>
    ensures { OnOk result (all.new.items ≡ all.old.items ++ backward_entries (event_of event.now) cell.now value.now) }
{
    let back = reversed(alloc, value)?;
    all.push(global_entry(alloc, 2, event, cell, back.as_str())?)?;
    Ok(())
}

/// Adds the cells of the indexes for a normal form.
fn put_indexed(
    alloc: Global,
    rule: FieldRule,
    event: &Event,
    doc: &[u8],
    cell: &EventCell,
    value: &str,
    all: &mut Vec<Entry>,
) -> Result<(), OutOfMemory>
    requires { doc.now ≡ text_of_doc event.now.key }
    ensures { OnOk result (all.new.items ≡ all.old.items ++ index_entries rule (event_of event.now) cell.now (Some value.now)) }
{
    if rule.indexed {
        put_forward(alloc, event, doc, cell, value, all)?;
    }
    if rule.reversed {
        put_backward(alloc, event, cell, value, all)?;
    }
    Ok(())
}

/// Adds the cells of one cell of an event. A value of a field without an index needs no normal form.
fn put_cell(
    alloc: Global,
    dict: &Dict,
    event: &Event,
    doc: &[u8],
    cell: &EventCell,
    all: &mut Vec<Entry>,
) -> Result<(), OutOfMemory>
    requires { doc.now ≡ text_of_doc event.now.key }
    ensures { OnOk result (all.new.items ≡ all.old.items ++ cell_entries dict.now (event_of event.now) cell.now) }
{
    all.push(event_entry(alloc, event, doc, cell)?)?;
    let rule = dict.look(cell.field.as_str());
    if !rule.indexed {
        return Ok(());
    }
    match normal(alloc, rule.kind, cell.raw.as_str())? {
        None => Ok(()),
        Some(value) => put_indexed(alloc, rule, event, doc, cell, value.as_str(), all),
    }
}

/// The cells that an event gives in the tables 0 to 2, each once, by table and then by key: two raw values
/// may have one normal form.
pub fn entries(alloc: Global, event: &Event, dict: &Dict) -> Result<Vec<Entry>, OutOfMemory>
    ensures { IfOk result (λ v. v.items ≡ set_of entry_cmp (entries_of dict.now (event_of event.now))) }
{
    let doc = doc_text(alloc, &event.key)?;
    let mut all = Vec::new(alloc);
    for cell in event.cells.as_slice() {
        put_cell(alloc, dict, event, doc.as_slice(), cell, &mut all)?;
    }
    Ok(Sorted::from_vec(all).into_vec())
}

/// Adds the cells of the indexes that a new rule gives for a normal form, and the old one does not.
fn put_beside(
    alloc: Global,
    old: FieldRule,
    rule: FieldRule,
    event: &Event,
    doc: &[u8],
    cell: &EventCell,
    value: &str,
    all: &mut Vec<Entry>,
) -> Result<(), OutOfMemory>
    requires { doc.now ≡ text_of_doc event.now.key }
    ensures { OnOk result (all.new.items ≡ all.old.items ++ entries_beside old rule (event_of event.now) cell.now (Some value.now)) }
{
    if rule.indexed && !old.indexed {
        put_forward(alloc, event, doc, cell, value, all)?;
    }
    if rule.reversed && !old.reversed {
        put_backward(alloc, event, cell, value, all)?;
    }
    Ok(())
}

/// Adds those that the new rule of a field adds for one cell of an event.
fn put_added(
    alloc: Global,
    field: &str,
    old: FieldRule,
    rule: FieldRule,
    event: &Event,
    doc: &[u8],
    cell: &EventCell,
    all: &mut Vec<Entry>,
) -> Result<(), OutOfMemory>
    requires { doc.now ≡ text_of_doc event.now.key }
    ensures { OnOk result (all.new.items ≡ all.old.items ++ cell_adds field.now old rule (event_of event.now) cell.now) }
{
    if cell.field.as_str() != field {
        return Ok(());
    }
    match normal(alloc, rule.kind, cell.raw.as_str())? {
        None => Ok(()),
        Some(value) => put_beside(alloc, old, rule, event, doc, cell, value.as_str(), all),
    }
}

/// The cells of the indexes that the new rule of a field adds for an event, each once, by table and then by
/// key.
pub fn entries_added(
    alloc: Global,
    event: &Event,
    field: &str,
    old: FieldRule,
    rule: FieldRule,
) -> Result<Vec<Entry>, OutOfMemory>
    ensures { IfOk result (λ v. v.items ≡ set_of entry_cmp (added_by_rule field.now old rule (event_of event.now))) }
{
    let doc = doc_text(alloc, &event.key)?;
    let mut all = Vec::new(alloc);
    for cell in event.cells.as_slice() {
        put_added(
            alloc,
            field,
            old,
            rule,
            event,
            doc.as_slice(),
            cell,
            &mut all,
        )?;
    }
    Ok(Sorted::from_vec(all).into_vec())
}
