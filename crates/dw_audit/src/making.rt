//! The tables of the world that tables stand for, made in memory.

ghost use Rattle.std.specs.Prelude.{◌≡◌, ◌≢◌, [], IfOk, OnOk, map as list_map};
ghost use Rattle.dw_outside.specs.Tables.{Tables, cell_pair, span_of};
ghost use Rattle.dw_derive.specs.Entries.{event_of};
ghost use Rattle.dw_derive.specs.MetaTables.{meta_of};
ghost use Rattle.dw_audit.specs.Making.{made_of, made_with, made_by, numbered as with_last, newer_tables as newer_tables_of};

use crate::OutOfMemory;
use crate::meta::{Meta, meta_in};
use crate::rules::is_kept;
use crate::stored::events_in;
use dw_derive::{
    commit_cell, events_are_steps, grants_are_cells, numbers_are_cells, rules_are_cells,
};
use dw_dict::Dict;
use dw_event::{Event, Held, Place};
use dw_ingest::{event_at, put_event};
use dw_outside::{Cell, Put, Slot, Store};
use std::alloc::Global;
use std::collections::BTreeMap;

/// The tables with the events so far, and the greatest batch of those, or 0.
#[derive(Drop)]
pub struct Made {
    pub tables: Store,
    pub greatest: u64,
}

/// Adds an event, where that is kept.
fn add_event(alloc: Global, made: &mut Made, dict: &Dict, event: &Event) -> Result<(), OutOfMemory>
    ensures { OnOk result (made_of made.new ≡ made_with dict.now (event_of event.now) (made_of made.old)) }
{
    if is_kept(alloc, event)? {
        put_event(alloc, &mut made.tables, dict, event)?;
        made.greatest = made.greatest.max(event.batch);
    }
    Ok(())
}

fn add_events(
    alloc: Global,
    events: BTreeMap<Place, Held>,
    dict: &Dict,
    tables: Store,
) -> Result<Made, OutOfMemory>
    ensures { IfOk result (λ m. made_of m ≡ made_by dict.now events.entries (record { tables = tables; greatest = 0 })) }
{
    let mut left = events;
    let mut made = Made {
        tables,
        greatest: 0,
    };
    while let Some((place, held)) = left.pop_first() {
        let event = event_at(place, held);
        add_event(alloc, &mut made, dict, &event)?;
    }
    Ok(made)
}

/// The tables with the number of the last batch: the one that was said, unless an event has a greater one.
fn numbered(alloc: Global, made: Made, said: u64) -> Result<Store, OutOfMemory>
    ensures { IfOk result (λ s. s ≡ with_last said (made_of made)) }
{
    let Made {
        mut tables,
        greatest,
    } = made;
    if greatest == 0 {
        return Ok(tables);
    }
    let Put {
        table,
        key,
        content,
    } = commit_cell(alloc, said.max(greatest))?;
    tables.put(Slot { table, key }, content)?;
    Ok(tables)
}

/// The tables of the world that the cells of the tables 0 and 3 stand for, with each list in the newer form.
pub fn newer_tables(alloc: Global, shard: &[Cell], meta: &[Cell]) -> Result<Store, OutOfMemory>
    ensures { (t : Tables) → list_map cell_pair shard.now ≡ span_of 0 [] [] t → list_map cell_pair meta.now ≡ meta_of t → IfOk result (λ s. s ≡ newer_tables_of t) }
{
    events_are_steps();
    numbers_are_cells();
    rules_are_cells();
    grants_are_cells();
    let Meta { dict, last, cells } = meta_in(alloc, meta)?;
    let events = events_in(alloc, shard)?;
    let made = add_events(alloc, events, &dict, cells)?;
    numbered(alloc, made, last)
}
