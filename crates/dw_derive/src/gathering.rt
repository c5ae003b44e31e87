ghost use Rattle.std.specs.Prelude.{◌≡◌, Some, None, IfOk, OnOk, filter_map, map as list_map};
ghost use Rattle.std.specs.Option.{option_map};
ghost use Rattle.std.specs.BTreeMap.{get, IsOrdered};
ghost use Rattle.dw_event.specs.declared.records.Place.{Place};
ghost use Rattle.dw_event.specs.Places.{place_cmp};
ghost use Rattle.dw_derive.specs.EventsRead.{key_says, code_says, held_more as held_with_cell, held_with, held_after};
ghost use Rattle.dw_derive.specs.Said.{said_reading};

use crate::OutOfMemory;
use crate::documents::{key_of, vis_of};
use crate::readers::{event_fields, text};
use dw_base::Text;
use dw_event::{Cells, EventCell, Held, Place};
use dw_key::Key;
use dw_outside::Cell;
use std::alloc::Global;
use std::collections::BTreeMap;

/// What the key of an event's cell says: whose cell it is, the cell, and the number of the batch.
#[derive(Drop)]
pub struct Said {
    pub place: Place,
    pub cell: EventCell,
    pub batch: u64,
}

fn said_by_key(alloc: Global, key: &Key) -> Result<Option<Said>, OutOfMemory>
    ensures { IfOk result (λ o. option_map said_reading o ≡ key_says key.now) }
{
    let Some(fields) = event_fields(key) else {
        return Ok(None);
    };
    let Some(shard) = text(fields.shard) else {
        return Ok(None);
    };
    let Some(vis) = vis_of(alloc, key.vis.as_slice())? else {
        return Ok(None);
    };
    let place = Place {
        shard: Text::of(alloc, shard)?,
        key: fields.doc,
    };
    let field = Text::of(alloc, fields.field)?;
    let raw = Text::of(alloc, fields.raw)?;
    Ok(Some(Said {
        place,
        cell: EventCell { field, raw, vis },
        batch: key.stamp,
    }))
}

/// What the code of a key says as that of an event's cell, or None where it is of another form.
pub fn said_by(alloc: Global, bytes: &[u8]) -> Result<Option<Said>, OutOfMemory>
    ensures { IfOk result (λ o. option_map said_reading o ≡ code_says bytes.now) }
{
    match key_of(alloc, bytes)? {
        None => Ok(None),
        Some(key) => said_by_key(alloc, &key),
    }
}

/// What is held with one cell more.
fn held_more(
    alloc: Global,
    held: Option<Held>,
    cell: EventCell,
    batch: u64,
) -> Result<Held, OutOfMemory>
    ensures { IfOk result (λ h. h ≡ held_with_cell held cell batch) }
{
    match held {
        None => {
            let mut cells = Cells::new(alloc);
            cells.put(cell)?;
            Ok(Held { cells, batch })
        }
        Some(held) => {
            let Held { mut cells, batch } = held;
            cells.put(cell)?;
            Ok(Held { cells, batch })
        }
    }
}

/// Adds a cell to what is held at its place. After an error the map is not used again.
pub fn gather(
    alloc: Global,
    events: &mut BTreeMap<Place, Held>,
    said: Said,
) -> Result<(), OutOfMemory>
    ensures held { OnOk result ((p : Place) → get place_cmp events.new p ≡ held_with p (get place_cmp events.old p) (said_reading said)) }
    ensures ordered { OnOk result (IsOrdered place_cmp events.new) }
{
    let Said { place, cell, batch } = said;
    let before = events.remove(&place);
    let held = held_more(alloc, before, cell, batch)?;
    events.insert(place, held)?;
    Ok(())
}

/// The events whose cells are among those of table 0, by their places. A cell of another form is passed over.
pub fn events_of(alloc: Global, cells: &[Cell]) -> Result<BTreeMap<Place, Held>, OutOfMemory>
    ensures held { IfOk result (λ m. (p : Place) → get place_cmp m p ≡ held_after p None (filter_map code_says (list_map (λ c. c.key) cells.now))) }
    ensures ordered { IfOk result (λ m. IsOrdered place_cmp m) }
{
    let mut events = BTreeMap::new(alloc);
    for cell in cells {
        if let Some(said) = said_by(alloc, cell.key.as_slice())? {
            gather(alloc, &mut events, said)?;
        }
    }
    Ok(events)
}
