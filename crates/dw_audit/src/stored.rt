//! The events whose cells table 0 has.

ghost use Rattle.std.specs.Prelude.{◌≡◌, None, IfOk, filter_map, map as list_map};
ghost use Rattle.std.specs.Option.{option_map};
ghost use Rattle.std.specs.BTreeMap.{get, IsOrdered};
ghost use Rattle.dw_event.specs.declared.records.Place.{Place};
ghost use Rattle.dw_event.specs.Places.{place_cmp};
ghost use Rattle.dw_derive.specs.EventsRead.{held_after};
ghost use Rattle.dw_derive.specs.Said.{said_reading};
ghost use Rattle.dw_audit.specs.WorldOf.{code_counts};

use crate::OutOfMemory;
use crate::rules::keeps_rules;
use dw_derive::{Said, gather, said_by};
use dw_event::{Held, Place};
use dw_outside::Cell;
use std::alloc::Global;
use std::collections::BTreeMap;

/// What the code of a key says as that of an event's cell, where that keeps its rules.
fn counted(alloc: Global, bytes: &[u8]) -> Result<Option<Said>, OutOfMemory>
    ensures { IfOk result (λ o. option_map said_reading o ≡ code_counts bytes.now) }
{
    let Some(said) = said_by(alloc, bytes)? else {
        return Ok(None);
    };
    if keeps_rules(&said.cell) {
        Ok(Some(said))
    } else {
        Ok(None)
    }
}

/// The events whose cells are among those of table 0, by their places. A cell of another form, or one that
/// breaks a rule, is left out alone.
pub fn events_in(alloc: Global, cells: &[Cell]) -> Result<BTreeMap<Place, Held>, OutOfMemory>
    ensures held { IfOk result (λ m. (p : Place) → get place_cmp m p ≡ held_after p None (filter_map code_counts (list_map (λ c. c.key) cells.now))) }
    ensures ordered { IfOk result (λ m. IsOrdered place_cmp m) }
{
    let mut events = BTreeMap::new(alloc);
    for cell in cells {
        if let Some(said) = counted(alloc, cell.key.as_slice())? {
            gather(alloc, &mut events, said)?;
        }
    }
    Ok(events)
}
