ghost use Rattle.std.specs.Prelude.{◌≡◌, ◌≤◌, Some, IfOk, Err, map as list_map};
ghost use Rattle.dw_vis.specs.Test.{is_vis};
ghost use Rattle.dw_outside.specs.Faults.{Rose};
ghost use Rattle.dw_outside.specs.Tables.{Tables};
ghost use Rattle.dw_outside.specs.declared.keeper_error.KeeperError.{KeeperError};
ghost use Rattle.dw_derive.specs.Decoded.{key_from};
ghost use Rattle.dw_derive.specs.Readers.{only_if};
ghost use Rattle.dw_derive.specs.Documents.{document_front, document_start, document_end, cell_of_key, cell_from, cells_from, document_of};

use crate::OutOfMemory;
use crate::event_cells::doc_text;
use crate::readers::event_fields;
use dw_base::{Bytes, Sorted, Text};
use dw_event::{Cells, EventCell, Place};
use dw_key::{BadKey, Key, decode, encode};
use dw_outside::{Cell, Keeper, KeeperError};
use dw_vis::{Vis, VisError};
use std::alloc::Global;

/// The key whose code the bytes are, or None where they are none.
pub fn key_of(alloc: Global, bytes: &[u8]) -> Result<Option<Key>, OutOfMemory>
    ensures { IfOk result (λ o. o ≡ key_from bytes.now) }
{
    match decode(alloc, bytes) {
        Ok(key) => Ok(Some(key)),
        Err(BadKey::OutOfMemory) => Err(OutOfMemory),
        Err(BadKey::Cut) => Ok(None),
        Err(BadKey::Escape) => Ok(None),
        Err(BadKey::Tail) => Ok(None),
    }
}

/// The visibility of a text, or None where it breaks a rule.
pub fn vis_of(alloc: Global, text: &[u8]) -> Result<Option<Vis>, OutOfMemory>
    ensures { IfOk result (λ o. o ≡ only_if (is_vis text.now) text.now) }
{
    match Vis::parse(alloc, text) {
        Ok(vis) => Ok(Some(vis)),
        Err(VisError::OutOfMemory) => Err(OutOfMemory),
        Err(_) => Ok(None),
    }
}

fn said_cell(alloc: Global, key: &Key) -> Result<Option<EventCell>, OutOfMemory>
    ensures { IfOk result (λ o. o ≡ cell_of_key key.now) }
{
    let Some(said) = event_fields(key) else {
        return Ok(None);
    };
    let Some(vis) = vis_of(alloc, key.vis.as_slice())? else {
        return Ok(None);
    };
    let field = Text::of(alloc, said.field)?;
    let raw = Text::of(alloc, said.raw)?;
    Ok(Some(EventCell { field, raw, vis }))
}

/// The cell of an event that the code of a key says, or None where it is of another form.
pub fn cell_of(alloc: Global, bytes: &[u8]) -> Result<Option<EventCell>, OutOfMemory>
    ensures { IfOk result (λ o. o ≡ cell_from bytes.now) }
{
    match key_of(alloc, bytes)? {
        None => Ok(None),
        Some(key) => said_cell(alloc, &key),
    }
}

/// The set of the cells that the keys of some cells say.
pub fn cells_of(alloc: Global, cells: &[Cell]) -> Result<Cells, OutOfMemory>
    ensures { IfOk result (λ s. s ≡ cells_from (list_map (λ c. c.key) cells.now)) }
{
    let mut all = Vec::new(alloc);
    for cell in cells {
        if let Some(said) = cell_of(alloc, cell.key.as_slice())? {
            all.push(said)?;
        }
    }
    Ok(Sorted::from_vec(all))
}

/// What the keys of an event's cells begin with, up to the last byte 0 of that.
fn front_of(alloc: Global, place: &Place) -> Result<Vec<u8>, OutOfMemory>
    ensures { IfOk result (λ v. v.items ≡ document_front place.now) }
{
    let key = Key {
        row: Bytes::of(alloc, place.shard.as_str().as_bytes())?,
        family: doc_text(alloc, &place.key)?,
        qualifier: Bytes::new(alloc),
        vis: Bytes::new(alloc),
        stamp: 0,
    };
    let mut front = encode(alloc, &key)?.into_vec();
    let len = front.len().saturating_sub(13);
    front.truncate(len);
    Ok(front)
}

/// The first place of an event's cells, and the first one past them.
pub fn document_span(alloc: Global, place: &Place) -> Result<(Bytes, Bytes), OutOfMemory>
    ensures { IfOk result (λ span. (span.0 ≡ document_start place.now) × (span.1 ≡ document_end place.now)) }
{
    let mut start = front_of(alloc, place)?;
    let mut end = start.clone()?;
    start.push(0)?;
    end.push(1)?;
    Ok((Bytes::from_vec(start), Bytes::from_vec(end)))
}

/// The cells of the event of a place, as a keeper has them, by one read.
pub fn document<K: Keeper>(
    alloc: Global,
    keeper: &mut K,
    place: &Place,
) -> Result<Cells, KeeperError>
    ensures same { K.told keeper.new ≡ K.told keeper.old }
    ensures cells { (t : Tables) → K.told keeper.old ≡ Some t → IfOk result (λ s. s ≡ document_of t place.now) }
    ensures unasked { K.asked keeper.new ≡ K.asked keeper.old }
    ensures counted { K.faults keeper.old ≤ K.faults keeper.new }
    ensures failed { result ≡ Err KeeperError.Failed → Rose (K.faults keeper.old) (K.faults keeper.new) }
{
    let (start, end) = document_span(alloc, place)?;
    let cells = keeper.scan(0, start.as_slice(), end.as_slice(), 0)?;
    let said = cells_of(alloc, cells.as_slice())?;
    Ok(said)
}
