//! The first difference of the cells of one table.

ghost use Rattle.std.specs.Prelude.{◌≡◌, IfOk, Some, map as list_map};
ghost use Rattle.std.specs.Option.{option_copied};
ghost use Rattle.dw_outside.specs.Tables.{cell_pair};
ghost use Rattle.dw_audit.specs.WorldOf.{begins_with_one as begins};
ghost use Rattle.dw_audit.specs.Comparing.{older_list, older_bytes, only_found as found_only, only_wanted as wanted_only, changed_or, differ_or, formed, first_difference as difference_of};

use crate::OutOfMemory;
use dw_base::Bytes;
use dw_derive::{BadList, Form, UidList, decode_list, encode_list};
use dw_outside::Cell;
use std::alloc::Global;
use std::cmp::Ordering;

/// A key at which the cells that are found differ from those that are wanted, and what each have there.
#[derive(Drop)]
pub struct Difference {
    pub key: Bytes,
    pub found: Option<Bytes>,
    pub wanted: Option<Bytes>,
}

/// A list of the newer form as the older form has it.
fn older(list: UidList) -> UidList
    ensures { result ≡ older_list list }
{
    match list {
        UidList::Kept(uids) => {
            let count = uids.as_slice().len();
            if count <= Form::One.cap() {
                UidList::Kept(uids)
            } else {
                UidList::Counted(count as u64)
            }
        }
        UidList::Counted(count) => UidList::Counted(count),
    }
}

/// The bytes of a list in the older form. Bytes that are no list stay.
fn in_older_form(alloc: Global, bytes: &[u8]) -> Result<Bytes, OutOfMemory>
    ensures { IfOk result (λ b. b ≡ older_bytes bytes.now) }
{
    match decode_list(alloc, bytes) {
        Ok((_, list)) => encode_list(alloc, &older(list), Form::One),
        Err(BadList::OutOfMemory) => Err(OutOfMemory),
        Err(BadList::Form) => Bytes::of(alloc, bytes),
        Err(BadList::Cut) => Bytes::of(alloc, bytes),
        Err(BadList::Count) => Bytes::of(alloc, bytes),
        Err(BadList::Order) => Bytes::of(alloc, bytes),
        Err(BadList::Tail) => Bytes::of(alloc, bytes),
    }
}

/// Whether the bytes are those of a list of the older form, by the first of them.
fn begins_with_one(bytes: &[u8]) -> bool
    ensures { result ≡ begins (Some bytes.now) }
{
    match bytes {
        [byte, ..] => *byte == 1,
        _ => false,
    }
}

fn only_found(cell: &Cell) -> Result<Option<Difference>, OutOfMemory>
    ensures { IfOk result (λ o. o ≡ found_only (cell_pair cell.now)) }
{
    Ok(Some(Difference {
        key: cell.key.copy()?,
        found: Some(cell.content.copy()?),
        wanted: None,
    }))
}

fn only_wanted(cell: &Cell) -> Result<Option<Difference>, OutOfMemory>
    ensures { IfOk result (λ o. o ≡ wanted_only (cell_pair cell.now)) }
{
    Ok(Some(Difference {
        key: cell.key.copy()?,
        found: None,
        wanted: Some(cell.content.copy()?),
    }))
}

/// A cell beside the content that is wanted there.
fn changed(alloc: Global, cell: &Cell, wanted: &[u8]) -> Result<Option<Difference>, OutOfMemory>
    ensures { IfOk result (λ o. o ≡ changed_or None (cell_pair cell.now) wanted.now) }
{
    if cell.content.as_slice() == wanted {
        return Ok(None);
    }
    Ok(Some(Difference {
        key: cell.key.copy()?,
        found: Some(cell.content.copy()?),
        wanted: Some(Bytes::of(alloc, wanted)?),
    }))
}

/// Two cells of one key. Where lists stand, one that is found in the older form is wanted in it.
fn differ_within(
    alloc: Global,
    lists: bool,
    found: &Cell,
    wanted: &[u8],
) -> Result<Option<Difference>, OutOfMemory>
    ensures { IfOk result (λ o. o ≡ changed_or None (cell_pair found.now) (formed lists (Some found.now.content) wanted.now)) }
{
    if lists && begins_with_one(found.content.as_slice()) {
        let wanted = in_older_form(alloc, wanted)?;
        return changed(alloc, found, wanted.as_slice());
    }
    changed(alloc, found, wanted)
}

/// The first cells of two runs.
fn differ(
    alloc: Global,
    lists: bool,
    found: &Cell,
    wanted: &Cell,
) -> Result<Option<Difference>, OutOfMemory>
    ensures { IfOk result (λ o. o ≡ differ_or lists None (cell_pair found.now) (cell_pair wanted.now)) }
{
    match found.key.cmp(&wanted.key) {
        Ordering::Less => only_found(found),
        Ordering::Equal => differ_within(alloc, lists, found, wanted.content.as_slice()),
        Ordering::Greater => only_wanted(wanted),
    }
}

/// The first difference of the cells of a table that are found and those that are wanted.
pub fn first_difference(
    alloc: Global,
    lists: bool,
    found: &[Cell],
    wanted: &[Cell],
) -> Result<Option<Difference>, OutOfMemory>
    ensures { IfOk result (λ o. o ≡ difference_of lists (list_map cell_pair found.now) (list_map cell_pair wanted.now)) }
{
    let mut left = found;
    let mut right = wanted;
    while let Some((cell, cells)) = left.split_first() {
        let Some((other, others)) = right.split_first() else {
            return only_found(cell);
        };
        if let Some(difference) = differ(alloc, lists, cell, other)? {
            return Ok(Some(difference));
        }
        left = cells;
        right = others;
    }
    match right.first() {
        None => Ok(None),
        Some(cell) => only_wanted(cell),
    }
}
