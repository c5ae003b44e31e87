//! What table 3 says.

ghost use Rattle.std.specs.Prelude.{◌≡◌, ◌<◌, ◌^◌, IfOk, IfSome, OnOk, map as list_map};
ghost use Rattle.std.specs.FinMap as map;
ghost use Rattle.dw_key.specs.KeyCode.{AreBytes, code};
ghost use Rattle.dw_outside.specs.Tables.{cell_pair};
ghost use Rattle.dw_derive.specs.Decoded.{key_from};
ghost use Rattle.dw_derive.specs.MetaReaders.{commit_reading, field_reading, grant_reading};
ghost use Rattle.dw_audit.specs.Meta.{sum_of, nothing_said, with_field, with_grant, with_number, with_cell, all_said};

use crate::OutOfMemory;
use dw_derive::{
    codes_are_read, commit_number, field_rule, grant_names, grants_have_one_spelling, key_of,
    rules_have_one_spelling,
};
use dw_dict::Dict;
use dw_key::Key;
use dw_outside::{Cell, Slot, Store};
use std::alloc::Global;

/// The rules of fields, the number of the last batch, or 0, and the cells of fields and of grants.
#[derive(Drop)]
pub struct Meta {
    pub dict: Dict,
    pub last: u64,
    pub cells: Store,
}

/// What a slice of bytes holds fits a byte, by its type.
fn are_bytes(bytes: &[u8])
    ensures { AreBytes bytes.now }
{
    let _len = bytes.len();
}

/// A cell that can be read is wanted as it is.
fn keep(cells: &mut Store, cell: &Cell) -> Result<(), OutOfMemory>
    ensures { OnOk result (cells.new ≡ map.insert cells.old (record { table = 3; key = cell.now.key }) cell.now.content) }
{
    let slot = Slot {
        table: 3,
        key: cell.key.copy()?,
    };
    cells.put(slot, cell.content.copy()?)?;
    Ok(())
}

fn take_number(meta: &mut Meta, key: &Key, content: &[u8])
    ensures { sum_of meta.new ≡ with_number (commit_reading key.now content.now) (sum_of meta.old) }
{
    if let Some(last) = commit_number(key, content) {
        meta.last = last;
    }
}

fn take_grant(alloc: Global, meta: &mut Meta, key: &Key, cell: &Cell) -> Result<(), OutOfMemory>
    requires { cell.now.key ≡ code key.now }
    ensures { OnOk result (sum_of meta.new ≡ with_grant (grant_reading key.now cell.now.content) (sum_of meta.old)) }
{
    grants_have_one_spelling();
    are_bytes(cell.content.as_slice());
    match grant_names(alloc, key, cell.content.as_slice())? {
        None => Ok(()),
        Some(_) => keep(&mut meta.cells, cell),
    }
}

fn take_field(meta: &mut Meta, key: &Key, cell: &Cell) -> Result<(), OutOfMemory>
    requires { cell.now.key ≡ code key.now }
    ensures { OnOk result (sum_of meta.new ≡ with_field (field_reading key.now cell.now.content) (sum_of meta.old)) }
{
    rules_have_one_spelling();
    match field_rule(key, cell.content.as_slice()) {
        None => Ok(()),
        Some((field, rule)) => {
            meta.dict.define(field, rule)?;
            keep(&mut meta.cells, cell)
        }
    }
}

/// The key of a cell, whose code the cell has.
fn key_in(alloc: Global, bytes: &[u8]) -> Result<Option<Key>, OutOfMemory>
    ensures key { IfOk result (λ o. o ≡ key_from bytes.now) }
    ensures code { IfOk result (λ o. IfSome o (λ k. bytes.now ≡ code k)) }
{
    codes_are_read();
    are_bytes(bytes);
    key_of(alloc, bytes)
}

/// Takes what one cell more says, by its key and its content.
fn take(alloc: Global, meta: &mut Meta, cell: &Cell) -> Result<(), OutOfMemory>
    ensures { OnOk result (sum_of meta.new ≡ with_cell (cell_pair cell.now) (sum_of meta.old)) }
{
    let Some(key) = key_in(alloc, cell.key.as_slice())? else {
        return Ok(());
    };
    take_number(meta, &key, cell.content.as_slice());
    take_grant(alloc, meta, &key, cell)?;
    take_field(meta, &key, cell)
}

/// What the cells of table 3 say. A cell that cannot be read says nothing.
pub fn meta_in(alloc: Global, cells: &[Cell]) -> Result<Meta, OutOfMemory>
    ensures { IfOk result (λ m. sum_of m ≡ all_said (list_map cell_pair cells.now) nothing_said) }
{
    let mut meta = Meta {
        dict: Dict::new(alloc),
        last: 0,
        cells: Store::new(alloc),
    };
    let mut left = cells;
    while let Some((cell, front)) = left.split_last() {
        take(alloc, &mut meta, cell)?;
        left = front;
    }
    Ok(meta)
}
