ghost use Rattle.std.specs.Prelude.{◌≡◌, ◌≢◌, ◌≤◌, ◌++◌, ◌∷◌, [], All, IsTrue, IfOk, OnOk, OnErr, ◌+◌, map as list_map, vec_len};
ghost use Rattle.std.specs.Ordering.{nat_cmp};
ghost use Rattle.std.specs.Cmp.Lexicographic.{slice_cmp};
ghost use Rattle.std.specs.List.Sorted.{IsStrictlySortedBy};
ghost use Rattle.dw_outside.specs.Tables.{is_in_span};

use crate::cause::cause_of;
use dw_key::{Bytes, OutOfMemory};
use dw_outside::{Cell, KeeperError};
use sqlite::Row;
use std::alloc::Global;

#[tactic(auto, using(crate::proofs::Following::none_ascend))]
/// The rows as cells, where they ascend strictly within the bounds and are no more than the limit.
pub fn checked_cells(
    alloc: Global,
    rows: &[Row],
    from: &[u8],
    before: &[u8],
    limit: u32,
) -> Result<Vec<Cell>, KeeperError>
    ensures ascending { IfOk result (λ cells. IsStrictlySortedBy (slice_cmp nat_cmp) (list_map (λ c. c.key) cells.items)) }
    ensures bounds { IfOk result (λ cells. All (λ c. IsTrue (is_in_span from.now before.now c.key)) cells.items) }
    ensures few { IfOk result (λ cells. limit ≢ 0 → vec_len cells ≤ limit) }
{
    let mut cells = Vec::new(alloc);
    for row in rows {
        let cell = cell_of(row)?;
        add_cell(&mut cells, cell, from, before, limit)?;
    }
    Ok(cells)
}

/// Adds a cell that comes next, and refuses any other.
fn add_cell(
    cells: &mut Vec<Cell>,
    cell: Cell,
    from: &[u8],
    before: &[u8],
    limit: u32,
) -> Result<(), KeeperError>
    ensures ascending { IsStrictlySortedBy (slice_cmp nat_cmp) (list_map (λ c. c.key) cells.old.items) → IsStrictlySortedBy (slice_cmp nat_cmp) (list_map (λ c. c.key) cells.new.items) }
    ensures bounds { All (λ c. IsTrue (is_in_span from.now before.now c.key)) cells.old.items → All (λ c. IsTrue (is_in_span from.now before.now c.key)) cells.new.items }
    ensures few { limit ≢ 0 → vec_len cells.old ≤ limit → vec_len cells.new ≤ limit }
{
    let key = cell.key.as_slice();
    if limit != 0 && cells.len() >= limit as usize {
        return Err(KeeperError::Failed);
    }
    if !is_within(key, from, before) || !comes_after(key, cells.as_slice()) {
        return Err(KeeperError::Failed);
    }
    push_cell(cells, cell)?;
    Ok(())
}

fn push_cell(cells: &mut Vec<Cell>, cell: Cell) -> Result<(), OutOfMemory>
    ensures ok { OnOk result (cells.new.items ≡ cells.old.items ++ cell ∷ []) }
    ensures len { OnOk result (vec_len cells.new ≡ vec_len cells.old + 1) }
    ensures err { OnErr result (cells.new.items ≡ cells.old.items) }
    ensures same { OnErr result (vec_len cells.new ≡ vec_len cells.old) }
{
    cells.push(cell)?;
    Ok(())
}

/// Whether a key is from one on and below another. An empty `before` is no bound.
fn is_within(key: &[u8], from: &[u8], before: &[u8]) -> bool
    ensures { result ≡ is_in_span from.now before.now key.now }
{
    from.cmp(key).is_le() && (before.is_empty() || key.cmp(before).is_lt())
}

/// Whether a key is above that of the last cell, where there is one.
fn comes_after(key: &[u8], cells: &[Cell]) -> bool
    ensures { IsTrue result → IsStrictlySortedBy (slice_cmp nat_cmp) (list_map (λ c. c.key) cells.now) → IsStrictlySortedBy (slice_cmp nat_cmp) (list_map (λ c. c.key) cells.now ++ key.now ∷ []) }
{
    match cells.last() {
        None => true,
        Some(last) => last.key.as_slice().cmp(key).is_lt(),
    }
}

fn cell_of(row: &Row) -> Result<Cell, KeeperError> {
    let key: Vec<u8> = row.get(0).map_err(cause_of)?;
    let content: Vec<u8> = row.get(1).map_err(cause_of)?;
    Ok(Cell {
        key: Bytes::from_vec(key),
        content: Bytes::from_vec(content),
    })
}
