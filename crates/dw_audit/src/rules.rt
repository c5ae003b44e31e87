//! Which cells and events count.

ghost use Rattle.std.specs.Prelude.{◌≡◌, ◌^◌, ◌-◌, length, min, nat_le, take, IfOk};
ghost use Rattle.dw_base.specs.Days.{names_day};
ghost use Rattle.dw_event.specs.Names.{lacks_zero, is_raw_value as is_value, is_visibility};
ghost use Rattle.dw_event.specs.Records.{canon, cell_canon, cells_canon, is_cell};
ghost use Rattle.dw_derive.specs.Entries.{event_of};
ghost use Rattle.dw_derive.specs.Lawful.{record_of};
ghost use Rattle.dw_audit.specs.WorldOf.{is_shard_number as spells_number, is_shard_end as ends_shard, is_shard as names_shard, is_batch as numbers_batch, is_kept as keeps};

use crate::OutOfMemory;
use dw_base::{MAX_CANONICAL, MAX_CELLS, MAX_VALUE, is_folded_name};
use dw_derive::text;
use dw_event::{Event, EventCell};
use dw_norm::read_day;
use dw_vis::visibilities_are_tested;
use std::alloc::Global;

/// Whether the digits are a number of 0 to 15, without padding.
fn is_shard_number(digits: &[u8]) -> bool
    ensures { result ≡ spells_number digits.now }
{
    match digits {
        [digit] => digit.is_ascii_digit(),
        [tens, digit] => *tens == b'1' && *digit >= b'0' && *digit <= b'5',
        _ => false,
    }
}

/// Whether `_` stands there, and such a number behind it.
fn is_shard_end(bytes: &[u8]) -> bool
    ensures { result ≡ ends_shard bytes.now }
{
    match bytes {
        [mark, number @ ..] => *mark == b'_' && is_shard_number(number),
        _ => false,
    }
}

/// Whether eight digits name a day.
fn is_day(alloc: Global, digits: &[u8]) -> Result<bool, OutOfMemory>
    requires { length digits.now ≡ 8 }
    ensures { IfOk result (λ b. b ≡ names_day digits.now) }
{
    match text(digits) {
        None => Ok(false),
        Some(digits) => Ok(read_day(alloc, digits)?.is_some()),
    }
}

fn is_shard(alloc: Global, shard: &[u8]) -> Result<bool, OutOfMemory>
    ensures { IfOk result (λ b. b ≡ names_shard shard.now) }
{
    if shard.len() < 8 {
        return Ok(false);
    }
    let (day, end) = shard.split_at(8);
    if !is_shard_end(end) {
        return Ok(false);
    }
    is_day(alloc, day)
}

fn has_no_zero(bytes: &[u8]) -> bool
    ensures { result ≡ lacks_zero bytes.now }
{
    bytes.iter().all(|byte| *byte != 0)
}

fn is_raw_value(raw: &[u8]) -> bool
    ensures { result ≡ is_value raw.now }
{
    !raw.is_empty() && raw.len() <= MAX_VALUE && has_no_zero(raw)
}

/// Whether the field, the raw value and the visibility keep their rules.
pub fn keeps_rules(cell: &EventCell) -> bool
    ensures { result ≡ is_cell cell.now }
{
    visibilities_are_tested();
    is_folded_name(cell.field.as_str())
        && is_raw_value(cell.raw.as_str().as_bytes())
        && has_no_zero(cell.vis.text())
}

fn is_batch(number: u64) -> bool
    ensures { result ≡ numbers_batch number }
{
    number >= 1 && number < 1 << 63
}

/// How many canonical bytes a cell has, as far as they can be counted.
fn cell_size(cell: &EventCell) -> usize
    ensures { result ≡ min (length (cell_canon cell.now)) (2 ^ 64 - 1) }
{
    let field = cell.field.as_str().len();
    let raw = cell.raw.as_str().len();
    let vis = cell.vis.text().len();
    field
        .saturating_add(raw)
        .saturating_add(vis)
        .saturating_add(3)
}

fn cells_size(cells: &[EventCell]) -> usize
    ensures { result ≡ min (length (cells_canon cells.now)) (2 ^ 64 - 1) }
{
    let mut size: usize = 0;
    for cell in cells {
        size = size.saturating_add(cell_size(cell));
    }
    size
}

/// Whether the canonical bytes of an event are within their limit. Its date is the first eight bytes of its shard.
fn is_short(event: &Event) -> bool
    ensures { result ≡ nat_le (length (canon (record_of (event_of event.now)))) MAX_CANONICAL }
{
    let dtype = event.key.dtype.as_slice().len();
    let date = event.shard.as_str().len().min(8);
    let cells = cells_size(event.cells.as_slice());
    cells
        .saturating_add(dtype)
        .saturating_add(date)
        .saturating_add(2)
        <= MAX_CANONICAL
}

/// Whether an event counts: its batch, its shard, and the limits on its cells together.
pub fn is_kept(alloc: Global, event: &Event) -> Result<bool, OutOfMemory>
    ensures { IfOk result (λ b. b ≡ keeps (event_of event.now)) }
{
    if !is_batch(event.batch) || event.cells.as_slice().len() > MAX_CELLS || !is_short(event) {
        return Ok(false);
    }
    is_shard(alloc, event.shard.as_str().as_bytes())
}
