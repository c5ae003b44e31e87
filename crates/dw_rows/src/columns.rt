ghost use Rattle.std.specs.Prelude.{◌≡◌, IfOk, option_map, map};
ghost use Rattle.std.specs.List.{list_all};
ghost use Rattle.csv.specs.Records.{fields_of};
ghost use Rattle.dw_rows.specs.CsvRecords.{begins_with_at as has_at, columns_named, is_column_name as is_name, is_header as keeps_rule, cell_under as first_under};

use crate::OutOfMemory;
use csv::ByteRecord;
use std::alloc::Global;

/// The fields of a row, lent.
#[tactic(auto, using(crate::proofs::ColumnSteps::one_more, crate::proofs::ColumnSteps::is_there))]
pub fn cells_of(alloc: Global, row: &ByteRecord) -> Result<Vec<&[u8]>, OutOfMemory>
    ensures { IfOk result (λ v. map (λ s. s.now) v.items ≡ fields_of row.now) }
{
    let mut cells = Vec::new(alloc);
    for i in 0..row.len() {
        let Some(cell) = row.get(i) else {
            return Ok(cells);
        };
        cells.push(cell)?;
    }
    Ok(cells)
}

/// Whether a name begins with `@`.
pub fn begins_with_at(name: &[u8]) -> bool
    ensures { result ≡ has_at name.now }
{
    match name {
        [first, ..] => *first == b'@',
        [] => false,
    }
}

#[tactic(auto, unfolding(crate::specs::CsvRecords::is_column_name))]
fn is_column_name(name: &[u8]) -> bool
    ensures { result ≡ is_name name.now }
{
    !begins_with_at(name)
        || name == b"@type".as_slice()
        || name == b"@date".as_slice()
        || name == b"@vis".as_slice()
}

fn count_named(name: &[u8], header: &[&[u8]]) -> usize
    ensures { result ≡ columns_named name.now (map (λ n. n.now) header.now) }
{
    header.iter().filter(|column| **column == name).count()
}

fn are_column_names(header: &[&[u8]]) -> bool
    ensures { result ≡ list_all is_name (map (λ n. n.now) header.now) }
{
    for column in header {
        if !is_column_name(column) {
            return false;
        }
    }
    true
}

/// Whether `@type` and `@date` stand once each, `@vis` at most once, and no other name begins with `@`.
pub fn is_header(header: &[&[u8]]) -> bool
    ensures { result ≡ keeps_rule (map (λ n. n.now) header.now) }
{
    count_named(b"@type", header) == 1
        && count_named(b"@date", header) == 1
        && count_named(b"@vis", header) <= 1
        && are_column_names(header)
}

/// The cell of a row under the first column of this name.
#[tactic(auto)]
pub fn cell_under<'r>(name: &[u8], header: &[&[u8]], row: &[&'r [u8]]) -> Option<&'r [u8]>
    ensures { option_map (λ s. s.now) result ≡ first_under name.now (map (λ n. n.now) header.now) (map (λ c. c.now) row.now) }
{
    let mut names = header;
    let mut cells = row;
    while let [first, more @ ..] = names {
        let [cell, rest @ ..] = cells else {
            return None;
        };
        if *first == name {
            return Some(*cell);
        }
        names = more;
        cells = rest;
    }
    None
}
