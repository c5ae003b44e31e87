ghost use Rattle.std.specs.Prelude.{◌≡◌, [], if◌then◌else◌, IfOk, map, codes, unwrap_or};
ghost use Rattle.csv.specs.Records.{fields_of};
ghost use Rattle.dw_event.specs.Records.{IsWellFormed};
ghost use Rattle.dw_rows.specs.Gathering.{with_entries};
ghost use Rattle.dw_rows.specs.Entries.{field_of, vis_of};
ghost use Rattle.dw_rows.specs.CsvRecords.{begins_with_at as has_at, cell_under as first_under, column_entries, row_entries, fields_verdict, csv_record};
ghost use Rattle.dw_rows.specs.Answers.{Answers};

use crate::OutOfMemory;
use crate::columns::{begins_with_at, cell_under, cells_of, is_header};
use crate::error::RecordError;
use crate::gathered::{Gathered, judge, nothing_gathered};
use crate::names::read_field;
use crate::pieces::with_pieces;
use crate::visibilities::read_vis;
use csv::ByteRecord;
use dw_event::{BadRecord, Record};
use dw_vis::Vis;
use std::alloc::Global;

/// With the values of a cell. The column's name and the row's visibility count where it has none.
fn with_cell(
    alloc: Global,
    name: &[u8],
    vis: &Option<Vis>,
    gathered: Gathered,
    cell: &[u8],
) -> Result<Gathered, OutOfMemory>
    ensures { IfOk result (λ g. g ≡ with_entries gathered (column_entries (field_of name.now) vis.now cell.now)) }
{
    let field = read_field(alloc, name)?;
    let named = gathered.with(alloc, &field, vis, b"")?;
    with_pieces(alloc, &field, vis, named, cell)
}

/// The same, where the column is a field.
fn with_column(
    alloc: Global,
    name: &[u8],
    vis: &Option<Vis>,
    gathered: Gathered,
    cell: &[u8],
) -> Result<Gathered, OutOfMemory>
    ensures { IfOk result (λ g. g ≡ with_entries gathered (if has_at name.now then [] else column_entries (field_of name.now) vis.now cell.now)) }
{
    if begins_with_at(name) {
        return Ok(gathered);
    }
    with_cell(alloc, name, vis, gathered, cell)
}

fn with_columns(
    alloc: Global,
    vis: &Option<Vis>,
    mut gathered: Gathered,
    header: &[&[u8]],
    row: &[&[u8]],
) -> Result<Gathered, OutOfMemory>
    ensures { IfOk result (λ g. g ≡ with_entries gathered (row_entries vis.now (map (λ n. n.now) header.now) (map (λ c. c.now) row.now))) }
{
    for i in 0..header.len() {
        if i >= row.len() {
            return Ok(gathered);
        }
        let name = header[i];
        let cell = row[i];
        gathered = with_column(alloc, name, vis, gathered, cell)?;
    }
    Ok(gathered)
}

/// The visibility of a row, None where it is refused.
fn row_vis(alloc: Global, header: &[&[u8]], row: &[&[u8]]) -> Result<Option<Vis>, OutOfMemory>
    ensures { IfOk result (λ o. o ≡ vis_of (unwrap_or (first_under (codes "@vis") (map (λ n. n.now) header.now) (map (λ c. c.now) row.now)) [])) }
{
    match cell_under(b"@vis", header, row) {
        Some(cell) => read_vis(alloc, cell),
        None => read_vis(alloc, b""),
    }
}

/// The record of a type, a date and the columns that are fields, or the first rule that it breaks.
#[tactic(auto, using(crate::proofs::Verdicts::judged_is))]
fn read_fields(
    alloc: Global,
    dtype: &[u8],
    date: &[u8],
    header: &[&[u8]],
    row: &[&[u8]],
) -> Result<Result<Record, BadRecord>, OutOfMemory>
    ensures { IfOk result (λ r. r ≡ fields_verdict dtype.now date.now (map (λ n. n.now) header.now) (map (λ c. c.now) row.now)) }
{
    let vis = row_vis(alloc, header, row)?;
    let gathered = with_columns(alloc, &vis, nothing_gathered(alloc), header, row)?;
    judge(alloc, dtype, date, gathered)
}

#[tactic(auto, unfolding(crate::specs::CsvRecords::csv_record))]
fn read_row(
    alloc: Global,
    header: &[&[u8]],
    row: &[&[u8]],
) -> Result<Result<Record, BadRecord>, OutOfMemory>
    ensures { IfOk result (λ r. r ≡ csv_record (map (λ n. n.now) header.now) (map (λ c. c.now) row.now)) }
{
    if !is_header(header) || row.len() != header.len() {
        return Ok(Err(BadRecord::Shape));
    }
    let Some(dtype) = cell_under(b"@type", header, row) else {
        return Ok(Err(BadRecord::Shape));
    };
    let Some(date) = cell_under(b"@date", header, row) else {
        return Ok(Err(BadRecord::Shape));
    };
    read_fields(alloc, dtype, date, header, row)
}

fn read(
    alloc: Global,
    header: &ByteRecord,
    row: &ByteRecord,
) -> Result<Result<Record, BadRecord>, OutOfMemory>
    ensures { IfOk result (λ r. r ≡ csv_record (fields_of header.now) (fields_of row.now)) }
{
    let names = cells_of(alloc, header)?;
    let cells = cells_of(alloc, row)?;
    read_row(alloc, names.as_slice(), cells.as_slice())
}

/// The record that a row is under a header. The columns `@type` and `@date` stand once each and `@vis` at most
/// once; each other column is a field and may stand again. A cell of a field is cut at each `;`, where `\;`
/// stands for `;`, `\\` for `\` and any other `\` for itself. Empty pieces are no values.
pub fn from_csv(
    alloc: Global,
    header: &ByteRecord,
    fields: &ByteRecord,
) -> Result<Record, RecordError>
    ensures is { Answers result (csv_record (fields_of header.now) (fields_of fields.now)) }
    ensures well_formed { IfOk result IsWellFormed }
{
    match read(alloc, header, fields)? {
        Ok(rec) => Ok(rec),
        Err(rule) => Err(RecordError::Bad(rule)),
    }
}
