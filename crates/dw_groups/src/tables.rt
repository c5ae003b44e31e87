ghost use Rattle.std.specs.Prelude.{◌≡◌, ◌∷◌, ◌<◌, IfOk, MatchOption, length, map};
ghost use Rattle.csv.specs.Records.{fields_of};
ghost use Rattle.dw_rows.specs.CsvRecords.{csv_record};
ghost use Rattle.dw_groups.specs.Batches.{rows_of, rows_batch};

use crate::OutOfMemory;
use crate::batches::of_batch;
use crate::limits::MAX_RECORDS;
use crate::records::Records;
use csv::{ByteRecord, ReaderBuilder};
use dw_event::{BadRecord, Record};
use dw_rows::from_csv;
use std::alloc::Global;

/// The rows of a text, by RFC 4180, unless there are more than so many.
fn rows_up_to(
    alloc: Global,
    text: &[u8],
    most: usize,
) -> Result<Option<Vec<ByteRecord>>, OutOfMemory>
    ensures { IfOk result (λ o. MatchOption o (most < length (rows_of text.now)) (λ v. map fields_of v.items ≡ rows_of text.now)) }
{
    let rdr = ReaderBuilder::new()
        .has_headers(false)
        .flexible(true)
        .from_reader(alloc, text);
    let mut rows = Vec::new(alloc);
    for row in rdr.into_byte_records() {
        match row {
            Ok(row) => rows.push(row)?,
            // Of rows of any length in memory, no other error comes.
            Err(_) => return Err(OutOfMemory),
        }
        if rows.len() > most {
            return Ok(None);
        }
    }
    Ok(Some(rows))
}

/// The record that a row is under its header, or the rule that it breaks.
pub fn read_row(
    alloc: Global,
    header: &ByteRecord,
    row: &ByteRecord,
) -> Result<Result<Record, BadRecord>, OutOfMemory>
    ensures { IfOk result (λ r. r ≡ csv_record (fields_of header.now) (fields_of row.now)) }
{
    of_batch(from_csv(alloc, header, row))
}

fn read_rows(
    alloc: Global,
    header: &ByteRecord,
    rows: &[ByteRecord],
) -> Result<Records, OutOfMemory>
    ensures { IfOk result (λ rs. rs ≡ map (csv_record (fields_of header.now)) (map fields_of rows.now)) }
{
    let mut records = Records::new(alloc);
    for row in rows {
        let rec = read_row(alloc, header, row)?;
        records.put(rec)?;
    }
    Ok(records)
}

fn batch_under(
    alloc: Global,
    header: &ByteRecord,
    rows: &[ByteRecord],
) -> Result<Option<Records>, OutOfMemory>
    ensures { IfOk result (λ o. o ≡ rows_batch (fields_of header.now ∷ map fields_of rows.now)) }
{
    if rows.len() > MAX_RECORDS {
        return Ok(None);
    }
    Ok(Some(read_rows(alloc, header, rows)?))
}

fn batch_of_rows(alloc: Global, rows: &[ByteRecord]) -> Result<Option<Records>, OutOfMemory>
    ensures { IfOk result (λ o. o ≡ rows_batch (map fields_of rows.now)) }
{
    match rows {
        [] => Ok(Some(Records::new(alloc))),
        [header, rows @ ..] => batch_under(alloc, header, rows),
    }
}

/// The records of a text of CSV, of which the first row is the header, each read or the rule that it breaks.
/// None where they are more than 10,000.
#[tactic(auto, using(crate::proofs::InOrder::too_many))]
pub fn read_table(alloc: Global, text: &[u8]) -> Result<Option<Records>, OutOfMemory>
    ensures { IfOk result (λ o. o ≡ rows_batch (rows_of text.now)) }
{
    match rows_up_to(alloc, text, MAX_RECORDS + 1)? {
        Some(rows) => batch_of_rows(alloc, rows.as_slice()),
        None => Ok(None),
    }
}
