ghost use Rattle.std.specs.Prelude.{◌≡◌, Result, IfOk};
ghost use Rattle.dw_event.specs.Records.{IsWellFormed};
ghost use Rattle.dw_event.specs.declared.records.Record.{Record};
ghost use Rattle.dw_event.specs.declared.reports.BadRecord.{BadRecord};
ghost use Rattle.serde_json.specs.View.{view, items_view};
ghost use Rattle.dw_rows.specs.Answers.{Answers};
ghost use Rattle.dw_rows.specs.JsonRecords.{json_record};
ghost use Rattle.dw_groups.specs.Batches.{records_of, batch_of, text_record};

use crate::OutOfMemory;
use crate::json_texts::read_json;
use crate::limits::MAX_RECORDS;
use crate::records::Records;
use dw_event::{BadRecord, Record};
use dw_rows::{RecordError, from_json};
use serde_json::Value;
use std::alloc::Global;

/// A record, or the rule that it breaks, apart from want of memory.
pub fn of_batch(read: Result<Record, RecordError>) -> Result<Result<Record, BadRecord>, OutOfMemory>
    ensures { IfOk result (λ r. (v : Result Record BadRecord) → Answers read v → r ≡ v) }
{
    match read {
        Ok(rec) => Ok(Ok(rec)),
        Err(RecordError::Bad(rule)) => Ok(Err(rule)),
        Err(RecordError::OutOfMemory) => Err(OutOfMemory),
    }
}

fn read_record(alloc: Global, value: &Value) -> Result<Result<Record, BadRecord>, OutOfMemory>
    ensures { IfOk result (λ r. r ≡ json_record (view value.now)) }
{
    of_batch(from_json(alloc, value))
}

fn read_records(alloc: Global, items: &[Value]) -> Result<Records, OutOfMemory>
    ensures { IfOk result (λ rs. rs ≡ records_of (items_view items.now)) }
{
    let mut records = Records::new(alloc);
    for value in items {
        let rec = read_record(alloc, value)?;
        records.put(rec)?;
    }
    Ok(records)
}

/// The records of a list of at most 10,000 values, each read or the rule that it breaks.
#[tactic(auto, using(crate::proofs::Counting::counted))]
pub fn read_batch(alloc: Global, items: &[Value]) -> Result<Option<Records>, OutOfMemory>
    ensures { IfOk result (λ o. o ≡ batch_of (items_view items.now)) }
{
    if items.len() > MAX_RECORDS {
        return Ok(None);
    }
    Ok(Some(read_records(alloc, items)?))
}

/// The record that a text of JSON is, or the rule that it breaks. Bytes that are no such text are of another shape.
pub fn read_text(alloc: Global, text: &[u8]) -> Result<Result<Record, BadRecord>, OutOfMemory>
    ensures is { IfOk result (λ r. r ≡ text_record text.now) }
    ensures well_formed { IfOk result (λ r. IfOk r IsWellFormed) }
{
    match read_json(alloc, text)? {
        Some(value) => read_record(alloc, &value),
        None => Ok(Err(BadRecord::Shape)),
    }
}
