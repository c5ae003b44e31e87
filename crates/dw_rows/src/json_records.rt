ghost use Rattle.std.specs.Prelude.{◌≡◌, IfOk, option_map};
ghost use Rattle.serde_json.specs.View.{view, members_view};
ghost use Rattle.dw_event.specs.Records.{IsWellFormed};
ghost use Rattle.dw_rows.specs.Gathering.{with_entries};
ghost use Rattle.dw_rows.specs.JsonRecords.{named_entries, field_entries, fields_verdict, json_record};
ghost use Rattle.dw_rows.specs.Answers.{Answers};

use crate::OutOfMemory;
use crate::error::RecordError;
use crate::gathered::{Gathered, judge, nothing_gathered};
use crate::items::with_values;
use crate::members::{is_object_of, object_member, text_member};
use crate::names::read_field;
use crate::visibilities::member_vis;
use dw_event::{BadRecord, Record};
use dw_vis::Vis;
use serde_json::{Map, Value};
use std::alloc::Global;

/// With the values of a field of this name. The name and the record's visibility count where it has none.
#[tactic(auto, using(crate::proofs::Steps::name_then))]
fn with_field(
    alloc: Global,
    name: &str,
    default: &Option<Vis>,
    gathered: Gathered,
    value: &Value,
) -> Result<Option<Gathered>, OutOfMemory>
    ensures { IfOk result (λ o. o ≡ option_map (with_entries gathered) (named_entries name.now default.now (view value.now))) }
{
    let field = read_field(alloc, name.as_bytes())?;
    let named = gathered.with(alloc, &field, default, b"")?;
    with_values(alloc, &field, default, named, value)
}

#[tactic(auto, using(crate::proofs::Steps::fields_step, crate::proofs::Steps::fields_stop))]
fn with_fields(
    alloc: Global,
    default: &Option<Vis>,
    mut gathered: Gathered,
    fields: &Map<String, Value>,
) -> Result<Option<Gathered>, OutOfMemory>
    ensures { IfOk result (λ o. o ≡ option_map (with_entries gathered) (field_entries default.now (members_view fields.now.entries))) }
{
    for (name, value) in fields.iter() {
        gathered = match with_field(alloc, name.as_str(), default, gathered, value)? {
            Some(more) => more,
            None => return Ok(None),
        };
    }
    Ok(Some(gathered))
}

/// The record of a type, a date and fields, or the first rule that it breaks.
#[tactic(auto, using(crate::proofs::Verdicts::fields_judged, crate::proofs::Verdicts::no_fields))]
fn read_fields(
    alloc: Global,
    dtype: &str,
    date: &str,
    default: &Option<Vis>,
    fields: &Map<String, Value>,
) -> Result<Result<Record, BadRecord>, OutOfMemory>
    ensures { IfOk result (λ r. r ≡ fields_verdict dtype.now date.now (field_entries default.now (members_view fields.now.entries))) }
{
    match with_fields(alloc, default, nothing_gathered(alloc), fields)? {
        Some(gathered) => judge(alloc, dtype.as_bytes(), date.as_bytes(), gathered),
        None => Ok(Err(BadRecord::Shape)),
    }
}

#[tactic(auto, unfolding(crate::specs::JsonRecords::json_record))]
fn read(alloc: Global, value: &Value) -> Result<Result<Record, BadRecord>, OutOfMemory>
    ensures { IfOk result (λ r. r ≡ json_record (view value.now)) }
{
    if !is_object_of(&["type", "date", "fields", "vis"], value) {
        return Ok(Err(BadRecord::Shape));
    }
    let Some(dtype) = text_member(value, "type") else {
        return Ok(Err(BadRecord::Shape));
    };
    let Some(date) = text_member(value, "date") else {
        return Ok(Err(BadRecord::Shape));
    };
    let everyone = Some(Vis::everyone(alloc));
    let Some(default) = member_vis(alloc, value, &everyone)? else {
        return Ok(Err(BadRecord::Shape));
    };
    let Some(fields) = object_member(value, "fields") else {
        return Ok(Err(BadRecord::Shape));
    };
    read_fields(alloc, dtype, date, &default, fields)
}

/// The record that a value of JSON is: an object with the texts `type` and `date`, an object `fields`, and
/// perhaps a text `vis`. A field has one item or a list of them: a text, a whole number of 64 bits, a truth
/// value, `null`, or an object with one of the first three as `value` and perhaps a text `vis`, which else is
/// the record's. `null` and the empty text are no values. Names that differ only in case are one field.
pub fn from_json(alloc: Global, value: &Value) -> Result<Record, RecordError>
    ensures is { Answers result (json_record (view value.now)) }
    ensures well_formed { IfOk result IsWellFormed }
{
    match read(alloc, value)? {
        Ok(rec) => Ok(rec),
        Err(rule) => Err(RecordError::Bad(rule)),
    }
}
