ghost use Rattle.std.specs.Prelude.{◌≡◌, IfOk, option_map, option_and_then, string_bytes};
ghost use Rattle.serde_json.specs.Find.{as_number};
ghost use Rattle.serde_json.specs.View.{view, items_view};
ghost use Rattle.dw_rows.specs.Gathering.{with_entry, with_entries};
ghost use Rattle.dw_rows.specs.JsonRecords.{whole_text, scalar_entry, object_entry, item_entry, item_entries, value_entries};

use crate::OutOfMemory;
use crate::gathered::Gathered;
use crate::members::is_object_of;
use crate::visibilities::member_vis;
use dw_base::Text;
use dw_vis::Vis;
use serde_json::Value;
use std::alloc::Global;

/// The decimal text of a whole number of 64 bits.
fn whole(alloc: Global, value: &Value) -> Result<Option<String>, OutOfMemory>
    ensures { IfOk result (λ o. option_map string_bytes o ≡ option_and_then whole_text (as_number (view value.now))) }
{
    if let Some(n) = value.as_u64() {
        return Ok(Some(format!(in alloc; "{n}")?));
    }
    if let Some(n) = value.as_i64() {
        return Ok(Some(format!(in alloc; "{n}")?));
    }
    Ok(None)
}

/// With the value that a text, a whole number or a truth value is. None where it is none of these.
fn with_scalar(
    alloc: Global,
    field: &Option<Text>,
    vis: &Option<Vis>,
    gathered: Gathered,
    value: &Value,
) -> Result<Option<Gathered>, OutOfMemory>
    ensures { IfOk result (λ o. o ≡ option_map (with_entry gathered) (scalar_entry field.now vis.now (view value.now))) }
{
    match value {
        Value::Bool(true) => Ok(Some(gathered.with(alloc, field, vis, b"true")?)),
        Value::Bool(false) => Ok(Some(gathered.with(alloc, field, vis, b"false")?)),
        Value::String(text) => Ok(Some(gathered.with(alloc, field, vis, text.as_bytes())?)),
        Value::Number(_) => match whole(alloc, value)? {
            Some(text) => Ok(Some(gathered.with(alloc, field, vis, text.as_bytes())?)),
            None => Ok(None),
        },
        _ => Ok(None),
    }
}

/// With the value that an object gives.
fn with_object(
    alloc: Global,
    field: &Option<Text>,
    default: &Option<Vis>,
    gathered: Gathered,
    value: &Value,
) -> Result<Option<Gathered>, OutOfMemory>
    ensures { IfOk result (λ o. o ≡ option_map (with_entry gathered) (object_entry field.now default.now (view value.now))) }
{
    if !is_object_of(&["value", "vis"], value) {
        return Ok(None);
    }
    let vis = match member_vis(alloc, value, default)? {
        Some(vis) => vis,
        None => return Ok(None),
    };
    match value.get("value") {
        Some(member) => with_scalar(alloc, field, &vis, gathered, member),
        None => Ok(None),
    }
}

fn with_item(
    alloc: Global,
    field: &Option<Text>,
    default: &Option<Vis>,
    gathered: Gathered,
    value: &Value,
) -> Result<Option<Gathered>, OutOfMemory>
    ensures { IfOk result (λ o. o ≡ option_map (with_entry gathered) (item_entry field.now default.now (view value.now))) }
{
    match value {
        Value::Null => Ok(Some(gathered.with(alloc, field, default, b"")?)),
        Value::Object(_) => with_object(alloc, field, default, gathered, value),
        Value::Array(_) => Ok(None),
        _ => with_scalar(alloc, field, default, gathered, value),
    }
}

#[tactic(auto, using(crate::proofs::Steps::items_step))]
fn with_items(
    alloc: Global,
    field: &Option<Text>,
    default: &Option<Vis>,
    mut gathered: Gathered,
    items: &[Value],
) -> Result<Option<Gathered>, OutOfMemory>
    ensures { IfOk result (λ o. o ≡ option_map (with_entries gathered) (item_entries field.now default.now (items_view items.now))) }
{
    for value in items {
        gathered = match with_item(alloc, field, default, gathered, value)? {
            Some(more) => more,
            None => return Ok(None),
        };
    }
    Ok(Some(gathered))
}

/// With the values of a field: one item, or a list of them. None where one is of no form of an item.
pub fn with_values(
    alloc: Global,
    field: &Option<Text>,
    default: &Option<Vis>,
    gathered: Gathered,
    value: &Value,
) -> Result<Option<Gathered>, OutOfMemory>
    ensures { IfOk result (λ o. o ≡ option_map (with_entries gathered) (value_entries field.now default.now (view value.now))) }
{
    match value {
        Value::Array(items) => with_items(alloc, field, default, gathered, items.as_slice()),
        _ => with_item(alloc, field, default, gathered, value),
    }
}
