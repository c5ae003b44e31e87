ghost use Rattle.std.specs.Prelude.{◌≡◌, IfOk, Some, option_map, option_and_then};
ghost use Rattle.serde_json.specs.Find.{as_str};
ghost use Rattle.serde_json.specs.View.{view, items_view};
ghost use Rattle.dw_key.specs.TypeName.{is_type_name};
ghost use Rattle.dw_rows.specs.Values.{guarded};
ghost use Rattle.dw_wire.specs.ReadLine.{only_of, type_names, asked_types as asked};

use crate::OutOfMemory;
use crate::limits::MAX_TYPES;
use dw_base::Listed;
use dw_event::Types;
use dw_key::DType;
use serde_json::Value;
use std::alloc::Global;

fn type_of(value: &Value) -> Option<DType>
    ensures { result ≡ option_and_then (λ name. guarded (is_type_name name) (Some name)) (as_str (view value.now)) }
{
    let name = value.as_str()?;
    DType::of(name.as_bytes())
}

fn put_types(alloc: Global, items: &[Value]) -> Result<Option<Listed<DType>>, OutOfMemory>
    ensures { IfOk result (λ o. o ≡ type_names (items_view items.now)) }
{
    let mut types = Listed::new(alloc);
    for value in items {
        match type_of(value) {
            Some(dtype) => types.put(dtype)?,
            None => return Ok(None),
        }
    }
    Ok(Some(types))
}

#[tactic(auto, using(crate::proofs::Counting::counted))]
fn read_types(alloc: Global, items: &[Value]) -> Result<Option<Types>, OutOfMemory>
    ensures { IfOk result (λ o. o ≡ only_of (items_view items.now)) }
{
    if items.is_empty() || items.len() > MAX_TYPES {
        return Ok(None);
    }
    match put_types(alloc, items)? {
        Some(types) => Ok(Some(Types::Only { types })),
        None => Ok(None),
    }
}

/// The types that are asked for: 1 to 64 that a list of texts names, as they are written, or all where none
/// is given. None where a name or the list breaks its rule.
pub fn asked_types(alloc: Global, items: Option<&Vec<Value>>) -> Result<Option<Types>, OutOfMemory>
    ensures { IfOk result (λ o. o ≡ asked (option_map (λ v. items_view v.now.items) items.entry)) }
{
    match items {
        Some(items) => read_types(alloc, items.as_slice()),
        None => Ok(Some(Types::All)),
    }
}
