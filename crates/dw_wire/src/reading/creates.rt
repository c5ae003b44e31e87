ghost use Rattle.std.specs.Prelude.{◌≡◌, IfOk, option_map};
ghost use Rattle.serde_json.specs.View.{view, items_view};
ghost use Rattle.dw_wire.specs.ReadLine.{create_as, create_with, create_in as create_inside, create_of};

use crate::OutOfMemory;
use crate::limits::MAX_SIZE;
use crate::reading::auths::asked_auths;
use crate::reading::members::{asked_texts, counted_to, size_member};
use crate::reading::queries::{read_days, read_query};
use crate::reading::texts::read_caller;
use crate::reading::types::asked_types;
use crate::request::{Request, Why};
use dw_base::Text;
use dw_jexl::Query;
use dw_rows::{is_object_of, text_member};
use dw_vis::Auths;
use serde_json::Value;
use std::alloc::Global;

fn create_of_query(
    alloc: Global,
    caller: Text,
    auths: Option<Auths>,
    query: Query,
    first: &str,
    last: &str,
    types: Option<&Vec<Value>>,
    size: Option<u64>,
) -> Result<Result<Request, Why>, OutOfMemory>
    ensures { IfOk result (λ r. r ≡ create_as caller auths query first.now last.now (option_map (λ v. items_view v.now.items) types.entry) size) }
{
    let Some(days) = read_days(alloc, first, last)? else {
        return Ok(Err(Why::Days));
    };
    let Some(types) = asked_types(alloc, types)? else {
        return Ok(Err(Why::Types));
    };
    match counted_to(MAX_SIZE, size) {
        Some(size) => Ok(Ok(Request::Create {
            caller,
            query,
            days,
            types,
            size: size as u32,
            auths,
        })),
        None => Ok(Err(Why::Size)),
    }
}

fn create_of_parts(
    alloc: Global,
    caller: &[u8],
    names: Option<&Vec<Value>>,
    text: &str,
    first: &str,
    last: &str,
    types: Option<&Vec<Value>>,
    size: Option<u64>,
) -> Result<Result<Request, Why>, OutOfMemory>
    ensures { IfOk result (λ r. r ≡ create_with caller.now (option_map (λ v. items_view v.now.items) names.entry) text.now first.now last.now (option_map (λ v. items_view v.now.items) types.entry) size) }
{
    let Some(caller) = read_caller(alloc, caller)? else {
        return Ok(Err(Why::Caller));
    };
    let Some(auths) = asked_auths(alloc, names)? else {
        return Ok(Err(Why::Auths));
    };
    match read_query(alloc, text)? {
        Ok(query) => create_of_query(alloc, caller, auths, query, first, last, types, size),
        Err(rule) => Ok(Err(Why::Query { rule })),
    }
}

/// The create of a caller that the members of a value are, whatever others it has: the text of a query, the days from one up
/// to and with another, and perhaps types, names of authorisations and the size of a page.
pub fn create_in(
    alloc: Global,
    caller: &[u8],
    value: &Value,
) -> Result<Result<Request, Why>, OutOfMemory>
    ensures { IfOk result (λ r. r ≡ create_inside caller.now (view value.now)) }
{
    let Some(text) = text_member(value, "query") else {
        return Ok(Err(Why::Shape));
    };
    let Some(first) = text_member(value, "from") else {
        return Ok(Err(Why::Shape));
    };
    let Some(last) = text_member(value, "to") else {
        return Ok(Err(Why::Shape));
    };
    let Some(names) = asked_texts(value, "auths") else {
        return Ok(Err(Why::Shape));
    };
    let Some(types) = asked_texts(value, "types") else {
        return Ok(Err(Why::Shape));
    };
    match size_member(value) {
        Some(size) => create_of_parts(alloc, caller, names, text, first, last, types, size),
        None => Ok(Err(Why::Shape)),
    }
}

/// The create that a value is, which says who asks.
pub fn create(alloc: Global, value: &Value) -> Result<Result<Request, Why>, OutOfMemory>
    ensures { IfOk result (λ r. r ≡ create_of (view value.now)) }
{
    if !is_object_of(
        &[
            "op", "caller", "query", "from", "to", "types", "size", "auths",
        ],
        value,
    ) {
        return Ok(Err(Why::Shape));
    }
    match text_member(value, "caller") {
        Some(caller) => create_in(alloc, caller.as_bytes(), value),
        None => Ok(Err(Why::Shape)),
    }
}
