ghost use Rattle.std.specs.Prelude.{◌≡◌, IfOk, option_map};
ghost use Rattle.serde_json.specs.View.{view, items_view};
ghost use Rattle.dw_wire.specs.ReadLine.{define_with, define_in as define_inside, define_of, grant_with, grant_in as grant_inside, grant_of, ingest_with, records_in as records_inside, ingest_of, page_with, page_of, close_with, close_of, request_named, request_of};

use crate::OutOfMemory;
use crate::limits::{MAX_NUMBER, MAX_PAGE};
use crate::reading::auths::read_auths;
use crate::reading::creates::create;
use crate::reading::definitions::{read_field, read_rule};
use crate::reading::members::{bool_member, counted_to, list_member, texts_member, whole_member};
use crate::reading::texts::read_caller;
use crate::request::{Request, Why};
use dw_groups::{Records, read_batch, read_table};
use dw_rows::{is_object_of, text_member};
use serde_json::Value;
use std::alloc::Global;

fn define_as(
    alloc: Global,
    name: &str,
    kind: &str,
    indexed: bool,
    reversed: bool,
) -> Result<Result<Request, Why>, OutOfMemory>
    ensures { IfOk result (λ r. r ≡ define_with name.now kind.now indexed reversed) }
{
    let Some(field) = read_field(alloc, name)? else {
        return Ok(Err(Why::Field));
    };
    match read_rule(kind, indexed, reversed) {
        Some(rule) => Ok(Ok(Request::Define { field, rule })),
        None => Ok(Err(Why::Kind)),
    }
}

/// The definition of a field that the members of a value are, whatever others it has.
pub fn define_in(alloc: Global, value: &Value) -> Result<Result<Request, Why>, OutOfMemory>
    ensures { IfOk result (λ r. r ≡ define_inside (view value.now)) }
{
    let Some(name) = text_member(value, "field") else {
        return Ok(Err(Why::Shape));
    };
    let Some(kind) = text_member(value, "kind") else {
        return Ok(Err(Why::Shape));
    };
    let Some(indexed) = bool_member(value, "indexed") else {
        return Ok(Err(Why::Shape));
    };
    let Some(reversed) = bool_member(value, "reversed") else {
        return Ok(Err(Why::Shape));
    };
    define_as(alloc, name, kind, indexed, reversed)
}

fn define(alloc: Global, value: &Value) -> Result<Result<Request, Why>, OutOfMemory>
    ensures { IfOk result (λ r. r ≡ define_of (view value.now)) }
{
    if !is_object_of(&["op", "field", "kind", "indexed", "reversed"], value) {
        return Ok(Err(Why::Shape));
    }
    define_in(alloc, value)
}

fn grant_as(
    alloc: Global,
    caller: &[u8],
    names: &[Value],
) -> Result<Result<Request, Why>, OutOfMemory>
    ensures { IfOk result (λ r. r ≡ grant_with caller.now (items_view names.now)) }
{
    let Some(caller) = read_caller(alloc, caller)? else {
        return Ok(Err(Why::Caller));
    };
    match read_auths(alloc, names)? {
        Some(auths) => Ok(Ok(Request::Grant { caller, auths })),
        None => Ok(Err(Why::Auths)),
    }
}

/// The grant that the members of a value are, whatever others it has.
pub fn grant_in(alloc: Global, value: &Value) -> Result<Result<Request, Why>, OutOfMemory>
    ensures { IfOk result (λ r. r ≡ grant_inside (view value.now)) }
{
    let Some(caller) = text_member(value, "caller") else {
        return Ok(Err(Why::Shape));
    };
    match texts_member(value, "auths") {
        Some(names) => grant_as(alloc, caller.as_bytes(), names.as_slice()),
        None => Ok(Err(Why::Shape)),
    }
}

fn grant(alloc: Global, value: &Value) -> Result<Result<Request, Why>, OutOfMemory>
    ensures { IfOk result (λ r. r ≡ grant_of (view value.now)) }
{
    if !is_object_of(&["op", "caller", "auths"], value) {
        return Ok(Err(Why::Shape));
    }
    grant_in(alloc, value)
}

/// The request to take records in, where they are not too many.
pub fn ingest_as(records: Option<Records>) -> Result<Request, Why>
    ensures { result ≡ ingest_with records }
{
    match records {
        Some(records) => Ok(Request::Ingest { records }),
        None => Err(Why::Records),
    }
}

/// The request to take the records of a value in, whatever other members it has.
pub fn records_in(alloc: Global, value: &Value) -> Result<Result<Request, Why>, OutOfMemory>
    ensures { IfOk result (λ r. r ≡ records_inside (view value.now)) }
{
    match list_member(value, "records") {
        Some(items) => Ok(ingest_as(read_batch(alloc, items.as_slice())?)),
        None => Ok(Err(Why::Shape)),
    }
}

fn ingest(alloc: Global, value: &Value) -> Result<Result<Request, Why>, OutOfMemory>
    ensures { IfOk result (λ r. r ≡ ingest_of (view value.now)) }
{
    if is_object_of(&["op", "records"], value) {
        return records_in(alloc, value);
    }
    if !is_object_of(&["op", "csv"], value) {
        return Ok(Err(Why::Shape));
    }
    match text_member(value, "csv") {
        Some(text) => Ok(ingest_as(read_table(alloc, text.as_bytes())?)),
        None => Ok(Err(Why::Shape)),
    }
}

/// A page of a query of a caller.
pub fn page_as(
    alloc: Global,
    caller: &[u8],
    number: Option<u64>,
    page: Option<u64>,
) -> Result<Result<Request, Why>, OutOfMemory>
    ensures { IfOk result (λ r. r ≡ page_with caller.now number page) }
{
    let Some(caller) = read_caller(alloc, caller)? else {
        return Ok(Err(Why::Caller));
    };
    let Some(number) = counted_to(MAX_NUMBER, number) else {
        return Ok(Err(Why::Number));
    };
    match counted_to(MAX_PAGE, page) {
        Some(page) => Ok(Ok(Request::Page {
            caller,
            number,
            page: page as u32,
        })),
        None => Ok(Err(Why::Page)),
    }
}

fn page(alloc: Global, value: &Value) -> Result<Result<Request, Why>, OutOfMemory>
    ensures { IfOk result (λ r. r ≡ page_of (view value.now)) }
{
    if !is_object_of(&["op", "caller", "number", "page"], value) {
        return Ok(Err(Why::Shape));
    }
    let Some(caller) = text_member(value, "caller") else {
        return Ok(Err(Why::Shape));
    };
    let Some(number) = whole_member(value, "number") else {
        return Ok(Err(Why::Shape));
    };
    match whole_member(value, "page") {
        Some(page) => page_as(alloc, caller.as_bytes(), number, page),
        None => Ok(Err(Why::Shape)),
    }
}

/// The close of a query of a caller.
pub fn close_as(
    alloc: Global,
    caller: &[u8],
    number: Option<u64>,
) -> Result<Result<Request, Why>, OutOfMemory>
    ensures { IfOk result (λ r. r ≡ close_with caller.now number) }
{
    let Some(caller) = read_caller(alloc, caller)? else {
        return Ok(Err(Why::Caller));
    };
    match counted_to(MAX_NUMBER, number) {
        Some(number) => Ok(Ok(Request::Close { caller, number })),
        None => Ok(Err(Why::Number)),
    }
}

fn close(alloc: Global, value: &Value) -> Result<Result<Request, Why>, OutOfMemory>
    ensures { IfOk result (λ r. r ≡ close_of (view value.now)) }
{
    if !is_object_of(&["op", "caller", "number"], value) {
        return Ok(Err(Why::Shape));
    }
    let Some(caller) = text_member(value, "caller") else {
        return Ok(Err(Why::Shape));
    };
    match whole_member(value, "number") {
        Some(number) => close_as(alloc, caller.as_bytes(), number),
        None => Ok(Err(Why::Shape)),
    }
}

fn request_of_name(
    alloc: Global,
    op: &str,
    value: &Value,
) -> Result<Result<Request, Why>, OutOfMemory>
    ensures { IfOk result (λ r. r ≡ request_named op.now (view value.now)) }
{
    if op == "define" {
        return define(alloc, value);
    }
    if op == "grant" {
        return grant(alloc, value);
    }
    if op == "ingest" {
        return ingest(alloc, value);
    }
    if op == "create" {
        return create(alloc, value);
    }
    if op == "page" {
        return page(alloc, value);
    }
    if op == "close" {
        return close(alloc, value);
    }
    Ok(Err(Why::Shape))
}

/// The request that a value is: an object whose `op` is the name of an operation, with the members of
/// that operation and no others. Of any other value the first reason why it is none.
pub fn read_request(alloc: Global, value: &Value) -> Result<Result<Request, Why>, OutOfMemory>
    ensures { IfOk result (λ r. r ≡ request_of (view value.now)) }
{
    match text_member(value, "op") {
        Some(op) => request_of_name(alloc, op, value),
        None => Ok(Err(Why::Shape)),
    }
}
