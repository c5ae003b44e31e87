ghost use Rattle.std.specs.Prelude.{◌≡◌, IfOk, option_map};
ghost use Rattle.dw_wire.specs.ReadLine.{in_text};
ghost use Rattle.dw_wire.specs.ReadRoute.{define_body as define_inside, grant_body as grant_inside, records_body as records_inside, create_body as create_inside, table_body as table_inside, page_path as page_of_path, close_path as close_of_path};

use crate::OutOfMemory;
use crate::limits::{MAX_LINE, MAX_NUMBER, MAX_PAGE};
use crate::reading::creates::create_in;
use crate::reading::requests::{close_as, define_in, grant_in, ingest_as, page_as, records_in};
use crate::reading::values::read_value;
use crate::request::{Request, Why};
use dw_base::read_numeral;
use dw_groups::read_table;
use dw_rows::is_object_of;
use std::alloc::Global;

/// The definition of a field that a body is.
pub fn define_body(alloc: Global, body: &[u8]) -> Result<Result<Request, Why>, OutOfMemory>
    ensures { IfOk result (λ r. r ≡ in_text body.now define_inside) }
{
    let value = match read_value(alloc, body)? {
        Ok(value) => value,
        Err(why) => return Ok(Err(why)),
    };
    if !is_object_of(&["field", "kind", "indexed", "reversed"], &value) {
        return Ok(Err(Why::Shape));
    }
    define_in(alloc, &value)
}

/// The grant that a body is.
pub fn grant_body(alloc: Global, body: &[u8]) -> Result<Result<Request, Why>, OutOfMemory>
    ensures { IfOk result (λ r. r ≡ in_text body.now grant_inside) }
{
    let value = match read_value(alloc, body)? {
        Ok(value) => value,
        Err(why) => return Ok(Err(why)),
    };
    if !is_object_of(&["caller", "auths"], &value) {
        return Ok(Err(Why::Shape));
    }
    grant_in(alloc, &value)
}

/// The records that a body has.
pub fn records_body(alloc: Global, body: &[u8]) -> Result<Result<Request, Why>, OutOfMemory>
    ensures { IfOk result (λ r. r ≡ in_text body.now records_inside) }
{
    let value = match read_value(alloc, body)? {
        Ok(value) => value,
        Err(why) => return Ok(Err(why)),
    };
    if !is_object_of(&["records"], &value) {
        return Ok(Err(Why::Shape));
    }
    records_in(alloc, &value)
}

/// The create that a body is, of the caller whom its message names.
pub fn create_body(
    alloc: Global,
    caller: Option<&[u8]>,
    body: &[u8],
) -> Result<Result<Request, Why>, OutOfMemory>
    ensures { IfOk result (λ r. r ≡ in_text body.now (create_inside (option_map (λ s. s.now) caller.entry))) }
{
    let value = match read_value(alloc, body)? {
        Ok(value) => value,
        Err(why) => return Ok(Err(why)),
    };
    if !is_object_of(&["query", "from", "to", "types", "size", "auths"], &value) {
        return Ok(Err(Why::Shape));
    }
    match caller {
        Some(caller) => create_in(alloc, caller, &value),
        None => Ok(Err(Why::Shape)),
    }
}

/// The records of a body that is a text of CSV.
pub fn table_body(alloc: Global, body: &[u8]) -> Result<Result<Request, Why>, OutOfMemory>
    ensures { IfOk result (λ r. r ≡ table_inside body.now) }
{
    if body.len() > MAX_LINE {
        return Ok(Err(Why::Line));
    }
    Ok(ingest_as(read_table(alloc, body)?))
}

/// The page that a path names.
pub fn page_path(
    alloc: Global,
    caller: Option<&[u8]>,
    number: &[u8],
    page: &[u8],
) -> Result<Result<Request, Why>, OutOfMemory>
    ensures { IfOk result (λ r. r ≡ page_of_path (option_map (λ s. s.now) caller.entry) number.now page.now) }
{
    match caller {
        Some(caller) => page_as(
            alloc,
            caller,
            read_numeral(number, MAX_NUMBER),
            read_numeral(page, MAX_PAGE),
        ),
        None => Ok(Err(Why::Shape)),
    }
}

/// The close of the query that a path names.
pub fn close_path(
    alloc: Global,
    caller: Option<&[u8]>,
    number: &[u8],
) -> Result<Result<Request, Why>, OutOfMemory>
    ensures { IfOk result (λ r. r ≡ close_of_path (option_map (λ s. s.now) caller.entry) number.now) }
{
    match caller {
        Some(caller) => close_as(alloc, caller, read_numeral(number, MAX_NUMBER)),
        None => Ok(Err(Why::Shape)),
    }
}
