ghost use Rattle.std.specs.Prelude.{◌≡◌, IfOk, option_map};
ghost use Rattle.dw_wire.specs.ReadLine.{read_line as request_on};
ghost use Rattle.dw_wire.specs.ReadRoute.{read_route as request_by};
ghost use Rattle.dw_wire.specs.WellFormed.{IsWellFormed};

mod auths;
mod bodies;
mod creates;
mod definitions;
mod members;
mod queries;
mod requests;
mod texts;
mod types;
mod values;

use crate::OutOfMemory;
use crate::reading::bodies::{
    close_path, create_body, define_body, grant_body, page_path, records_body, table_body,
};
use crate::reading::requests::read_request;
use crate::reading::values::read_value;
use crate::request::{Request, Why};
use crate::route::Route;
use std::alloc::Global;

#[tactic(auto, unfolding(crate::specs::ReadLine::read_line))]
fn read(alloc: Global, line: &[u8]) -> Result<Result<Request, Why>, OutOfMemory>
    ensures { IfOk result (λ r. r ≡ request_on line.now) }
{
    match read_value(alloc, line)? {
        Ok(value) => read_request(alloc, &value),
        Err(why) => Ok(Err(why)),
    }
}

/// The request that a line is, which is well formed, or the first reason why it is none. A line of more than 4,194,304 bytes
/// is not read.
pub fn read_line(alloc: Global, line: &[u8]) -> Result<Result<Request, Why>, OutOfMemory>
    ensures is { IfOk result (λ r. r ≡ request_on line.now) }
    ensures well_formed { IfOk result (λ r. IfOk r IsWellFormed) }
{
    read(alloc, line)
}

#[tactic(auto, unfolding(crate::specs::ReadRoute::read_route))]
fn read_by(
    alloc: Global,
    route: Route,
    caller: Option<&[u8]>,
    number: &[u8],
    page: &[u8],
    body: &[u8],
) -> Result<Result<Request, Why>, OutOfMemory>
    ensures { IfOk result (λ r. r ≡ request_by route (option_map (λ s. s.now) caller.entry) number.now page.now body.now) }
{
    match route {
        Route::Field => define_body(alloc, body),
        Route::Grant => grant_body(alloc, body),
        Route::IngestJson => records_body(alloc, body),
        Route::IngestCsv => table_body(alloc, body),
        Route::Query => create_body(alloc, caller, body),
        Route::Page => page_path(alloc, caller, number, page),
        Route::Close => close_path(alloc, caller, number),
    }
}

/// The request of a message by HTTP, which is well formed, or the first reason why it is none. The caller is the value of the
/// message's one `x-caller` header, without spaces and tabs at its ends, and None where it has none or several: a query, a page and
/// a close are then of another shape. The number of a query and of a page are the texts in the path, and count for these alone,
/// and so does the body for the others. A body of more than 4,194,304 bytes is not read.
pub fn read_route(
    alloc: Global,
    route: Route,
    caller: Option<&[u8]>,
    number: &[u8],
    page: &[u8],
    body: &[u8],
) -> Result<Result<Request, Why>, OutOfMemory>
    ensures is { IfOk result (λ r. r ≡ request_by route (option_map (λ s. s.now) caller.entry) number.now page.now body.now) }
    ensures well_formed { IfOk result (λ r. IfOk r IsWellFormed) }
{
    read_by(alloc, route, caller, number, page, body)
}
