ghost use Rattle.std.specs.Prelude.{◌≡◌, IfOk};
ghost use Rattle.dw_wire.specs.QueryTexts.{query_of};
ghost use Rattle.dw_wire.specs.ReadLine.{days_of};

use crate::OutOfMemory;
use dw_event::Days;
use dw_jexl::{Query, QueryError, QueryRule, parse};
use dw_norm::read_day;
use std::alloc::Global;

/// The query that a text spells, or the first rule that it breaks.
pub fn read_query(alloc: Global, text: &str) -> Result<Result<Query, QueryRule>, OutOfMemory>
    ensures { IfOk result (λ r. r ≡ query_of text.now) }
{
    match parse(alloc, text) {
        Ok(query) => Ok(Ok(query)),
        Err(QueryError::Rule(rule)) => Ok(Err(rule)),
        Err(QueryError::OutOfMemory) => Err(OutOfMemory),
    }
}

/// The days from one date up to and with another. None where one is no date, or the first is after the
/// last.
pub fn read_days(alloc: Global, first: &str, last: &str) -> Result<Option<Days>, OutOfMemory>
    ensures { IfOk result (λ o. o ≡ days_of first.now last.now) }
{
    let Some(first) = read_day(alloc, first)? else {
        return Ok(None);
    };
    let Some(last) = read_day(alloc, last)? else {
        return Ok(None);
    };
    if first.cmp(&last).is_gt() {
        return Ok(None);
    }
    Ok(Some(Days { first, last }))
}
