ghost use Rattle.std.specs.Prelude.{◌≡◌, ◌++◌, ◌∷◌, [], List, Result, IfOk};
ghost use Rattle.dw_event.specs.Records.{IsWellFormed};
ghost use Rattle.dw_event.specs.declared.records.Record.{Record};
ghost use Rattle.dw_event.specs.declared.reports.BadRecord.{BadRecord};
ghost use Rattle.datawave.specs.Asking.{Asks, Gathered};
ghost use Rattle.datawave.specs.Groups.{full_ingests, ingest, ingests};

use crate::exchange::Read;
use dw_event::{BadRecord, Record};
use dw_groups::{MAX_GROUP, Records};
use dw_key::OutOfMemory;
use dw_wire::Request;
use std::alloc::Global;
use std::mem;

/// The request to take the group in, of which nothing is left.
fn take_in(alloc: Global, group: &mut Records) -> Read
    ensures next { group.new ≡ [] }
    ensures is { IfOk result (λ r. r ≡ ingest group.old) }
{
    let records = mem::replace(group, Records::new(alloc));
    Ok(Ok(Request::Ingest { records }))
}

/// Puts a record to the group, and gives the request to take it in once it is whole.
pub fn gather(
    alloc: Global,
    group: &mut Records,
    rec: Result<Record, BadRecord>,
) -> Result<Option<Read>, OutOfMemory>
    requires { IfOk rec IsWellFormed }
    ensures { IfOk result (λ request. (recs : List (Result Record BadRecord)) → Gathered recs group.old →
        Gathered (recs ++ rec ∷ []) group.new × Asks request (full_ingests recs) (full_ingests (recs ++ rec ∷ []))) }
{
    group.put(rec)?;
    if group.as_slice().len() != MAX_GROUP {
        return Ok(None);
    }
    Ok(Some(take_in(alloc, group)))
}

/// The request to take the last group in, where it is not empty.
pub fn gather_last(alloc: Global, group: &mut Records) -> Option<Read>
    ensures { (recs : List (Result Record BadRecord)) → Gathered recs group.old → Asks result (full_ingests recs) (ingests recs) }
{
    if group.as_slice().is_empty() {
        return None;
    }
    Some(take_in(alloc, group))
}
