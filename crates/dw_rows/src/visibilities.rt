ghost use Rattle.std.specs.Prelude.{◌≡◌, IfOk, codes};
ghost use Rattle.serde_json.specs.Find.{get};
ghost use Rattle.serde_json.specs.View.{view};
ghost use Rattle.dw_rows.specs.Entries.{vis_of};
ghost use Rattle.dw_rows.specs.JsonRecords.{vis_member};

use crate::OutOfMemory;
use crate::texts::has_no_zero;
use dw_vis::{Vis, VisError};
use serde_json::Value;
use std::alloc::Global;

/// The visibility that a text is. None where it is refused or holds a byte 0.
pub fn read_vis(alloc: Global, bytes: &[u8]) -> Result<Option<Vis>, OutOfMemory>
    ensures { IfOk result (λ o. o ≡ vis_of bytes.now) }
{
    if !has_no_zero(bytes) {
        return Ok(None);
    }
    match Vis::parse(alloc, bytes) {
        Ok(vis) => Ok(Some(vis)),
        Err(VisError::OutOfMemory) => Err(OutOfMemory),
        Err(VisError::TooLong) => Ok(None),
        Err(VisError::TooDeep) => Ok(None),
        Err(VisError::Syntax) => Ok(None),
        Err(VisError::Mixed) => Ok(None),
    }
}

/// An equal visibility of its own, or None again.
fn copy_of(vis: &Option<Vis>) -> Result<Option<Vis>, OutOfMemory>
    ensures { IfOk result (λ copy. copy ≡ vis.now) }
{
    match vis {
        Some(vis) => Ok(Some(vis.copy()?)),
        None => Ok(None),
    }
}

/// The visibility that the member `vis` of a value gives, or else this one, each None where it is refused.
/// None where the member is no text.
pub fn member_vis(
    alloc: Global,
    value: &Value,
    default: &Option<Vis>,
) -> Result<Option<Option<Vis>>, OutOfMemory>
    ensures { IfOk result (λ o. o ≡ vis_member (get (codes "vis") (view value.now)) default.now) }
{
    let member = match value.get("vis") {
        Some(member) => member,
        None => return Ok(Some(copy_of(default)?)),
    };
    match member.as_str() {
        Some(text) => Ok(Some(read_vis(alloc, text.as_bytes())?)),
        None => Ok(None),
    }
}
