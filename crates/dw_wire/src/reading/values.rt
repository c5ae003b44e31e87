ghost use Rattle.std.specs.Prelude.{◌≡◌, Ok, Err, IfOk, MatchResult};
ghost use Rattle.serde_json.specs.View.{view};
ghost use Rattle.dw_wire.specs.ReadLine.{value_in};

use crate::OutOfMemory;
use crate::limits::MAX_LINE;
use crate::request::Why;
use dw_groups::read_json;
use serde_json::Value;
use std::alloc::Global;

/// The value that a text of JSON is, or why it is none. A text of more than 4,194,304 bytes is not read.
pub fn read_value(alloc: Global, text: &[u8]) -> Result<Result<Value, Why>, OutOfMemory>
    ensures { IfOk result (λ r. MatchResult r (λ v. value_in text.now ≡ Ok (view v)) (λ why. value_in text.now ≡ Err why)) }
{
    if text.len() > MAX_LINE {
        return Ok(Err(Why::Line));
    }
    match read_json(alloc, text)? {
        Some(value) => Ok(Ok(value)),
        None => Ok(Err(Why::Json)),
    }
}
