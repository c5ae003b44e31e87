ghost use Rattle.std.specs.Prelude.{◌≡◌, IfOk, option_map};
ghost use Rattle.serde_json.specs.View.{view};
ghost use Rattle.dw_groups.specs.Batches.{json_of};

use crate::OutOfMemory;
use serde_json::Value;
use std::alloc::Global;

/// The value of a text in JSON, by RFC 8259. None where the bytes are no UTF-8 or no such text.
pub fn read_json(alloc: Global, text: &[u8]) -> Result<Option<Value>, OutOfMemory>
    ensures { IfOk result (λ o. option_map (λ v. view v) o ≡ json_of text.now) }
{
    match Value::from_slice(alloc, text) {
        Ok(value) => Ok(Some(value)),
        Err(e) => if e.is_memory() {
            Err(OutOfMemory)
        } else {
            Ok(None)
        },
    }
}
