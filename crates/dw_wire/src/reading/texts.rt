ghost use Rattle.std.specs.Prelude.{◌≡◌, IfOk};
ghost use Rattle.dw_wire.specs.ReadLine.{caller_of};

use crate::OutOfMemory;
use dw_base::{Text, is_caller};
use std::alloc::Global;

/// The caller that bytes name: 1 to 128 visible ASCII characters.
#[tactic(auto, using(crate::proofs::CallerBytes::other_bytes))]
pub fn read_caller(alloc: Global, name: &[u8]) -> Result<Option<Text>, OutOfMemory>
    ensures { IfOk result (λ o. o ≡ caller_of name.now) }
{
    let Ok(name) = str::from_utf8(name) else {
        return Ok(None);
    };
    if !is_caller(name) {
        return Ok(None);
    }
    Ok(Some(Text::of(alloc, name)?))
}
