ghost use Rattle.std.specs.Prelude.{◌≡◌, string_bytes, IfOk, reverse};
ghost use Rattle.dw_norm.specs.Reversal.{rev};

use crate::OutOfMemory;
use crate::folding::{chars_of, text_of};
use std::alloc::Global;

/// The scalar values of the text in the opposite order. A mark so comes before its letter.
#[tactic(auto, unfolding(crate::specs::Reversal::rev))]
pub fn reversed(alloc: Global, text: &str) -> Result<String, OutOfMemory>
    ensures { IfOk result (λ s. string_bytes s ≡ rev text.now) }
{
    let all = chars_of(alloc, text)?;
    let back = backwards(alloc, all.as_slice())?;
    text_of(alloc, back.as_slice())
}

fn backwards(alloc: Global, cs: &[char]) -> Result<Vec<char>, OutOfMemory>
    ensures { IfOk result (λ back. back.items ≡ reverse cs.now) }
{
    cs.iter().rev().copied().collect(alloc)
}
