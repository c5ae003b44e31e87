ghost use Rattle.std.specs.Prelude.{◌≡◌, ℕ, List, IfOk, IfSome, is_some};

use dw_base::{Bytes, OutOfMemory};
use dw_iter::Leaf;
use dw_nest::DocIter;
use std::alloc::Global;

/// An iterator over the keys of a shard that says which place it lacks where it does not know what stands at its bound.
pub trait Gaps: DocIter {
    /// By what an iterator was made from, it lacks this place.
    ghost lacks: { List (List ℕ) → List ℕ → Type 0 };

    /// A place that it lacks, exactly where it is stuck.
    fn gap(&self, alloc: Global) -> Result<Option<Bytes>, OutOfMemory>
        ensures stuck { IfOk result (λ o. is_some o ≡ Self.stuck self.now) }
        ensures place { IfOk result (λ o. IfSome o (λ place. lacks (Self.made self.now) place)) };
}

impl Gaps for Leaf<'_> {
    ghost use Rattle.dw_iter.specs.Made.{LacksPlace};

    ghost lacks = { LacksPlace };

    fn gap(&self, alloc: Global) -> Result<Option<Bytes>, OutOfMemory> {
        match self {
            Leaf::Equal(leaf) => leaf.gap(alloc),
            Leaf::Set(_) => Ok(None),
        }
    }
}
