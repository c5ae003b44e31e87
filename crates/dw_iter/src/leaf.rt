ghost use Rattle.dw_iter.specs.LeafParts.{bound_of, is_stuck, LeafStands, top_shown, keys_of, made_from};

use crate::equal::EqualLeaf;
use crate::set::SetLeaf;
use dw_nest::{Bound, DocIter, Top};

/// The iterator of a leaf of a query.
#[derive(Drop)]
pub enum Leaf<'t> {
    /// Over the documents that have one value.
    Equal(EqualLeaf<'t>),
    /// Over those that were gathered.
    Set(SetLeaf),
}

impl DocIter for Leaf<'_> {
    ghost at = { bound_of };

    ghost stuck = { is_stuck };

    ghost stands = { LeafStands };

    ghost shown = { top_shown };

    ghost keys = { keys_of };

    ghost made = { made_from };

    fn seek(&mut self, bound: &Bound) {
        match self {
            Leaf::Equal(leaf) => leaf.seek(bound),
            Leaf::Set(leaf) => leaf.seek(bound),
        }
    }

    fn top(&self) -> Top {
        match self {
            Leaf::Equal(leaf) => leaf.top(),
            Leaf::Set(leaf) => leaf.top(),
        }
    }

    fn next(&mut self) {
        match self {
            Leaf::Equal(leaf) => leaf.next(),
            Leaf::Set(leaf) => leaf.next(),
        }
    }
}
