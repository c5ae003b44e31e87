ghost use Rattle.std.specs.Prelude.{◌≡◌, [], find};
ghost use Rattle.dw_nest.specs.Bounds.{meets};
ghost use Rattle.dw_nest.specs.Leaves.{stands_known, top_of, is_missing};

use crate::bound::{Bound, Top};
use crate::leaf::DocIter;
use dw_key::DocKey;

/// An iterator over a sorted list of keys, all of which it knows. It looks through the list at each
/// call.
#[derive(Clone, Copy, Debug)]
pub(crate) struct KnownKeys<'a> {
    pub(crate) keys: &'a [DocKey],
    pub(crate) bound: Bound,
}

impl DocIter for KnownKeys<'_> {
    ghost at = { λ s. s.bound };

    ghost stuck = { λ s. is_missing (top_of (find (meets s.bound) s.keys.now)) };

    ghost stands = { λ s. stands_known s.keys.now };

    ghost shown = { λ s. top_of (find (meets s.bound) s.keys.now) };

    ghost keys = { λ s. s.keys.now };

    ghost made = { λ _. [] };

    fn seek(&mut self, bound: &Bound) {
        self.bound = *bound;
    }

    fn top(&self) -> Top {
        match first(self.keys, &self.bound) {
            Some(key) => Top::Key(key),
            None => Top::End,
        }
    }

    fn next(&mut self) {
        if let Some(key) = first(self.keys, &self.bound) {
            self.bound = Bound::After(key);
        }
    }
}

fn first(keys: &[DocKey], bound: &Bound) -> Option<DocKey>
    ensures { result ≡ find (meets bound.now) keys.now }
{
    for key in keys {
        if bound.is_met_by(key) {
            return Some(*key);
        }
    }
    None
}
