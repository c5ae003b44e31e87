ghost use Rattle.std.specs.Prelude.{◌≡◌, [], ◌∷◌, Some, find, map};
ghost use Rattle.dw_nest.specs.Bounds.{meets};
ghost use Rattle.dw_nest.specs.Leaves.{stands_partly, spot_meets, top_of_spot, is_missing};

use crate::gaps::Gaps;
use dw_base::{Bytes, OutOfMemory};
use dw_key::DocKey;
use dw_nest::{Bound, DocIter, Top};
use std::alloc::Global;

/// A key that an iterator may have, and whether it is known to be there.
pub(crate) type Spot = (DocKey, bool);

/// An iterator over a sorted list of keys, some of which it does not know. It lacks the place that it is named for. It
/// looks through the list at each call.
#[derive(Clone, Copy, Debug)]
pub(crate) struct PartlyKnownKeys<'a> {
    pub(crate) spots: &'a [Spot],
    pub(crate) bound: Bound,
    pub(crate) name: &'a [u8],
}

impl DocIter for PartlyKnownKeys<'_> {
    ghost at = { λ s. s.bound };

    ghost stuck = { λ s. is_missing (top_of_spot (find (spot_meets s.bound) s.spots.now)) };

    ghost stands = { λ s. stands_partly s.spots.now };

    ghost shown = { λ s. top_of_spot (find (spot_meets s.bound) s.spots.now) };

    ghost keys = { λ s. map (λ p. p.0) s.spots.now };

    ghost made = { λ s. s.name.now ∷ [] };

    fn seek(&mut self, bound: &Bound) {
        self.bound = *bound;
    }

    fn top(&self) -> Top {
        match first(self.spots, &self.bound) {
            Some(spot) => top_of(spot),
            None => Top::End,
        }
    }

    fn next(&mut self) {
        if let Some(spot) = first(self.spots, &self.bound) {
            self.bound = Bound::After(spot.0);
        }
    }
}

impl Gaps for PartlyKnownKeys<'_> {
    ghost lacks = { λ texts place. texts ≡ place ∷ [] };

    fn gap(&self, alloc: Global) -> Result<Option<Bytes>, OutOfMemory> {
        match self.top() {
            Top::Missing => Ok(Some(Bytes::of(alloc, self.name)?)),
            Top::Key(_) => Ok(None),
            Top::End => Ok(None),
        }
    }
}

fn first(spots: &[Spot], bound: &Bound) -> Option<Spot>
    ensures { result ≡ find (spot_meets bound.now) spots.now }
{
    for spot in spots {
        if bound.is_met_by(&spot.0) {
            return Some(*spot);
        }
    }
    None
}

fn top_of(spot: Spot) -> Top
    ensures { result ≡ top_of_spot (Some spot) }
{
    if spot.1 {
        Top::Key(spot.0)
    } else {
        Top::Missing
    }
}
