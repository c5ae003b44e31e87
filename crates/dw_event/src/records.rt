ghost use Rattle.std.specs.Prelude.{refl};
ghost use Rattle.std.specs.Ordering.{as_partial_cmp};
ghost use Rattle.std.specs.Cmp.{partial_order_from_own_ties};
ghost use Rattle.std.specs.Cmp.Rules.{comparing};
ghost use Rattle.std.proofs.Common.{rules};
ghost use Rattle.dw_event.specs.Places.{place_cmp};

use crate::cells::Cells;
use dw_base::Text;
use dw_key::{DType, DocKey};
use std::cmp::Ordering;

/// What comes in: a type, a date of eight digits and the set of cells.
#[derive(Debug, Drop)]
pub struct Record {
    pub dtype: DType,
    pub date: Text,
    pub cells: Cells,
}

/// A record that was taken: the shard and the key under which it is kept, its cells, and the number of
/// the batch that brought it.
#[derive(Debug, Drop)]
pub struct Event {
    pub shard: Text,
    pub key: DocKey,
    pub cells: Cells,
    pub batch: u64,
}

/// What is held at a place: the cells of an event and the number of the batch that brought them.
#[derive(Debug, Drop)]
pub struct Held {
    pub cells: Cells,
    pub batch: u64,
}

/// Where an event is kept, ordered by the bytes of the shard, then of the type, then of the uid.
#[derive(Debug, PartialEq, Eq, Drop)]
pub struct Place {
    pub shard: Text,
    pub key: DocKey,
}

impl PartialOrd for Place {
    ghost partial_cmp = { as_partial_cmp place_cmp };

    ghost laws = { partial_order_from_own_ties (Prim.search (comparing, rules)) (Prim.search (comparing, rules)) };

    fn partial_cmp(&self, other: &Place) -> Option<Ordering> {
        Some(self.cmp(other))
    }
}

impl Ord for Place {
    ghost cmp = { place_cmp };

    ghost total = { Prim.search (comparing, rules) };

    ghost matches_partial_cmp = { λ x y. refl };

    ghost matches_eq = { Prim.search (comparing, rules) };

    fn cmp(&self, other: &Place) -> Ordering {
        self.shard.cmp(&other.shard).then(self.key.cmp(&other.key))
    }
}
