ghost use Rattle.std.specs.Prelude.{refl};
ghost use Rattle.std.specs.Ordering.{as_partial_cmp};
ghost use Rattle.std.specs.Cmp.{partial_order_from_own_ties, partial_order_from_total};
ghost use Rattle.std.specs.Cmp.Rules.{comparing};
ghost use Rattle.std.proofs.Common.{rules};
ghost use Rattle.dw_key.specs.KeyOrder.{key_order, keys_total};

use dw_base::Bytes;
use std::cmp::Ordering;

/// The key of a cell, after Accumulo: where the cell stands in its table, who may see it, and a
/// stamp. Keys ascend by row, family, qualifier and visibility, and of equal ones the larger stamp
/// stands first.
#[derive(Debug, Drop, PartialEq, Eq)]
pub struct Key {
    pub row: Bytes,
    pub family: Bytes,
    pub qualifier: Bytes,
    pub vis: Bytes,
    pub stamp: u64,
}

impl PartialOrd for Key {
    ghost partial_cmp = { as_partial_cmp key_order };

    ghost laws = { partial_order_from_own_ties (partial_order_from_total keys_total) (Prim.search (comparing, rules)) };

    fn partial_cmp(&self, other: &Key) -> Option<Ordering> {
        Some(self.cmp(other))
    }
}

/// Takes no memory.
impl Ord for Key {
    ghost cmp = { key_order };

    ghost total = { keys_total };

    ghost matches_partial_cmp = { λ x y. refl };

    ghost matches_eq = { Prim.search (comparing, rules) };

    fn cmp(&self, other: &Key) -> Ordering {
        self.row
            .cmp(&other.row)
            .then_with(|| self.family.cmp(&other.family))
            .then_with(|| self.qualifier.cmp(&other.qualifier))
            .then_with(|| self.vis.cmp(&other.vis))
            .then_with(|| other.stamp.cmp(&self.stamp))
    }
}
