ghost use Rattle.std.specs.Prelude.{refl};
ghost use Rattle.std.specs.Ordering.{as_partial_cmp};
ghost use Rattle.std.specs.Cmp.{partial_order_from_own_ties};
ghost use Rattle.std.specs.Cmp.Rules.{comparing};
ghost use Rattle.std.proofs.Common.{rules};
ghost use Rattle.dw_key.specs.DocKeys.{doc_key_cmp};

use crate::dtype::DType;
use dw_base::Exact;
use std::cmp::Ordering;

/// The 32 bytes by which an event is named within its type.
pub type Uid = [u8; 32];

/// The key of a document, ordered by the bytes of its type and then by those of its uid.
#[derive(Clone, Copy, Debug, PartialEq, Eq)]
pub struct DocKey {
    pub dtype: DType,
    pub uid: Uid,
}

impl PartialOrd for DocKey {
    ghost partial_cmp = { as_partial_cmp doc_key_cmp };

    ghost laws = { partial_order_from_own_ties (Prim.search (comparing, rules)) (Prim.search (comparing, rules)) };

    fn partial_cmp(&self, other: &DocKey) -> Option<Ordering> {
        Some(self.cmp(other))
    }
}

/// The uids are compared only where the types are equal.
impl Ord for DocKey {
    ghost cmp = { doc_key_cmp };

    ghost total = { Prim.search (comparing, rules) };

    ghost matches_partial_cmp = { λ x y. refl };

    ghost matches_eq = { Prim.search (comparing, rules) };

    fn cmp(&self, other: &DocKey) -> Ordering {
        self.dtype
            .cmp(&other.dtype)
            .then_with(|| self.uid.cmp(&other.uid))
    }
}

impl Exact for DocKey {
    ghost use Rattle.dw_key.specs.DocKeys.{exact_doc_keys};

    ghost exact = { exact_doc_keys };
}
