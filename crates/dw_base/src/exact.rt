ghost use Rattle.std.specs.Prelude.{◌≡◌, List, ℕ, refl};
ghost use Rattle.std.specs.Ordering.{nat_cmp};
ghost use Rattle.std.specs.Cmp.Lexicographic.{slice_cmp};
ghost use Rattle.std.specs.declared.cmp.Ordering.TheVariants.{Equal};
ghost use Rattle.std.proofs.lemmas.Map.Lookups.{exact_bytes};

use crate::bytes::Bytes;
use crate::text::Text;

/// An order that tells apart all items that differ. A derived order of exact parts is one.
pub trait Exact: Ord {
    ghost exact: { (x y : Self) → Self.cmp x y ≡ Equal → x ≡ y };
}

impl Exact for Text {
    ghost exact = { exact_bytes };
}

impl Exact for Bytes {
    ghost exact = { exact_bytes };
}

impl Exact for [u8; 32] {
    ghost exact = { exact_bytes };
}

/// An item that is found by its name, the list of bytes in whose order it stands.
pub trait Named: Exact {
    ghost name: { Self → List ℕ };

    fn name(&self) -> &[u8]
        ensures { result.now ≡ name self.now };

    ghost by_name: { (x y : Self) → Self.cmp x y ≡ slice_cmp nat_cmp (name x) (name y) };
}

impl Named for Text {
    ghost name = { λ t. t };

    ghost by_name = { λ _ _. refl };

    fn name(&self) -> &[u8] {
        self.as_str().as_bytes()
    }
}
