ghost use Rattle.std.specs.Prelude.{◌≡◌, ◌↔◌, ◌++◌, ◌∷◌, [], drop, ◌≤◌, IfSome, IsSome, IsTrue, length, nat_eq, refl};
ghost use Rattle.std.specs.Ordering.{nat_cmp, as_partial_cmp};
ghost use Rattle.std.specs.List.{list_all};
ghost use Rattle.std.specs.Cmp.Lexicographic.{pointwise, slice_cmp};
ghost use Rattle.std.specs.Cmp.{partial_order_from_own_ties};
ghost use Rattle.std.specs.Cmp.Rules.{comparing};
ghost use Rattle.std.proofs.Common.{rules};
ghost use Rattle.dw_key.specs.TypeName.{is_type_byte, is_type_name, padded};

use dw_base::{OutOfMemory, Twin};
use std::cmp::Ordering;
use std::marker::Model;

/// The type of an event, in place: 1 to 64 ASCII letters, digits, `_`, `-` and `.`, and not the
/// name `fi`. Ordered as unsigned bytes.
#[derive(Clone, Copy, Debug)]
pub struct DType {
    bytes: [u8; 64],
    len: usize,
}

impl Model for DType {
    ghost use Rattle.std.specs.Prelude.{List, ℕ, ◌≡◌, ◌≤◌, IsTrue, take, length};
    ghost use Rattle.dw_key.specs.TypeName.{padded, is_type_name};
    ghost use Rattle.std.proofs.Common.{sym};

    ghost Value = { List ℕ };

    ghost view = { λ d. take d.len d.bytes };

    ghost invariant = { λ d. (d.len ≤ 64) × (d.bytes ≡ padded (take d.len d.bytes)) × (d.len ≡ length (take d.len d.bytes)) × IsTrue (is_type_name (take d.len d.bytes)) };

    ghost inverse = { λ xs. record { bytes = padded xs; len = length xs } };

    ghost inverse_ok = { λ a h i. record { bytes = sym h.1 i; len = sym h.2 i } };
}

impl DType {
    /// None exactly where the bytes are no type: none, more than 64, a byte that is no ASCII letter,
    /// digit, `_`, `-` or `.`, or the name `fi`. Takes no memory.
    #[tactic(auto, using(crate::proofs::Pads::front, crate::proofs::Pads::again, crate::proofs::Pads::long))]
    pub fn of(bytes: &[u8]) -> Option<DType>
        ensures some { IfSome result (λ d. d ≡ bytes.now) }
        ensures found { IsSome result ↔ IsTrue (is_type_name bytes.now) }
    {
        if !keeps_the_rule(bytes) {
            return None;
        }
        Some(DType {
            bytes: zero_padded(bytes),
            len: bytes.len(),
        })
    }

    pub fn as_slice(&self) -> &[u8]
        ensures same { result.now ≡ self.now }
        ensures rule { IsTrue (is_type_name self.now) }
    {
        &self.bytes[..self.len]
    }
}

impl PartialEq for DType {
    ghost eq = { pointwise nat_eq };

    ghost laws = { Prim.search (comparing, rules) };

    fn eq(&self, other: &DType) -> bool {
        self.as_slice() == other.as_slice()
    }
}

impl Eq for DType {
    ghost laws = { Prim.search (comparing, rules) };
}

impl PartialOrd for DType {
    ghost partial_cmp = { as_partial_cmp (slice_cmp nat_cmp) };

    ghost laws = { partial_order_from_own_ties (Prim.search (comparing, rules)) (Prim.search (comparing, rules)) };

    fn partial_cmp(&self, other: &DType) -> Option<Ordering> {
        Some(self.cmp(other))
    }
}

impl Ord for DType {
    ghost cmp = { slice_cmp nat_cmp };

    ghost total = { Prim.search (comparing, rules) };

    ghost matches_partial_cmp = { λ x y. refl };

    ghost matches_eq = { Prim.search (comparing, rules) };

    fn cmp(&self, other: &DType) -> Ordering {
        self.as_slice().cmp(other.as_slice())
    }
}

fn may_stand(byte: u8) -> bool
    ensures { result ≡ is_type_byte byte }
{
    byte.is_ascii_alphanumeric() || matches!(byte, b'_' | b'-' | b'.')
}

fn keeps_the_rule(bytes: &[u8]) -> bool
    ensures { result ≡ is_type_name bytes.now }
{
    if bytes.is_empty() || bytes.len() > 64 || is_fi(bytes) {
        return false;
    }
    all_may_stand(bytes)
}

fn is_fi(bytes: &[u8]) -> bool
    ensures { result ≡ pointwise nat_eq bytes.now (102 ∷ 105 ∷ []) }
{
    matches!(bytes, b"fi")
}

fn all_may_stand(bytes: &[u8]) -> bool
    ensures { result ≡ list_all is_type_byte bytes.now }
{
    bytes.iter().all(|b| may_stand(*b))
}

fn fill(all: &mut [u8], bytes: &[u8])
    requires { length bytes.now ≤ length all.old }
    ensures { all.new ≡ bytes.now ++ drop (length bytes.now) all.old }
{
    all[..bytes.len()].copy_from_slice(bytes);
}

fn zero_padded(bytes: &[u8]) -> [u8; 64]
    requires { length bytes.now ≤ 64 }
    ensures { result ≡ padded bytes.now }
{
    let mut all = [0u8; 64];
    fill(&mut all, bytes);
    all
}

impl Twin for DType {
    fn copy(&self) -> Result<DType, OutOfMemory> {
        Ok(*self)
    }
}
