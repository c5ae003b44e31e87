ghost use Rattle.std.specs.Prelude.{◌≡◌, ◌⊎◌, ◌↔◌, [], Ok, Err, true, IfOk, IfSome, IsTrue, nat_eq, refl};
ghost use Rattle.std.specs.Option.{IsNone};
ghost use Rattle.std.specs.Str.{IsUtf8};
ghost use Rattle.std.specs.Ordering.{nat_cmp, as_partial_cmp};
ghost use Rattle.std.specs.Cmp.Lexicographic.{pointwise, slice_cmp};
ghost use Rattle.std.specs.Cmp.{partial_order_from_own_ties};
ghost use Rattle.std.specs.Cmp.Rules.{comparing};
ghost use Rattle.std.proofs.Common.{rules};
ghost use Rattle.dw_vis.specs.Grammar.{Sees};
ghost use Rattle.dw_vis.specs.Sight.{sees};
ghost use Rattle.dw_vis.specs.Verdict.{IsVis, Breaks, IsParsed};
ghost use Rattle.dw_vis.specs.Test.{IsTested};

use crate::OutOfMemory;
use crate::auths::Auths;
use crate::depth::is_deep;
use crate::error::VisError;
use crate::reading::Outcome;
use dw_base::MAX_VISIBILITY;
use std::alloc::Global;
use std::cmp::Ordering;
use std::marker::Model;

/// A visibility, seen and ordered as the list of its text's bytes. Two spellings of one meaning are two
/// visibilities.
#[derive(Debug, Drop)]
pub struct Vis {
    text: Vec<u8>,
}

impl Model for Vis {
    ghost use Rattle.std.specs.Prelude.{List, ℕ};
    ghost use Rattle.dw_vis.specs.Verdict.{IsVis};

    ghost Value = { List ℕ };

    ghost view = { λ v. v.text.items };

    ghost invariant = { λ v. IsVis v.text.items };
}

fn is_utf8(text: &[u8]) -> bool
    ensures { IsTrue result ↔ IsUtf8 text.now }
{
    match std::str::from_utf8(text) {
        Ok(_) => true,
        Err(_) => false,
    }
}

/// The first rule that a text breaks, if there is one.
fn fault(alloc: Global, text: &[u8]) -> Option<VisError>
    ensures kept { IsNone result → IsVis text.now }
    ensures broken { IfSome result (λ e. Breaks e text.now) }
{
    if text.len() > MAX_VISIBILITY {
        return Some(VisError::TooLong);
    }
    if is_deep(text) {
        return Some(VisError::TooDeep);
    }
    if !is_utf8(text) {
        return Some(VisError::Syntax);
    }
    let nobody = Auths::new(alloc);
    match Outcome::of_text(text, &nobody) {
        Outcome::Refused => Some(VisError::Syntax),
        Outcome::Mixes => Some(VisError::Mixed),
        Outcome::Reads(_) => None,
    }
}

impl Vis {
    ghost use Rattle.dw_vis.specs.declared.error.VisError.{VisError};

    /// The visibility of a text, or the first rule that it breaks.
    pub fn parse(alloc: Global, text: &[u8]) -> Result<Vis, VisError>
        ensures cases { IsParsed text.now result }
        // A text that breaks a rule is refused by the first.
        ensures broken { (e : VisError) → Breaks e text.now → result ≡ Err e }
        // Whether a text keeps every rule, as a test.
        ensures tested { IsTested text.now result }
        // A text that keeps every rule is read, unless memory runs out.
        ensures kept { IsVis text.now → (result ≡ Ok text.now) ⊎ (result ≡ Err VisError.OutOfMemory) }
    {
        Vis::read(alloc, text)
    }

    /// The same, by one definition of all its answers.
    fn read(alloc: Global, text: &[u8]) -> Result<Vis, VisError>
        ensures { IsParsed text.now result }
    {
        if let Some(error) = fault(alloc, text) {
            return Err(error);
        }
        let text = Vec::from_slice(alloc, text)?;
        Ok(Vis { text })
    }

    /// The empty text, which everyone sees. Takes no memory.
    pub fn everyone(alloc: Global) -> Vis
        ensures { result ≡ [] }
    {
        Vis {
            text: Vec::new(alloc),
        }
    }

    pub fn text(&self) -> &[u8]
        ensures value { result.now ≡ self.now }
        ensures kept { IsVis self.now }
    {
        self.text.as_slice()
    }

    /// An equal visibility of its own.
    pub fn copy(&self) -> Result<Vis, OutOfMemory>
        ensures { IfOk result (λ v. v ≡ self.now) }
    {
        let text = self.text.clone()?;
        Ok(Vis { text })
    }

    /// Whether one who has these names sees it. Takes no memory.
    pub fn sees(&self, auths: &Auths) -> bool
        ensures value { result ≡ sees self.now auths.now }
        ensures grammar { (result ≡ true) ↔ Sees self.now auths.now }
    {
        Outcome::of_text(self.text.as_slice(), auths).is_seen()
    }
}

impl PartialEq for Vis {
    ghost eq = { pointwise nat_eq };

    ghost laws = { Prim.search (comparing, rules) };

    fn eq(&self, other: &Vis) -> bool {
        self.text == other.text
    }
}

impl Eq for Vis {
    ghost laws = { Prim.search (comparing, rules) };
}

impl PartialOrd for Vis {
    ghost partial_cmp = { as_partial_cmp (slice_cmp nat_cmp) };

    ghost laws = { partial_order_from_own_ties (Prim.search (comparing, rules)) (Prim.search (comparing, rules)) };

    fn partial_cmp(&self, other: &Vis) -> Option<Ordering> {
        Some(self.cmp(other))
    }
}

impl Ord for Vis {
    ghost cmp = { slice_cmp nat_cmp };

    ghost total = { Prim.search (comparing, rules) };

    ghost matches_partial_cmp = { λ x y. refl };

    ghost matches_eq = { Prim.search (comparing, rules) };

    fn cmp(&self, other: &Vis) -> Ordering {
        self.text.cmp(&other.text)
    }
}
