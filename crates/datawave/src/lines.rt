ghost use Rattle.std.specs.Prelude.{◌≡◌, ◌++◌, ◌∷◌, [], ℕ, List, IfOk};
ghost use Rattle.dw_desk.specs.Session.{Asked};
ghost use Rattle.datawave.specs.Lines.{kept};
ghost use Rattle.datawave.specs.Asking.{Asks};

use crate::exchange::Read;
use crate::line::Line;
use dw_key::OutOfMemory;
use std::alloc::Global;

/// What is asked for by the lines of an input, one after another.
pub trait LineWork: Drop {
    /// What lines ask for, whatever follows.
    ghost whole: { List (List ℕ) → List Asked };

    /// What lines ask for, where they are all.
    ghost all: { List (List ℕ) → List Asked };

    /// What is held once these lines came.
    ghost holds: { Self → List (List ℕ) → Type 0 };

    /// Takes the next line, and gives the request that is whole with it, where one is.
    fn line(&mut self, alloc: Global, line: &Line) -> Result<Option<Read>, OutOfMemory>
        ensures { IfOk result (λ request. (ls : List (List ℕ)) (bytes : List ℕ) → line.now ≡ kept bytes → holds self.old ls →
            holds self.new (ls ++ bytes ∷ []) × Asks request (whole ls) (whole (ls ++ bytes ∷ []))) };

    /// Gives the request that is left after the last line, where one is.
    fn end(&mut self, alloc: Global) -> Option<Read>
        ensures { (ls : List (List ℕ)) → holds self.old ls → Asks result (whole ls) (all ls) };

    /// Nothing is asked for by no lines.
    ghost begins: { whole [] ≡ [] };

    /// More lines ask for more.
    ghost grows: { (xs ys : List (List ℕ)) → (more : List Asked) × (whole (xs ++ ys) ≡ whole xs ++ more) };

    /// All that lines ask for begins with what is whole in them.
    ghost ends: { (ls : List (List ℕ)) → (more : List Asked) × (all ls ≡ whole ls ++ more) };
}
