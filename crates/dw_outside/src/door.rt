ghost use Rattle.std.specs.Prelude.{◌≡◌, ◌≤◌, [], ◌∷◌, List, ℕ, Bool, true, false, None, IfOk, OnErr};
ghost use Rattle.std.specs.declared.option.Option.{Option};
ghost use Rattle.dw_outside.specs.Faults.{Rose};
ghost use Rattle.dw_outside.specs.Links.{Meaning};
ghost use Rattle.dw_outside.specs.Doors.{admitted, lets_out, before_links, after_links, NoneToCome};

use crate::link::Link;
use crate::traits::Failed;

/// Where links come from and are handed back to, one at a time.
pub trait Door {
    type L: Link;

    /// The links to come, where the door tells them.
    ghost coming: { Self → Option (List Meaning) };

    /// The links handed back, where the door tells them.
    ghost past: { Self → Option (List Meaning) };

    /// Whether a link is out.
    ghost is_out: { Self → Bool };

    /// How many faults there were; the count stands still at 2^64 - 1.
    ghost faults: { Self → ℕ };

    /// Gives the first of the links to come, or None where there is none.
    fn admit(&mut self) -> Result<Option<Self::L>, Failed>
        requires { is_out self.old ≡ false }
        ensures coming { coming self.old ≡ before_links (admitted Self.L.meaning result) (coming self.new) }
        ensures none { IfOk result (λ link. link ≡ None → NoneToCome (coming self.new)) }
        ensures out { is_out self.new ≡ lets_out result }
        ensures past { past self.new ≡ past self.old }
        ensures counted { faults self.old ≤ faults self.new }
        ensures failed { OnErr result (Rose (faults self.old) (faults self.new)) };

    /// Takes the link back.
    fn dismiss(&mut self, link: Self::L)
        requires { is_out self.old ≡ true }
        ensures past { past self.new ≡ after_links (past self.old) (Self.L.meaning link ∷ []) }
        ensures out { is_out self.new ≡ false }
        ensures coming { coming self.new ≡ coming self.old }
        ensures counted { faults self.old ≤ faults self.new };
}
