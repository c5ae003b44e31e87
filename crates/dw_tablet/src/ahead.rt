ghost use Rattle.std.specs.Prelude.{◌≡◌, true};
ghost use Rattle.dw_tablet.specs.Places.{below};
ghost use Rattle.dw_tablet.specs.Positions.{place_of};
ghost use Rattle.dw_tablet.specs.Cursors.{gap_before, known_keys, gap_place};

use crate::position::Position;
use crate::run::keys_between;
use crate::span::covered_upto;
use crate::stored::Stored;
use crate::tablet::Tablet;

/// Where the first place stands that is not covered, from a place on and before an end.
#[derive(Clone, Copy)]
pub(crate) enum Gap<'t> {
    /// At that place itself.
    Here,
    /// Here, after it.
    Later { place: &'t [u8] },
    /// All places are covered.
    Nowhere,
}

/// The keys from a place on, as far as all places are covered, and where that ends.
#[derive(Clone, Copy)]
pub(crate) struct Ahead<'t> {
    pub(crate) keys: &'t [Stored],
    pub(crate) gap: Gap<'t>,
}

impl Tablet {
    /// What is known from one place on and before another.
    pub(crate) fn ahead<'t>(&'t self, from: &Position<'_>, end: &Position<'_>) -> Ahead<'t>
        requires { below (place_of from.now) (place_of end.now) ≡ true }
        ensures keys { result.keys.now ≡ known_keys self.now (place_of from.now) (place_of end.now) }
        ensures gap { gap_place (place_of from.now) result.gap ≡ gap_before self.now (place_of from.now) (place_of end.now) }
    {
        let Some(upto) = covered_upto(self.spans(), from) else {
            return Ahead {
                keys: &[],
                gap: Gap::Here,
            };
        };
        if end.is_after(upto) {
            let keys = keys_between(self.keys(), from, &Position::At { place: upto });
            return Ahead {
                keys,
                gap: Gap::Later { place: upto },
            };
        }
        let keys = keys_between(self.keys(), from, end);
        Ahead {
            keys,
            gap: Gap::Nowhere,
        }
    }
}
