ghost use Rattle.std.specs.Prelude.{◌≡◌};
ghost use Rattle.dw_nest.specs.Kleene.{swapped, least_of_two, most_of_two};
ghost use Rattle.dw_nest.specs.Places.{passes};

use crate::place::Place;

/// One of Kleene's three values, the least first.
#[derive(Clone, Copy, Debug, PartialEq, Eq)]
pub enum Truth {
    No,
    Unknown,
    Yes,
}

impl Truth {
    /// Yes and No change places.
    pub(crate) fn opposite(self) -> Truth
        ensures { result ≡ swapped self }
    {
        match self {
            Truth::No => Truth::Yes,
            Truth::Unknown => Truth::Unknown,
            Truth::Yes => Truth::No,
        }
    }

    pub(crate) fn lower(self, other: Truth) -> Truth
        ensures { result ≡ least_of_two self other }
    {
        match (self, other) {
            (Truth::No, _) => Truth::No,
            (Truth::Yes, other) => other,
            (Truth::Unknown, Truth::No) => Truth::No,
            (Truth::Unknown, _) => Truth::Unknown,
        }
    }

    pub(crate) fn higher(self, other: Truth) -> Truth
        ensures { result ≡ most_of_two self other }
    {
        match (self, other) {
            (Truth::Yes, _) => Truth::Yes,
            (Truth::No, other) => other,
            (Truth::Unknown, Truth::Yes) => Truth::Yes,
            (Truth::Unknown, _) => Truth::Unknown,
        }
    }

    /// Whether it is looked for at the place.
    pub(crate) fn passes(self, place: Place) -> bool
        ensures { result ≡ passes place self }
    {
        match (place, self) {
            (Place::Positive, Truth::No) => false,
            (Place::Negative, Truth::Yes) => false,
            _ => true,
        }
    }
}
