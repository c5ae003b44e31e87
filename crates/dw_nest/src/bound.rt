ghost use Rattle.std.specs.Prelude.{◌≡◌};

use dw_key::DocKey;

/// Where a walk over document keys begins.
#[derive(Clone, Copy, Debug)]
pub enum Bound {
    /// At the first key.
    Start,
    /// At this key, or at the first one after it.
    From(DocKey),
    /// After this key.
    After(DocKey),
}

impl Bound {
    ghost use Rattle.dw_nest.specs.Bounds.{meets};

    /// Whether a key is among those that a walk from here comes to.
    pub fn is_met_by(&self, key: &DocKey) -> bool
        ensures { result ≡ meets self.now key.now }
    {
        match self {
            Bound::Start => true,
            Bound::From(from) => from <= key,
            Bound::After(after) => after < key,
        }
    }
}

/// What stands at the bound of an iterator.
#[derive(Clone, Copy, Debug)]
pub enum Top {
    Key(DocKey),
    /// No key meets the bound.
    End,
    /// The iterator does not know what stands there.
    Missing,
}

/// The answer of a search for the least key.
#[derive(Clone, Copy, Debug)]
pub enum Found {
    Key(DocKey),
    /// No key is such.
    End,
    /// An iterator that was asked does not know.
    Missing,
}
