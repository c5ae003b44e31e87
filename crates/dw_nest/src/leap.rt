ghost use Rattle.std.specs.Prelude.{◌≡◌};
ghost use Rattle.dw_nest.specs.Search.{leap_bound, leap_to, leap_after, is_over};

use crate::bound::{Bound, Found};
use dw_key::DocKey;
use std::cmp::Ordering;

/// How far one round over a node's children came, each sought to the greatest key so far.
#[derive(Clone, Copy, Debug)]
pub(crate) enum Leap {
    /// No child has been asked.
    Nowhere,
    /// All that were asked stand at this key.
    Agreed(DocKey),
    /// One stands at this key, and another stood before it.
    Ahead(DocKey),
    /// One has come to its end.
    Ended,
    /// One does not know.
    Unknown,
}

impl Leap {
    /// Where the next child is sought.
    pub(crate) fn bound(&self, bound: &Bound) -> Bound
        ensures { result ≡ leap_bound self.now bound.now }
    {
        match self {
            Leap::Agreed(key) => Bound::From(*key),
            Leap::Ahead(key) => Bound::From(*key),
            _ => *bound,
        }
    }

    /// The round after a child has come to a key.
    pub(crate) fn to(&self, key: DocKey) -> Leap
        ensures { result ≡ leap_to self.now key }
    {
        match self {
            Leap::Nowhere => Leap::Agreed(key),
            Leap::Agreed(old) => match old.cmp(&key) {
                Ordering::Less => Leap::Ahead(key),
                _ => Leap::Agreed(key),
            },
            Leap::Ahead(_) => Leap::Ahead(key),
            Leap::Ended => Leap::Ended,
            Leap::Unknown => Leap::Unknown,
        }
    }

    /// The round after a child has answered.
    pub(crate) fn after(&self, found: Found) -> Leap
        ensures { result ≡ leap_after self.now found }
    {
        match found {
            Found::Key(key) => self.to(key),
            Found::End => Leap::Ended,
            Found::Missing => Leap::Unknown,
        }
    }

    /// Whether no other child is to be asked.
    pub(crate) fn is_over(&self) -> bool
        ensures { result ≡ is_over self.now }
    {
        matches!(self, Leap::Ended | Leap::Unknown)
    }
}
