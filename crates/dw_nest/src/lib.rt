//! Trees of iterators over document keys: the least candidate, found by seeking.
#![tactic(auto)]

mod bound;
#[cfg(test)]
mod known_keys;
mod leaf;
mod leap;
#[cfg(test)]
mod partly_known_keys;
mod place;
mod search;
mod tree;
mod truth;

pub use bound::{Bound, Found, Top};
pub use leaf::DocIter;
pub use place::Place;
pub use tree::Tree;
pub use truth::Truth;

#[cfg(test)]
mod tests;
