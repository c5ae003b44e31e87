//! Iterators over the documents of one shard that a leaf of a query finds in the field index.
#![tactic(auto)]

mod equal;
mod leaf;
mod set;

pub use dw_base::OutOfMemory;
pub use dw_tablet::LeafError;
pub use equal::EqualLeaf;
pub use leaf::Leaf;
pub use set::SetLeaf;
