//! Which shards a query looks at: whether an index leads to its answers, and to which shards it leads.
#![tactic(auto)]

mod anchors;
mod cells;
mod hits;
mod joins;
mod laws;
mod planning;
mod sight;
mod spans;
mod wanted;

pub use anchors::anchored;
pub use dw_base::OutOfMemory;
pub use laws::{
    anchors_lead, answers_are_hit, bound_are_ruled, neighbours_join, other_table_adds_nothing,
};
pub use planning::shards;

#[cfg(test)]
mod tests;
