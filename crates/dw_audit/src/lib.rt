//! The audit of tables: whether they are those of a world, and where they first differ from them.
#![tactic(auto)]

mod auditing;
mod comparing;
mod laws;
mod making;
mod meta;
mod rules;
mod runs;
mod stored;
mod verdict;

pub use auditing::audit;
pub use dw_base::OutOfMemory;
pub use laws::{
    changes_are_sound, sound_tables_are_of_worlds, tables_stand_for_worlds, worlds_are_read,
};
pub use verdict::Verdict;

#[cfg(test)]
mod tests;
