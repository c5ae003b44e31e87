//! A keeper whose tables are in memory, and each change of them in a file that survives a stop at any
//! moment.
#![tactic(auto)]

mod frames;
mod keeper;
mod laws;
mod open;
mod open_error;
mod reading;
mod steps;

pub use keeper::JournalKeeper;
pub use laws::{
    bad_gates_are_one, batches_are_never_bad, files_are_read_in_one_way, moments_are_left,
    stops_leave_batches,
};
pub use open::Unopened;
pub use open_error::OpenError;

#[cfg(test)]
mod tests;
