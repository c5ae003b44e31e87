//! The words of the program's commands: which words are a command, and which one.
#![tactic(auto)]

mod command;
mod given;
mod kind;
mod laws;
mod options;
mod reading;
mod values;

pub use command::{Batches, Command, Form, Place, Workers};
pub use laws::{options_are_spelled, order_is_free};
pub use reading::{are_command, journal_of, read_command, store_of};

#[cfg(test)]
mod tests;
