//! Records in lists and in groups: those of a list of JSON, of a text of CSV and of texts of JSON, each read or the first
//! rule that it breaks.
#![tactic(auto)]

mod batches;
mod json_texts;
mod laws;
mod limits;
mod records;
mod tables;

pub use batches::{read_batch, read_text};
pub use dw_base::OutOfMemory;
pub use dw_event::{BadRecord, Record};
pub use json_texts::read_json;
pub use laws::groups_are_cuts;
pub use limits::{MAX_GROUP, MAX_RECORDS};
pub use records::Records;
pub use tables::{read_row, read_table};

#[cfg(test)]
mod tests;
