//! Records as they come in: from a value of JSON, or from a header and a row of CSV.
#![tactic(auto)]

mod columns;
mod distinct;
mod error;
mod gathered;
mod items;
mod json_records;
mod members;
mod names;
mod pieces;
mod row_records;
mod texts;
mod visibilities;

pub use dw_base::OutOfMemory;
pub use dw_event::{BadRecord, Record};
pub use error::RecordError;
pub use json_records::from_json;
pub use members::{is_object_of, object_member, text_member};
pub use row_records::from_csv;

#[cfg(test)]
mod tests;
