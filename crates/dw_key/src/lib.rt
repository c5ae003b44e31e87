//! Keys of the sorted tables, and document keys.
#![tactic(auto)]

mod decoding;
mod doc_key;
mod dtype;
mod encoding;
mod key;
mod laws;

pub use decoding::{BadKey, decode};
pub use doc_key::{DocKey, Uid};
pub use dtype::DType;
pub use dw_base::{Bytes, Names, OutOfMemory, Text};
pub use encoding::encode;
pub use key::Key;
pub use laws::{
    codes_are_ordered, codes_tell_keys, no_code_begins_another, no_part_begins_another,
    parts_keep_order, prefixes_are_parts,
};

#[cfg(test)]
mod tests;
