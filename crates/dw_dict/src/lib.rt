//! The dictionary: what is known of each field.
#![tactic(auto)]

mod dict;
mod rule;

pub use dict::Dict;
pub use rule::FieldRule;
pub use std::alloc::AllocError as OutOfMemory;

#[cfg(test)]
mod tests;
