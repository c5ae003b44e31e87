//! Query texts: what they spell, and the one text of each query.
//!
//! What another language of the same queries shares with this one is public too: the rule on fields, the walk that counts
//! levels, the strings, the pieces of patterns and the limits.
#![tactic(auto)]

mod depth;
mod error;
mod laws;
mod lex;
mod parsing;
mod pattern;
mod printing;
mod query;
mod reading;
mod token;
mod word;

pub use depth::is_deep;
pub use error::{QueryError, QueryRule};
pub use laws::{
    canonical_texts_are_read_again, fields_fold, queries_of_texts_are_well_made,
    texts_tell_queries, well_made_queries_are_read,
};
pub use lex::{blanks, char_at, is_blank, quoted};
pub use parsing::{LEVELS, MAX_BYTES, MAX_LEAVES, parse};
pub use pattern::{Piece, begins_wild, ends_wild, is_right, literals, text_of};
pub use printing::print;
pub use query::{Op, Query};
pub use reading::{folded, names_field};
pub use std::alloc::AllocError as OutOfMemory;
pub use token::Token;
pub use word::{Word, characters};

#[cfg(test)]
mod tests;
