//! Lucene query texts: what they spell, and the one text of a query.
//!
//! The syntax is after Lucene's and is this project's own. It spells the queries of `dw_jexl`:
//!
//! ```text
//! query  = conj { "OR" conj }
//! conj   = unary { "AND" unary }
//! unary  = "NOT" unary | "(" query ")" | clause
//! clause = field ":" ( term | range )
//! range  = ( "[" | "{" ) end "TO" end ( "]" | "}" )
//! end    = term | "*"
//! term   = bare | quoted
//! ```
//!
//! White space stands between tokens, but not around `:`. A bare term is one or more characters other than white space and
//! `( ) [ ] { } : "`, and `\` makes the next character literal, one of these included. `AND`, `OR`, `NOT` and `TO` are no
//! bare terms. A quoted term stands between `"`, in which `\"` and `\\` stand for `"` and `\`.
#![tactic(auto)]

mod end;
mod laws;
mod levels;
mod lex;
mod parsing;
mod pattern;
mod printing;
mod reading;
mod token;

pub use laws::{printed_texts_are_read, queries_of_texts_are_well_made, texts_tell_queries};
pub use parsing::parse_lucene;
pub use printing::print_lucene;
pub use std::alloc::AllocError as OutOfMemory;

#[cfg(test)]
mod tests;
