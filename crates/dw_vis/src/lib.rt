//! Visibility expressions and sets of authorisations, after Accumulo.
//!
//! A visibility is a text that says who sees a value:
//!
//! ```text
//! vis   = "" | and | or | one
//! and   = one "&" one { "&" one }
//! or    = one "|" one { "|" one }
//! one   = term | "(" ( and | or | one ) ")"
//! term  = bare | quoted
//! ```
//!
//! A bare term is one or more ASCII letters, digits, `_`, `-`, `:`, `.` and `/`. A quoted term is one or
//! more characters between `"`, in which `\"` and `\\` stand for `"` and `\`, and another `\` is refused. No
//! white space stands outside quotes. The text is UTF-8, has at most 512 bytes, and its parentheses stand
//! at most 32 deep. The empty text is seen by everyone, and a term by those who have its name, which is its
//! characters as UTF-8 bytes.
#![tactic(auto)]

mod auths;
mod depth;
mod error;
mod laws;
mod reading;
mod vis;

pub use auths::Auths;
pub use dw_base::OutOfMemory;
pub use error::VisError;
pub use laws::{depth_is_nesting, sees_by_the_grammar, spells_one_tree, visibilities_are_tested};
pub use vis::Vis;

#[cfg(test)]
mod tests;
