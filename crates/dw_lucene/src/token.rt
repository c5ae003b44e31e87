//! The tokens of a Lucene query text.

use dw_jexl::Piece;
use sqlite_items::Items;

/// A sign, a word or a term.
#[derive(Debug, Drop)]
pub enum Token {
    Open,
    Close,
    /// `AND`
    Conjoin,
    /// `OR`
    Disjoin,
    /// `NOT`
    Negate,
    /// `TO`
    To,
    /// A `:` that makes no field.
    Colon,
    /// The characters before a `:` that stands straight behind them, with no white space behind it.
    Field(Items<char>),
    Bare(Items<Piece>),
    /// A string, by the characters that it stands for.
    Quoted(Items<char>),
    /// `[`, or `{` where it is true.
    Low(bool),
    /// `]`, or `}` where it is true.
    High(bool),
}
