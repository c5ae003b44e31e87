//! The tokens of a query text.

use crate::query::Op;
use sqlite_items::Items;

/// A sign, a word, a number or a string. Words that spell an operator are that operator.
#[derive(Debug, Drop)]
pub enum Token {
    Open,
    Close,
    /// `&&`
    Conjoin,
    /// `||`
    Disjoin,
    /// `!`
    Negate,
    /// `==` and its kin.
    Compare(Op),
    /// `=~`, or `!~` where it is true.
    Match(bool),
    /// `=`
    Assign,
    Name(Items<char>),
    Number(Items<char>),
    /// A string, by the characters that it stands for.
    Quoted(Items<char>),
}
