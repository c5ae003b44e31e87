//! Why a text is refused.

ghost use Rattle.std.specs.Prelude.{◌≡◌};
ghost use Rattle.dw_jexl.specs.declared.error.QueryError.TheVariants.{OutOfMemory};

use std::alloc::{AllocError, AllocFailed};

/// The first rule, in this order, that a text breaks.
#[derive(Clone, Copy, Debug, PartialEq, Eq, Drop)]
pub enum QueryRule {
    /// The text has more than 16,384 bytes.
    TooLong,
    /// Somewhere more than 64 levels of parentheses and negations are open.
    TooDeep,
    /// The text is not in the grammar.
    Syntax,
    /// The query has more than 256 leaves.
    TooMany,
    /// A pattern is not literal text with wildcards at its ends.
    Pattern,
}

#[derive(Clone, Copy, Debug, PartialEq, Eq, Drop)]
pub enum QueryError {
    Rule(QueryRule),
    OutOfMemory,
}

impl From<AllocError> for QueryError {
    ghost from_gives = { λ _ e. e ≡ OutOfMemory };

    fn from(_e: AllocError) -> QueryError {
        QueryError::OutOfMemory
    }
}

impl<T: Drop> From<AllocFailed<T>> for QueryError {
    ghost from_gives = { λ _ e. e ≡ OutOfMemory };

    fn from(_e: AllocFailed<T>) -> QueryError {
        QueryError::OutOfMemory
    }
}
