use crate::request::Why;
use dw_event::{Listed, Report, Shown};

/// The answer to a request.
#[derive(Debug, Drop)]
pub enum Reply {
    /// The rule of the field was set.
    Defined,
    /// The caller's names were replaced.
    Granted,
    Ingested { report: Report },
    /// The number of the query that was opened.
    Created { number: u64 },
    /// The events of a page, and whether one stands after them.
    Paged { shown: Listed<Shown>, more: bool },
    /// The query was dropped.
    Closed,
    Malformed { why: Why },
    /// The caller has no open query of that number.
    NotOwned,
    /// Events are held, and the rule of the field takes something back.
    NotEmpty,
    /// No index leads to the answers of the query.
    Unanchored,
    /// No number is left to give.
    Spent,
    /// The store failed; nothing changed.
    StoreFault,
    /// Want of memory; nothing changed.
    OutOfMemory,
}
