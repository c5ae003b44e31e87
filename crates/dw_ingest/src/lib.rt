//! Batches of records: taken into the tables of a keeper, all of a batch or none.
#![tactic(auto)]

mod growing;
mod ingesting;
mod making;
mod pending;
mod reindexing;
mod standing;
mod tally;

pub use dw_base::OutOfMemory;
pub use ingesting::{IngestError, LAST_BATCH, ingest};
pub use making::put_event;
pub use reindexing::{ReindexError, event_at, reindex};

#[cfg(test)]
mod tests;
