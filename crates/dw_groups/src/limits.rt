//! How many records stand together, each limit with one home.

/// The most records of an ingest.
pub const MAX_RECORDS: usize = 10_000;

/// How many records are a whole group.
pub const MAX_GROUP: usize = 1_000;
