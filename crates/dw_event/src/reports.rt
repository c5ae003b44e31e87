use crate::records::Place;
use crate::views::View;
use dw_base::{Listed, Text};
use dw_key::DocKey;

/// Why what was sent as a record is none: the first of these rules, in this order, that it breaks.
#[derive(Clone, Copy, Debug, PartialEq, Eq)]
pub enum BadRecord {
    /// It is no object of the members of a record, or it has no value.
    Shape,
    /// The type breaks its rule.
    Dtype,
    /// The date names no day.
    Date,
    /// A field's name breaks its rule.
    Field,
    /// A visibility is refused, or holds a byte 0.
    Visibility,
    /// A value is longer than 4,096 bytes, or holds a byte 0.
    Value,
    /// There are more than 4,096 cells, or more than 65,536 canonical bytes.
    TooLarge,
}

/// What became of the records of an ingest.
#[derive(Debug, Drop)]
pub struct Report {
    pub new: u32,
    pub repeat: u32,
    pub bad: Listed<Bad>,
    /// The number of the last batch, now.
    pub last: u64,
}

/// A record that was not taken, by its place in the list, counted from 0.
#[derive(Debug, Drop)]
pub struct Bad {
    pub at: u32,
    pub why: BadReason,
}

/// Why a record was not taken.
#[derive(Debug, Drop)]
pub enum BadReason {
    /// It breaks a rule.
    Rule { rule: BadRecord },
    /// Other cells are held at its place.
    Clash { place: Place },
}

/// An event as a page shows it.
#[derive(Debug, Drop)]
pub struct Shown {
    pub shard: Text,
    pub key: DocKey,
    pub view: View,
}
