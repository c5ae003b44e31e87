//! Records and events: their cells, the bytes that tell records apart, the place that a digest of those
//! bytes gives each, and what a reader sees of them.
#![tactic(auto)]

mod canon;
mod cells;
mod counts;
mod days;
mod laws;
mod marks;
mod places;
mod records;
mod reports;
mod types;
mod uids;
mod viewing;
mod views;

pub use canon::{canonical, canonical_tells_apart};
pub use cells::{Cells, EventCell};
pub use counts::{After, ValueCount};
pub use days::Days;
pub use dw_base::{Listed, OutOfMemory};
pub use laws::pages_are_the_answer;
pub use marks::MarkUid;
pub use places::place;
pub use records::{Event, Held, Place, Record};
pub use reports::{Bad, BadReason, BadRecord, Report, Shown};
pub use types::Types;
pub use uids::{ConstUid, ShaUid, UidMaker};
pub use viewing::{view, view_cells, views_are_exact};
pub use views::{Pair, View};

#[cfg(test)]
mod tests;
