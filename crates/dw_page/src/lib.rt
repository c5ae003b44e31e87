//! A page of a query, walked over the shards that the query hits. The next shards are searched side by side, each in a
//! slot; what was found in the first slot goes to the page, in the order of shards.
//!
//! `gather` knows the page alone, `walk` lines shards up, opens and flushes slots, `waves` searches them, `hand` gives
//! the outputs to the slots, and `turn` is the loop. What the state means is `Good` (specs/Good), what remains of an
//! answer `remains`, how the two are one list `Joined`. Where a page ended is a `Mark`, from which the next one goes on
//! (specs/Marks).
#![tactic(auto)]

mod gather;
mod hand;
mod job;
mod line;
mod mark;
mod open;
mod scan;
mod settings;
mod slot;
mod turn;
mod walk;
mod waves;

pub use dw_base::OutOfMemory;
pub use gather::Gather;
pub use hand::hand_out;
pub use job::ScanJob;
pub use mark::{Mark, MarkPlace};
pub use scan::scan_quietly;
pub use settings::Settings;
pub use slot::Slot;
pub use turn::{Turned, turn_page};
pub use walk::Walk;
pub use waves::run_batches;

#[cfg(test)]
mod tests;
