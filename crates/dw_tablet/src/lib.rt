//! One shard of the table of cells in memory: the cells at the places that are covered, walks over them
//! and the documents among them.
#![tactic(auto)]

mod ahead;
mod asked;
mod cursor;
mod document;
mod field_values;
mod laws;
mod pieces;
mod position;
mod run;
mod said;
mod span;
mod steps;
mod stored;
mod tablet;
mod walking;

pub use asked::Asked;
pub use cursor::{Cursor, CursorTop};
pub use document::Doc;
pub use dw_base::OutOfMemory;
pub use field_values::{FieldValues, LeafError};
pub use laws::{
    cells_stand_in_documents, equal_walks_are_ordered, same_between, values_stand_in_fields,
    values_stand_in_fronts,
};
pub use said::{EventSaid, IndexSaid, Said};
pub use span::Span;
pub use steps::Steps;
pub use tablet::Tablet;
