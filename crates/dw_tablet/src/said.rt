use dw_base::Text;
use dw_event::EventCell;
use dw_key::DocKey;
use dw_vis::Vis;

/// What the key of an event's cell says: whose it is, the cell, and the batch that brought it.
#[derive(Debug, Drop)]
pub struct EventSaid {
    pub doc: DocKey,
    pub cell: EventCell,
    pub batch: u64,
}

/// What the key of a cell of the field index says: whose it is, the field, a normal form of its, who sees
/// it, and the batch that brought it.
#[derive(Debug, Drop)]
pub struct IndexSaid {
    pub doc: DocKey,
    pub field: Text,
    pub value: Text,
    pub vis: Vis,
    pub batch: u64,
}

/// What the key of a cell of table 0 says to a reader. A key of no such form says nothing, and so does one
/// whose visibility breaks a rule.
#[derive(Debug, Drop)]
pub enum Said {
    OfEvent(EventSaid),
    OfIndex(IndexSaid),
    Nothing,
}
