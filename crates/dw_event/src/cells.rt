ghost use Rattle.std.specs.Prelude.{◌≡◌, IfOk};

use crate::OutOfMemory;
use dw_base::{Exact, Sorted, Text, Twin};
use dw_vis::Vis;

/// A field of an event, one raw value of it and who sees that, ordered by the bytes of the field, then of
/// the value and then of the visibility's text.
#[derive(Debug, PartialEq, Eq, PartialOrd, Ord, Drop)]
pub struct EventCell {
    pub field: Text,
    pub raw: Text,
    pub vis: Vis,
}

impl Exact for EventCell {
    ghost use Rattle.dw_event.specs.Cells.{exact_cells};

    ghost exact = { exact_cells };
}

impl Twin for EventCell {
    fn copy(&self) -> Result<EventCell, OutOfMemory> {
        let field = self.field.copy()?;
        let raw = self.raw.copy()?;
        let vis = self.vis.copy()?;
        Ok(EventCell { field, raw, vis })
    }
}

/// The set of the cells of an event, kept ascending.
pub type Cells = Sorted<EventCell>;
