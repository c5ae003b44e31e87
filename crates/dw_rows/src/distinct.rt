ghost use Rattle.std.specs.Prelude.{◌≡◌, [], Some, IfOk};
ghost use Rattle.dw_base.specs.Ascending.{set_of};
ghost use Rattle.dw_event.specs.Cells.{cell_cmp};
ghost use Rattle.dw_rows.specs.Sets.{few, with_few};

use crate::OutOfMemory;
use dw_base::MAX_CELLS;
use dw_event::{Cells, EventCell};
use std::alloc::Global;
use std::marker::Model;

/// At this many cells the equal ones among them are dropped, so that a value written many times is kept
/// few times.
const MAX_KEPT: usize = 8_192;

/// The set of the cells that were put, seen as that set, or as None where it has too many.
#[derive(Debug, Drop)]
pub struct Distinct {
    kept: Vec<EventCell>,
    too_many: bool,
}

impl Model for Distinct {
    ghost use Rattle.std.specs.Prelude.{List, Option, None, if◌then◌else◌};
    ghost use Rattle.dw_base.specs.Ascending.{set_of};
    ghost use Rattle.dw_event.specs.Cells.{cell_cmp};
    ghost use Rattle.dw_event.specs.declared.cells.EventCell.{EventCell};
    ghost use Rattle.dw_rows.specs.Sets.{few};

    ghost Value = { Option (List EventCell) };

    ghost view = { λ d. if d.too_many then None else few (set_of cell_cmp d.kept.items) };
}

impl Distinct {
    /// Takes no memory.
    pub fn new(alloc: Global) -> Distinct
        ensures { result ≡ Some [] }
    {
        Distinct {
            kept: Vec::new(alloc),
            too_many: false,
        }
    }

    /// With one cell more.
    #[tactic(auto, using(crate::proofs::SetLemmas::pushed))]
    pub fn with(mut self, cell: EventCell) -> Result<Distinct, OutOfMemory>
        ensures { IfOk result (λ d. d ≡ with_few self cell) }
    {
        if self.too_many {
            return Ok(self);
        }
        self.kept.push(cell)?;
        Ok(settled(self.kept))
    }

    /// The set, where it has at most 4,096 cells.
    pub fn into_cells(self) -> Option<Cells>
        ensures { result ≡ self }
    {
        if self.too_many {
            return None;
        }
        let cells = Cells::from_vec(self.kept);
        if cells.as_slice().len() > MAX_CELLS {
            return None;
        }
        Some(cells)
    }
}

fn settled(kept: Vec<EventCell>) -> Distinct
    ensures { result ≡ few (set_of cell_cmp kept.items) }
{
    if kept.len() < MAX_KEPT {
        return Distinct {
            kept,
            too_many: false,
        };
    }
    let cells = Cells::from_vec(kept);
    if cells.as_slice().len() > MAX_CELLS {
        return Distinct {
            kept: Vec::new(cells.allocator()),
            too_many: true,
        };
    }
    Distinct {
        kept: cells.into_vec(),
        too_many: false,
    }
}
