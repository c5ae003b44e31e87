ghost use Rattle.std.specs.Prelude.{◌≡◌, IfOk};
ghost use Rattle.dw_event.specs.Views.{pair_of, seen_pairs, view_of, ViewsAreExact};

use crate::OutOfMemory;
use crate::cells::{Cells, EventCell};
use crate::records::Event;
use crate::views::{Pair, View};
use dw_vis::{Auths, sees_by_the_grammar};
use std::alloc::Global;

/// The field and the value of a cell.
fn shown_pair(cell: &EventCell) -> Result<Pair, OutOfMemory>
    ensures { IfOk result (λ p. p ≡ pair_of cell.now) }
{
    let field = cell.field.copy()?;
    let raw = cell.raw.copy()?;
    Ok(Pair { field, raw })
}

/// The pairs of the cells that a reader of these authorisations sees, in the order of the cells.
fn pairs_seen(alloc: Global, cells: &[EventCell], auths: &Auths) -> Result<Vec<Pair>, OutOfMemory>
    ensures { IfOk result (λ v. v.items ≡ seen_pairs auths.now cells.now) }
{
    let mut pairs = Vec::new(alloc);
    for cell in cells {
        if cell.vis.sees(auths) {
            pairs.push(shown_pair(cell)?)?;
        }
    }
    Ok(pairs)
}

/// What a reader of these authorisations sees of some cells: the pairs of field and value that have a cell
/// which they see, each once.
pub fn view_cells(alloc: Global, cells: &Cells, auths: &Auths) -> Result<View, OutOfMemory>
    ensures { IfOk result (λ v. v ≡ view_of auths.now cells.now) }
{
    let pairs = pairs_seen(alloc, cells.as_slice(), auths)?;
    Ok(View::from_vec(pairs))
}

/// What a reader of these authorisations sees of an event.
pub fn view(alloc: Global, event: &Event, auths: &Auths) -> Result<View, OutOfMemory>
    ensures { IfOk result (λ v. v ≡ view_of auths.now event.now.cells) }
{
    view_cells(alloc, &event.cells, auths)
}

/// A view has the pairs of field and value of which a reader of those authorisations sees a cell, and no
/// others, and it ascends.
pub fn views_are_exact()
    ensures { ViewsAreExact }
{
    sees_by_the_grammar();
}
