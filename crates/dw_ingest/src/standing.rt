ghost use Rattle.std.specs.Prelude.{◌≡◌, ◌≤◌, Some, IfOk, Err};
ghost use Rattle.std.specs.Option.{option_copied};
ghost use Rattle.std.specs.BTreeMap.{get};
ghost use Rattle.dw_event.specs.Places.{place_cmp};
ghost use Rattle.dw_outside.specs.Faults.{Rose};
ghost use Rattle.dw_outside.specs.Tables.{Tables};
ghost use Rattle.dw_outside.specs.declared.keeper_error.KeeperError.{KeeperError};
ghost use Rattle.dw_derive.specs.Documents.{document_of};
ghost use Rattle.dw_ingest.specs.Standing.{standing_of, standing_beside, standing_in};

use dw_derive::document;
use dw_event::{Cells, Held, Place};
use dw_outside::{Keeper, KeeperError};
use std::alloc::Global;
use std::collections::BTreeMap;

/// How a record stands to what is held at its place.
#[derive(Clone, Copy, Debug, PartialEq, Eq)]
pub enum Standing {
    /// Nothing is held there.
    Free,
    /// The same cells are.
    Same,
    /// Other cells are.
    Other,
}

fn compare(held: &Cells, cells: &Cells) -> Standing
    ensures { result ≡ standing_of held.now cells.now }
{
    if *held == *cells {
        Standing::Same
    } else {
        Standing::Other
    }
}

/// Beside the cells that a keeper has of the place, where it has some.
fn beside(stored: &Cells, cells: &Cells) -> Standing
    ensures { result ≡ standing_beside stored.now cells.now }
{
    if stored.as_slice().is_empty() {
        Standing::Free
    } else {
        compare(stored, cells)
    }
}

/// How cells stand to what is held at a place, in this batch or before it. What this batch has brought is
/// not read from the keeper.
pub fn compare_at<K: Keeper>(
    alloc: Global,
    keeper: &mut K,
    news: &BTreeMap<Place, Held>,
    place: &Place,
    cells: &Cells,
) -> Result<Standing, KeeperError>
    ensures same { K.told keeper.new ≡ K.told keeper.old }
    ensures stands { (t : Tables) → K.told keeper.old ≡ Some t → IfOk result (λ s. s ≡ standing_in (get place_cmp news.now place.now) (document_of t place.now) cells.now) }
    ensures unasked { K.asked keeper.new ≡ K.asked keeper.old }
    ensures counted { K.faults keeper.old ≤ K.faults keeper.new }
    ensures failed { result ≡ Err KeeperError.Failed → Rose (K.faults keeper.old) (K.faults keeper.new) }
{
    match news.get(place) {
        Some(held) => Ok(compare(&held.cells, cells)),
        None => {
            let stored = document(alloc, keeper, place)?;
            Ok(beside(&stored, cells))
        }
    }
}
