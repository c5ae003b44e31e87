//! What holds of tablets. The functions do nothing: their contracts are laws.

ghost use Rattle.dw_tablet.specs.Held.{SameBetween};
ghost use Rattle.dw_tablet.specs.EqualWalks.{EqualWalksAreOrdered};
ghost use Rattle.dw_tablet.specs.Fronts.{ValuesStandInFronts};
ghost use Rattle.dw_tablet.specs.Orders.{CellsStandInDocuments, ValuesStandInFields};

/// Where all places from one on and before another are covered, a tablet and each content that agrees
/// with it have the same keys there.
pub fn same_between()
    ensures { SameBetween }
{}

/// A walk over the cells of one value shows its documents in their order: first the first one that meets
/// the bound.
pub fn equal_walks_are_ordered()
    ensures { EqualWalksAreOrdered }
{}

/// The cells of a value of a field that begins with a text are among those whose keys begin so.
pub fn values_stand_in_fronts()
    ensures { ValuesStandInFronts }
{}

/// The cells of a field stand between its ends, and ascend by value and document.
pub fn values_stand_in_fields()
    ensures { ValuesStandInFields }
{}

/// The cells of a document stand between its ends.
pub fn cells_stand_in_documents()
    ensures { CellsStandInDocuments }
{}
