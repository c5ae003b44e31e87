//! What holds of the tables of a world. The functions do nothing: their contracts are laws.

ghost use Rattle.dw_derive.specs.Decoded.{CodesAreRead};
ghost use Rattle.dw_derive.specs.Documents.{DocumentsAreRead};
ghost use Rattle.dw_derive.specs.EventsRead.{EventsAreRead, EventsAreGathered, TablesTellEvents};
ghost use Rattle.dw_derive.specs.Laws.{TablesOfOneMore, EventsAreSteps, NumbersAreCells, CellsAreGiven};

use dw_key::codes_tell_keys;

/// With one event more, each slot that it gives has it, and any other slot has what it had.
pub fn tables_of_one_more()
    ensures { TablesOfOneMore }
{
    codes_tell_keys();
}

/// The puts of an event make the tables of the world with that event.
pub fn events_are_steps()
    ensures { EventsAreSteps }
{
    codes_tell_keys();
}

/// The number of the last batch stands in one cell.
pub fn numbers_are_cells()
    ensures { NumbersAreCells }
{}

/// A test that passes no slot of table 3 finds a cell where it finds one that some event gives.
pub fn cells_are_given()
    ensures { CellsAreGiven }
{}

/// Bytes are read as a key exactly where they are its code.
pub fn codes_are_read()
    ensures { CodesAreRead }
{}

/// The cells of an event are read from the tables.
pub fn documents_are_read()
    ensures { DocumentsAreRead }
{}

/// The events of a world are read from the keys of its tables.
pub fn events_are_read()
    ensures { EventsAreRead }
{}

/// Gathered cell by cell, they are what is held at each place.
pub fn events_are_gathered()
    ensures { EventsAreGathered }
{}

/// Worlds with equal tables have equal events.
pub fn tables_tell_events()
    ensures { TablesTellEvents }
{}
