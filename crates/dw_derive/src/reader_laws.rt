//! What holds of the keys of an event's cells. The functions do nothing: their contracts are laws.

ghost use Rattle.dw_derive.specs.ReaderLaws.{EventKeysAreRead, FieldKeysAreRead, GlobalKeysAreRead, RowsNeverMeet};

/// The key of an event's cell in table 0 is read back.
pub fn event_keys_are_read()
    ensures { EventKeysAreRead }
{}

/// The key of a cell of the field index is read back.
pub fn field_keys_are_read()
    ensures { FieldKeysAreRead }
{}

/// The key of a cell of a global index is read back.
pub fn global_keys_are_read()
    ensures { GlobalKeysAreRead }
{}

/// Cells of events and of the field index have no key in common.
pub fn rows_never_meet()
    ensures { RowsNeverMeet }
{}
