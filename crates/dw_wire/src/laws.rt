//! What holds of all texts that are read. The functions do nothing: their contracts are laws.

ghost use Rattle.dw_wire.specs.QueryTexts.{QueriesAreSpelt};

/// Each text is read as the query that it spells, or as the first rule that it breaks, and as nothing else.
pub fn queries_are_spelt()
    ensures { QueriesAreSpelt }
{}
