//! What holds of tables. The functions do nothing: their contracts are laws.

ghost use Rattle.dw_outside.specs.TableLaws.{OneKeyIsRead, PrefixesAreSpans, BatchesAreTables};

/// A span from a key to that key and a byte 0 has the cell of the key alone.
pub fn one_key_is_read()
    ensures { OneKeyIsRead }
{}

/// A span up to the same bytes with the last one higher has the keys that begin with these bytes.
pub fn prefixes_are_spans()
    ensures { PrefixesAreSpans }
{}

/// Puts to a batch are puts to what the batch leaves.
pub fn batches_are_tables()
    ensures { BatchesAreTables }
{}
