//! What holds of the codes of all keys. The functions do nothing: their contracts are laws.

ghost use Rattle.dw_key.specs.KeyLaws.{CodesAreOrdered, NoCodeBeginsAnother, CodesTellKeys, PartsKeepOrder, NoPartBeginsAnother, PrefixesAreParts};

/// Codes compare as lists of unsigned bytes as their keys do.
pub fn codes_are_ordered()
    ensures { CodesAreOrdered }
{}

/// No code is the beginning of another.
pub fn no_code_begins_another()
    ensures { NoCodeBeginsAnother }
{}

/// A code is the code of one key.
pub fn codes_tell_keys()
    ensures { CodesTellKeys }
{}

/// Codes of parts compare as the parts do, and only then as what stands behind them.
pub fn parts_keep_order()
    ensures { PartsKeepOrder }
{}

/// No code of a part is the beginning of another.
pub fn no_part_begins_another()
    ensures { NoPartBeginsAnother }
{}

/// The codes with a prefix are those of the keys with these parts: a code begins with up to three parts and
/// the beginning of a further one exactly where its key has those parts and a part that begins so.
pub fn prefixes_are_parts()
    ensures { PrefixesAreParts }
{}
