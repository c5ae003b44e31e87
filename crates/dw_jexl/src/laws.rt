//! What holds of all query texts. The functions do nothing: their contracts are laws.

ghost use Rattle.dw_jexl.specs.QueryLaws.{TextsTellQueries, CanonicalTextsAreReadAgain, QueriesOfTextsAreWellMade, WellMadeQueriesAreRead, FieldsFold};

/// A text spells at most one query.
pub fn texts_tell_queries()
    ensures { TextsTellQueries }
{}

/// The canonical text of each query that some text spells is read again as that query, where it keeps the limits on
/// length and depth.
pub fn canonical_texts_are_read_again()
    ensures { CanonicalTextsAreReadAgain }
{}

/// Each query that some text spells has its fields in upper case, text in each pattern and at least two children in each
/// And and Or.
pub fn queries_of_texts_are_well_made()
    ensures { QueriesOfTextsAreWellMade }
{}

/// The canonical text of each query that is well made and has at most 256 leaves is read as that query, where it keeps
/// the limits on length and depth: also of a query that no text of this language gave.
pub fn well_made_queries_are_read()
    ensures { WellMadeQueriesAreRead }
{}

/// A text that names a field also does in upper case.
pub fn fields_fold()
    ensures { FieldsFold }
{}
