//! What holds of all Lucene query texts. The functions do nothing: their contracts are laws.

ghost use Rattle.dw_lucene.specs.Laws.{TextsTellQueries, PrintedTextsAreRead, QueriesOfTextsAreWellMade};

/// A text spells at most one query.
pub fn texts_tell_queries()
    ensures { TextsTellQueries }
{}

/// The printed text of each query that some text of JEXL spells is read as that query, where one is printed and keeps the
/// limits on length and depth.
pub fn printed_texts_are_read()
    ensures { PrintedTextsAreRead }
{
    dw_jexl::queries_of_texts_are_well_made();
}

/// Each query that some text spells has its fields in upper case, text in each pattern and at least two children in each
/// And and Or.
pub fn queries_of_texts_are_well_made()
    ensures { QueriesOfTextsAreWellMade }
{
    dw_jexl::fields_fold();
}
