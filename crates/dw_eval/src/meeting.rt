//! What one value has to be to meet a leaf. Nothing here takes memory.

ghost use Rattle.std.specs.Prelude.{◌≡◌, []};
ghost use Rattle.dw_eval.specs.Meeting.{meets as is_met, field_of as field_is, front_of as front_is};

use crate::leaf::{holds, is_above, is_below};
use crate::nquery::NQuery;

/// Whether a normal form meets a leaf. A Not, an And and an Or are met by none.
pub fn meets(leaf: &NQuery, form: &str) -> bool
    ensures { result ≡ is_met leaf.now form.now }
{
    match leaf {
        NQuery::Equal { value, .. } => form.cmp(value.as_str()).is_eq(),
        NQuery::Below { value, edge, .. } => is_below(form, value, *edge),
        NQuery::Above { value, edge, .. } => is_above(form, value, *edge),
        NQuery::Between {
            low,
            low_edge,
            high,
            high_edge,
            ..
        } => is_above(form, low, *low_edge) && is_below(form, high, *high_edge),
        NQuery::Starts { text, .. } => form.as_bytes().starts_with(text.as_str().as_bytes()),
        NQuery::Ends { text, .. } => form.as_bytes().ends_with(text.as_str().as_bytes()),
        NQuery::Holds { text, .. } => holds(form, text),
        NQuery::Not(_) => false,
        NQuery::And(_) => false,
        NQuery::Or(_) => false,
    }
}

/// The field of a leaf, and no text of a Not, an And or an Or.
pub fn field_of(leaf: &NQuery) -> &str
    ensures { result.now ≡ field_is leaf.now }
{
    match leaf {
        NQuery::Equal { field, .. } => field.as_str(),
        NQuery::Below { field, .. } => field.as_str(),
        NQuery::Above { field, .. } => field.as_str(),
        NQuery::Between { field, .. } => field.as_str(),
        NQuery::Starts { field, .. } => field.as_str(),
        NQuery::Ends { field, .. } => field.as_str(),
        NQuery::Holds { field, .. } => field.as_str(),
        NQuery::Not(_) => "",
        NQuery::And(_) => "",
        NQuery::Or(_) => "",
    }
}

/// What the normal forms begin with that meet a leaf: its text where it asks for such a beginning, and else
/// no text.
pub fn front_of(leaf: &NQuery) -> &str
    ensures { result.now ≡ front_is leaf.now }
{
    match leaf {
        NQuery::Starts { text, .. } => text.as_str(),
        NQuery::Equal { .. } => "",
        NQuery::Below { .. } => "",
        NQuery::Above { .. } => "",
        NQuery::Between { .. } => "",
        NQuery::Ends { .. } => "",
        NQuery::Holds { .. } => "",
        NQuery::Not(_) => "",
        NQuery::And(_) => "",
        NQuery::Or(_) => "",
    }
}
