ghost use Rattle.std.specs.Prelude.{◌≡◌};
ghost use Rattle.dw_nest.specs.Kleene.{swapped, least_of_two, most_of_two};
ghost use Rattle.dw_eval.specs.Kleene.{kleene as kleene_value, known};

use crate::leaf::{
    some_above, some_below, some_between, some_ends, some_equal, some_holds, some_starts,
};
use crate::nquery::NQuery;
use crate::nview::NView;
use dw_dict::FieldRule;
use dw_nest::Truth;

/// The value of a leaf, which its index knows where its field is indexed.
fn known(rule: &FieldRule, met: bool) -> Truth
    ensures { result ≡ known rule.now met }
{
    match (rule.indexed, met) {
        (false, _) => Truth::Unknown,
        (true, true) => Truth::Yes,
        (true, false) => Truth::No,
    }
}

fn opposite(value: Truth) -> Truth
    ensures { result ≡ swapped value }
{
    match value {
        Truth::No => Truth::Yes,
        Truth::Unknown => Truth::Unknown,
        Truth::Yes => Truth::No,
    }
}

fn lower(value: Truth, other: Truth) -> Truth
    ensures { result ≡ least_of_two value other }
{
    match (value, other) {
        (Truth::No, _) => Truth::No,
        (Truth::Yes, other) => other,
        (Truth::Unknown, Truth::No) => Truth::No,
        (Truth::Unknown, _) => Truth::Unknown,
    }
}

fn higher(value: Truth, other: Truth) -> Truth
    ensures { result ≡ most_of_two value other }
{
    match (value, other) {
        (Truth::Yes, _) => Truth::Yes,
        (Truth::No, other) => other,
        (Truth::Unknown, Truth::Yes) => Truth::Yes,
        (Truth::Unknown, _) => Truth::Unknown,
    }
}

/// What the indexes alone know of a query: a leaf on a field that is not indexed is Unknown, an And is the
/// least of its children, an Or the greatest, and a Not changes Yes and No. Takes no memory.
pub fn kleene(query: &NQuery, view: &NView) -> Truth
    ensures { result ≡ kleene_value view.now query.now }
{
    match query {
        NQuery::Equal { field, rule, value } => known(rule, some_equal(view, field, value)),
        NQuery::Below {
            field,
            rule,
            value,
            edge,
        } => known(rule, some_below(view, field, value, *edge)),
        NQuery::Above {
            field,
            rule,
            value,
            edge,
        } => known(rule, some_above(view, field, value, *edge)),
        NQuery::Between {
            field,
            rule,
            low,
            low_edge,
            high,
            high_edge,
        } => known(
            rule,
            some_between(view, field, low, *low_edge, high, *high_edge),
        ),
        NQuery::Starts { field, rule, text } => known(rule, some_starts(view, field, text)),
        NQuery::Ends { field, rule, text } => known(rule, some_ends(view, field, text)),
        NQuery::Holds { field, rule, text } => known(rule, some_holds(view, field, text)),
        NQuery::Not(child) => opposite(kleene(child.get(), view)),
        NQuery::And(children) => {
            let mut value = Truth::Yes;
            for child in children.as_slice() {
                value = lower(value, kleene(child, view));
            }
            value
        }
        NQuery::Or(children) => {
            let mut value = Truth::No;
            for child in children.as_slice() {
                value = higher(value, kleene(child, view));
            }
            value
        }
    }
}
