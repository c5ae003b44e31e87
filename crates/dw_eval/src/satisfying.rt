ghost use Rattle.std.specs.Prelude.{◌≡◌};
ghost use Rattle.dw_eval.specs.Sat.{sat};

use crate::leaf::{
    some_above, some_below, some_between, some_ends, some_equal, some_holds, some_starts,
};
use crate::nquery::NQuery;
use crate::nview::NView;

/// Whether the values of a view satisfy a query: a leaf where at least one value of its field meets it.
/// Takes no memory.
pub fn satisfies(query: &NQuery, view: &NView) -> bool
    ensures { result ≡ sat view.now query.now }
{
    match query {
        NQuery::Equal { field, value, .. } => some_equal(view, field, value),
        NQuery::Below {
            field,
            value,
            edge,
            ..
        } => some_below(view, field, value, *edge),
        NQuery::Above {
            field,
            value,
            edge,
            ..
        } => some_above(view, field, value, *edge),
        NQuery::Between {
            field,
            low,
            low_edge,
            high,
            high_edge,
            ..
        } => some_between(view, field, low, *low_edge, high, *high_edge),
        NQuery::Starts { field, text, .. } => some_starts(view, field, text),
        NQuery::Ends { field, text, .. } => some_ends(view, field, text),
        NQuery::Holds { field, text, .. } => some_holds(view, field, text),
        NQuery::Not(child) => !satisfies(child.get(), view),
        NQuery::And(children) => {
            for child in children.as_slice() {
                if !satisfies(child, view) {
                    return false;
                }
            }
            true
        }
        NQuery::Or(children) => {
            for child in children.as_slice() {
                if satisfies(child, view) {
                    return true;
                }
            }
            false
        }
    }
}
