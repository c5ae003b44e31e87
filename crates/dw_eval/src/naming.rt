ghost use Rattle.std.specs.Prelude.{◌≡◌};
ghost use Rattle.dw_event.specs.Texts.{is_same};
ghost use Rattle.dw_eval.specs.Named.{names as is_named};

use crate::nquery::NQuery;
use dw_base::Text;

fn same(field: &Text, name: &Text) -> bool
    ensures { result ≡ is_same field.now name.now }
{
    field.cmp(name).is_eq()
}

/// Whether some leaf of a query is on this field. Takes no memory.
pub fn names(query: &NQuery, name: &Text) -> bool
    ensures { result ≡ is_named name.now query.now }
{
    match query {
        NQuery::Equal { field, .. } => same(field, name),
        NQuery::Below { field, .. } => same(field, name),
        NQuery::Above { field, .. } => same(field, name),
        NQuery::Between { field, .. } => same(field, name),
        NQuery::Starts { field, .. } => same(field, name),
        NQuery::Ends { field, .. } => same(field, name),
        NQuery::Holds { field, .. } => same(field, name),
        NQuery::Not(child) => names(child.get(), name),
        NQuery::And(children) => {
            for child in children.as_slice() {
                if names(child, name) {
                    return true;
                }
            }
            false
        }
        NQuery::Or(children) => {
            for child in children.as_slice() {
                if names(child, name) {
                    return true;
                }
            }
            false
        }
    }
}
