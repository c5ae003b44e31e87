//! Whether some value of a field meets a leaf. Nothing here takes memory.

ghost use Rattle.std.specs.Prelude.{◌≡◌};
ghost use Rattle.dw_eval.specs.Leaves.{is_above, is_below, some_equal, some_below, some_above, some_between, some_starts, some_ends, some_holds, holds};

use crate::nview::NView;
use dw_base::Text;
use std::cmp::Ordering;

pub(crate) fn is_below(form: &str, high: &Text, edge: bool) -> bool
    ensures { result ≡ is_below form.now high.now edge }
{
    match form.cmp(high.as_str()) {
        Ordering::Less => true,
        Ordering::Equal => edge,
        Ordering::Greater => false,
    }
}

pub(crate) fn is_above(form: &str, low: &Text, edge: bool) -> bool
    ensures { result ≡ is_above form.now low.now edge }
{
    match form.cmp(low.as_str()) {
        Ordering::Less => false,
        Ordering::Equal => edge,
        Ordering::Greater => true,
    }
}

pub(crate) fn holds(form: &str, text: &Text) -> bool
    ensures { result ≡ holds form.now text.now }
{
    form.contains(text.as_str())
}

pub fn some_equal(view: &NView, field: &Text, value: &Text) -> bool
    ensures { result ≡ some_equal view.now field.now value.now }
{
    view.values(field).iter().any(|p| p.form.cmp(value).is_eq())
}

pub fn some_below(view: &NView, field: &Text, value: &Text, edge: bool) -> bool
    ensures { result ≡ some_below view.now field.now value.now edge }
{
    view.values(field)
        .iter()
        .any(|p| is_below(p.form.as_str(), value, edge))
}

pub fn some_above(view: &NView, field: &Text, value: &Text, edge: bool) -> bool
    ensures { result ≡ some_above view.now field.now value.now edge }
{
    view.values(field)
        .iter()
        .any(|p| is_above(p.form.as_str(), value, edge))
}

/// Whether one value meets both ends.
pub fn some_between(
    view: &NView,
    field: &Text,
    low: &Text,
    low_edge: bool,
    high: &Text,
    high_edge: bool,
) -> bool
    ensures { result ≡ some_between view.now field.now low.now low_edge high.now high_edge }
{
    view.values(field).iter().any(|p| is_above(p.form.as_str(), low, low_edge)
        && is_below(p.form.as_str(), high, high_edge))
}

pub fn some_starts(view: &NView, field: &Text, text: &Text) -> bool
    ensures { result ≡ some_starts view.now field.now text.now }
{
    view.values(field).iter().any(|p| p
        .form
        .as_str()
        .as_bytes()
        .starts_with(text.as_str().as_bytes()))
}

pub fn some_ends(view: &NView, field: &Text, text: &Text) -> bool
    ensures { result ≡ some_ends view.now field.now text.now }
{
    view.values(field).iter().any(|p| p
        .form
        .as_str()
        .as_bytes()
        .ends_with(text.as_str().as_bytes()))
}

pub fn some_holds(view: &NView, field: &Text, text: &Text) -> bool
    ensures { result ≡ some_holds view.now field.now text.now }
{
    view.values(field)
        .iter()
        .any(|p| holds(p.form.as_str(), text))
}
