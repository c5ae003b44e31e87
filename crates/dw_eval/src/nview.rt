ghost use Rattle.std.specs.Prelude.{◌≡◌, ◌++◌, IfOk, OnOk, option_to_list};
ghost use Rattle.dw_eval.specs.Named.{named_form, named_pairs};
ghost use Rattle.dw_eval.specs.Sat.{sat};
ghost use Rattle.dw_eval.specs.Values.{normal_view, pair_form, values_of};

use crate::OutOfMemory;
use crate::naming::names;
use crate::nquery::NQuery;
use dw_base::Text;
use dw_dict::Dict;
use dw_event::{Pair, View};
use dw_norm::normal;
use std::alloc::Global;
use std::marker::Model;

/// A field and the normal form of one value of it.
#[derive(Debug, Drop)]
pub struct Formed {
    pub field: Text,
    pub form: Text,
}

/// A view with each value's normal form, in the order of the view: the fields ascend. A value that its
/// kind refuses has none, and is left out.
#[derive(Debug, Drop)]
pub struct NView {
    inner: Vec<Formed>,
}

impl Model for NView {
    ghost use Rattle.std.specs.Prelude.{List};
    ghost use Rattle.dw_eval.specs.Values.{FieldsAscend};
    ghost use Rattle.dw_eval.specs.declared.nview.Formed.{Formed};

    ghost Value = { List Formed };

    ghost view = { λ v. v.inner.items };

    ghost invariant = { λ v. FieldsAscend v.inner.items };
}

/// Puts the pair with its normal form, where it has one.
fn put_normal(
    alloc: Global,
    out: &mut Vec<Formed>,
    pair: &Pair,
    dict: &Dict,
) -> Result<(), OutOfMemory>
    ensures { OnOk result (out.new.items ≡ out.old.items ++ option_to_list (pair_form dict.now pair.now)) }
{
    let rule = dict.look(pair.field.as_str());
    if let Some(form) = normal(alloc, rule.kind, pair.raw.as_str())? {
        let field = pair.field.copy()?;
        let form = Text::from_string(form);
        out.push(Formed { field, form })?;
    }
    Ok(())
}

/// The pairs that have a normal form, with it.
fn normal_pairs(alloc: Global, pairs: &[Pair], dict: &Dict) -> Result<Vec<Formed>, OutOfMemory>
    ensures { IfOk result (λ v. v.items ≡ normal_view dict.now pairs.now) }
{
    let mut out = Vec::new(alloc);
    for pair in pairs {
        put_normal(alloc, &mut out, pair, dict)?;
    }
    Ok(out)
}

/// Puts the pair with its normal form, where it has one and the query names its field.
fn put_named(
    alloc: Global,
    out: &mut Vec<Formed>,
    pair: &Pair,
    dict: &Dict,
    query: &NQuery,
) -> Result<(), OutOfMemory>
    ensures { OnOk result (out.new.items ≡ out.old.items ++ named_form dict.now query.now pair.now) }
{
    if !names(query, &pair.field) {
        return Ok(());
    }
    put_normal(alloc, out, pair, dict)
}

/// The same of the pairs whose field the query names.
fn named_normal_pairs(
    alloc: Global,
    pairs: &[Pair],
    dict: &Dict,
    query: &NQuery,
) -> Result<Vec<Formed>, OutOfMemory>
    ensures { IfOk result (λ v. v.items ≡ normal_view dict.now (named_pairs query.now pairs.now)) }
{
    let mut out = Vec::new(alloc);
    for pair in pairs {
        put_named(alloc, &mut out, pair, dict, query)?;
    }
    Ok(out)
}

impl NView {
    /// The view with the normal form of each value that has one.
    pub fn of(alloc: Global, view: &View, dict: &Dict) -> Result<NView, OutOfMemory>
        ensures { IfOk result (λ v. v ≡ normal_view dict.now view.now) }
    {
        let inner = normal_pairs(alloc, view.as_slice(), dict)?;
        Ok(NView { inner })
    }

    /// The same of the fields that a query names, by which alone it is satisfied or not.
    pub fn named(
        alloc: Global,
        view: &View,
        dict: &Dict,
        query: &NQuery,
    ) -> Result<NView, OutOfMemory>
        ensures is { IfOk result (λ v. v ≡ normal_view dict.now (named_pairs query.now view.now)) }
        ensures decides { IfOk result (λ v. sat v query.now ≡ sat (normal_view dict.now view.now) query.now) }
    {
        let inner = named_normal_pairs(alloc, view.as_slice(), dict, query)?;
        Ok(NView { inner })
    }

    /// The values of a field. Takes time logarithmic in the view.
    pub(crate) fn values(&self, field: &Text) -> &[Formed]
        ensures { result.now ≡ values_of field.now self.now }
    {
        let all = self.inner.as_slice();
        let low = all.partition_point(|p| p.field.cmp(field).is_lt());
        let behind = &all[low..];
        let count = behind.partition_point(|p| p.field.cmp(field).is_le());
        &behind[..count]
    }
}
