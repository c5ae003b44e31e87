ghost use Rattle.std.specs.Prelude.{◌≡◌, ◌||◌, IfOk, IfErr, Some, None};
ghost use Rattle.dw_event.specs.Names.{lacks_zero};
ghost use Rattle.dw_eval.specs.declared.binding.BindError.TheVariants.{Literal, OutOfMemory};
ghost use Rattle.dw_eval.specs.Bound.{bound as bound_query, bound_comparison, bound_pattern, bound_range, comparison, pattern_leaf, negated_if, literal_form, pattern_form, takes_wildcards};

use crate::OutOfMemory;
use crate::nquery::NQuery;
use dw_base::Text;
use dw_dict::{Dict, FieldRule};
use dw_jexl::{Op, Query};
use dw_norm::{Kind, normal};
use sqlite_items::{Boxed, Items};
use std::alloc::Global;

/// Why a query is not bound.
#[derive(Clone, Copy, Debug, PartialEq, Eq, Drop)]
pub enum BindError {
    /// A literal has no normal form by its field's kind or holds a byte 0, or a wildcard is asked of a
    /// field of numbers, dates or addresses.
    Literal,
    OutOfMemory,
}

impl From<OutOfMemory> for BindError {
    ghost from_gives = { λ _ e. e ≡ OutOfMemory };

    fn from(_e: OutOfMemory) -> BindError {
        BindError::OutOfMemory
    }
}

/// Whether no byte is 0.
fn lacks_zero(text: &[u8]) -> bool
    ensures { result ≡ lacks_zero text.now }
{
    text.iter().all(|b| *b != 0)
}

/// The normal form of a literal, or None where its kind refuses it or a byte 0 stands in it.
fn form_of(alloc: Global, kind: Kind, literal: &str) -> Result<Option<Text>, OutOfMemory>
    ensures { IfOk result (λ o. o ≡ literal_form kind literal.now) }
{
    if !lacks_zero(literal.as_bytes()) {
        return Ok(None);
    }
    match normal(alloc, kind, literal)? {
        Some(form) => Ok(Some(Text::from_string(form))),
        None => Ok(None),
    }
}

/// Whether a wildcard may stand in a pattern on a field of this kind.
fn takes_wildcards(kind: Kind) -> bool
    ensures { result ≡ takes_wildcards kind }
{
    matches!(kind, Kind::Text | Kind::Noop)
}

/// The normal form of a pattern's text, or None where it is refused.
fn pattern_form_of(
    alloc: Global,
    kind: Kind,
    wild: bool,
    text: &str,
) -> Result<Option<Text>, OutOfMemory>
    ensures { IfOk result (λ o. o ≡ pattern_form kind wild text.now) }
{
    if wild && !takes_wildcards(kind) {
        return Ok(None);
    }
    form_of(alloc, kind, text)
}

/// The leaf, or its negation.
fn negated_if(alloc: Global, negated: bool, leaf: NQuery) -> Result<NQuery, OutOfMemory>
    ensures { IfOk result (λ q. q ≡ negated_if negated leaf) }
{
    if negated {
        Ok(NQuery::Not(Boxed::new(alloc, leaf)?))
    } else {
        Ok(leaf)
    }
}

/// The leaf of a comparison with a normal form.
fn compared(
    alloc: Global,
    field: Text,
    rule: FieldRule,
    op: Op,
    value: Text,
) -> Result<NQuery, OutOfMemory>
    ensures { IfOk result (λ q. q ≡ comparison field rule op value) }
{
    match op {
        Op::Eq => Ok(NQuery::Equal { field, rule, value }),
        Op::Ne => negated_if(alloc, true, NQuery::Equal { field, rule, value }),
        Op::Lt => Ok(NQuery::Below {
            field,
            rule,
            value,
            edge: false,
        }),
        Op::Le => Ok(NQuery::Below {
            field,
            rule,
            value,
            edge: true,
        }),
        Op::Gt => Ok(NQuery::Above {
            field,
            rule,
            value,
            edge: false,
        }),
        Op::Ge => Ok(NQuery::Above {
            field,
            rule,
            value,
            edge: true,
        }),
    }
}

/// The leaf of a pattern: a wildcard before the text asks how a form ends, one behind it how it starts.
fn matched(field: Text, rule: FieldRule, lead: bool, trail: bool, text: Text) -> NQuery
    ensures { result ≡ pattern_leaf field rule lead trail text }
{
    match (lead, trail) {
        (false, false) => NQuery::Equal {
            field,
            rule,
            value: text,
        },
        (false, true) => NQuery::Starts { field, rule, text },
        (true, false) => NQuery::Ends { field, rule, text },
        (true, true) => NQuery::Holds { field, rule, text },
    }
}

fn bind_comparison(
    alloc: Global,
    dict: &Dict,
    field: &str,
    op: Op,
    literal: &str,
) -> Result<Option<NQuery>, OutOfMemory>
    ensures { IfOk result (λ o. o ≡ bound_comparison dict.now field.now op literal.now) }
{
    let rule = dict.look(field);
    match form_of(alloc, rule.kind, literal)? {
        Some(value) => {
            let field = Text::of(alloc, field)?;
            Ok(Some(compared(alloc, field, rule, op, value)?))
        }
        None => Ok(None),
    }
}

fn bind_pattern(
    alloc: Global,
    dict: &Dict,
    field: &str,
    negated: bool,
    lead: bool,
    trail: bool,
    text: &str,
) -> Result<Option<NQuery>, OutOfMemory>
    ensures { IfOk result (λ o. o ≡ bound_pattern dict.now field.now negated lead trail text.now) }
{
    let rule = dict.look(field);
    match pattern_form_of(alloc, rule.kind, lead || trail, text)? {
        Some(text) => {
            let field = Text::of(alloc, field)?;
            let leaf = matched(field, rule, lead, trail, text);
            Ok(Some(negated_if(alloc, negated, leaf)?))
        }
        None => Ok(None),
    }
}

fn bind_range(
    alloc: Global,
    dict: &Dict,
    field: &str,
    low: &str,
    low_open: bool,
    high: &str,
    high_open: bool,
) -> Result<Option<NQuery>, OutOfMemory>
    ensures { IfOk result (λ o. o ≡ bound_range dict.now field.now low.now low_open high.now high_open) }
{
    let rule = dict.look(field);
    let low = form_of(alloc, rule.kind, low)?;
    let high = form_of(alloc, rule.kind, high)?;
    match (low, high) {
        (Some(low), Some(high)) => {
            let field = Text::of(alloc, field)?;
            Ok(Some(NQuery::Between {
                field,
                rule,
                low,
                low_edge: !low_open,
                high,
                high_edge: !high_open,
            }))
        }
        _ => Ok(None),
    }
}

/// The bound query, or None where a literal is refused.
fn bound(alloc: Global, query: &Query, dict: &Dict) -> Result<Option<NQuery>, OutOfMemory>
    ensures { IfOk result (λ o. o ≡ bound_query dict.now query.now) }
{
    match query {
        Query::Cmp { field, op, literal } => {
            bind_comparison(alloc, dict, field.as_str(), *op, literal.as_str())
        }
        Query::Pattern {
            field,
            negated,
            lead,
            trail,
            text,
        } => bind_pattern(
            alloc,
            dict,
            field.as_str(),
            *negated,
            *lead,
            *trail,
            text.as_str(),
        ),
        Query::Bounded {
            field,
            low,
            low_open,
            high,
            high_open,
        } => bind_range(
            alloc,
            dict,
            field.as_str(),
            low.as_str(),
            *low_open,
            high.as_str(),
            *high_open,
        ),
        Query::Not(child) => match bound(alloc, child.get(), dict)? {
            Some(child) => Ok(Some(NQuery::Not(Boxed::new(alloc, child)?))),
            None => Ok(None),
        },
        Query::And(children) => {
            let mut out = Items::new(alloc);
            for child in children.as_slice() {
                match bound(alloc, child, dict)? {
                    Some(child) => out.push(child)?,
                    None => return Ok(None),
                }
            }
            Ok(Some(NQuery::And(out)))
        }
        Query::Or(children) => {
            let mut out = Items::new(alloc);
            for child in children.as_slice() {
                match bound(alloc, child, dict)? {
                    Some(child) => out.push(child)?,
                    None => return Ok(None),
                }
            }
            Ok(Some(NQuery::Or(out)))
        }
    }
}

/// The query bound by the dictionary: each literal in its normal form, `!=` and `!~` as the negation of
/// `==` and `=~`, a pattern without a wildcard as an equality.
pub fn bind(alloc: Global, query: &Query, dict: &Dict) -> Result<NQuery, BindError>
    ensures ok { IfOk result (λ q. bound_query dict.now query.now ≡ Some q) }
    ensures refused { IfErr result (λ e. e ≡ Literal → bound_query dict.now query.now ≡ None) }
{
    match bound(alloc, query, dict)? {
        Some(bound) => Ok(bound),
        None => Err(BindError::Literal),
    }
}
