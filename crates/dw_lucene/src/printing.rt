//! The one text of a query.

ghost use Rattle.std.specs.Prelude.{◌≡◌, ◌++◌, ◌||◌, ◌==◌, [], true, false, IfOk, IfSome, OnOk, MatchOption, chars, codes, string_bytes, if◌then◌else◌};
ghost use Rattle.dw_jexl.specs.Grammar.{folded};
ghost use Rattle.dw_lucene.specs.Printed.{escaped, all_escaped, string_of, needs_escape, literal_of, all_literal, wildcard_if, bare_text, low_sign, high_sign, clause_text, range_text, compared_text, child_opening, child_closing, printed, lucene_text, is_ne, is_printable};
ghost use Rattle.dw_lucene.specs.Laws.{IsReadAs};

use crate::OutOfMemory;
use crate::lex::ends_term;
use dw_jexl::{Op, Query, Word, characters, folded};
use std::alloc::Global;

fn put(out: &mut Word, text: &[char]) -> Result<(), OutOfMemory>
    ensures { OnOk result (out.new ≡ out.old ++ text.now) }
{
    for c in text {
        out.push(*c)?;
    }
    Ok(())
}

/// A field, in upper case.
fn put_field(alloc: Global, out: &mut Word, field: &Word) -> Result<(), OutOfMemory>
    ensures { OnOk result (out.new ≡ out.old ++ folded field.now) }
{
    let field = characters(alloc, field.as_str())?;
    put(out, &folded(alloc, &field)?)
}

/// A character of a string.
fn put_escaped(out: &mut Word, c: char) -> Result<(), OutOfMemory>
    ensures { OnOk result (out.new ≡ out.old ++ escaped c) }
{
    if c == '"' || c == '\\' {
        out.push('\\')?;
    }
    out.push(c)
}

#[tactic(auto, using(crate::proofs::Texts::escapes_go_on, crate::proofs::Texts::escapes_end))]
fn put_all_escaped(out: &mut Word, text: &[char]) -> Result<(), OutOfMemory>
    ensures { OnOk result (out.new ≡ out.old ++ all_escaped text.now) }
{
    for c in text {
        put_escaped(out, *c)?;
    }
    Ok(())
}

/// A string between two `"`.
fn put_string(alloc: Global, out: &mut Word, text: &Word) -> Result<(), OutOfMemory>
    ensures { OnOk result (out.new ≡ out.old ++ string_of text.now) }
{
    put(out, &['"'])?;
    put_all_escaped(out, &characters(alloc, text.as_str())?)?;
    put(out, &['"'])
}

#[tactic(auto, unfolding(crate::specs::Printed::needs_escape))]
fn needs_escape(c: char) -> bool
    ensures { result ≡ needs_escape c }
{
    ends_term(c) || c == '\\' || c == '*' || c == '?'
}

/// A character of a bare term.
#[tactic(auto, unfolding(crate::specs::Printed::literal_of))]
fn put_literal(out: &mut Word, c: char) -> Result<(), OutOfMemory>
    ensures { OnOk result (out.new ≡ out.old ++ literal_of c) }
{
    if needs_escape(c) {
        out.push('\\')?;
    }
    out.push(c)
}

#[tactic(auto, using(crate::proofs::Texts::literals_go_on, crate::proofs::Texts::literals_end))]
fn put_all_literal(out: &mut Word, text: &[char]) -> Result<(), OutOfMemory>
    ensures { OnOk result (out.new ≡ out.old ++ all_literal text.now) }
{
    for c in text {
        put_literal(out, *c)?;
    }
    Ok(())
}

fn wildcard_if(wild: bool) -> &'static [char]
    ensures { result.now ≡ wildcard_if wild }
{
    if wild { &['*'] } else { &[] }
}

/// A bare term of a text with wildcards at its ends.
fn put_bare(
    alloc: Global,
    out: &mut Word,
    lead: bool,
    trail: bool,
    text: &Word,
) -> Result<(), OutOfMemory>
    ensures { OnOk result (out.new ≡ out.old ++ bare_text lead trail text.now) }
{
    put(out, wildcard_if(lead))?;
    put_all_literal(out, &characters(alloc, text.as_str())?)?;
    put(out, wildcard_if(trail))
}

fn low_sign(low_open: bool) -> &'static [char]
    ensures { result.now ≡ low_sign low_open }
{
    if low_open { &['{'] } else { &['['] }
}

fn high_sign(high_open: bool) -> &'static [char]
    ensures { result.now ≡ high_sign high_open }
{
    if high_open { &['}'] } else { &[']'] }
}

/// A range that has a lower end alone.
fn put_from(alloc: Global, out: &mut Word, low_open: bool, low: &Word) -> Result<(), OutOfMemory>
    ensures { OnOk result (out.new ≡ out.old ++ range_text low_open (string_of low.now) (codes "*") false) }
{
    put(out, low_sign(low_open))?;
    put_string(alloc, out, low)?;
    put(out, &[' ', 'T', 'O', ' ', '*', ']'])
}

/// A range that has an upper end alone.
fn put_to(alloc: Global, out: &mut Word, high: &Word, high_open: bool) -> Result<(), OutOfMemory>
    ensures { OnOk result (out.new ≡ out.old ++ range_text false (codes "*") (string_of high.now) high_open) }
{
    put(out, &['[', '*', ' ', 'T', 'O', ' '])?;
    put_string(alloc, out, high)?;
    put(out, high_sign(high_open))
}

fn put_between(
    alloc: Global,
    out: &mut Word,
    low: &Word,
    low_open: bool,
    high: &Word,
    high_open: bool,
) -> Result<(), OutOfMemory>
    ensures { OnOk result (out.new ≡ out.old ++ range_text low_open (string_of low.now) (string_of high.now) high_open) }
{
    put(out, low_sign(low_open))?;
    put_string(alloc, out, low)?;
    put(out, &[' ', 'T', 'O', ' '])?;
    put_string(alloc, out, high)?;
    put(out, high_sign(high_open))
}

fn put_compared(alloc: Global, out: &mut Word, op: Op, literal: &Word) -> Result<(), OutOfMemory>
    ensures { OnOk result (out.new ≡ out.old ++ compared_text op literal.now) }
{
    match op {
        Op::Eq => put_string(alloc, out, literal),
        Op::Ne => put_string(alloc, out, literal),
        Op::Lt => put_to(alloc, out, literal, true),
        Op::Le => put_to(alloc, out, literal, false),
        Op::Gt => put_from(alloc, out, true, literal),
        Op::Ge => put_from(alloc, out, false, literal),
    }
}

#[tactic(auto, unfolding(crate::specs::Printed::clause_text))]
fn put_comparison(
    alloc: Global,
    out: &mut Word,
    field: &Word,
    op: Op,
    literal: &Word,
) -> Result<(), OutOfMemory>
    ensures { OnOk result (out.new ≡ out.old ++ clause_text field.now (compared_text op literal.now)) }
{
    put_field(alloc, out, field)?;
    put(out, &[':'])?;
    put_compared(alloc, out, op, literal)
}

#[tactic(auto, unfolding(crate::specs::Printed::clause_text))]
fn put_pattern(
    alloc: Global,
    out: &mut Word,
    field: &Word,
    lead: bool,
    trail: bool,
    text: &Word,
) -> Result<(), OutOfMemory>
    ensures { OnOk result (out.new ≡ out.old ++ clause_text field.now (bare_text lead trail text.now)) }
{
    put_field(alloc, out, field)?;
    put(out, &[':'])?;
    put_bare(alloc, out, lead, trail, text)
}

#[tactic(auto, unfolding(crate::specs::Printed::clause_text))]
fn put_bounded(
    alloc: Global,
    out: &mut Word,
    field: &Word,
    low: &Word,
    low_open: bool,
    high: &Word,
    high_open: bool,
) -> Result<(), OutOfMemory>
    ensures { OnOk result (out.new ≡ out.old ++ clause_text field.now (range_text low_open (string_of low.now) (string_of high.now) high_open)) }
{
    put_field(alloc, out, field)?;
    put(out, &[':'])?;
    put_between(alloc, out, low, low_open, high, high_open)
}

/// What stands before a child.
fn child_opening(child: &Query) -> &'static [char]
    ensures { result.now ≡ child_opening (printed child.now).shape }
{
    match child {
        Query::And(_) => &['('],
        Query::Or(_) => &['('],
        _ => &[],
    }
}

/// What stands behind a child.
fn child_closing(child: &Query) -> &'static [char]
    ensures { result.now ≡ child_closing (printed child.now).shape }
{
    match child {
        Query::And(_) => &[')'],
        Query::Or(_) => &[')'],
        _ => &[],
    }
}

/// The sign between two children, and nothing before the first.
fn put_sign(out: &mut Word, place: usize, sign: &[char]) -> Result<(), OutOfMemory>
    ensures { OnOk result (out.new ≡ out.old ++ (if place == 0 then [] else sign.now)) }
{
    if place == 0 {
        return put(out, &[]);
    }
    put(out, sign)
}

fn put_query(alloc: Global, out: &mut Word, query: &Query) -> Result<(), OutOfMemory>
    ensures { OnOk result (out.new ≡ out.old ++ lucene_text query.now) }
{
    match query {
        Query::Cmp { field, op, literal } => put_comparison(alloc, out, field, *op, literal),
        Query::Pattern {
            field,
            negated: _,
            lead,
            trail,
            text,
        } => put_pattern(alloc, out, field, *lead, *trail, text),
        Query::Bounded {
            field,
            low,
            low_open,
            high,
            high_open,
        } => put_bounded(alloc, out, field, low, *low_open, high, *high_open),
        Query::Not(child) => {
            let child = child.get();
            put(out, &['N', 'O', 'T', ' '])?;
            put(out, child_opening(child))?;
            put_query(alloc, out, child)?;
            put(out, child_closing(child))
        }
        Query::And(children) => {
            for (i, child) in children.as_slice().iter().enumerate() {
                put_sign(out, i, &[' ', 'A', 'N', 'D', ' '])?;
                put(out, child_opening(child))?;
                put_query(alloc, out, child)?;
                put(out, child_closing(child))?;
            }
            Ok(())
        }
        Query::Or(children) => {
            for (i, child) in children.as_slice().iter().enumerate() {
                put_sign(out, i, &[' ', 'O', 'R', ' '])?;
                put(out, child_opening(child))?;
                put_query(alloc, out, child)?;
                put(out, child_closing(child))?;
            }
            Ok(())
        }
    }
}

fn is_ne(op: Op) -> bool
    ensures { result ≡ is_ne op }
{
    matches!(op, Op::Ne)
}

/// Whether it has a text: it holds no `!=`, no negated pattern and no pattern without a wildcard.
fn is_printable(query: &Query) -> bool
    ensures { result ≡ is_printable query.now }
{
    match query {
        Query::Cmp { op, .. } => !is_ne(*op),
        Query::Pattern {
            negated,
            lead,
            trail,
            ..
        } => !*negated && (*lead || *trail),
        Query::Bounded { .. } => true,
        Query::Not(child) => is_printable(child.get()),
        Query::And(children) => {
            for child in children.as_slice() {
                if !is_printable(child) {
                    return false;
                }
            }
            true
        }
        Query::Or(children) => {
            for child in children.as_slice() {
                if !is_printable(child) {
                    return false;
                }
            }
            true
        }
    }
}

/// The one text of a query: fields in upper case, equalities with quoted terms, patterns bare, ranges with quoted ends, and
/// each And and Or that is a child in parentheses. It is None exactly where the query holds `!=`, a negated pattern or a
/// pattern without a wildcard.
pub fn print_lucene(alloc: Global, query: &Query) -> Result<Option<String>, OutOfMemory>
    ensures value { IfOk result (λ printed. MatchOption printed (is_printable query.now ≡ false) (λ text. (is_printable query.now ≡ true) × (chars (string_bytes text) ≡ lucene_text query.now))) }
    // A query that is well made and has at most 256 leaves, as each that is parsed, is read from what is printed, where that
    // keeps the limits on length and depth.
    ensures again { IfOk result (λ printed. IfSome printed (λ text. IsReadAs (string_bytes text) query.now)) }
{
    if !is_printable(query) {
        return Ok(None);
    }
    let mut out = Word::new(alloc);
    put_query(alloc, &mut out, query)?;
    Ok(Some(out.into_text()))
}
