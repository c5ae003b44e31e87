//! The one text of a query.

ghost use Rattle.std.specs.Prelude.{◌≡◌, ◌++◌, ◌||◌, ◌==◌, [], IfOk, OnOk, chars, string_bytes, if◌then◌else◌};
ghost use Rattle.dw_jexl.specs.Canonical.{sign_of, needs_escape, escaped, all_escaped, string_of, literal_of, all_literal, wildcard_if, pattern_chars, matching_sign, lower_sign, upper_sign, comparison_text, side_text, pattern_text, bounded_text, child_opening, child_closing, not_opening, not_closing, printed, canonical};
ghost use Rattle.dw_jexl.specs.Grammar.{folded};
ghost use Rattle.dw_jexl.specs.Patterns.{is_meta};
ghost use Rattle.dw_jexl.specs.QueryLaws.{SpellsAgain};

use crate::OutOfMemory;
use crate::pattern::is_meta;
use crate::query::{Op, Query};
use crate::reading::folded;
use crate::word::{Word, characters};
use std::alloc::Global;

fn put(out: &mut Word, text: &[char]) -> Result<(), OutOfMemory>
    ensures { OnOk result (out.new ≡ out.old ++ text.now) }
{
    for c in text {
        out.push(*c)?;
    }
    Ok(())
}

/// A field, in upper case.
fn put_field(alloc: Global, out: &mut Word, field: &Word) -> Result<(), OutOfMemory>
    ensures { OnOk result (out.new ≡ out.old ++ folded field.now) }
{
    let field = characters(alloc, field.as_str())?;
    put(out, &folded(alloc, &field)?)
}

fn sign_of(op: Op) -> &'static [char]
    ensures { result.now ≡ sign_of op }
{
    match op {
        Op::Eq => &['=', '='],
        Op::Ne => &['!', '='],
        Op::Lt => &['<'],
        Op::Le => &['<', '='],
        Op::Gt => &['>'],
        Op::Ge => &['>', '='],
    }
}

/// A character of a string.
fn put_escaped(out: &mut Word, c: char) -> Result<(), OutOfMemory>
    ensures { OnOk result (out.new ≡ out.old ++ escaped c) }
{
    if c == '\'' || c == '\\' {
        out.push('\\')?;
    }
    out.push(c)
}

/// A string between two `'`.
fn put_string(out: &mut Word, text: &[char]) -> Result<(), OutOfMemory>
    ensures { OnOk result (out.new ≡ out.old ++ string_of text.now) }
{
    put(out, &['\''])?;
    put_all_escaped(out, text)?;
    put(out, &['\''])
}

#[tactic(auto, using(crate::proofs::Texts::escapes_go_on, crate::proofs::Texts::escapes_end))]
fn put_all_escaped(out: &mut Word, text: &[char]) -> Result<(), OutOfMemory>
    ensures { OnOk result (out.new ≡ out.old ++ all_escaped text.now) }
{
    for c in text {
        put_escaped(out, *c)?;
    }
    Ok(())
}

/// A character of a pattern's text.
#[tactic(auto, unfolding(crate::specs::Canonical::literal_of))]
fn put_literal(out: &mut Word, c: char) -> Result<(), OutOfMemory>
    ensures { OnOk result (out.new ≡ out.old ++ literal_of c) }
{
    if is_meta(c) || c == '\\' {
        out.push('\\')?;
    }
    out.push(c)
}

#[tactic(auto, using(crate::proofs::Texts::literals_go_on, crate::proofs::Texts::literals_end))]
fn put_all_literal(out: &mut Word, text: &[char]) -> Result<(), OutOfMemory>
    ensures { OnOk result (out.new ≡ out.old ++ all_literal text.now) }
{
    for c in text {
        put_literal(out, *c)?;
    }
    Ok(())
}

fn wildcard_if(wild: bool) -> &'static [char]
    ensures { result.now ≡ wildcard_if wild }
{
    if wild { &['.', '*'] } else { &[] }
}

/// The characters of a pattern.
fn pattern_chars(alloc: Global, lead: bool, trail: bool, text: &Word) -> Result<Word, OutOfMemory>
    ensures { IfOk result (λ w. w ≡ pattern_chars lead trail text.now) }
{
    let mut out = Word::new(alloc);
    put(&mut out, wildcard_if(lead))?;
    put_all_literal(&mut out, &characters(alloc, text.as_str())?)?;
    put(&mut out, wildcard_if(trail))?;
    Ok(out)
}

fn put_word_string(alloc: Global, out: &mut Word, word: &Word) -> Result<(), OutOfMemory>
    ensures { OnOk result (out.new ≡ out.old ++ string_of word.now) }
{
    put_string(out, &characters(alloc, word.as_str())?)
}

fn put_comparison(
    alloc: Global,
    out: &mut Word,
    field: &Word,
    op: Op,
    literal: &Word,
) -> Result<(), OutOfMemory>
    ensures { OnOk result (out.new ≡ out.old ++ comparison_text field.now op literal.now) }
{
    put_field(alloc, out, field)?;
    put(out, &[' '])?;
    put(out, sign_of(op))?;
    put(out, &[' '])?;
    put_word_string(alloc, out, literal)
}

fn matching_sign(negated: bool) -> &'static [char]
    ensures { result.now ≡ matching_sign negated }
{
    if negated {
        &[' ', '!', '~', ' ']
    } else {
        &[' ', '=', '~', ' ']
    }
}

/// A field, a sign and a string.
#[tactic(auto, unfolding(crate::specs::Canonical::side_text))]
fn put_side(
    alloc: Global,
    out: &mut Word,
    field: &Word,
    sign: &[char],
    text: &Word,
) -> Result<(), OutOfMemory>
    ensures { OnOk result (out.new ≡ out.old ++ side_text field.now sign.now text.now) }
{
    put_field(alloc, out, field)?;
    put(out, sign)?;
    put_word_string(alloc, out, text)
}

fn lower_sign(open_end: bool) -> &'static [char]
    ensures { result.now ≡ lower_sign open_end }
{
    if open_end {
        &[' ', '>', ' ']
    } else {
        &[' ', '>', '=', ' ']
    }
}

fn upper_sign(open_end: bool) -> &'static [char]
    ensures { result.now ≡ upper_sign open_end }
{
    if open_end {
        &[' ', '<', ' ']
    } else {
        &[' ', '<', '=', ' ']
    }
}

const BOUNDED: [char; 24] = [
    '(', '(', '_', 'B', 'o', 'u', 'n', 'd', 'e', 'd', '_', ' ', '=', ' ', 't', 'r', 'u', 'e', ')',
    ' ', '&', '&', ' ', '(',
];

fn put_bounded(
    alloc: Global,
    out: &mut Word,
    field: &Word,
    low: &Word,
    low_open: bool,
    high: &Word,
    high_open: bool,
) -> Result<(), OutOfMemory>
    ensures { OnOk result (out.new ≡ out.old ++ bounded_text field.now low.now low_open high.now high_open) }
{
    put(out, &BOUNDED)?;
    put_side(alloc, out, field, lower_sign(low_open), low)?;
    put(out, &[' ', '&', '&', ' '])?;
    put_side(alloc, out, field, upper_sign(high_open), high)?;
    put(out, &[')', ')'])
}

/// What stands before a child of an And or Or.
fn child_opening(child: &Query) -> &'static [char]
    ensures { result.now ≡ child_opening (printed child.now).shape }
{
    match child {
        Query::And(_) => &['('],
        Query::Or(_) => &['('],
        _ => &[],
    }
}

fn child_closing(child: &Query) -> &'static [char]
    ensures { result.now ≡ child_closing (printed child.now).shape }
{
    match child {
        Query::And(_) => &[')'],
        Query::Or(_) => &[')'],
        _ => &[],
    }
}

/// What stands before the child of a Not.
fn not_opening(child: &Query) -> &'static [char]
    ensures { result.now ≡ not_opening (printed child.now).shape }
{
    match child {
        Query::Not(_) => &['!'],
        _ => &['!', '('],
    }
}

fn not_closing(child: &Query) -> &'static [char]
    ensures { result.now ≡ not_closing (printed child.now).shape }
{
    match child {
        Query::Not(_) => &[],
        _ => &[')'],
    }
}

/// The sign between two children, and nothing before the first.
fn put_sign(out: &mut Word, place: usize, sign: &[char]) -> Result<(), OutOfMemory>
    ensures { OnOk result (out.new ≡ out.old ++ (if place == 0 then [] else sign.now)) }
{
    if place == 0 {
        return put(out, &[]);
    }
    put(out, sign)
}

fn put_query(alloc: Global, out: &mut Word, query: &Query) -> Result<(), OutOfMemory>
    ensures { OnOk result (out.new ≡ out.old ++ canonical query.now) }
{
    match query {
        Query::Cmp { field, op, literal } => put_comparison(alloc, out, field, *op, literal),
        Query::Pattern {
            field,
            negated,
            lead,
            trail,
            text,
        } => {
            let pattern = pattern_chars(alloc, *lead, *trail, text)?;
            put_side(alloc, out, field, matching_sign(*negated), &pattern)
        }
        Query::Bounded {
            field,
            low,
            low_open,
            high,
            high_open,
        } => put_bounded(alloc, out, field, low, *low_open, high, *high_open),
        Query::Not(child) => {
            let child = child.get();
            put(out, not_opening(child))?;
            put_query(alloc, out, child)?;
            put(out, not_closing(child))
        }
        Query::And(children) => {
            for (i, child) in children.as_slice().iter().enumerate() {
                put_sign(out, i, &[' ', '&', '&', ' '])?;
                put(out, child_opening(child))?;
                put_query(alloc, out, child)?;
                put(out, child_closing(child))?;
            }
            Ok(())
        }
        Query::Or(children) => {
            for (i, child) in children.as_slice().iter().enumerate() {
                put_sign(out, i, &[' ', '|', '|', ' '])?;
                put(out, child_opening(child))?;
                put_query(alloc, out, child)?;
                put(out, child_closing(child))?;
            }
            Ok(())
        }
    }
}

/// The one text of a query: fields in upper case, signs with one space on each side, strings in `'`.
pub fn print(alloc: Global, query: &Query) -> Result<String, OutOfMemory>
    ensures value { IfOk result (λ text. chars (string_bytes text) ≡ canonical query.now) }
    // A query that some text spells is read again from what is printed, where that keeps the limits on length and depth.
    ensures again { IfOk result (λ text. SpellsAgain (string_bytes text) query.now) }
{
    let mut out = Word::new(alloc);
    put_query(alloc, &mut out, query)?;
    Ok(out.into_text())
}
