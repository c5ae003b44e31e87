//! Reads a query from tokens.

ghost use Rattle.std.specs.Prelude.{◌≡◌, ◌≤◌, ◌<◌, length, drop, IfOk, OnOk, IsTrue, ◌||◌, bytes_eq};
ghost use Rattle.std.specs.List.{prefix_len};
ghost use Rattle.dw_jexl.specs.declared.query.Query.TheVariants as query;
ghost use Rattle.dw_jexl.specs.Grammar.{folded, is_reserved, is_field, names_field, is_lower, is_upper, is_strict, between, bounded_by, pattern_of, joined};
ghost use Rattle.dw_jexl.specs.Tokens.{is_open, is_close, is_conjoin, is_disjoin, is_negate, is_assign, is_name, holds_at};
ghost use Rattle.dw_jexl.specs.Reading.{Gives, field_at, op_at, text_at, quoted_at, leaf, begins_bounded, frames_bounded, bounded_at, range, negated, base, unary, conjunction, query_at, whole};

use crate::error::{QueryError, QueryRule};
use crate::query::{Op, Query};
use crate::token::Token;
use crate::word::Word;
use crate::{OutOfMemory, lex, pattern};
use sqlite_items::{Boxed, Items};
use std::alloc::Global;

const SYNTAX: QueryError = QueryError::Rule(QueryRule::Syntax);

fn is_open_at(tokens: &[Token], at: usize) -> bool
    ensures { result ≡ holds_at is_open tokens.now at }
{
    matches!(tokens.get(at), Some(Token::Open))
}

fn is_close_at(tokens: &[Token], at: usize) -> bool
    ensures { result ≡ holds_at is_close tokens.now at }
{
    matches!(tokens.get(at), Some(Token::Close))
}

fn is_conjoin_at(tokens: &[Token], at: usize) -> bool
    ensures { result ≡ holds_at is_conjoin tokens.now at }
{
    matches!(tokens.get(at), Some(Token::Conjoin))
}

fn is_disjoin_at(tokens: &[Token], at: usize) -> bool
    ensures { result ≡ holds_at is_disjoin tokens.now at }
{
    matches!(tokens.get(at), Some(Token::Disjoin))
}

fn is_negate_at(tokens: &[Token], at: usize) -> bool
    ensures { result ≡ holds_at is_negate tokens.now at }
{
    matches!(tokens.get(at), Some(Token::Negate))
}

fn is_assign_at(tokens: &[Token], at: usize) -> bool
    ensures { result ≡ holds_at is_assign tokens.now at }
{
    matches!(tokens.get(at), Some(Token::Assign))
}

fn same(a: &[char], b: &[char]) -> bool
    ensures { result ≡ bytes_eq a.now b.now }
{
    a == b
}

fn is_name_at(tokens: &[Token], at: usize, name: &[char]) -> bool
    ensures { result ≡ holds_at (is_name name.now) tokens.now at }
{
    match tokens.get(at) {
        Some(Token::Name(word)) => same(word.as_slice(), name),
        _ => false,
    }
}

#[tactic(auto, unfolding(crate::specs::Grammar::is_reserved))]
fn is_reserved(word: &[char]) -> bool
    ensures { result ≡ is_reserved word.now }
{
    same(word, &['t', 'r', 'u', 'e'])
        || same(word, &['f', 'a', 'l', 's', 'e'])
        || same(word, &['n', 'u', 'l', 'l'])
        || same(word, &['_', 'B', 'o', 'u', 'n', 'd', 'e', 'd', '_'])
}

/// Of a word of the text: at most 64 characters and not reserved.
#[tactic(auto, unfolding(crate::specs::Grammar::is_field))]
fn is_field(word: &[char]) -> bool
    ensures { result ≡ is_field word.now }
{
    word.len() <= 64 && !is_reserved(word)
}

/// Whether a text names a field.
#[tactic(auto, unfolding(crate::specs::Grammar::names_field))]
pub fn names_field(word: &[char]) -> bool
    ensures { result ≡ names_field word.now }
{
    lex::is_word(word) && !lex::is_operator(word) && is_field(word)
}

#[tactic(auto, unfolding(crate::specs::Reading::field_at))]
fn field_at(tokens: &[Token], at: usize) -> Result<&[char], QueryError>
    ensures { Gives (λ word. word.now) result (field_at tokens.now at) }
{
    match tokens.get(at) {
        Some(Token::Name(word)) => {
            if is_field(word.as_slice()) {
                Ok(word.as_slice())
            } else {
                Err(SYNTAX)
            }
        }
        _ => Err(SYNTAX),
    }
}

#[tactic(auto, unfolding(crate::specs::Reading::op_at))]
fn op_at(tokens: &[Token], at: usize) -> Result<Op, QueryError>
    ensures { Gives (λ op. op) result (op_at tokens.now at) }
{
    match tokens.get(at) {
        Some(Token::Compare(op)) => Ok(*op),
        _ => Err(SYNTAX),
    }
}

#[tactic(auto, unfolding(crate::specs::Reading::text_at))]
fn text_at(tokens: &[Token], at: usize) -> Result<&[char], QueryError>
    ensures value { Gives (λ word. word.now) result (text_at tokens.now at) }
    ensures within { OnOk result (at < length tokens.now) }
{
    match tokens.get(at) {
        Some(Token::Number(word)) => Ok(word.as_slice()),
        Some(Token::Quoted(word)) => Ok(word.as_slice()),
        _ => Err(SYNTAX),
    }
}

#[tactic(auto, unfolding(crate::specs::Reading::quoted_at))]
fn quoted_at(tokens: &[Token], at: usize) -> Result<&[char], QueryError>
    ensures value { Gives (λ word. word.now) result (quoted_at tokens.now at) }
    ensures within { OnOk result (at < length tokens.now) }
{
    match tokens.get(at) {
        Some(Token::Quoted(word)) => Ok(word.as_slice()),
        _ => Err(SYNTAX),
    }
}

/// A field in upper case.
pub fn folded(alloc: Global, field: &[char]) -> Result<Vec<char>, OutOfMemory>
    ensures { IfOk result (λ v. v.items ≡ folded field.now) }
{
    field.iter().map(|c| c.to_ascii_uppercase()).collect(alloc)
}

fn comparison(alloc: Global, field: &[char], op: Op, text: &[char]) -> Result<Query, OutOfMemory>
    ensures { IfOk result (λ q. q ≡ query.Cmp (folded field.now) op text.now) }
{
    let field = Word::from_chars(alloc, &folded(alloc, field)?)?;
    let literal = Word::from_chars(alloc, text)?;
    Ok(Query::Cmp { field, op, literal })
}

fn pattern_of(
    alloc: Global,
    field: &[char],
    negated: bool,
    raw: &[char],
) -> Result<Query, OutOfMemory>
    ensures { IfOk result (λ q. q ≡ pattern_of field.now negated raw.now) }
{
    let field = Word::from_chars(alloc, &folded(alloc, field)?)?;
    let pieces = pattern::pieces(alloc, raw)?;
    let text = pattern::text_of(alloc, &pieces)?;
    Ok(Query::Pattern {
        field,
        negated,
        lead: pattern::begins_wild(&pieces),
        trail: pattern::ends_wild(&pieces),
        text,
    })
}

/// A comparison or a match, which has three tokens.
#[tactic(auto, unfolding(crate::specs::Reading::leaf))]
fn leaf(alloc: Global, tokens: &[Token]) -> Result<(Query, usize), QueryError>
    ensures value { Gives (λ x. (x.0, drop x.1 tokens.now)) result (leaf tokens.now) }
    ensures within { IfOk result (λ x. (0 < x.1) × (x.1 ≤ length tokens.now)) }
{
    let field = field_at(tokens, 0)?;
    match tokens.get(1) {
        Some(Token::Compare(op)) => {
            let text = text_at(tokens, 2)?;
            Ok((comparison(alloc, field, *op, text)?, 3))
        }
        Some(Token::Match(negated)) => {
            let raw = quoted_at(tokens, 2)?;
            Ok((pattern_of(alloc, field, *negated, raw)?, 3))
        }
        _ => Err(SYNTAX),
    }
}

fn is_lower(op: Op) -> bool
    ensures { result ≡ is_lower op }
{
    match op {
        Op::Gt => true,
        Op::Ge => true,
        _ => false,
    }
}

fn is_upper(op: Op) -> bool
    ensures { result ≡ is_upper op }
{
    match op {
        Op::Lt => true,
        Op::Le => true,
        _ => false,
    }
}

fn is_strict(op: Op) -> bool
    ensures { result ≡ is_strict op }
{
    match op {
        Op::Eq => false,
        Op::Le => false,
        Op::Ge => false,
        _ => true,
    }
}

fn between(
    alloc: Global,
    field: &[char],
    low_op: Op,
    low: &[char],
    high_op: Op,
    high: &[char],
) -> Result<Query, OutOfMemory>
    ensures { IfOk result (λ q. q ≡ between field.now low_op low.now high_op high.now) }
{
    let field = Word::from_chars(alloc, field)?;
    let low = Word::from_chars(alloc, low)?;
    let high = Word::from_chars(alloc, high)?;
    Ok(Query::Bounded {
        field,
        low,
        low_open: is_strict(low_op),
        high,
        high_open: is_strict(high_op),
    })
}

#[tactic(auto, unfolding(crate::specs::Reading::bounded_at, crate::specs::Grammar::bounded_by))]
fn bounded_at(alloc: Global, tokens: &[Token]) -> Result<Query, QueryError>
    ensures { Gives (λ q. q) result (bounded_at tokens.now) }
{
    let field = field_at(tokens, 8)?;
    let op = op_at(tokens, 9)?;
    let text = text_at(tokens, 10)?;
    let other = field_at(tokens, 12)?;
    let other_op = op_at(tokens, 13)?;
    let other_text = text_at(tokens, 14)?;
    let field = folded(alloc, field)?;
    let other = folded(alloc, other)?;
    if !same(&field, &other) {
        return Err(SYNTAX);
    }
    if is_lower(op) && is_upper(other_op) {
        return Ok(between(alloc, &field, op, text, other_op, other_text)?);
    }
    if is_upper(op) && is_lower(other_op) {
        return Ok(between(alloc, &field, other_op, other_text, op, text)?);
    }
    Err(SYNTAX)
}

#[tactic(auto, unfolding(crate::specs::Reading::begins_bounded))]
fn begins_bounded(tokens: &[Token]) -> bool
    ensures { result ≡ begins_bounded tokens.now }
{
    is_open_at(tokens, 0)
        && is_open_at(tokens, 1)
        && is_name_at(tokens, 2, &['_', 'B', 'o', 'u', 'n', 'd', 'e', 'd', '_'])
}

#[tactic(auto, unfolding(crate::specs::Reading::frames_bounded))]
fn frames_bounded(tokens: &[Token]) -> bool
    ensures value { result ≡ frames_bounded tokens.now }
    ensures within { IsTrue result → 17 ≤ length tokens.now }
{
    is_assign_at(tokens, 3)
        && is_name_at(tokens, 4, &['t', 'r', 'u', 'e'])
        && is_close_at(tokens, 5)
        && is_conjoin_at(tokens, 6)
        && is_open_at(tokens, 7)
        && is_conjoin_at(tokens, 11)
        && is_close_at(tokens, 15)
        && is_close_at(tokens, 16)
}

/// A bounded, which has seventeen tokens.
#[tactic(auto, unfolding(crate::specs::Reading::range))]
fn range(alloc: Global, tokens: &[Token]) -> Result<(Query, usize), QueryError>
    ensures value { Gives (λ x. (x.0, drop x.1 tokens.now)) result (range tokens.now) }
    ensures within { IfOk result (λ x. (0 < x.1) × (x.1 ≤ length tokens.now)) }
{
    if !frames_bounded(tokens) {
        return Err(SYNTAX);
    }
    Ok((bounded_at(alloc, tokens)?, 17))
}

/// How many `!` stand at the front.
#[tactic(auto, using(crate::proofs::Runs::tokens_end, crate::proofs::Runs::tokens_go_on, crate::proofs::Runs::no_tokens))]
fn negations(tokens: &[Token]) -> usize
    ensures value { result ≡ prefix_len is_negate tokens.now }
    ensures within { result ≤ length tokens.now }
{
    for i in 0..tokens.len() {
        if !is_negate_at(tokens, i) {
            return i;
        }
    }
    tokens.len()
}

/// The query under so many negations.
fn negated(alloc: Global, count: usize, query: Query) -> Result<Query, OutOfMemory>
    ensures { IfOk result (λ q. q ≡ negated count query) }
{
    let mut query = query;
    for _ in 0..count {
        query = Query::Not(Boxed::new(alloc, query)?);
    }
    Ok(query)
}

/// One child alone, or the node of several.
fn all_of(children: Items<Query>) -> Query
    ensures { result ≡ joined query.And children }
{
    let mut children = children;
    if children.len() == 1 {
        return children.remove(0);
    }
    Query::And(children)
}

/// One child alone, or the node of several.
fn any_of(children: Items<Query>) -> Query
    ensures { result ≡ joined query.Or children }
{
    let mut children = children;
    if children.len() == 1 {
        return children.remove(0);
    }
    Query::Or(children)
}

fn begins_operand(tokens: &[Token]) -> bool
    ensures { result ≡ (holds_at is_negate tokens.now 0 || holds_at is_open tokens.now 0) }
{
    is_negate_at(tokens, 0) || is_open_at(tokens, 0)
}

/// A bounded, or `(`, a query and `)`.
#[cycle(reader)]
fn base(alloc: Global, levels: usize, tokens: &[Token]) -> Result<(Query, usize), QueryError>
    requires { levels ≤ 64 }
    ensures value { Gives (λ x. (x.0, drop x.1 tokens.now)) result (base (query_at levels) tokens.now) }
    ensures within { IfOk result (λ x. (0 < x.1) × (x.1 ≤ length tokens.now)) }
{
    if begins_bounded(tokens) {
        return range(alloc, tokens);
    }
    if !is_open_at(tokens, 0) {
        return Err(SYNTAX);
    }
    let (query, used) = disjunction(alloc, levels, &tokens[1..])?;
    if !is_close_at(tokens, used + 1) {
        return Err(SYNTAX);
    }
    Ok((query, used + 2))
}

/// A leaf, or a group or a bounded under negations.
#[cycle(reader)]
fn unary(alloc: Global, levels: usize, tokens: &[Token]) -> Result<(Query, usize), QueryError>
    requires { levels ≤ 64 }
    ensures value { Gives (λ x. (x.0, drop x.1 tokens.now)) result (unary (query_at levels) tokens.now) }
    ensures within { IfOk result (λ x. (0 < x.1) × (x.1 ≤ length tokens.now)) }
{
    if !begins_operand(tokens) {
        return leaf(alloc, tokens);
    }
    let count = negations(tokens);
    let (query, used) = base(alloc, levels, &tokens[count..])?;
    Ok((negated(alloc, count, query)?, count + used))
}

#[cycle(reader)]
fn conjunction(alloc: Global, levels: usize, tokens: &[Token]) -> Result<(Query, usize), QueryError>
    requires { levels ≤ 64 }
    ensures value { Gives (λ x. (x.0, drop x.1 tokens.now)) result (conjunction (query_at levels) tokens.now) }
    ensures within { IfOk result (λ x. (0 < x.1) × (x.1 ≤ length tokens.now)) }
{
    let mut children = Items::new(alloc);
    let mut at = 0;
    loop {
        let (child, used) = unary(alloc, levels, &tokens[at..])?;
        children.push(child)?;
        at += used;
        if !is_conjoin_at(tokens, at) {
            return Ok((all_of(children), at));
        }
        at += 1;
    }
}

/// A query whose groups stand at most so deep.
#[cycle(reader)]
fn disjunction(alloc: Global, levels: usize, tokens: &[Token]) -> Result<(Query, usize), QueryError>
    requires { levels ≤ 65 }
    ensures value { Gives (λ x. (x.0, drop x.1 tokens.now)) result (query_at levels tokens.now) }
    ensures within { IfOk result (λ x. (0 < x.1) × (x.1 ≤ length tokens.now)) }
{
    if levels == 0 {
        return Err(SYNTAX);
    }
    let mut children = Items::new(alloc);
    let mut at = 0;
    loop {
        let (child, used) = conjunction(alloc, levels - 1, &tokens[at..])?;
        children.push(child)?;
        at += used;
        if !is_disjoin_at(tokens, at) {
            return Ok((any_of(children), at));
        }
        at += 1;
    }
}

/// The query that all of the tokens spell, where its groups stand less than that many levels deep. What stands in a group
/// is read with one level less, so that is also how deep the calls go.
#[tactic(auto, unfolding(crate::specs::Reading::whole))]
pub fn whole(alloc: Global, levels: usize, tokens: &[Token]) -> Result<Query, QueryError>
    requires { levels ≤ 65 }
    ensures { Gives (λ q. q) result (whole levels tokens.now) }
{
    let (query, used) = disjunction(alloc, levels, tokens)?;
    if used < tokens.len() {
        return Err(SYNTAX);
    }
    Ok(query)
}
