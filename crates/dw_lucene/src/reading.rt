//! Reads a query from tokens.

ghost use Rattle.std.specs.Prelude.{◌≡◌, ◌≤◌, ◌<◌, length, drop, IfOk, OnOk};
ghost use Rattle.std.specs.List.{prefix_len};
ghost use Rattle.dw_jexl.specs.declared.query.Query.TheVariants as query;
ghost use Rattle.dw_jexl.specs.declared.query.Op.TheVariants.{Eq};
ghost use Rattle.dw_jexl.specs.Grammar.{folded, joined};
ghost use Rattle.dw_jexl.specs.Reading.{Gives, negated};
ghost use Rattle.dw_lucene.specs.Grammar.{bare_leaf, ranged};
ghost use Rattle.dw_lucene.specs.Tokens.{is_open, is_close, is_conjoin, is_disjoin, is_negate, is_to, holds_at};
ghost use Rattle.dw_lucene.specs.Reading.{field_at, end_at, high_at, range_at, clause, base, unary, conjunction, query_at, whole};

use crate::OutOfMemory;
use crate::end::End;
use crate::pattern::is_star;
use crate::token::Token;
use dw_jexl::{
    Op, Piece, Query, QueryError, QueryRule, Word, begins_wild, ends_wild, folded, names_field,
    text_of,
};
use std::alloc::Global;

const SYNTAX: QueryError = QueryError::Rule(QueryRule::Syntax);

fn is_open_at(tokens: &[Token], at: usize) -> bool
    ensures { result ≡ holds_at is_open tokens.now at }
{
    matches!(tokens.get(at), Some(Token::Open))
}

fn is_close_at(tokens: &[Token], at: usize) -> bool
    ensures { result ≡ holds_at is_close tokens.now at }
{
    matches!(tokens.get(at), Some(Token::Close))
}

fn is_conjoin_at(tokens: &[Token], at: usize) -> bool
    ensures { result ≡ holds_at is_conjoin tokens.now at }
{
    matches!(tokens.get(at), Some(Token::Conjoin))
}

fn is_disjoin_at(tokens: &[Token], at: usize) -> bool
    ensures { result ≡ holds_at is_disjoin tokens.now at }
{
    matches!(tokens.get(at), Some(Token::Disjoin))
}

fn is_negate_at(tokens: &[Token], at: usize) -> bool
    ensures { result ≡ holds_at is_negate tokens.now at }
{
    matches!(tokens.get(at), Some(Token::Negate))
}

fn is_to_at(tokens: &[Token], at: usize) -> bool
    ensures { result ≡ holds_at is_to tokens.now at }
{
    matches!(tokens.get(at), Some(Token::To))
}

#[tactic(auto, unfolding(crate::specs::Reading::field_at))]
fn field_at(tokens: &[Token], at: usize) -> Result<&[char], QueryError>
    ensures { Gives (λ word. word.now) result (field_at tokens.now at) }
{
    match tokens.get(at) {
        Some(Token::Field(word)) => {
            if names_field(word.as_slice()) {
                Ok(word.as_slice())
            } else {
                Err(SYNTAX)
            }
        }
        _ => Err(SYNTAX),
    }
}

#[tactic(auto, unfolding(crate::specs::Reading::end_at))]
fn end_at(alloc: Global, tokens: &[Token], at: usize) -> Result<End, QueryError>
    ensures { Gives (λ end. end) result (end_at tokens.now at) }
{
    match tokens.get(at) {
        Some(Token::Bare(pieces)) => {
            let text = text_of(alloc, pieces.as_slice())?;
            let is_open = is_star(pieces.as_slice());
            Ok(End { text, is_open })
        }
        Some(Token::Quoted(word)) => {
            let text = Word::from_chars(alloc, word.as_slice())?;
            Ok(End {
                text,
                is_open: false,
            })
        }
        _ => Err(SYNTAX),
    }
}

#[tactic(auto, unfolding(crate::specs::Reading::high_at))]
fn high_at(tokens: &[Token], at: usize) -> Result<bool, QueryError>
    ensures value { Gives (λ high_open. high_open) result (high_at tokens.now at) }
    ensures within { OnOk result (at < length tokens.now) }
{
    match tokens.get(at) {
        Some(Token::High(high_open)) => Ok(*high_open),
        _ => Err(SYNTAX),
    }
}

fn field_word(alloc: Global, field: &[char]) -> Result<Word, OutOfMemory>
    ensures { IfOk result (λ w. w ≡ folded field.now) }
{
    Word::from_chars(alloc, &folded(alloc, field)?)
}

#[tactic(auto, unfolding(crate::specs::Grammar::bare_leaf))]
fn bare_leaf(alloc: Global, field: &[char], pieces: &[Piece]) -> Result<Query, OutOfMemory>
    ensures { IfOk result (λ q. q ≡ bare_leaf field.now pieces.now) }
{
    let field = field_word(alloc, field)?;
    let text = text_of(alloc, pieces)?;
    let lead = begins_wild(pieces);
    let trail = ends_wild(pieces);
    if lead || trail {
        return Ok(Query::pattern(field, false, lead, trail, text));
    }
    Ok(Query::cmp(field, Op::Eq, text))
}

fn quoted_leaf(alloc: Global, field: &[char], text: &[char]) -> Result<Query, OutOfMemory>
    ensures { IfOk result (λ q. q ≡ query.Cmp (folded field.now) Eq text.now) }
{
    let field = field_word(alloc, field)?;
    let text = Word::from_chars(alloc, text)?;
    Ok(Query::cmp(field, Op::Eq, text))
}

/// The leaf of a range, which has an end at least.
#[tactic(auto, unfolding(crate::specs::Grammar::ranged))]
fn ranged(
    alloc: Global,
    field: &[char],
    low_open: bool,
    low: End,
    high: End,
    high_open: bool,
) -> Result<Query, QueryError>
    ensures { Gives (λ q. q) result (ranged field.now low_open low high high_open) }
{
    if low.is_open && high.is_open {
        return Err(SYNTAX);
    }
    let field = field_word(alloc, field)?;
    if high.is_open {
        let op = if low_open { Op::Gt } else { Op::Ge };
        return Ok(Query::cmp(field, op, low.text));
    }
    if low.is_open {
        let op = if high_open { Op::Lt } else { Op::Le };
        return Ok(Query::cmp(field, op, high.text));
    }
    Ok(Query::bounded(field, low.text, low_open, high.text, high_open))
}

/// A range behind its field and its first bracket.
#[tactic(auto, unfolding(crate::specs::Reading::range_at))]
fn range_at(
    alloc: Global,
    field: &[char],
    low_open: bool,
    tokens: &[Token],
) -> Result<Query, QueryError>
    ensures value { Gives (λ q. q) result (range_at field.now low_open tokens.now) }
    ensures within { OnOk result (6 ≤ length tokens.now) }
{
    let low = end_at(alloc, tokens, 2)?;
    let high = end_at(alloc, tokens, 4)?;
    let high_open = high_at(tokens, 5)?;
    if !is_to_at(tokens, 3) {
        return Err(SYNTAX);
    }
    ranged(alloc, field, low_open, low, high, high_open)
}

/// A field with a term, which is two tokens, or with a range, which is six.
#[tactic(auto, unfolding(crate::specs::Reading::clause))]
fn clause(alloc: Global, tokens: &[Token]) -> Result<(Query, usize), QueryError>
    ensures value { Gives (λ x. (x.0, drop x.1 tokens.now)) result (clause tokens.now) }
    ensures within { IfOk result (λ x. (0 < x.1) × (x.1 ≤ length tokens.now)) }
{
    let field = field_at(tokens, 0)?;
    match tokens.get(1) {
        Some(Token::Bare(pieces)) => Ok((bare_leaf(alloc, field, pieces.as_slice())?, 2)),
        Some(Token::Quoted(text)) => Ok((quoted_leaf(alloc, field, text.as_slice())?, 2)),
        Some(Token::Low(low_open)) => Ok((range_at(alloc, field, *low_open, tokens)?, 6)),
        _ => Err(SYNTAX),
    }
}

/// How many `NOT` stand at the front.
#[tactic(auto, using(crate::proofs::Runs::tokens_end, crate::proofs::Runs::tokens_go_on, crate::proofs::Runs::no_tokens))]
fn negations(tokens: &[Token]) -> usize
    ensures value { result ≡ prefix_len is_negate tokens.now }
    ensures within { result ≤ length tokens.now }
{
    for i in 0..tokens.len() {
        if !is_negate_at(tokens, i) {
            return i;
        }
    }
    tokens.len()
}

/// The query under so many negations.
fn negated(alloc: Global, count: usize, query: Query) -> Result<Query, OutOfMemory>
    ensures { IfOk result (λ q. q ≡ negated count query) }
{
    let mut query = query;
    for _ in 0..count {
        query = Query::not(alloc, query)?;
    }
    Ok(query)
}

/// One child alone, or the node of several.
fn all_of(children: Vec<Query>) -> Query
    requires { 0 < length children.items }
    ensures { result ≡ joined query.And children.items }
{
    let mut children = children;
    if children.len() == 1 {
        return children.remove(0);
    }
    Query::and(children)
}

/// One child alone, or the node of several.
fn any_of(children: Vec<Query>) -> Query
    requires { 0 < length children.items }
    ensures { result ≡ joined query.Or children.items }
{
    let mut children = children;
    if children.len() == 1 {
        return children.remove(0);
    }
    Query::or(children)
}

/// `(`, a query and `)`, or a clause.
#[cycle(reader)]
fn base(alloc: Global, levels: usize, tokens: &[Token]) -> Result<(Query, usize), QueryError>
    requires { levels ≤ 64 }
    ensures value { Gives (λ x. (x.0, drop x.1 tokens.now)) result (base (query_at levels) tokens.now) }
    ensures within { IfOk result (λ x. (0 < x.1) × (x.1 ≤ length tokens.now)) }
{
    if !is_open_at(tokens, 0) {
        return clause(alloc, tokens);
    }
    let (query, used) = disjunction(alloc, levels, &tokens[1..])?;
    if !is_close_at(tokens, used + 1) {
        return Err(SYNTAX);
    }
    Ok((query, used + 2))
}

/// A group or a clause under negations.
#[cycle(reader)]
fn unary(alloc: Global, levels: usize, tokens: &[Token]) -> Result<(Query, usize), QueryError>
    requires { levels ≤ 64 }
    ensures value { Gives (λ x. (x.0, drop x.1 tokens.now)) result (unary (query_at levels) tokens.now) }
    ensures within { IfOk result (λ x. (0 < x.1) × (x.1 ≤ length tokens.now)) }
{
    let count = negations(tokens);
    let (query, used) = base(alloc, levels, &tokens[count..])?;
    Ok((negated(alloc, count, query)?, count + used))
}

#[cycle(reader)]
fn conjunction(alloc: Global, levels: usize, tokens: &[Token]) -> Result<(Query, usize), QueryError>
    requires { levels ≤ 64 }
    ensures value { Gives (λ x. (x.0, drop x.1 tokens.now)) result (conjunction (query_at levels) tokens.now) }
    ensures within { IfOk result (λ x. (0 < x.1) × (x.1 ≤ length tokens.now)) }
{
    let mut children = Vec::new(alloc);
    let mut at = 0;
    loop {
        let (child, used) = unary(alloc, levels, &tokens[at..])?;
        children.push(child)?;
        at += used;
        if !is_conjoin_at(tokens, at) {
            return Ok((all_of(children), at));
        }
        at += 1;
    }
}

/// A query whose groups stand at most so deep.
#[cycle(reader)]
fn disjunction(alloc: Global, levels: usize, tokens: &[Token]) -> Result<(Query, usize), QueryError>
    requires { levels ≤ 65 }
    ensures value { Gives (λ x. (x.0, drop x.1 tokens.now)) result (query_at levels tokens.now) }
    ensures within { IfOk result (λ x. (0 < x.1) × (x.1 ≤ length tokens.now)) }
{
    if levels == 0 {
        return Err(SYNTAX);
    }
    let mut children = Vec::new(alloc);
    let mut at = 0;
    loop {
        let (child, used) = conjunction(alloc, levels - 1, &tokens[at..])?;
        children.push(child)?;
        at += used;
        if !is_disjoin_at(tokens, at) {
            return Ok((any_of(children), at));
        }
        at += 1;
    }
}

/// The query that all of the tokens spell, where its groups stand less than that many levels deep. What stands in a group
/// is read with one level less, so that is also how deep the calls go.
#[tactic(auto, unfolding(crate::specs::Reading::whole))]
pub fn whole(alloc: Global, levels: usize, tokens: &[Token]) -> Result<Query, QueryError>
    requires { levels ≤ 65 }
    ensures { Gives (λ q. q) result (whole levels tokens.now) }
{
    let (query, used) = disjunction(alloc, levels, tokens)?;
    if used < tokens.len() {
        return Err(SYNTAX);
    }
    Ok(query)
}
