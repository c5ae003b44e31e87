//! The text and the wildcards of a pattern.

ghost use Rattle.std.specs.Prelude.{◌≡◌, ◌<◌, ◌≤◌, ◌++◌, IfOk, OnOk, length, option_to_list};
ghost use Rattle.dw_jexl.specs.Tokens.{is_match, holds_at};
ghost use Rattle.dw_jexl.specs.Patterns.{is_meta, piece_of, pending_after, piece_at_end, pieces, text_of, begins_wild, ends_wild, is_right, first_is_right, is_right_at, are_right, is_wild, literal_in};

use crate::OutOfMemory;
use crate::token::Token;
use crate::word::Word;
use std::alloc::Global;

/// A part of a pattern.
#[derive(Clone, Copy, Debug, Drop)]
pub enum Piece {
    Literal(char),
    /// `.*`
    Wild,
    Broken,
}

/// What stands open before a character.
#[derive(Clone, Copy, Debug, Drop)]
enum Pending {
    Nothing,
    Escape,
    Dot,
}

#[tactic(auto, unfolding(crate::specs::Patterns::is_meta))]
pub fn is_meta(c: char) -> bool
    ensures { result ≡ is_meta c }
{
    c == '.'
        || c == '*'
        || c == '+'
        || c == '?'
        || c == '('
        || c == ')'
        || c == '['
        || c == ']'
        || c == '{'
        || c == '}'
        || c == '^'
        || c == '$'
        || c == '|'
}

#[tactic(auto, unfolding(crate::specs::Patterns::piece_of))]
fn piece_of(pending: Pending, c: char) -> Option<Piece>
    ensures { result ≡ piece_of pending c }
{
    match pending {
        Pending::Nothing => {
            if c == '\\' || c == '.' {
                None
            } else if is_meta(c) {
                Some(Piece::Broken)
            } else {
                Some(Piece::Literal(c))
            }
        }
        Pending::Escape => Some(Piece::Literal(c)),
        Pending::Dot => {
            if c == '*' {
                Some(Piece::Wild)
            } else {
                Some(Piece::Broken)
            }
        }
    }
}

#[tactic(auto, unfolding(crate::specs::Patterns::pending_after))]
fn pending_after(pending: Pending, c: char) -> Pending
    ensures { result ≡ pending_after pending c }
{
    match pending {
        Pending::Nothing => {
            if c == '\\' {
                Pending::Escape
            } else if c == '.' {
                Pending::Dot
            } else {
                Pending::Nothing
            }
        }
        Pending::Escape => Pending::Nothing,
        Pending::Dot => Pending::Nothing,
    }
}

#[tactic(auto, unfolding(crate::specs::Patterns::piece_at_end))]
fn piece_at_end(pending: Pending) -> Option<Piece>
    ensures { result ≡ piece_at_end pending }
{
    match pending {
        Pending::Nothing => None,
        Pending::Escape => Some(Piece::Broken),
        Pending::Dot => Some(Piece::Broken),
    }
}

fn put(out: &mut Vec<Piece>, piece: Option<Piece>) -> Result<(), OutOfMemory>
    ensures { OnOk result (out.new.items ≡ out.old.items ++ option_to_list piece) }
{
    if let Some(piece) = piece {
        out.push(piece)?;
    }
    Ok(())
}

/// The pieces of a pattern's string.
#[tactic(auto, using(crate::proofs::Pieces::piece_goes_on, crate::proofs::Pieces::pieces_end))]
pub fn pieces(alloc: Global, raw: &[char]) -> Result<Vec<Piece>, OutOfMemory>
    ensures { IfOk result (λ v. v.items ≡ pieces raw.now) }
{
    let mut out = Vec::new(alloc);
    let mut pending = Pending::Nothing;
    for c in raw {
        put(&mut out, piece_of(pending, *c))?;
        pending = pending_after(pending, *c);
    }
    put(&mut out, piece_at_end(pending))?;
    Ok(out)
}

fn literal_in(piece: Piece) -> Option<char>
    ensures { result ≡ literal_in piece }
{
    match piece {
        Piece::Literal(c) => Some(c),
        Piece::Wild => None,
        Piece::Broken => None,
    }
}

fn put_char(text: &mut Word, c: Option<char>) -> Result<(), OutOfMemory>
    ensures { OnOk result (text.new ≡ text.old ++ option_to_list c) }
{
    if let Some(c) = c {
        text.push(c)?;
    }
    Ok(())
}

/// The literal characters of a pattern.
#[tactic(auto, using(crate::proofs::Pieces::text_goes_on, crate::proofs::Pieces::text_ends))]
pub fn text_of(alloc: Global, pieces: &[Piece]) -> Result<Word, OutOfMemory>
    ensures { IfOk result (λ w. w ≡ text_of pieces.now) }
{
    let mut text = Word::new(alloc);
    for piece in pieces {
        put_char(&mut text, literal_in(*piece))?;
    }
    Ok(text)
}

fn is_wild(piece: Piece) -> bool
    ensures { result ≡ is_wild piece }
{
    match piece {
        Piece::Literal(_) => false,
        Piece::Wild => true,
        Piece::Broken => false,
    }
}

/// Whether the first piece is a wildcard.
pub fn begins_wild(pieces: &[Piece]) -> bool
    ensures { result ≡ begins_wild pieces.now }
{
    if pieces.is_empty() {
        return false;
    }
    is_wild(pieces[0])
}

/// Whether the last piece is a wildcard.
pub fn ends_wild(pieces: &[Piece]) -> bool
    ensures { result ≡ ends_wild pieces.now }
{
    if pieces.len() == 0 {
        return false;
    }
    is_wild(pieces[pieces.len() - 1])
}

fn count(piece: Piece) -> usize
    ensures value { result ≡ length (option_to_list (literal_in piece)) }
    ensures bound { result ≤ 1 }
{
    match piece {
        Piece::Literal(_) => 1,
        Piece::Wild => 0,
        Piece::Broken => 0,
    }
}

/// How many pieces are literal characters.
#[tactic(auto, using(crate::proofs::Pieces::literals_go_on, crate::proofs::Pieces::literals_end))]
pub fn literals(pieces: &[Piece]) -> usize
    ensures value { result ≡ length (text_of pieces.now) }
    ensures within { result ≤ length pieces.now }
{
    let mut n = 0;
    for piece in pieces {
        n += count(*piece);
    }
    n
}

/// Whether each piece is a literal character but for a wildcard at either end, and a literal character is there.
#[tactic(auto, unfolding(crate::specs::Patterns::is_right))]
pub fn is_right(pieces: &[Piece]) -> bool
    ensures { result ≡ is_right pieces.now }
{
    let wild = usize::from(begins_wild(pieces)) + usize::from(ends_wild(pieces));
    let n = literals(pieces);
    n > 0 && n + wild == pieces.len()
}

fn first_is_right(alloc: Global, tokens: &[Token]) -> Result<bool, OutOfMemory>
    ensures { IfOk result (λ right. right ≡ first_is_right tokens.now) }
{
    match tokens.first() {
        Some(Token::Quoted(raw)) => Ok(is_right(&pieces(alloc, raw.as_slice())?)),
        _ => Ok(true),
    }
}

fn is_match_at(tokens: &[Token], at: usize) -> bool
    ensures { result ≡ holds_at is_match tokens.now at }
{
    matches!(tokens.get(at), Some(Token::Match(_)))
}

/// Whether, if a `=~` or a `!~` stands there, the string behind it is right.
fn is_right_at(alloc: Global, tokens: &[Token], at: usize) -> Result<bool, OutOfMemory>
    requires { at < length tokens.now }
    ensures { IfOk result (λ right. right ≡ is_right_at tokens.now at) }
{
    if !is_match_at(tokens, at) {
        return Ok(true);
    }
    first_is_right(alloc, &tokens[at + 1..])
}

/// Whether every string behind a `=~` or a `!~` is right.
#[tactic(auto, using(crate::proofs::Pieces::right_goes_on, crate::proofs::Pieces::right_at_end))]
pub fn are_right(alloc: Global, tokens: &[Token]) -> Result<bool, OutOfMemory>
    ensures { IfOk result (λ right. right ≡ are_right tokens.now) }
{
    for i in 0..tokens.len() {
        if !is_right_at(alloc, tokens, i)? {
            return Ok(false);
        }
    }
    Ok(true)
}
