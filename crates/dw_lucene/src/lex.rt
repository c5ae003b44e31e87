//! Cuts the characters of a text into tokens, each the longest.

ghost use Rattle.std.specs.Prelude.{◌≡◌, ◌+◌, ◌<◌, ◌≤◌, length, drop, IfOk, IfSome, OnOk, ◌++◌, bytes_eq, slice_index, not, ◌&&◌, ◌==◌, false, option_map};
ghost use Rattle.std.specs.List.{prefix_len};
ghost use Rattle.dw_jexl.specs.Tokens.{is_blank};
ghost use Rattle.dw_lucene.specs.Tokens.{is_special, ends_term, piece_of, piece, term, bare_token, term_token, sign_token, string_token, special_token, first_token, AreRead};

use crate::OutOfMemory;
use crate::token::Token;
use dw_jexl::{Piece, blanks, char_at, is_blank, quoted};
use sqlite_items::Items;
use std::alloc::Global;

#[tactic(auto, unfolding(crate::specs::Tokens::is_special))]
fn is_special(c: char) -> bool
    ensures { result ≡ is_special c }
{
    c == '(' || c == ')' || c == '[' || c == ']' || c == '{' || c == '}' || c == ':' || c == '"'
}

/// Whether a character ends a term where no `\` stands before it.
#[tactic(auto, unfolding(crate::specs::Tokens::ends_term))]
pub fn ends_term(c: char) -> bool
    ensures { result ≡ ends_term c }
{
    is_blank(c) || is_special(c)
}

#[tactic(auto, unfolding(crate::specs::Tokens::piece_of))]
fn piece_of(c: char) -> Piece
    ensures { result ≡ piece_of c }
{
    if c == '*' {
        Piece::Wild
    } else if c == '?' {
        Piece::Broken
    } else {
        Piece::Literal(c)
    }
}

/// Adds what a character adds to a term.
#[tactic(auto, unfolding(crate::specs::Tokens::piece))]
fn put_piece(pieces: &mut Items<Piece>, escaped: bool, c: char) -> Result<(), OutOfMemory>
    ensures { OnOk result (pieces.new ≡ pieces.old ++ piece escaped c) }
{
    if escaped {
        return pieces.push(Piece::Literal(c));
    }
    if c != '\\' {
        return pieces.push(piece_of(c));
    }
    Ok(())
}

fn is_end(escaped: bool, c: char) -> bool
    ensures { result ≡ (not escaped && ends_term c) }
{
    !escaped && ends_term(c)
}

fn opens_escape(escaped: bool, c: char) -> bool
    ensures { result ≡ (not escaped && c == 92) }
{
    !escaped && c == '\\'
}

/// The pieces of the term at the front, and how many characters it takes.
#[tactic(auto, using(crate::proofs::Terms::term_ends, crate::proofs::Terms::term_goes_on, crate::proofs::Terms::term_is_open, crate::proofs::Terms::term_closes, crate::proofs::Terms::term_begins))]
fn term(alloc: Global, chars: &[char]) -> Result<Option<(Items<Piece>, usize)>, OutOfMemory>
    ensures value { IfOk result (λ r. r ≡ term false chars.now) }
    ensures within { IfOk result (λ r. IfSome r (λ p. p.1 ≤ length chars.now)) }
{
    let mut pieces = Items::new(alloc);
    let mut escaped = false;
    for (i, c) in chars.iter().enumerate() {
        if is_end(escaped, *c) {
            return Ok(Some((pieces, i)));
        }
        put_piece(&mut pieces, escaped, *c)?;
        escaped = opens_escape(escaped, *c);
    }
    if escaped {
        return Ok(None);
    }
    Ok(Some((pieces, chars.len())))
}

fn is(word: &[char], other: &[char]) -> bool
    ensures { result ≡ bytes_eq word.now other.now }
{
    word == other
}

#[tactic(auto, unfolding(crate::specs::Tokens::bare_token))]
fn bare_token(word: &[char], pieces: Items<Piece>) -> Token
    ensures { result ≡ bare_token word.now pieces }
{
    if is(word, &['A', 'N', 'D']) {
        Token::Conjoin
    } else if is(word, &['O', 'R']) {
        Token::Disjoin
    } else if is(word, &['N', 'O', 'T']) {
        Token::Negate
    } else if is(word, &['T', 'O']) {
        Token::To
    } else {
        Token::Bare(pieces)
    }
}

/// The token of a term that takes so many characters.
#[tactic(auto, unfolding(crate::specs::Tokens::term_token), using(crate::proofs::Terms::colon_within))]
fn term_token(
    alloc: Global,
    chars: &[char],
    pieces: Items<Piece>,
    len: usize,
) -> Result<(Token, usize), OutOfMemory>
    requires { len ≤ length chars.now }
    ensures value { IfOk result (λ p. p ≡ term_token chars.now (pieces, len)) }
    ensures within { IfOk result (λ p. (len ≤ p.1) × (p.1 ≤ length chars.now)) }
{
    if char_at(chars, len) != ':' {
        return Ok((bare_token(&chars[..len], pieces), len));
    }
    if is_blank(char_at(chars, len + 1)) {
        return Ok((Token::Colon, len + 1));
    }
    Ok((
        Token::Field(Items::from_slice(alloc, &chars[..len])?),
        len + 1,
    ))
}

fn word_token(alloc: Global, chars: &[char]) -> Result<Option<(Token, usize)>, OutOfMemory>
    requires some { 0 < length chars.now }
    requires begins { ends_term (slice_index chars.now 0) ≡ false }
    ensures value { IfOk result (λ r. r ≡ option_map (term_token chars.now) (term false chars.now)) }
    ensures within { IfOk result (λ r. IfSome r (λ p. (0 < p.1) × (p.1 ≤ length chars.now))) }
{
    match term(alloc, chars)? {
        None => Ok(None),
        Some((pieces, len)) => Ok(Some(term_token(alloc, chars, pieces, len)?)),
    }
}

#[tactic(auto, unfolding(crate::specs::Tokens::sign_token))]
fn sign_token(c: char) -> Token
    ensures { result ≡ sign_token c }
{
    if c == '(' {
        Token::Open
    } else if c == ')' {
        Token::Close
    } else if c == '[' {
        Token::Low(false)
    } else if c == '{' {
        Token::Low(true)
    } else if c == ']' {
        Token::High(false)
    } else if c == '}' {
        Token::High(true)
    } else {
        Token::Colon
    }
}

#[tactic(auto, unfolding(crate::specs::Tokens::string_token))]
fn string_token(alloc: Global, chars: &[char]) -> Result<Option<(Token, usize)>, OutOfMemory>
    ensures value { IfOk result (λ r. r ≡ string_token chars.now) }
    ensures within { IfOk result (λ r. IfSome r (λ p. (0 < p.1) × (p.1 ≤ length chars.now + 1))) }
{
    match quoted(alloc, '"', chars)? {
        None => Ok(None),
        Some((text, len)) => Ok(Some((Token::Quoted(text), len + 1))),
    }
}

/// The token that begins with a special character, before the characters behind it.
#[tactic(auto, unfolding(crate::specs::Tokens::special_token))]
fn special_token(
    alloc: Global,
    c: char,
    chars: &[char],
) -> Result<Option<(Token, usize)>, OutOfMemory>
    ensures value { IfOk result (λ r. r ≡ special_token c chars.now) }
    ensures within { IfOk result (λ r. IfSome r (λ p. (0 < p.1) × (p.1 ≤ length chars.now + 1))) }
{
    if c == '"' {
        return string_token(alloc, chars);
    }
    Ok(Some((sign_token(c), 1)))
}

/// The longest token at the front, and how many characters it takes.
#[tactic(auto, using(crate::proofs::First::no_first, crate::proofs::First::first_special, crate::proofs::First::first_blank, crate::proofs::First::first_term, crate::proofs::First::begins_term))]
fn first_token(alloc: Global, chars: &[char]) -> Result<Option<(Token, usize)>, OutOfMemory>
    ensures value { IfOk result (λ r. r ≡ first_token chars.now) }
    ensures within { IfOk result (λ r. IfSome r (λ p. (0 < p.1) × (p.1 ≤ length chars.now))) }
{
    if chars.len() == 0 {
        return Ok(None);
    }
    let c = char_at(chars, 0);
    if is_special(c) {
        return special_token(alloc, c, &chars[1..]);
    }
    if is_blank(c) {
        return Ok(None);
    }
    word_token(alloc, chars)
}

/// The place behind the white space that stands at a place.
fn past_blanks(chars: &[char], at: usize) -> usize
    requires { at ≤ length chars.now }
    ensures value { result ≡ at + prefix_len is_blank (drop at chars.now) }
    ensures within { result ≤ length chars.now }
{
    at + blanks(&chars[at..])
}

/// The tokens, and the place up to which they go.
pub fn tokens(alloc: Global, chars: &[char]) -> Result<(Vec<Token>, usize), OutOfMemory>
    ensures value { IfOk result (λ r. AreRead chars.now r.0.items (drop r.1 chars.now)) }
    ensures within { IfOk result (λ r. r.1 ≤ length chars.now) }
{
    let mut tokens = Vec::new(alloc);
    let mut at = past_blanks(chars, 0);
    loop {
        match first_token(alloc, &chars[at..])? {
            None => return Ok((tokens, at)),
            Some((token, used)) => {
                tokens.push(token)?;
                at = past_blanks(chars, at + used);
            }
        }
    }
}
