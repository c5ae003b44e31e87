//! Which bare terms are right.

ghost use Rattle.std.specs.Prelude.{◌≡◌, ◌<◌, length};
ghost use Rattle.dw_lucene.specs.Grammar.{is_star};
ghost use Rattle.dw_lucene.specs.Patterns.{end_is_right, term_is_right, token_is_right, first_is_right, is_right_at, are_right};

use crate::token::Token;
use dw_jexl::{Piece, is_right, literals};

/// Whether it is a wildcard alone.
pub fn is_star(pieces: &[Piece]) -> bool
    ensures { result ≡ is_star pieces.now }
{
    matches!(pieces, [Piece::Wild])
}

#[tactic(auto, unfolding(crate::specs::Patterns::end_is_right))]
fn end_is_right(pieces: &[Piece]) -> bool
    ensures { result ≡ end_is_right pieces.now }
{
    is_star(pieces) || literals(pieces) == pieces.len()
}

/// Whether a bare term is right straight behind a token.
fn term_is_right(before: &Token, pieces: &[Piece]) -> bool
    ensures { result ≡ term_is_right before.now pieces.now }
{
    match before {
        Token::Field(_) => is_right(pieces),
        Token::Low(_) => end_is_right(pieces),
        Token::To => end_is_right(pieces),
        _ => true,
    }
}

fn token_is_right(before: &Token, token: &Token) -> bool
    ensures { result ≡ token_is_right before.now token.now }
{
    match token {
        Token::Bare(pieces) => term_is_right(before, pieces.as_slice()),
        _ => true,
    }
}

fn first_is_right(before: &Token, tokens: &[Token]) -> bool
    ensures { result ≡ first_is_right before.now tokens.now }
{
    match tokens.first() {
        Some(token) => token_is_right(before, token),
        None => true,
    }
}

fn is_right_at(tokens: &[Token], at: usize) -> bool
    requires { at < length tokens.now }
    ensures { result ≡ is_right_at tokens.now at }
{
    match tokens.get(at) {
        Some(token) => first_is_right(token, &tokens[at + 1..]),
        None => true,
    }
}

/// Whether every bare term is right where it stands.
#[tactic(auto, using(crate::proofs::Rights::right_goes_on, crate::proofs::Rights::right_at_end))]
pub fn are_right(tokens: &[Token]) -> bool
    ensures { result ≡ are_right tokens.now }
{
    for i in 0..tokens.len() {
        if !is_right_at(tokens, i) {
            return false;
        }
    }
    true
}
