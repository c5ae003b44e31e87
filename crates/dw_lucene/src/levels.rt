//! How deep parentheses and negations stand.

ghost use Rattle.std.specs.Prelude.{◌≡◌, IfOk, map};
ghost use Rattle.dw_lucene.specs.Levels.{level_of, is_deep};

use crate::OutOfMemory;
use crate::token::Token;
use std::alloc::Global;

/// The token of JEXL that counts as this one.
fn level_of(token: &Token) -> dw_jexl::Token
    ensures { result ≡ level_of token.now }
{
    match token {
        Token::Open => dw_jexl::Token::Open,
        Token::Close => dw_jexl::Token::Close,
        Token::Negate => dw_jexl::Token::Negate,
        _ => dw_jexl::Token::Assign,
    }
}

fn levels_of(alloc: Global, tokens: &[Token]) -> Result<Vec<dw_jexl::Token>, OutOfMemory>
    ensures { IfOk result (λ levels. levels.items ≡ map level_of tokens.now) }
{
    let mut levels = Vec::new(alloc);
    for token in tokens {
        levels.push(level_of(token))?;
    }
    Ok(levels)
}

/// Whether more than 64 levels are open somewhere.
pub fn is_deep(alloc: Global, tokens: &[Token]) -> Result<bool, OutOfMemory>
    ensures { IfOk result (λ deep. deep ≡ is_deep tokens.now) }
{
    let levels = levels_of(alloc, tokens)?;
    dw_jexl::is_deep(alloc, &levels)
}
