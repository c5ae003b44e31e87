//! The query of a text.

ghost use Rattle.std.specs.Prelude.{◌≡◌, true, IfOk, Ok, Err, ◌⊎◌};
ghost use Rattle.dw_jexl.specs.QueryLaws.{IsReadAgain};
ghost use Rattle.dw_jexl.specs.WellMade.{is_well_made};
ghost use Rattle.dw_lucene.specs.Spelling.{Spells, Breaks, Answers};

use crate::levels::is_deep;
use crate::pattern::are_right;
use crate::{lex, reading};
use dw_jexl::{LEVELS, MAX_BYTES, MAX_LEAVES, Query, QueryError, QueryRule, characters};
use std::alloc::Global;

fn read(alloc: Global, text: &str) -> Result<Query, QueryError>
    ensures { Answers text.now result }
{
    if text.len() > MAX_BYTES {
        return Err(QueryError::Rule(QueryRule::TooLong));
    }
    let chars = characters(alloc, text)?;
    let (tokens, at) = lex::tokens(alloc, &chars)?;
    if is_deep(alloc, &tokens)? {
        return Err(QueryError::Rule(QueryRule::TooDeep));
    }
    if at < chars.len() {
        return Err(QueryError::Rule(QueryRule::Syntax));
    }
    let query = reading::whole(alloc, LEVELS, &tokens)?;
    if query.leaves() > MAX_LEAVES {
        return Err(QueryError::Rule(QueryRule::TooMany));
    }
    if !are_right(&tokens) {
        return Err(QueryError::Rule(QueryRule::Pattern));
    }
    Ok(query)
}

/// The query that a text spells, or the first rule that it breaks, in the order of `QueryRule`.
pub fn parse_lucene(alloc: Global, text: &str) -> Result<Query, QueryError>
    // What is read is spelt by the text.
    ensures spelt { IfOk result (λ q. Spells text.now q) }
    // What the text spells is read, unless memory runs out.
    ensures only { (q : Query) → Spells text.now q → (result ≡ Ok q) ⊎ (result ≡ Err QueryError.OutOfMemory) }
    // Its fields stand in upper case, its patterns have text, and each And and Or has at least two children.
    ensures well_made { IfOk result (λ q. is_well_made q ≡ true) }
    // What is read is read again from its canonical text in JEXL, where that keeps the limits on length and depth.
    ensures again { IfOk result (λ q. IsReadAgain q) }
    // The rule is the first that the text breaks.
    ensures refused { (r : QueryRule) → result ≡ Err (QueryError.Rule r) → Breaks r text.now }
    // A text that breaks a rule is refused by it, unless memory runs out.
    ensures refuses { (r : QueryRule) → Breaks r text.now → (result ≡ Err (QueryError.Rule r)) ⊎ (result ≡ Err QueryError.OutOfMemory) }
{
    dw_jexl::fields_fold();
    dw_jexl::well_made_queries_are_read();
    read(alloc, text)
}
