//! Cuts the characters of a text into tokens, each the longest.

ghost use Rattle.std.specs.Prelude.{◌≡◌, ◌+◌, ◌<◌, ◌≤◌, length, take, drop, IfOk, IfSome, OnOk, ◌++◌, bytes_eq, slice_index, not, ◌&&◌, ◌==◌, true, false};
ghost use Rattle.std.specs.Char.{is_ascii_digit};
ghost use Rattle.std.specs.List.{prefix_len};
ghost use Rattle.dw_jexl.specs.Tokens.{is_blank, starts_word, in_word, first_starts, all_in_word, is_word, is_operator, starts_number, is_quote, word_token, sign_len, digits_from, fraction_end, number_len, number_token, piece, quoted, string_token, sign_token, first_token, AreRead};

use crate::OutOfMemory;
use crate::query::Op;
use crate::token::Token;
use sqlite_items::Items;
use std::alloc::Global;

/// Space, tab, CR and LF.
#[tactic(auto, unfolding(crate::specs::Tokens::is_blank))]
pub fn is_blank(c: char) -> bool
    ensures { result ≡ is_blank c }
{
    c == ' ' || c == '\t' || c == '\r' || c == '\n'
}

#[tactic(auto, unfolding(crate::specs::Tokens::starts_word))]
fn starts_word(c: char) -> bool
    ensures { result ≡ starts_word c }
{
    c.is_ascii_alphabetic() || c == '_'
}

#[tactic(auto, unfolding(crate::specs::Tokens::in_word))]
fn in_word(c: char) -> bool
    ensures { result ≡ in_word c }
{
    starts_word(c) || c.is_ascii_digit()
}

fn first_starts(word: &[char]) -> bool
    ensures { result ≡ first_starts word.now }
{
    match word.first() {
        Some(c) => starts_word(*c),
        None => false,
    }
}

#[tactic(auto, using(crate::proofs::Runs::words_go_on, crate::proofs::Runs::words_end))]
fn all_in_word(word: &[char]) -> bool
    ensures { result ≡ all_in_word word.now }
{
    for c in word {
        if !in_word(*c) {
            return false;
        }
    }
    true
}

/// Whether a text is a letter or `_`, and then letters, digits and `_`.
#[tactic(auto, unfolding(crate::specs::Tokens::is_word))]
pub fn is_word(word: &[char]) -> bool
    ensures { result ≡ is_word word.now }
{
    first_starts(word) && all_in_word(word)
}

#[tactic(auto, unfolding(crate::specs::Tokens::starts_number))]
fn starts_number(c: char) -> bool
    ensures { result ≡ starts_number c }
{
    c.is_ascii_digit() || c == '-'
}

#[tactic(auto, unfolding(crate::specs::Tokens::is_quote))]
fn is_quote(c: char) -> bool
    ensures { result ≡ is_quote c }
{
    c == '\'' || c == '"'
}

/// The character at a place, or that of code 0 past the end.
pub fn char_at(chars: &[char], at: usize) -> char
    ensures { result ≡ slice_index chars.now at }
{
    if at < chars.len() { chars[at] } else { '\0' }
}

/// How many characters of white space stand at the front.
#[tactic(auto, using(crate::proofs::Runs::run_ends, crate::proofs::Runs::run_goes_on))]
pub fn blanks(chars: &[char]) -> usize
    ensures value { result ≡ prefix_len is_blank chars.now }
    ensures within { result ≤ length chars.now }
{
    for (i, c) in chars.iter().enumerate() {
        if !is_blank(*c) {
            return i;
        }
    }
    chars.len()
}

#[tactic(auto, using(crate::proofs::Runs::run_ends, crate::proofs::Runs::run_goes_on))]
fn word_len(chars: &[char]) -> usize
    ensures value { result ≡ prefix_len in_word chars.now }
    ensures within { result ≤ length chars.now }
{
    for (i, c) in chars.iter().enumerate() {
        if !in_word(*c) {
            return i;
        }
    }
    chars.len()
}

#[tactic(auto, using(crate::proofs::Runs::run_ends, crate::proofs::Runs::run_goes_on))]
fn digits(chars: &[char]) -> usize
    ensures value { result ≡ prefix_len is_ascii_digit chars.now }
    ensures within { result ≤ length chars.now }
{
    for (i, c) in chars.iter().enumerate() {
        if !c.is_ascii_digit() {
            return i;
        }
    }
    chars.len()
}

#[tactic(auto, unfolding(crate::specs::Tokens::digits_from))]
fn digits_from(chars: &[char], at: usize) -> usize
    ensures value { result ≡ digits_from chars.now at }
    ensures within { 0 < result → at + result ≤ length chars.now }
{
    if at < chars.len() {
        digits(&chars[at..])
    } else {
        0
    }
}

fn is(name: &[char], word: &[char]) -> bool
    ensures { result ≡ bytes_eq name.now word.now }
{
    name == word
}

#[tactic(auto, unfolding(crate::specs::Tokens::word_token))]
fn word_token(alloc: Global, name: &[char]) -> Result<Token, OutOfMemory>
    ensures { IfOk result (λ t. t ≡ word_token name.now) }
{
    if is(name, &['a', 'n', 'd']) {
        Ok(Token::Conjoin)
    } else if is(name, &['o', 'r']) {
        Ok(Token::Disjoin)
    } else if is(name, &['n', 'o', 't']) {
        Ok(Token::Negate)
    } else if is(name, &['e', 'q']) {
        Ok(Token::Compare(Op::Eq))
    } else if is(name, &['n', 'e']) {
        Ok(Token::Compare(Op::Ne))
    } else if is(name, &['l', 't']) {
        Ok(Token::Compare(Op::Lt))
    } else if is(name, &['l', 'e']) {
        Ok(Token::Compare(Op::Le))
    } else if is(name, &['g', 't']) {
        Ok(Token::Compare(Op::Gt))
    } else if is(name, &['g', 'e']) {
        Ok(Token::Compare(Op::Ge))
    } else {
        Ok(Token::Name(Items::from_slice(alloc, name)?))
    }
}

/// Whether a word is another spelling of an operator.
#[tactic(auto, unfolding(crate::specs::Tokens::is_operator, crate::specs::Tokens::word_token))]
pub fn is_operator(word: &[char]) -> bool
    ensures { result ≡ is_operator word.now }
{
    is(word, &['a', 'n', 'd'])
        || is(word, &['o', 'r'])
        || is(word, &['n', 'o', 't'])
        || is(word, &['e', 'q'])
        || is(word, &['n', 'e'])
        || is(word, &['l', 't'])
        || is(word, &['l', 'e'])
        || is(word, &['g', 't'])
        || is(word, &['g', 'e'])
}

#[tactic(auto, unfolding(crate::specs::Tokens::sign_len))]
fn sign_len(chars: &[char]) -> usize
    ensures { result ≡ sign_len chars.now }
{
    if char_at(chars, 0) == '-' { 1 } else { 0 }
}

#[tactic(auto, unfolding(crate::specs::Tokens::fraction_end))]
fn fraction_end(chars: &[char], at: usize) -> usize
    requires { at ≤ length chars.now }
    ensures value { result ≡ fraction_end chars.now at }
    ensures within { result ≤ length chars.now }
    ensures later { at ≤ result }
{
    if char_at(chars, at) != '.' {
        return at;
    }
    let fraction = digits_from(chars, at + 1);
    if fraction == 0 {
        return at;
    }
    at + 1 + fraction
}

#[tactic(auto, unfolding(crate::specs::Tokens::number_len))]
fn number_len(chars: &[char]) -> Option<usize>
    ensures value { result ≡ number_len chars.now }
    ensures within { IfSome result (λ n. (0 < n) × (n ≤ length chars.now)) }
{
    let sign = sign_len(chars);
    let whole = digits_from(chars, sign);
    if whole == 0 {
        return None;
    }
    let end = sign + whole;
    let far = fraction_end(chars, end);
    if !in_word(char_at(chars, far)) {
        Some(far)
    } else if !in_word(char_at(chars, end)) {
        Some(end)
    } else {
        None
    }
}

#[tactic(auto, unfolding(crate::specs::Tokens::number_token))]
fn number_token(alloc: Global, chars: &[char]) -> Result<Option<(Token, usize)>, OutOfMemory>
    ensures value { IfOk result (λ r. r ≡ number_token chars.now) }
    ensures within { IfOk result (λ r. IfSome r (λ p. (0 < p.1) × (p.1 ≤ length chars.now))) }
{
    match number_len(chars) {
        None => Ok(None),
        Some(n) => Ok(Some((Token::Number(Items::from_slice(alloc, &chars[..n])?), n))),
    }
}

/// Adds what a character adds to a string.
#[tactic(auto, unfolding(crate::specs::Tokens::piece))]
fn put_piece(text: &mut Items<char>, quote: char, escaped: bool, c: char) -> Result<(), OutOfMemory>
    ensures { OnOk result (text.new ≡ text.old ++ piece quote escaped c) }
{
    if escaped {
        if c != quote && c != '\\' {
            text.push('\\')?;
        }
        return text.push(c);
    }
    if c != '\\' {
        return text.push(c);
    }
    Ok(())
}

/// Whether that mark stands with no `\\` before it.
fn is_bare(escaped: bool, c: char, mark: char) -> bool
    ensures { result ≡ (not escaped && c == mark) }
{
    !escaped && c == mark
}

/// What a string stands for, and how many characters it takes, its closing quote with it.
#[tactic(auto, using(crate::proofs::Strings::string_ends, crate::proofs::Strings::string_goes_on, crate::proofs::Strings::string_is_open, crate::proofs::Strings::string_begins))]
pub fn quoted(
    alloc: Global,
    quote: char,
    chars: &[char],
) -> Result<Option<(Items<char>, usize)>, OutOfMemory>
    ensures value { IfOk result (λ r. r ≡ quoted quote false chars.now) }
    ensures within { IfOk result (λ r. IfSome r (λ p. (0 < p.1) × (p.1 ≤ length chars.now))) }
{
    let mut text = Items::new(alloc);
    let mut escaped = false;
    for (i, c) in chars.iter().enumerate() {
        if is_bare(escaped, *c, quote) {
            return Ok(Some((text, i + 1)));
        }
        put_piece(&mut text, quote, escaped, *c)?;
        escaped = is_bare(escaped, *c, '\\');
    }
    Ok(None)
}

#[tactic(auto, unfolding(crate::specs::Tokens::string_token))]
fn string_token(
    alloc: Global,
    quote: char,
    chars: &[char],
) -> Result<Option<(Token, usize)>, OutOfMemory>
    ensures value { IfOk result (λ r. r ≡ string_token quote chars.now) }
    ensures within { IfOk result (λ r. IfSome r (λ p. (1 < p.1) × (p.1 ≤ length chars.now + 1))) }
{
    match quoted(alloc, quote, chars)? {
        None => Ok(None),
        Some((text, n)) => Ok(Some((Token::Quoted(text), n + 1))),
    }
}

#[tactic(auto, unfolding(crate::specs::Tokens::sign_token))]
fn sign_token(c: char, next: char) -> Option<(Token, usize)>
    ensures value { result ≡ sign_token c next }
    ensures within { IfSome result (λ p. (0 < p.1) × (p.1 ≤ 2) × (1 < p.1 → 0 < next)) }
{
    if c == '(' {
        Some((Token::Open, 1))
    } else if c == ')' {
        Some((Token::Close, 1))
    } else if c == '&' {
        if next == '&' {
            Some((Token::Conjoin, 2))
        } else {
            None
        }
    } else if c == '|' {
        if next == '|' {
            Some((Token::Disjoin, 2))
        } else {
            None
        }
    } else if c == '!' {
        if next == '=' {
            Some((Token::Compare(Op::Ne), 2))
        } else if next == '~' {
            Some((Token::Match(true), 2))
        } else {
            Some((Token::Negate, 1))
        }
    } else if c == '=' {
        if next == '=' {
            Some((Token::Compare(Op::Eq), 2))
        } else if next == '~' {
            Some((Token::Match(false), 2))
        } else {
            Some((Token::Assign, 1))
        }
    } else if c == '<' {
        if next == '=' {
            Some((Token::Compare(Op::Le), 2))
        } else {
            Some((Token::Compare(Op::Lt), 1))
        }
    } else if c == '>' {
        if next == '=' {
            Some((Token::Compare(Op::Ge), 2))
        } else {
            Some((Token::Compare(Op::Gt), 1))
        }
    } else {
        None
    }
}

/// The word at the front, and how many characters it takes.
#[tactic(auto, using(crate::proofs::Runs::word_is_some))]
fn word(alloc: Global, chars: &[char]) -> Result<(Token, usize), OutOfMemory>
    requires { 0 < length chars.now }
    ensures value { IfOk result (λ p. p ≡ (word_token (take (prefix_len in_word chars.now) chars.now), prefix_len in_word chars.now)) }
    ensures within { starts_word (slice_index chars.now 0) ≡ true → IfOk result (λ p. (0 < p.1) × (p.1 ≤ length chars.now)) }
{
    let n = word_len(chars);
    Ok((word_token(alloc, &chars[..n])?, n))
}

/// The longest token at the front, and how many characters it takes.
#[tactic(auto, using(crate::proofs::First::no_first, crate::proofs::First::first_word, crate::proofs::First::first_number, crate::proofs::First::first_string, crate::proofs::First::first_sign))]
fn first_token(alloc: Global, chars: &[char]) -> Result<Option<(Token, usize)>, OutOfMemory>
    ensures value { IfOk result (λ r. r ≡ first_token chars.now) }
    ensures within { IfOk result (λ r. IfSome r (λ p. (0 < p.1) × (p.1 ≤ length chars.now))) }
{
    if chars.len() == 0 {
        return Ok(None);
    }
    let c = char_at(chars, 0);
    if starts_word(c) {
        return Ok(Some(word(alloc, chars)?));
    }
    if starts_number(c) {
        return number_token(alloc, chars);
    }
    if is_quote(c) {
        return string_token(alloc, c, &chars[1..]);
    }
    Ok(sign_token(c, char_at(chars, 1)))
}

/// The place behind the white space that stands at a place.
fn past_blanks(chars: &[char], at: usize) -> usize
    requires { at ≤ length chars.now }
    ensures value { result ≡ at + prefix_len is_blank (drop at chars.now) }
    ensures within { result ≤ length chars.now }
{
    at + blanks(&chars[at..])
}

/// The tokens, and the place up to which they go.
pub fn tokens(alloc: Global, chars: &[char]) -> Result<(Vec<Token>, usize), OutOfMemory>
    ensures value { IfOk result (λ r. AreRead chars.now r.0.items (drop r.1 chars.now)) }
    ensures within { IfOk result (λ r. r.1 ≤ length chars.now) }
{
    let mut tokens = Vec::new(alloc);
    let mut at = past_blanks(chars, 0);
    loop {
        match first_token(alloc, &chars[at..])? {
            None => return Ok((tokens, at)),
            Some((token, used)) => {
                tokens.push(token)?;
                at = past_blanks(chars, at + used);
            }
        }
    }
}
