ghost use Rattle.std.specs.Prelude.{◌≡◌, IsSome, is_some, option_map};
ghost use Rattle.clap.specs.Lexer.{long_of, name_and_value as parts_at_equals, strip_byte};
ghost use Rattle.dw_words.specs.Options.{first_option as option_at_front, given_of, is_value as may_be_value, options, options_for, value_in};
ghost use Rattle.dw_words.specs.Words.{takes as is_taken};

use crate::kind::{Kind, takes};
use dw_base::Text;

/// What follows a hyphen.
fn after_hyphen(text: &str) -> Option<&str>
    ensures { option_map (λ s. s.now) result ≡ strip_byte 45 text.entry.now }
{
    text.strip_prefix('-')
}

/// A word that names an option, with its value where the word has it.
#[derive(Clone, Copy)]
struct Named<'a> {
    name: &'a str,
    value: Option<&'a str>,
}

/// `name` or `name=value`.
fn name_and_value(text: &str) -> Named<'_>
    ensures { (result.name.now, option_map (λ s. s.now) result.value) ≡ parts_at_equals text.entry.now }
{
    match text.split_once('=') {
        Some((name, value)) => Named {
            name,
            value: Some(value),
        },
        None => Named {
            name: text,
            value: None,
        },
    }
}

/// `--name` or `--name=value`.
fn read_name(word: &str) -> Option<Named<'_>>
    ensures { option_map (λ n. (n.name.now, option_map (λ s. s.now) n.value)) result ≡ long_of word.entry.now }
{
    let text = after_hyphen(after_hyphen(word)?)?;
    if text.is_empty() {
        return None;
    }
    Some(name_and_value(text))
}

/// Whether a text may be the value of an option: it is not empty, and does not begin with `-`.
fn is_value(text: &str) -> bool
    ensures { result ≡ may_be_value text.now }
{
    match text.as_bytes() {
        [first, ..] => *first != b'-',
        [] => false,
    }
}

/// An option, and the words after it.
#[derive(Clone, Copy)]
struct Given<'a> {
    name: &'a str,
    value: &'a str,
    rest: &'a [Text],
}

fn with_value<'a>(name: &'a str, value: &'a str, rest: &'a [Text]) -> Option<Given<'a>>
    ensures { option_map (λ g. (g.name.now, (g.value.now, g.rest.now))) result ≡ given_of name.entry.now value.entry.now rest.entry.now }
{
    if is_value(value) {
        Some(Given { name, value, rest })
    } else {
        None
    }
}

/// The first option of words, and the words after it; None where they begin with none.
fn first_option(words: &[Text]) -> Option<Given<'_>>
    ensures { option_map (λ g. (g.name.now, (g.value.now, g.rest.now))) result ≡ option_at_front words.entry.now }
{
    let (word, rest) = words.split_first()?;
    let named = read_name(word.as_str())?;
    match named.value {
        Some(value) => with_value(named.name, value, rest),
        None => {
            let (value, rest) = rest.split_first()?;
            with_value(named.name, value.as_str(), rest)
        }
    }
}

/// The value that words, which are options, give for a name.
pub fn value_of<'a>(words: &'a [Text], name: &str) -> Option<&'a str>
    ensures { IsSome (options words.entry.now) → option_map (λ s. s.now) result ≡ value_in name.now words.entry.now }
{
    let mut rest = words;
    while let Some(given) = first_option(rest) {
        if given.name == name {
            return Some(given.value);
        }
        rest = given.rest;
    }
    None
}

/// Whether words give options that the command takes, and none twice.
pub fn are_options(kind: Kind, words: &[Text]) -> bool
    ensures { result ≡ is_some (options_for (is_taken kind) words.now) }
{
    let mut rest = words;
    while let Some(given) = first_option(rest) {
        if !takes(kind, given.name) || value_of(given.rest, given.name).is_some() {
            return false;
        }
        rest = given.rest;
    }
    rest.is_empty()
}
