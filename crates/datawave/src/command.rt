ghost use Rattle.std.specs.Prelude.{◌≡◌, ◌∷◌, ℕ, List, codes, map, is_some, IfOk, IsSome};
ghost use Rattle.clap.specs.Simple.{app_of};
ghost use Rattle.datawave.specs.Words.{begins_exec, command, form_in, form_named, form_of, ingest_app};

use clap::Arg;
use dw_key::{OutOfMemory, Text};
use std::alloc::{AllocError, Global};

/// How records are written.
#[derive(Clone, Copy, Debug, PartialEq, Eq)]
pub enum Form {
    /// One record of JSON a line.
    Json,
    /// A text of CSV, of which the first row is the header.
    Csv,
}

/// What the program does.
#[derive(Clone, Copy, Debug, PartialEq, Eq)]
pub enum Command {
    /// Answers request lines.
    Exec,
    /// Takes records in, in groups.
    Ingest { form: Form },
}

/// `json` or `csv`.
fn named_form(name: &str) -> Option<Form>
    ensures { result ≡ form_named name.now }
{
    if name == "json" {
        return Some(Form::Json);
    }
    if name == "csv" {
        return Some(Form::Csv);
    }
    None
}

/// `--form=json` or `--form=csv`.
fn form_word(word: &str) -> Option<Form>
    ensures { result ≡ form_in word.now }
{
    if word == "--form=json" {
        return Some(Form::Json);
    }
    if word == "--form=csv" {
        return Some(Form::Csv);
    }
    None
}

fn form_words(words: &[Text]) -> Option<Form>
    ensures { result ≡ form_of words.now }
{
    match words {
        [word] => form_word(word.as_str()),
        [word, name] => if word.as_str() == "--form" {
            named_form(name.as_str())
        } else {
            None
        },
        _ => None,
    }
}

/// Whether the words after the program's name are a command: `exec`, or `ingest` with `--form`, as one word with its value
/// or as two. Takes no memory.
pub fn are_command(words: &[Text]) -> bool
    ensures { result ≡ is_some (command words.now) }
{
    let Some((word, words)) = words.split_first() else {
        return false;
    };
    if word.as_str() == "exec" {
        return words.is_empty();
    }
    word.as_str() == "ingest" && form_words(words).is_some()
}

/// Whether the first word is `exec`.
fn is_exec(words: &[Text]) -> bool
    ensures { result ≡ begins_exec words.now }
{
    match words {
        [word, ..] => word.as_str() == "exec",
        [] => false,
    }
}

/// The words of `ingest`, as they are read.
fn ingest_command<'a>(alloc: Global) -> Result<clap::Command<'a>, AllocError>
    ensures { IfOk result (λ c. app_of c ≡ ingest_app) }
{
    let form = Arg::new(alloc, "form").long("form");
    clap::Command::new(alloc, "ingest").arg(form)
}

/// The form that the words of `ingest` say, of which the first is the command.
fn read_form<'a>(alloc: Global, words: &'a [&'a str]) -> Result<Option<Form>, OutOfMemory>
    requires { (ws : List (List ℕ)) × (map (λ w. w.now) words.now ≡ codes "ingest" ∷ ws) × IsSome (form_of ws) }
    ensures { IfOk result (λ o. (ws : List (List ℕ)) → map (λ w. w.now) words.entry.now ≡ codes "ingest" ∷ ws → o ≡ form_of ws) }
{
    match ingest_command(alloc)?.try_get_matches_from(words) {
        Ok(matches) => match matches.get_str("form") {
            Some(name) => Ok(named_form(name)),
            None => Ok(None),
        },
        Err(_) => Err(OutOfMemory),
    }
}

/// The words as texts that are lent.
fn lend<'a>(alloc: Global, words: &'a [Text]) -> Result<Vec<&'a str>, OutOfMemory>
    ensures { IfOk result (λ v. map (λ w. w.now) v.items ≡ words.entry.now) }
{
    let mut texts = Vec::new(alloc);
    for word in words {
        texts.push(word.as_str())?;
    }
    Ok(texts)
}

/// The command that words are.
pub fn read_command(alloc: Global, words: &[Text]) -> Result<Option<Command>, OutOfMemory>
    requires { IsSome (command words.now) }
    ensures { IfOk result (λ o. o ≡ command words.now) }
{
    if is_exec(words) {
        return Ok(Some(Command::Exec));
    }
    let texts = lend(alloc, words)?;
    match read_form(alloc, texts.as_slice())? {
        Some(form) => Ok(Some(Command::Ingest { form })),
        None => Ok(None),
    }
}
