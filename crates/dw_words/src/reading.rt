ghost use Rattle.std.specs.Prelude.{◌≡◌, IfOk, IfSome, IsSome, IsTrue, is_some};
ghost use Rattle.dw_words.specs.Options.{options};
ghost use Rattle.dw_words.specs.Words.{audit_in, command, command_after, command_in, demo_in, exec_in, ingest_in, is_within, journal_named, serve_in, store_named};

use crate::command::Command;
use crate::given;
use crate::kind::{Kind, named_kind};
use crate::options::are_options;
use dw_base::{OutOfMemory, Text};
use std::alloc::Global;

fn is_exec(words: &[Text]) -> bool
    requires { IsSome (options words.now) }
    ensures { result ≡ is_some (exec_in words.now) }
{
    let workers = given::workers(words).is_some();
    let batches = given::has_batches(words);
    let place = given::has_place(words);
    workers && batches && place
}

fn is_ingest(words: &[Text]) -> bool
    requires { IsSome (options words.now) }
    ensures { result ≡ is_some (ingest_in words.now) }
{
    let form = given::form(words).is_some();
    let place = given::has_place(words);
    form && place
}

fn is_audit(words: &[Text]) -> bool
    requires { IsSome (options words.now) }
    ensures { result ≡ is_some (audit_in words.now) }
{
    given::has_place(words)
}

fn is_demo(words: &[Text]) -> bool
    requires { IsSome (options words.now) }
    ensures { result ≡ is_some (demo_in words.now) }
{
    let seed = given::number(words, "seed", 0, 4_294_967_295).is_some();
    let events = given::number(words, "events", 1, 100_000).is_some();
    let workers = given::workers(words).is_some();
    seed && events && workers
}

fn is_serve(words: &[Text]) -> bool
    requires { IsSome (options words.now) }
    ensures { result ≡ is_some (serve_in words.now) }
{
    let port = given::number(words, "port", 1, 65_535).is_some();
    let connections = given::number(words, "connections", 1, 1_000_000).is_some();
    let workers = given::workers(words).is_some();
    let batches = given::has_batches(words);
    let place = given::has_place(words);
    port && connections && workers && batches && place
}

/// Whether the values that words give are those of a command.
fn has_values(kind: Kind, words: &[Text]) -> bool
    requires { IsSome (options words.now) }
    ensures { result ≡ is_some (command_in words.now kind) }
{
    match kind {
        Kind::Exec => is_exec(words),
        Kind::Ingest => is_ingest(words),
        Kind::Audit => is_audit(words),
        Kind::Demo => is_demo(words),
        Kind::Serve => is_serve(words),
    }
}

fn exec(alloc: Global, words: &[Text]) -> Result<Option<Command>, OutOfMemory>
    requires { IsSome (options words.now) }
    ensures { IfOk result (λ c. c ≡ exec_in words.now) }
{
    let Some(workers) = given::workers(words) else {
        return Ok(None);
    };
    let Some(batches) = given::batches(alloc, words)? else {
        return Ok(None);
    };
    let Some(place) = given::place(alloc, words)? else {
        return Ok(None);
    };
    Ok(Some(Command::Exec {
        workers,
        batches,
        place,
    }))
}

fn ingest(alloc: Global, words: &[Text]) -> Result<Option<Command>, OutOfMemory>
    requires { IsSome (options words.now) }
    ensures { IfOk result (λ c. c ≡ ingest_in words.now) }
{
    let Some(form) = given::form(words) else {
        return Ok(None);
    };
    let Some(place) = given::place(alloc, words)? else {
        return Ok(None);
    };
    Ok(Some(Command::Ingest { form, place }))
}

fn audit(alloc: Global, words: &[Text]) -> Result<Option<Command>, OutOfMemory>
    requires { IsSome (options words.now) }
    ensures { IfOk result (λ c. c ≡ audit_in words.now) }
{
    let Some(place) = given::place(alloc, words)? else {
        return Ok(None);
    };
    Ok(Some(Command::Audit { place }))
}

fn demo(words: &[Text]) -> Option<Command>
    requires { IsSome (options words.now) }
    ensures { result ≡ demo_in words.now }
{
    let seed = given::number(words, "seed", 0, 4_294_967_295)?;
    let events = given::number(words, "events", 1, 100_000)?;
    let workers = given::workers(words)?;
    Some(Command::Demo {
        seed,
        events,
        workers,
    })
}

fn serve(alloc: Global, words: &[Text]) -> Result<Option<Command>, OutOfMemory>
    requires { IsSome (options words.now) }
    ensures { IfOk result (λ c. c ≡ serve_in words.now) }
{
    let Some(port) = given::number(words, "port", 1, 65_535) else {
        return Ok(None);
    };
    let Some(connections) = given::number(words, "connections", 1, 1_000_000) else {
        return Ok(None);
    };
    let Some(workers) = given::workers(words) else {
        return Ok(None);
    };
    let Some(batches) = given::batches(alloc, words)? else {
        return Ok(None);
    };
    let Some(place) = given::place(alloc, words)? else {
        return Ok(None);
    };
    Ok(Some(Command::Serve {
        port: port as u16,
        connections,
        workers,
        batches,
        place,
    }))
}

/// The command that options are.
fn read_values(alloc: Global, kind: Kind, words: &[Text]) -> Result<Option<Command>, OutOfMemory>
    requires { IsSome (options words.now) }
    ensures { IfOk result (λ c. c ≡ command_in words.now kind) }
{
    match kind {
        Kind::Exec => exec(alloc, words),
        Kind::Ingest => ingest(alloc, words),
        Kind::Audit => audit(alloc, words),
        Kind::Demo => Ok(demo(words)),
        Kind::Serve => serve(alloc, words),
    }
}

/// Whether the words after a command's name are those of the command.
fn is_command(kind: Kind, words: &[Text]) -> bool
    ensures { result ≡ is_some (command_after words.now kind) }
{
    are_options(kind, words) && has_values(kind, words)
}

/// The command by its name and the words after it.
fn read_after(alloc: Global, kind: Kind, words: &[Text]) -> Result<Option<Command>, OutOfMemory>
    ensures is { IfOk result (λ c. c ≡ command_after words.now kind) }
    ensures within { IfOk result (λ o. IfSome o (λ c. IsTrue (is_within c))) }
{
    if !are_options(kind, words) {
        return Ok(None);
    }
    read_values(alloc, kind, words)
}

/// Whether the words after the program's name are a command. Takes no memory.
pub fn are_command(words: &[Text]) -> bool
    ensures { result ≡ is_some (command words.now) }
{
    let Some((word, words)) = words.split_first() else {
        return false;
    };
    match named_kind(word.as_str()) {
        Some(kind) => is_command(kind, words),
        None => false,
    }
}

/// The command that the words after the program's name are, or None where they are none.
pub fn read_command(alloc: Global, words: &[Text]) -> Result<Option<Command>, OutOfMemory>
    ensures is { IfOk result (λ c. c ≡ command words.now) }
    ensures within { IfOk result (λ o. IfSome o (λ c. IsTrue (is_within c))) }
{
    let Some((word, words)) = words.split_first() else {
        return Ok(None);
    };
    match named_kind(word.as_str()) {
        Some(kind) => read_after(alloc, kind, words),
        None => Ok(None),
    }
}

/// The value of `--store`, where the words are a command that has it.
pub fn store_of(alloc: Global, words: &[Text]) -> Result<Option<Text>, OutOfMemory>
    ensures { IfOk result (λ s. s ≡ store_named words.now) }
{
    match read_command(alloc, words)? {
        Some(command) => Ok(command.into_place().into_store()),
        None => Ok(None),
    }
}

/// The value of `--journal`, where the words are a command that has it.
pub fn journal_of(alloc: Global, words: &[Text]) -> Result<Option<Text>, OutOfMemory>
    ensures { IfOk result (λ s. s ≡ journal_named words.now) }
{
    match read_command(alloc, words)? {
        Some(command) => Ok(command.into_place().into_journal()),
        None => Ok(None),
    }
}
