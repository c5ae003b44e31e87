use crate::{Command, Form, Place, are_command, journal_of, read_command, store_of};
use dw_base::{OutOfMemory, Text};
use std::alloc::{AllocError, Global};
use std::process::Abort;
use std::test::Fail;

/// The words of a line, parted by spaces; an empty line has none.
fn words_of(alloc: Global, line: &str) -> Result<Vec<Text>, OutOfMemory> {
    let mut words = Vec::new(alloc);
    if line.is_empty() {
        return Ok(words);
    }
    for word in line.split(' ') {
        words.push(Text::of(alloc, word)?)?;
    }
    Ok(words)
}

fn show_form(form: Form) -> &'static str {
    match form {
        Form::Json => "json",
        Form::Csv => "csv",
    }
}

fn show_place(alloc: Global, place: &Place) -> Result<String, AllocError> {
    match place {
        Place::Memory => format!(in alloc; "memory"),
        Place::Store(path) => format!(in alloc; "store {}", path.as_str()),
        Place::Journal(path) => format!(in alloc; "journal {}", path.as_str()),
    }
}

/// The command with its numbers in a fixed order, and where its tables are.
fn show(alloc: Global, command: &Command) -> Result<String, AllocError> {
    match command {
        Command::Exec {
            workers,
            batches,
            place,
        } => {
            let place = show_place(alloc, place)?;
            format!(in alloc; "exec {} {:?} {place}", workers.count(), batches.as_slice())
        }
        Command::Ingest { form, place } => {
            let place = show_place(alloc, place)?;
            format!(in alloc; "ingest {} {place}", show_form(*form))
        }
        Command::Audit { place } => {
            let place = show_place(alloc, place)?;
            format!(in alloc; "audit {place}")
        }
        Command::Demo {
            seed,
            events,
            workers,
        } => format!(in alloc; "demo {seed} {events} {}", workers.count()),
        Command::Serve {
            port,
            connections,
            workers,
            batches,
            place,
        } => {
            let place = show_place(alloc, place)?;
            format!(in alloc;
                "serve {port} {connections} {} {:?} {place}",
                workers.count(),
                batches.as_slice()
            )
        }
    }
}

fn read(alloc: Global, line: &str) -> Result<String, Fail> {
    let words = words_of(alloc, line)?;
    match read_command(alloc, words.as_slice())? {
        Some(command) => Ok(show(alloc, &command)?),
        None => Err(Fail::from("no command")),
    }
}

#[test]
fn words_are_read(rt: HostRuntime) -> Result<(), Fail> {
    let cases = [
        ("exec", "exec 4 [1000] memory"),
        ("exec --workers=016 --batches 1,2", "exec 16 [1, 2] memory"),
        (
            "exec --batches=0001000000 --workers 1",
            "exec 1 [1000000] memory",
        ),
        ("exec --store a.db", "exec 4 [1000] store a.db"),
        ("exec --store=a=b", "exec 4 [1000] store a=b"),
        ("exec --journal j --workers 9", "exec 9 [1000] journal j"),
        (
            "exec --batches 1,2,3,4,5,6,7,8,9,10,11,12,13,14,15,16",
            "exec 4 [1, 2, 3, 4, 5, 6, 7, 8, 9, 10, 11, 12, 13, 14, 15, 16] memory",
        ),
        ("ingest --form json", "ingest json memory"),
        ("ingest --store s --form=csv", "ingest csv store s"),
        ("audit", "audit memory"),
        ("audit --journal=j", "audit journal j"),
        ("demo --seed 0 --events 1", "demo 0 1 4"),
        (
            "demo --workers 2 --events 100000 --seed=4294967295",
            "demo 4294967295 100000 2",
        ),
        (
            "serve --port 1 --connections 1",
            "serve 1 1 4 [1000] memory",
        ),
        (
            "serve --connections=1000000 --batches 5 --port=65535 --journal j --workers 3",
            "serve 65535 1000000 3 [5] journal j",
        ),
    ];
    for (line, expected) in cases {
        assert_eq!(rt; read(rt.alloc(), line)?.as_str(), expected, "{line}");
    }
    Ok(())
}

/// Whether neither the test nor the reading takes the words for a command.
fn is_refused(alloc: Global, line: &str) -> Result<bool, Fail> {
    let words = words_of(alloc, line)?;
    let read = read_command(alloc, words.as_slice())?;
    Ok(read.is_none() && !are_command(words.as_slice()))
}

#[test]
fn other_words_are_refused(rt: HostRuntime) -> Result<(), Fail> {
    let lines = [
        "",
        "help",
        "--help",
        "Exec",
        "migrate",
        "exec --",
        "exec --workers 0",
        "exec --workers 17",
        "exec --workers 2 --workers 2",
        "exec --workers=2 --workers 3",
        "exec --workers +2",
        "exec --workers 00000000002",
        "exec --workers",
        "exec --workers --store a",
        "exec --workers= 2",
        "exec -workers 2",
        "exec --work 2",
        "exec --=2",
        "exec extra",
        "exec --help",
        "exec --store=",
        "exec --store=-a",
        "exec --store a --journal b",
        "exec --form csv",
        "exec --batches ,1",
        "exec --batches 1,",
        "exec --batches 1,,2",
        "exec --batches 0",
        "exec --batches 1000001",
        "exec --batches 1,2,3,4,5,6,7,8,9,10,11,12,13,14,15,16,17",
        "ingest",
        "ingest --form xml",
        "ingest --form csv --workers 2",
        "audit --workers 2",
        "audit audit",
        "demo --seed 1",
        "demo --events 1",
        "demo --seed 4294967296 --events 1",
        "demo --seed 1 --events 0",
        "demo --seed 1 --events 100001",
        "demo --seed 1 --events 1 --store a",
        "demo --seed 1 --events 1 --batches 5",
        "serve --port 1",
        "serve --connections 1",
        "serve --port 0 --connections 1",
        "serve --port 65536 --connections 1",
        "serve --port 1 --connections 0",
        "serve --port 1 --connections 1000001",
        "serve --port 1 --connections 1 --store a --journal b",
    ];
    for line in lines {
        assert!(rt; is_refused(rt.alloc(), line)?, "{line}");
    }
    Ok(())
}

/// The values of `--store` and of `--journal`.
fn paths(alloc: Global, line: &str) -> Result<(Option<Text>, Option<Text>), OutOfMemory> {
    let words = words_of(alloc, line)?;
    let store = store_of(alloc, words.as_slice())?;
    let journal = journal_of(alloc, words.as_slice())?;
    Ok((store, journal))
}

fn is_path(path: &Option<Text>, expected: &str) -> bool {
    match path {
        Some(path) => path.as_str() == expected,
        None => expected.is_empty(),
    }
}

#[test]
fn paths_are_given(rt: HostRuntime) -> Result<(), Fail> {
    let cases = [
        ("exec --store a.db", "a.db", ""),
        ("audit --journal=j", "", "j"),
        ("serve --port 1 --connections 1 --store=s", "s", ""),
        ("demo --seed 1 --events 1", "", ""),
        ("exec", "", ""),
        ("exec --store a --journal j", "", ""),
        ("help --store a", "", ""),
    ];
    for (line, store, journal) in cases {
        let found = paths(rt.alloc(), line)?;
        assert!(rt;
            is_path(&found.0, store) && is_path(&found.1, journal),
            "{line}"
        );
    }
    Ok(())
}

fn sizes(alloc: Global, line: &str) -> Result<Vec<u32>, Fail> {
    let words = words_of(alloc, line)?;
    match read_command(alloc, words.as_slice())? {
        Some(Command::Exec { batches, .. }) => Ok(batches.into_sizes().into_vec()),
        _ => Err(Fail::from("no exec")),
    }
}

#[test]
fn sizes_are_handed_out(rt: HostRuntime) -> Result<(), Fail> {
    let sizes = sizes(rt.alloc(), "exec --batches 3,1")?;
    assert_eq!(rt; sizes.as_slice(), [3, 1].as_slice());
    assert!(rt; are_command(words_of(rt.alloc(), "audit")?.as_slice()));
    Ok(())
}
