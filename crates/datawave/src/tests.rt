//! The program over memory: scripts with their replies, failing objects, and words.
use super::run;
use crate::status::Status;
use crate::tests::scripts::{ALL, ORDER, Script};
use dw_event::{ConstUid, MarkUid, UidMaker};
use dw_key::{Bytes, OutOfMemory, Text};
use dw_outside::{MemKeeper, MemSink, MemSource};
use dw_pool::OpenGate;
use std::alloc::Global;
use std::test::Fail;
use std::thread::Threads;

mod faults;
mod groups;
mod laboratory;
mod lists;
mod scripts;
mod stops;

/// Which call of each object fails, counted from 1; 0 is none.
#[derive(Clone, Copy)]
struct Failing {
    take: u64,
    put: u64,
    store: u64,
}

const NEVER: Failing = Failing {
    take: 0,
    put: 0,
    store: 0,
};

fn words_of(alloc: Global, words: &[&str]) -> Result<Vec<Text>, OutOfMemory> {
    let mut texts = Vec::new(alloc);
    for word in words {
        texts.push(Text::of(alloc, word)?)?;
    }
    Ok(texts)
}

fn calls(alloc: Global, call: u64) -> Result<Vec<u64>, OutOfMemory> {
    let mut calls = Vec::new(alloc);
    calls.push(call)?;
    Ok(calls)
}

/// The status of a command over these bytes and an empty keeper, and what was written.
fn ends_of<R: Threads + Sync, U: UidMaker>(
    rt: &R,
    alloc: Global,
    uids: &U,
    words: &[&str],
    input: &[u8],
    failing: Failing,
) -> Result<(Status, Bytes), OutOfMemory> {
    let mut keeper = MemKeeper::new(alloc, calls(alloc, failing.store)?);
    ends_over(rt, alloc, uids, words, input, failing, &mut keeper)
}

/// The same over a keeper.
fn ends_over<R: Threads + Sync, U: UidMaker>(
    rt: &R,
    alloc: Global,
    uids: &U,
    words: &[&str],
    input: &[u8],
    failing: Failing,
    keeper: &mut MemKeeper,
) -> Result<(Status, Bytes), OutOfMemory> {
    let bytes = Bytes::of(alloc, input)?;
    let mut source = MemSource::new(bytes, 100, calls(alloc, failing.take)?);
    let mut sink = MemSink::new(alloc, 65_536, calls(alloc, failing.put)?)?;
    let words = words_of(alloc, words)?;
    let status = run(
        rt,
        alloc,
        words.as_slice(),
        &mut source,
        &mut sink,
        keeper,
        uids,
        &OpenGate,
    );
    Ok((status, Bytes::of(alloc, sink.bytes())?))
}

/// The same of `exec` over these lines and an empty keeper.
fn ends<R: Threads + Sync, U: UidMaker>(
    rt: &R,
    alloc: Global,
    uids: &U,
    input: &str,
    failing: Failing,
) -> Result<(Status, Bytes), OutOfMemory> {
    ends_of(rt, alloc, uids, &["exec"], input.as_bytes(), failing)
}

#[test]
fn scripts_have_their_replies(rt: HostRuntime) -> Result<(), Fail> {
    for script in ALL {
        let (status, written) = ends(&rt, rt.alloc(), &MarkUid, script.requests, NEVER)?;
        assert!(rt; status == Status::Done);
        assert!(rt;
            written.as_slice() == script.replies.as_bytes(),
            "{}",
            script.requests
        );
    }
    Ok(())
}

#[test]
fn nothing_comes_of_nothing(rt: HostRuntime) -> Result<(), Fail> {
    let (status, written) = ends(&rt, rt.alloc(), &MarkUid, "", NEVER)?;
    assert!(rt; status == Status::Done);
    assert!(rt; written.as_slice().is_empty());
    Ok(())
}

#[test]
fn one_uid_for_all_clashes(rt: HostRuntime) -> Result<(), Fail> {
    let requests =
        r#"{"op":"ingest","records":[{"type":"lab","date":"20240101","fields":{"A":"x"}},{"type":"lab","date":"20240101","fields":{"A":"y"}}]}"#;
    let replies =
        r#"{"bad":[{"at":1,"shard":"20240101_0","type":"lab","uid":"0000000000000000000000000000000000000000000000000000000000000000","why":"clash"}],"new":1,"ok":"ingest","repeat":0}
"#;
    let (status, written) = ends(&rt, rt.alloc(), &ConstUid, requests, NEVER)?;
    assert!(rt; status == Status::Done);
    assert!(rt; written.as_slice() == replies.as_bytes());
    Ok(())
}

/// The status of the script of `ORDER` where a call fails, and whether its text is a front of the replies.
fn breaks_off<R: Threads + Sync>(
    rt: &R,
    alloc: Global,
    failing: Failing,
) -> Result<(Status, bool), OutOfMemory> {
    let Script { requests, replies } = ORDER;
    let (status, written) = ends(rt, alloc, &MarkUid, requests, failing)?;
    Ok((status, replies.as_bytes().starts_with(written.as_slice())))
}

#[test]
fn failing_devices_end_the_run(rt: HostRuntime) -> Result<(), Fail> {
    for call in 1..6 {
        let (status, front) = breaks_off(
            &rt,
            rt.alloc(),
            Failing {
                take: call,
                ..NEVER
            },
        )?;
        assert!(rt; status == Status::ReadFault && front);
        let (status, front) = breaks_off(&rt, rt.alloc(), Failing { put: call, ..NEVER })?;
        assert!(rt; status == Status::WriteFault && front);
    }
    Ok(())
}

/// Whether these words are refused with nothing written.
fn are_refused<R: Threads + Sync>(
    rt: &R,
    alloc: Global,
    words: &[&str],
) -> Result<bool, OutOfMemory> {
    let (status, written) = ends_of(rt, alloc, &MarkUid, words, b"x", NEVER)?;
    Ok(status == Status::BadWords && written.as_slice().is_empty())
}

#[test]
fn other_words_are_refused(rt: HostRuntime) -> Result<(), Fail> {
    let none = are_refused(&rt, rt.alloc(), &[])?;
    assert!(rt; none);
    for word in ["help", "", "Exec", "ingest", "--form=csv"] {
        let refused = are_refused(&rt, rt.alloc(), &[word])?;
        assert!(rt; refused, "{word}");
    }
    for (word, next) in [
        ("exec", "exec"),
        ("exec", "--"),
        ("exec", "--form=csv"),
        ("ingest", "--form"),
        ("ingest", "--form="),
        ("ingest", "--form=xml"),
        ("ingest", "--form=CSV"),
        ("ingest", "csv"),
        ("ingest", "--"),
    ] {
        let refused = are_refused(&rt, rt.alloc(), &[word, next])?;
        assert!(rt; refused, "{word} {next}");
    }
    for (form, next) in [
        ("--form", ""),
        ("--form", "xml"),
        ("--form=csv", "--form=csv"),
        ("--form=json", "more"),
    ] {
        let refused = are_refused(&rt, rt.alloc(), &["ingest", form, next])?;
        assert!(rt; refused, "{form} {next}");
    }
    let more = are_refused(&rt, rt.alloc(), &["ingest", "--form", "csv", "more"])?;
    assert!(rt; more);
    Ok(())
}

#[test]
fn each_status_has_its_number_and_its_text(rt: HostRuntime) {
    for (status, code, text) in [
        (Status::Done, 0u8, "done"),
        (Status::BadWords, 2, "bad words"),
        (Status::ReadFault, 3, "read fault"),
        (Status::WriteFault, 4, "write fault"),
        (Status::StoreFault, 5, "store fault"),
        (Status::OutOfMemory, 7, "out of memory"),
        (Status::TooMuch, 8, "too much input"),
    ] {
        assert!(rt; status.code() == code, "{text}");
        assert!(rt; status.text() == text, "{text}");
    }
}
