//! The end of a run that is too long to be shown whole.
use crate::command::{Command, Form};
use crate::exchange::Broken;
use crate::intake::{Talk, end_of, exchange_all};
use crate::status::Status;
use crate::tools::Tools;
use crate::usual_settings;
use crate::work::Work;
use dw_desk::Desk;
use dw_event::MarkUid;
use dw_key::Bytes;
use dw_outside::{MemKeeper, MemSink, MemSource};
use dw_pool::OpenGate;
use std::alloc::Global;
use std::test::Fail;
use std::thread::Threads;

const JSON: Command = Command::Ingest { form: Form::Json };

const CSV: Command = Command::Ingest { form: Form::Csv };

/// How a run ends that has taken all but four bytes of what it may take, where these are left.
fn ends_after<R: Threads + Sync>(
    rt: &R,
    alloc: Global,
    work: Work,
    left: &str,
) -> Result<(Status, Bytes), Fail> {
    let most = work.most();
    let total = most.saturating_sub(4);
    let mut source = MemSource::new(Bytes::of(alloc, left.as_bytes())?, 16, Vec::new(alloc));
    let mut sink = MemSink::new(alloc, 100, Vec::new(alloc))?;
    let mut keeper = MemKeeper::without_reads(alloc);
    let Ok(desk) = Desk::load(alloc, &mut keeper) else {
        return Err("no desk")?;
    };
    let tools = Tools {
        rt,
        alloc,
        uids: &MarkUid,
        gate: &OpenGate,
        settings: usual_settings(alloc)?,
    };
    let mut talk = Talk {
        desk,
        work,
        most,
        total,
    };
    let mut buffer = [0u8; 8];
    let buffer = buffer.as_mut_slice();
    let status = exchange_all(
        &tools,
        &mut keeper,
        &mut talk,
        buffer,
        &mut source,
        &mut sink,
    );
    Ok((status, Bytes::of(alloc, sink.bytes())?))
}

#[test]
fn a_byte_too_many_ends_the_run(rt: HostRuntime) -> Result<(), Fail> {
    let shape = "{\"error\":\"malformed\",\"why\":\"shape\"}\n";
    let json = "{\"error\":\"malformed\",\"why\":\"json\"}\n";
    let (status, written) = ends_after(
        &rt,
        rt.alloc(),
        Work::of(rt.alloc(), Command::Exec),
        "[]\n[",
    )?;
    assert!(rt; status == Status::Done);
    assert!(rt; written.as_slice().len() == shape.len() + json.len());
    let (status, written) = ends_after(
        &rt,
        rt.alloc(),
        Work::of(rt.alloc(), Command::Exec),
        "[]\n[]",
    )?;
    assert!(rt; status == Status::TooMuch);
    assert!(rt; written.as_slice() == shape.as_bytes());
    Ok(())
}

#[test]
fn a_byte_too_many_ends_the_taking(rt: HostRuntime) -> Result<(), Fail> {
    let shape =
        "{\"bad\":[{\"at\":0,\"why\":\"shape\"}],\"new\":0,\"ok\":\"ingest\",\"repeat\":0}\n";
    let (status, written) = ends_after(&rt, rt.alloc(), Work::of(rt.alloc(), JSON), "[]\n[")?;
    assert!(rt; status == Status::Done && !written.as_slice().is_empty());
    let (status, written) = ends_after(&rt, rt.alloc(), Work::of(rt.alloc(), JSON), "[]\n[]")?;
    assert!(rt; status == Status::TooMuch && written.as_slice().is_empty());
    let (status, written) = ends_after(&rt, rt.alloc(), Work::of(rt.alloc(), CSV), "a\nb\n")?;
    assert!(rt; status == Status::Done && written.as_slice() == shape.as_bytes());
    let (status, written) = ends_after(&rt, rt.alloc(), Work::of(rt.alloc(), CSV), "a\nb\nc")?;
    assert!(rt; status == Status::TooMuch && written.as_slice().is_empty());
    Ok(())
}

#[test]
fn want_of_memory_ends_the_run(rt: HostRuntime) {
    assert!(rt; end_of(Broken::OutOfMemory) == Status::OutOfMemory);
}
