//! Runs whose keeper fails at one call.
use super::{Failing, NEVER, ends};
use crate::status::Status;
use crate::tests::scripts::{PLAIN, SNAPSHOT, Script};
use dw_event::MarkUid;
use dw_key::OutOfMemory;
use std::alloc::Global;
use std::test::Fail;
use std::thread::Threads;

const STORE_FAULT: &str = "{\"error\":\"storeFault\"}";

/// Which line of a text says that the store failed.
fn fault_at(text: &str) -> Option<usize> {
    text.split('\n').position(|line| line == STORE_FAULT)
}

/// The text without the lines that say so.
fn without_faults(alloc: Global, text: &str) -> Result<String, OutOfMemory> {
    let mut rest = String::new(alloc);
    for line in text.split('\n') {
        if line != STORE_FAULT && !line.is_empty() {
            rest.push_str(line)?;
            rest.push('\n')?;
        }
    }
    Ok(rest)
}

/// The lines, with the one at this place standing twice.
fn doubled(alloc: Global, text: &str, at: usize) -> Result<String, OutOfMemory> {
    let mut lines = String::new(alloc);
    for (number, line) in text.split('\n').enumerate() {
        lines.push_str(line)?;
        lines.push('\n')?;
        if number == at {
            lines.push_str(line)?;
            lines.push('\n')?;
        }
    }
    Ok(lines)
}

/// What `exec` writes where this call of the keeper fails.
fn written<R: Threads + Sync>(
    rt: &R,
    alloc: Global,
    requests: &str,
    store: u64,
) -> Result<(Status, String), OutOfMemory> {
    let (status, written) = ends(rt, alloc, &MarkUid, requests, Failing { store, ..NEVER })?;
    Ok((status, String::from_utf8_lossy(alloc, written.as_slice())?))
}

/// Whether a fault of this call stops its own request alone: asked again, it has its reply.
fn stops_one_request<R: Threads + Sync>(
    rt: &R,
    alloc: Global,
    script: Script,
    store: u64,
) -> Result<bool, OutOfMemory> {
    let (status, text) = written(rt, alloc, script.requests, store)?;
    if status == Status::StoreFault {
        return Ok(text.as_str().is_empty());
    }
    let Some(at) = fault_at(text.as_str()) else {
        return Ok(status == Status::Done && text.as_str() == script.replies);
    };
    let requests = doubled(alloc, script.requests, at)?;
    let (status, text) = written(rt, alloc, requests.as_str(), store)?;
    let rest = without_faults(alloc, text.as_str())?;
    Ok(status == Status::Done && rest.as_str() == script.replies)
}

#[test]
fn a_fault_of_the_store_stops_one_request(rt: HostRuntime) -> Result<(), Fail> {
    for call in 1..61 {
        let one = stops_one_request(&rt, rt.alloc(), SNAPSHOT, call)?;
        assert!(rt; one, "call {call}");
    }
    Ok(())
}

#[test]
fn a_keeper_that_fails_at_once_ends_the_run(rt: HostRuntime) -> Result<(), Fail> {
    let (status, text) = written(&rt, rt.alloc(), PLAIN.requests, 1)?;
    assert!(rt; status == Status::StoreFault);
    assert!(rt; text.as_str().is_empty());
    Ok(())
}

#[test]
fn a_fault_of_the_store_is_told(rt: HostRuntime) -> Result<(), Fail> {
    let mut told = 0u8;
    for call in 2..20 {
        let (_, text) = written(&rt, rt.alloc(), PLAIN.requests, call)?;
        if fault_at(text.as_str()).is_some() {
            told = told.saturating_add(1);
        }
    }
    assert!(rt; 3 <= told);
    Ok(())
}
