//! Many events under one value, over a keeper that can be looked at afterwards.
use super::{NEVER, ends_over};
use crate::status::Status;
use dw_event::MarkUid;
use dw_key::OutOfMemory;
use dw_outside::{Keeper, MemKeeper};
use std::alloc::Global;
use std::test::Fail;
use std::thread::Threads;

const DEFINITION: &str =
    "{\"op\":\"define\",\"field\":\"A\",\"kind\":\"NOOP\",\"indexed\":true,\"reversed\":false}\n";

const CREATION: &str =
    "{\"op\":\"create\",\"caller\":\"ann\",\"query\":\"A == 'x'\",\"from\":\"20240101\",\"to\":\"20240101\",\"size\":100}\n";

/// The line that takes in the events of these numbers.
fn ingest_line(alloc: Global, first: u8, last: u8) -> Result<String, OutOfMemory> {
    let mut line = String::new(alloc);
    line.push_str("{\"op\":\"ingest\",\"records\":[")?;
    for number in first..last {
        let text = format!(in alloc;
            "{{\"type\":\"lab\",\"date\":\"20240101\",\"fields\":{{\"A\":\"x\",\"ID\":\"0-{number}\"}}}},"
        )?;
        line.push_str(text.as_str())?;
    }
    let text = format!(in alloc;
        "{{\"type\":\"lab\",\"date\":\"20240101\",\"fields\":{{\"A\":\"x\",\"ID\":\"0-{last}\"}}}}]}}\n"
    )?;
    line.push_str(text.as_str())?;
    Ok(line)
}

/// What a script writes over a keeper.
fn written<R: Threads + Sync>(
    rt: &R,
    alloc: Global,
    keeper: &mut MemKeeper,
    script: &str,
) -> Result<String, Fail> {
    let (status, written) = ends_over(
        rt,
        alloc,
        &MarkUid,
        &["exec"],
        script.as_bytes(),
        NEVER,
        keeper,
    )?;
    if status != Status::Done {
        return Err("another end")?;
    }
    Ok(String::from_utf8_lossy(alloc, written.as_slice())?)
}

/// How many events the last reply lists.
fn listed(text: &str) -> usize {
    text.split("\"uid\":").count().saturating_sub(1)
}

/// Whether table 1 has this content, or one of this length that begins with 2, in some cell.
fn has_list(keeper: &mut MemKeeper, length: usize, content: &[u8]) -> bool {
    match keeper.scan(1, b"", b"", 0) {
        Ok(cells) => cells.iter().any(|cell| cell.content.as_slice().len() == length
            && cell.content.as_slice().starts_with(content)),
        Err(_) => false,
    }
}

#[test]
fn fifty_events_are_a_list_and_one_more_a_count(rt: HostRuntime) -> Result<(), Fail> {
    let alloc = rt.alloc();
    let mut keeper = MemKeeper::without_reads(alloc);
    let fifty = ingest_line(alloc, 1, 50)?;
    let script = format!(in alloc; "{DEFINITION}{fifty}")?;
    let _ = written(&rt, rt.alloc(), &mut keeper, script.as_str())?;
    let list = has_list(&mut keeper, 1_603, b"\x02");
    assert!(rt; list);
    let one = ingest_line(alloc, 51, 51)?;
    let _ = written(&rt, rt.alloc(), &mut keeper, one.as_str())?;
    let count = has_list(&mut keeper, 10, b"\x02\x01\x00\x00\x00\x00\x00\x00\x00\x33");
    assert!(rt; count);
    Ok(())
}

#[test]
fn a_query_lists_what_was_there(rt: HostRuntime) -> Result<(), Fail> {
    let alloc = rt.alloc();
    let mut keeper = MemKeeper::without_reads(alloc);
    let fifty = ingest_line(alloc, 1, 50)?;
    let one = ingest_line(alloc, 51, 51)?;
    let first = "{\"op\":\"page\",\"caller\":\"ann\",\"number\":1,\"page\":1}\n";
    let script = format!(in alloc; "{DEFINITION}{fifty}{CREATION}{one}{first}")?;
    let text = written(&rt, rt.alloc(), &mut keeper, script.as_str())?;
    assert!(rt; listed(text.as_str()) == 50);
    let script = format!(in alloc; "{CREATION}{first}")?;
    let text = written(&rt, rt.alloc(), &mut keeper, script.as_str())?;
    assert!(rt; listed(text.as_str()) == 51);
    Ok(())
}
