//! Records that are taken in by groups.
use super::{Failing, NEVER, ends_of};
use crate::status::Status;
use dw_event::MarkUid;
use dw_key::OutOfMemory;
use std::alloc::Global;
use std::test::Fail;
use std::thread::Threads;

/// So many records of JSON, one a line, unlike one another, and the last one's line as it is given.
fn json_lines(alloc: Global, count: u16, last: &str) -> Result<String, OutOfMemory> {
    let mut text = String::new(alloc);
    for number in 0..count {
        let line = format!(in alloc;
            "{{\"type\":\"lab\",\"date\":\"20240101\",\"fields\":{{\"ID\":\"0-{number}\"}}}}\n"
        )?;
        text.push_str(line.as_str())?;
    }
    text.push_str(last)?;
    Ok(text)
}

/// A header, so many rows of CSV, unlike one another, and the last one's line as it is given.
fn csv_rows(alloc: Global, count: u16, last: &str) -> Result<String, OutOfMemory> {
    let mut text = String::new(alloc);
    text.push_str("@type,@date,id\n")?;
    for number in 0..count {
        let line = format!(in alloc; "lab,2024-01-01,0-{number}\n")?;
        text.push_str(line.as_str())?;
    }
    text.push_str(last)?;
    Ok(text)
}

/// What `ingest` writes over a text, which it reads to its end.
fn taken_in<R: Threads + Sync>(
    rt: &R,
    alloc: Global,
    form: &str,
    text: &str,
) -> Result<String, Fail> {
    let words = ["ingest", "--form", form];
    let (status, written) = ends_of(rt, alloc, &MarkUid, &words, text.as_bytes(), NEVER)?;
    if status != Status::Done {
        return Err("another end")?;
    }
    Ok(String::from_utf8_lossy(alloc, written.as_slice())?)
}

const WHOLE: &str = "{\"bad\":[],\"new\":1000,\"ok\":\"ingest\",\"repeat\":0}\n";

const FIRST_BAD: &str =
    "{\"bad\":[{\"at\":0,\"why\":\"shape\"}],\"new\":0,\"ok\":\"ingest\",\"repeat\":0}\n";

const THIRD_BAD: &str =
    "{\"bad\":[{\"at\":2,\"why\":\"shape\"}],\"new\":2,\"ok\":\"ingest\",\"repeat\":0}\n";

#[test]
fn a_thousand_lines_are_a_group(rt: HostRuntime) -> Result<(), Fail> {
    let text = json_lines(rt.alloc(), 1000, "[")?;
    let written = taken_in(&rt, rt.alloc(), "json", text.as_str())?;
    assert!(rt; written.as_str().strip_prefix(WHOLE) == Some(FIRST_BAD));
    Ok(())
}

#[test]
fn a_thousand_rows_are_a_group(rt: HostRuntime) -> Result<(), Fail> {
    let text = csv_rows(rt.alloc(), 1000, "lab")?;
    let written = taken_in(&rt, rt.alloc(), "csv", text.as_str())?;
    assert!(rt; written.as_str().strip_prefix(WHOLE) == Some(FIRST_BAD));
    Ok(())
}

#[test]
fn what_is_left_is_a_group(rt: HostRuntime) -> Result<(), Fail> {
    for (count, last, reply) in [
        (0u16, "", ""),
        (0, "\n", FIRST_BAD),
        (0, "{}", FIRST_BAD),
        (2, "\n", THIRD_BAD),
        (2, "[", THIRD_BAD),
    ] {
        let text = json_lines(rt.alloc(), count, last)?;
        let written = taken_in(&rt, rt.alloc(), "json", text.as_str())?;
        assert!(rt; written.as_str() == reply, "{count} {last}");
    }
    Ok(())
}

#[test]
fn what_is_left_of_rows_is_a_group(rt: HostRuntime) -> Result<(), Fail> {
    for (count, last, reply) in [
        (0u16, "", ""),
        (0, "\n\r\n", ""),
        (0, "lab,2024-01-01,x,y", FIRST_BAD),
        (2, "lab", THIRD_BAD),
    ] {
        let text = csv_rows(rt.alloc(), count, last)?;
        let written = taken_in(&rt, rt.alloc(), "csv", text.as_str())?;
        assert!(rt; written.as_str() == reply, "{count} {last}");
    }
    let nothing = taken_in(&rt, rt.alloc(), "csv", "")?;
    assert!(rt; nothing.as_str().is_empty());
    Ok(())
}

#[test]
fn each_mistake_is_told_with_its_place(rt: HostRuntime) -> Result<(), Fail> {
    let lines = r#"{"type":"lab","date":"20240101","fields":{"ID":"0-1"}}
{"type":"lab","date":"20240101","fields":{"ID":"0-1"}}
{"type":"lab","date":"20240101","fields":{"ID":"0-1","A":"x"}}
{"type":"fi","date":"20240101","fields":{"ID":"0-2"}}
{"type":"lab","date":"20240230","fields":{"ID":"0-3"}}
{"type":"lab","date":"20240101","fields":{"a b":"0-4"}}
{"type":"lab","date":"20240101","vis":"A&","fields":{"ID":"0-5"}}
{"type":"lab","date":"20240101","fields":{"ID":1.5}}"#;
    let reply =
        r#"{"bad":[{"at":2,"shard":"20240101_0","type":"lab","uid":"0000000000000000000000000000000000000000000000000000000000000001","why":"clash"},{"at":3,"why":"type"},{"at":4,"why":"date"},{"at":5,"why":"field"},{"at":6,"why":"visibility"},{"at":7,"why":"shape"}],"new":1,"ok":"ingest","repeat":1}
"#;
    let written = taken_in(&rt, rt.alloc(), "json", lines)?;
    assert_eq!(&rt; written.as_str(), reply);
    let rows =
        "\u{feff}@type,@date,@vis,id,TAGS\r\nlab,2024-01-01,A|B,0-1,\"x;y\\;z;\nw\"\r\nlab,2024-01-01\nlab,2024-02-30,,0-2,\nlab,2024-01-01,A&B|C,0-3,\n";
    let reply =
        r#"{"bad":[{"at":1,"why":"shape"},{"at":2,"why":"date"},{"at":3,"why":"visibility"}],"new":1,"ok":"ingest","repeat":0}
"#;
    let written = taken_in(&rt, rt.alloc(), "csv", rows)?;
    assert_eq!(&rt; written.as_str(), reply);
    Ok(())
}

#[test]
fn a_failing_input_ends_the_taking(rt: HostRuntime) -> Result<(), Fail> {
    let alloc = rt.alloc();
    let failing = Failing { take: 2, ..NEVER };
    let lines = json_lines(alloc, 3, "")?;
    let rows = csv_rows(alloc, 10, "")?;
    for (form, text) in [
        ("--form=json", lines.as_str()),
        ("--form=csv", rows.as_str()),
    ] {
        let words = ["ingest", form];
        let (status, written) = ends_of(&rt, alloc, &MarkUid, &words, text.as_bytes(), failing)?;
        assert!(rt;
            status == Status::ReadFault && written.as_slice().is_empty(),
            "{form}"
        );
    }
    Ok(())
}

#[test]
fn a_failing_output_ends_the_taking(rt: HostRuntime) -> Result<(), Fail> {
    let alloc = rt.alloc();
    let failing = Failing { put: 2, ..NEVER };
    let lines = json_lines(alloc, 1001, "")?;
    let words = ["ingest", "--form=json"];
    let (status, written) = ends_of(
        &rt,
        alloc,
        &MarkUid,
        &words,
        lines.as_str().as_bytes(),
        failing,
    )?;
    assert!(rt; status == Status::WriteFault);
    assert!(rt; written.as_slice() == WHOLE.as_bytes());
    Ok(())
}
