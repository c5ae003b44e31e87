//! A day of a laboratory: 200 rows of CSV as one request line, and queries of them.
use super::{NEVER, ends};
use crate::status::Status;
use dw_event::ShaUid;
use dw_key::OutOfMemory;
use std::alloc::Global;
use std::test::Fail;

/// The row of the sample of a number, up to who analysed it.
fn front(alloc: Global, number: u16) -> Result<String, OutOfMemory> {
    let day = number % 20 + 1;
    let site = if number % 2 == 0 {
        "North;Lake"
    } else {
        "South"
    };
    format!(in alloc; "lab,2024-03-{day:02},,S-{number},{site},Müller,")
}

/// What was found in it.
fn middle(alloc: Global, number: u16) -> Result<String, OutOfMemory> {
    let analyte = if number % 4 == 0 { "Lead" } else { "Nitrate" };
    let result = number % 50;
    format!(in alloc; "{analyte},{result}.5,ug/l,M1,")
}

/// The rest of the row.
fn back(alloc: Global, number: u16) -> Result<String, OutOfMemory> {
    let day = number % 20 + 1;
    let tags = if number % 10 == 0 {
        "retest;urgent"
    } else {
        "routine"
    };
    format!(in alloc; "2024-03-{day:02}T08:30:00+01:00,final,{tags},B7,\\n")
}

/// The line that takes the rows in.
fn ingest_line(alloc: Global) -> Result<String, OutOfMemory> {
    let mut line = String::new(alloc);
    line.push_str(
        "{\"op\":\"ingest\",\"csv\":\"@type,@date,@vis,SAMPLE,SITE,ANALYST,ANALYTE,RESULT,UNIT,METHOD,COLLECTED,STATUS,TAGS,BATCH,COMMENT\\n",
    )?;
    for number in 1..201u16 {
        line.push_str(front(alloc, number)?.as_str())?;
        line.push_str(middle(alloc, number)?.as_str())?;
        line.push_str(back(alloc, number)?.as_str())?;
    }
    line.push_str("\"}\n")?;
    Ok(line)
}

const DEFINITIONS: &str =
    r#"{"op":"define","field":"ANALYTE","kind":"TEXT","indexed":true,"reversed":false}
{"op":"define","field":"TAGS","kind":"TEXT","indexed":true,"reversed":false}
{"op":"define","field":"RESULT","kind":"NUMBER","indexed":true,"reversed":false}
{"op":"define","field":"COLLECTED","kind":"DATE","indexed":true,"reversed":false}
"#;

const QUERIES: &str =
    r#"{"op":"create","caller":"ann","query":"ANALYTE == 'LEAD' && TAGS == 'urgent'","from":"20240301","to":"20240331","size":100}
{"op":"page","caller":"ann","number":1,"page":1}
{"op":"create","caller":"ann","query":"((_Bounded_ = true) && (RESULT >= 25 && RESULT < 30))","from":"20240301","to":"20240331","size":7}
{"op":"page","caller":"ann","number":2,"page":1}
{"op":"page","caller":"ann","number":2,"page":2}
{"op":"page","caller":"ann","number":2,"page":3}
{"op":"create","caller":"ann","query":"COLLECTED == '2024-03-01T07:30:00Z'","from":"20240301","to":"20240331","size":100}
{"op":"page","caller":"ann","number":3,"page":1}
"#;

/// How many events a reply lists: each has two objects, in the object of the reply.
fn events_of(reply: &str) -> usize {
    let mut pieces = 0usize;
    for _ in reply.split('{') {
        pieces = pieces.saturating_add(1);
    }
    pieces.saturating_sub(2) / 2
}

#[test]
fn a_day_of_a_laboratory_is_taken_in_and_found(rt: HostRuntime) -> Result<(), Fail> {
    let alloc = rt.alloc();
    let line = ingest_line(alloc)?;
    let script = format!(in alloc; "{DEFINITIONS}{line}{line}{QUERIES}")?;
    let (status, written) = ends(&rt, rt.alloc(), &ShaUid, script.as_str(), NEVER)?;
    assert!(rt; status == Status::Done);
    let text = String::from_utf8_lossy(alloc, written.as_slice())?;
    let mut replies = Vec::new(alloc);
    for reply in text.split('\n') {
        replies.push(reply)?;
    }
    let replies = replies.as_slice();
    let first = "{\"bad\":[],\"new\":200,\"ok\":\"ingest\",\"repeat\":0}";
    let again = "{\"bad\":[],\"new\":0,\"ok\":\"ingest\",\"repeat\":200}";
    assert!(rt; replies.get(4).copied() == Some(first));
    assert!(rt; replies.get(5).copied() == Some(again));
    for (at, events) in [(7usize, 10usize), (9, 7), (10, 7), (11, 6), (13, 10)] {
        let reply = replies.get(at).copied().unwrap_or("");
        assert_eq!(&rt; events_of(reply), events, "at {reply}");
    }
    Ok(())
}
