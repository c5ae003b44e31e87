//! Limits at their last value and one past it.
use crate::{MAX_LINE, Why, read_line};
use std::alloc::Global;
use std::test::Fail;

/// A text many times, parted by commas.
fn listed(alloc: Global, text: &str, times: usize) -> Result<String, Fail> {
    let mut list = String::new(alloc);
    for at in 0..times {
        if at > 0 {
            list.push_str(",")?;
        }
        list.push_str(text)?;
    }
    Ok(list)
}

/// Why a line is no request, or None where it is one.
fn reason(alloc: Global, line: &str) -> Result<Option<Why>, Fail> {
    Ok(read_line(alloc, line.as_bytes())?.err())
}

/// Why a grant of a list is none.
fn grant(alloc: Global, names: &str) -> Result<Option<Why>, Fail> {
    let line = format!(in alloc; "{{\"op\":\"grant\",\"caller\":\"ann\",\"auths\":[{names}]}}")?;
    reason(alloc, line.as_str())
}

/// Why a create for a list of types is none.
fn create(alloc: Global, types: &str) -> Result<Option<Why>, Fail> {
    let line = format!(in alloc;
        "{{\"op\":\"create\",\"caller\":\"ann\",\"query\":\"A == 'x'\",\"from\":\"20240101\",\"to\":\"20240101\",\"types\":[{types}]}}"
    )?;
    reason(alloc, line.as_str())
}

#[test]
fn lists_have_their_limits(rt: HostRuntime) -> Result<(), Fail> {
    let alloc = rt.alloc();
    let names = listed(alloc, "\"S\"", 256)?;
    assert!(rt; grant(alloc, names.as_str())?.is_none());
    let names = listed(alloc, "\"S\"", 257)?;
    assert!(rt; grant(alloc, names.as_str())? == Some(Why::Auths));
    let types = listed(alloc, "\"lab\"", 64)?;
    assert!(rt; create(alloc, types.as_str())?.is_none());
    let types = listed(alloc, "\"lab\"", 65)?;
    assert!(rt; create(alloc, types.as_str())? == Some(Why::Types));
    Ok(())
}

#[test]
fn names_have_their_limits(rt: HostRuntime) -> Result<(), Fail> {
    let alloc = rt.alloc();
    let name = listed(alloc, "a", 256)?;
    let longest = format!(in alloc; "\"{name}a\"")?;
    assert!(rt; longest.len() == 514);
    assert!(rt; grant(alloc, longest.as_str())?.is_none());
    let longer = format!(in alloc; "\"{name}aa\"")?;
    assert!(rt; grant(alloc, longer.as_str())? == Some(Why::Auths));
    Ok(())
}

#[test]
fn ten_thousand_records_are_read(rt: HostRuntime) -> Result<(), Fail> {
    let alloc = rt.alloc();
    for (count, want) in [(10_000usize, None), (10_001, Some(Why::Records))] {
        let list = listed(alloc, "1", count)?;
        let line = format!(in alloc; "{{\"op\":\"ingest\",\"records\":[{list}]}}")?;
        assert!(rt; reason(alloc, line.as_str())? == want, "{count}");
        let rows = listed(alloc, "1\\n", count)?;
        let line = format!(in alloc; "{{\"op\":\"ingest\",\"csv\":\"@type\\n{rows}\"}}")?;
        assert!(rt; reason(alloc, line.as_str())? == want, "{count}");
    }
    Ok(())
}

#[test]
fn a_line_has_its_limit(rt: HostRuntime) -> Result<(), Fail> {
    let alloc = rt.alloc();
    let mut line = Vec::new(alloc);
    line.extend_from_slice(br#"{"op":"close","caller":"ann","number":1}"#)?;
    let rest = MAX_LINE.saturating_sub(line.len());
    let blanks = vec![in alloc; b' '; rest]?;
    line.extend_from_slice(blanks.as_slice())?;
    assert!(rt; read_line(alloc, line.as_slice())?.is_ok());
    line.push(b' ')?;
    assert!(rt; read_line(alloc, line.as_slice())?.err() == Some(Why::Line));
    Ok(())
}
