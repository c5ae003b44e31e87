use crate::{BadRecord, RecordError, from_csv, from_json};
use csv::{ByteRecord, ReaderBuilder};
use dw_event::{Record, canonical};
use serde_json::Value;
use std::alloc::Global;
use std::process::Abort;
use std::test::Fail;

/// The record of a text of JSON.
fn read_text(alloc: Global, text: &str) -> Result<Result<Record, RecordError>, Fail> {
    let value = Value::from_str(alloc, text)?;
    Ok(from_json(alloc, &value))
}

/// The record of a text of CSV, of which the first row is the header and the second the record.
fn read_rows(alloc: Global, text: &[u8]) -> Result<Result<Record, RecordError>, Fail> {
    let rdr = ReaderBuilder::new()
        .has_headers(false)
        .flexible(true)
        .from_reader(alloc, text);
    let mut rows: Vec<ByteRecord> = Vec::new(alloc);
    for row in rdr.into_byte_records() {
        rows.push(row.ok().ok_or("no row")?)?;
    }
    match rows.as_slice() {
        [header, row] => Ok(from_csv(alloc, header, row)),
        _ => Err(Fail::from("not two rows")),
    }
}

/// The canonical bytes of the record, with `|` for each byte 0, or the name of its rule.
fn shown(alloc: Global, read: &Result<Record, RecordError>) -> Result<String, Fail> {
    match read {
        Ok(rec) => {
            let mut text = String::new(alloc);
            let bytes = canonical(alloc, rec)?;
            for part in String::from_utf8_lossy(alloc, bytes.as_slice())?.split('\0') {
                text.push_str(part)?;
                text.push('|')?;
            }
            Ok(text)
        }
        Err(RecordError::Bad(rule)) => Ok(format!(in alloc; "{rule:?}")?),
        Err(RecordError::OutOfMemory) => Err(Fail::from("out of memory")),
    }
}

#[test]
fn json_is_read_or_refused_by_the_first_rule(rt: HostRuntime) -> Result<(), Fail> {
    let alloc = rt.alloc();
    let cases = [
        (
            r#"{"type":"lab","date":"20240101","fields":{"A":"x","ID":"0-1"}}"#,
            "lab|20240101|A|x||ID|0-1|||",
        ),
        (
            r#"{"date":"2024-01-01","fields":{"ID":"0-1","B":"y","A":"x"},"type":"lab"}"#,
            "lab|20240101|A|x||B|y||ID|0-1|||",
        ),
        (
            r#"{"type":"lab","date":"20240229","fields":{"b":["2","1","2"],"n":[7,-2,18446744073709551615],"t":[true,false,null,""]}}"#,
            "lab|20240229|B|1||B|2||N|-2||N|18446744073709551615||N|7||T|false||T|true|||",
        ),
        (
            r#"{"type":"lab","date":"20240101","vis":"A&B","fields":{"x":["1",{"value":2},{"value":true,"vis":"C"},{"value":"","vis":""}]}}"#,
            "lab|20240101|X|1|A&B|X|2|A&B|X|true|C||",
        ),
        (
            r#"{"type":"lab","date":"20240101","fields":{"a":"1","A":"2","a":"3"}}"#,
            "lab|20240101|A|2||A|3|||",
        ),
        (
            r#"{"type":"fi","type":"lab","date":"20240101","fields":{"A":{"value":1,"value":"2"}}}"#,
            "lab|20240101|A|2|||",
        ),
        // Each rule alone, and with each later one.
        (r#"[]"#, "Shape"),
        (r#"{"type":"lab","date":"20240101"}"#, "Shape"),
        (
            r#"{"type":"lab","date":20240101,"fields":{"A":"x"}}"#,
            "Shape",
        ),
        (
            r#"{"type":"lab","date":"20240101","fields":{"A":"x"},"uid":1}"#,
            "Shape",
        ),
        (
            r#"{"type":"lab","date":"20240101","fields":{"A":"x"},"vis":null}"#,
            "Shape",
        ),
        (r#"{"type":"lab","date":"20240101","fields":{}}"#, "Shape"),
        (
            r#"{"type":"lab","date":"20240101","fields":{"A":[],"B":null,"C":""}}"#,
            "Shape",
        ),
        (
            r#"{"type":"lab","date":"20240101","fields":{"A":[["x"]]}}"#,
            "Shape",
        ),
        (
            r#"{"type":"lab","date":"20240101","fields":{"A":1.5}}"#,
            "Shape",
        ),
        (
            r#"{"type":"lab","date":"20240101","fields":{"A":1e2}}"#,
            "Shape",
        ),
        (
            r#"{"type":"lab","date":"20240101","fields":{"A":18446744073709551616}}"#,
            "Shape",
        ),
        (
            r#"{"type":"lab","date":"20240101","fields":{"A":{"value":null}}}"#,
            "Shape",
        ),
        (
            r#"{"type":"lab","date":"20240101","fields":{"A":{"vis":"B"}}}"#,
            "Shape",
        ),
        (
            r#"{"type":"lab","date":"20240101","fields":{"A":{"value":"x","of":1}}}"#,
            "Shape",
        ),
        (
            r#"{"type":"fi","date":"20240230","fields":{"1":{"value":"\u0000","vis":"&"},"B":{}}}"#,
            "Shape",
        ),
        (
            r#"{"type":"fi","date":"20240101","fields":{"A":"x"}}"#,
            "Dtype",
        ),
        (
            r#"{"type":"a b","date":"20240230","fields":{"1":{"value":"\u0000","vis":"&"}}}"#,
            "Dtype",
        ),
        (
            r#"{"type":"lab","date":"2024-1-1","fields":{"A":"x"}}"#,
            "Date",
        ),
        (
            r#"{"type":"lab","date":"19000229","fields":{"A":"x"}}"#,
            "Date",
        ),
        (
            r#"{"type":"lab","date":"20230229","fields":{"1":{"value":"\u0000","vis":"&"}}}"#,
            "Date",
        ),
        (
            r#"{"type":"lab","date":"20000229","fields":{"1":"x"}}"#,
            "Field",
        ),
        (
            r#"{"type":"lab","date":"20240101","fields":{"a b":null,"A":"x"}}"#,
            "Field",
        ),
        (
            r#"{"type":"lab","date":"20240101","fields":{"é":{"value":"\u0000","vis":"&"}}}"#,
            "Field",
        ),
        (
            r#"{"type":"lab","date":"20240101","vis":"A&B|C","fields":{"A":"x"}}"#,
            "Visibility",
        ),
        (
            r#"{"type":"lab","date":"20240101","vis":"&","fields":{"A":{"value":"x","vis":""}}}"#,
            "Visibility",
        ),
        (
            r#"{"type":"lab","date":"20240101","fields":{"A":["x",{"value":"","vis":"\"\u0000\""}]}}"#,
            "Visibility",
        ),
        (
            r#"{"type":"lab","date":"20240101","fields":{"A":{"value":"\u0000","vis":"&"}}}"#,
            "Visibility",
        ),
        (
            r#"{"type":"lab","date":"20240101","fields":{"A":["x","\u0000"]}}"#,
            "Value",
        ),
    ];
    for (text, want) in cases {
        let read = read_text(alloc, text)?;
        let shown = shown(alloc, &read)?;
        assert_eq!(&rt; shown.as_str(), want, "at {text}");
    }
    Ok(())
}

#[test]
fn csv_is_read_or_refused_by_the_first_rule(rt: HostRuntime) -> Result<(), Fail> {
    let alloc = rt.alloc();
    let cases: [(&[u8], &str); 31] = [
        (
            b"@type,@date,@vis,name,TAGS\nlab,2024-03-01,A|B,\"Smith, J\",\"x;y\\;z;\"\n",
            "lab|20240301|NAME|Smith, J|A|B|TAGS|x|A|B|TAGS|y;z|A|B||",
        ),
        (
            b"@date,a,@type,A\r\n20240101,1,lab,2;1\r\n",
            "lab|20240101|A|1||A|2|||",
        ),
        (
            b"@type,@date,A\nlab,20240101,\"x\ny\"\n",
            "lab|20240101|A|x\ny|||",
        ),
        (
            b"@type,@date,A\nlab,20240101,a\\b\\\\;\\",
            "lab|20240101|A|\\||A|a\\b\\|||",
        ),
        (
            b"\xef\xbb\xbf@type,@date,A\nlab,20240101,M\xc3\xbcller",
            "lab|20240101|A|M\u{fc}ller|||",
        ),
        (b"@type,@date,A\nlab,2024-03-01\n", "Shape"),
        (b"@type,@date,A\nlab,2024-03-01,x,y\n", "Shape"),
        (b"@date,A\n20240101,x\n", "Shape"),
        (b"@type,@type,@date,A\nlab,lab,20240101,x\n", "Shape"),
        (b"@type,@date,@date,A\nlab,20240101,20240101,x\n", "Shape"),
        (b"@type,@date,@vis,@vis,A\nlab,20240101,,,x\n", "Shape"),
        (b"@type,@date,@uid,A\nlab,20240101,1,x\n", "Shape"),
        (b"@type,@date\nlab,20240101\n", "Shape"),
        (b"@type,@date,A,B\nlab,20240101,;;,\n", "Shape"),
        (b"@type,@date,@vis,a b\nfi,20240230,&,\n", "Shape"),
        (b"@type,@date,A\nfi,20240101,x\n", "Dtype"),
        (b"@type,@date,A\n\xff,20240101,x\n", "Dtype"),
        (b"@type,@date,@vis,a b\nfi,2024-02-30,&,\xff\n", "Dtype"),
        (b"@type,@date,A\nlab,2024-02-30,x\n", "Date"),
        (b"@type,@date,A\nlab,\xff,x\n", "Date"),
        (b"@type,@date,@vis,a b\nlab,19000229,&,\xff\n", "Date"),
        (b"@type,@date,a b\nlab,20000229,x\n", "Field"),
        (b"@type,@date,a b,A\nlab,20240101,,x\n", "Field"),
        (b"@type,@date,\xff,A\nlab,20240101,,x\n", "Field"),
        (b"@type,@date,@vis,a b\nlab,20240101,&,\xff\n", "Field"),
        (b"@type,@date,@vis,A\nlab,20240101,A&B|C,x\n", "Visibility"),
        (
            b"@type,@date,@vis,A\nlab,20240101,\"\"\"\xff\"\"\",x\n",
            "Visibility",
        ),
        (b"@type,@date,@vis,A\nlab,20240101,&,\xff\n", "Visibility"),
        (b"@type,@date,A\nlab,20240101,x;\xff\n", "Value"),
        (b"@type,@date,A\nlab,20240101,\xff\n", "Value"),
        (b"@type,@date,A\nlab,20240101,x\0\n", "Value"),
    ];
    for (text, want) in cases {
        let read = read_rows(alloc, text)?;
        let shown = shown(alloc, &read)?;
        assert_eq!(&rt; shown.as_str(), want);
    }
    Ok(())
}

/// A text of one letter, so many times.
fn filled(alloc: Global, letter: &str, times: usize) -> Result<String, Fail> {
    let mut text = String::new(alloc);
    for _ in 0..times {
        text.push_str(letter)?;
    }
    Ok(text)
}

/// The record of a type, one name and the items of a list.
fn listed(
    alloc: Global,
    dtype: &str,
    name: &str,
    items: &str,
) -> Result<Result<Record, RecordError>, Fail> {
    let text = format!(in alloc;
        "{{\"type\":\"{dtype}\",\"date\":\"20240101\",\"fields\":{{\"{name}\":[{items}]}}}}"
    )?;
    read_text(alloc, text.as_str())
}

/// The numbers from 0 on, each twice, parted by commas.
fn numbers(alloc: Global, count: u32) -> Result<String, Fail> {
    let mut text = String::new(alloc);
    for n in 0..count {
        text.push_str(format!(in alloc; "{n},{n},")?.as_str())?;
    }
    text.push_str("0")?;
    Ok(text)
}

/// Fifteen values of 4,096 bytes, and one of so many.
fn long_values(alloc: Global, last: usize) -> Result<String, Fail> {
    let mut text = String::new(alloc);
    for letter in [
        "a", "b", "c", "d", "e", "f", "g", "h", "i", "j", "k", "l", "m", "n", "o",
    ] {
        let value = filled(alloc, letter, 4_096)?;
        text.push_str(format!(in alloc; "\"{value}\",")?.as_str())?;
    }
    let value = filled(alloc, "z", last)?;
    text.push_str(format!(in alloc; "\"{value}\"")?.as_str())?;
    Ok(text)
}

fn expect_read(
    rt: &impl Abort,
    read: Result<Record, RecordError>,
    cells: usize,
) -> Result<(), Fail> {
    assert_eq!(rt; read.ok().ok_or("refused")?.cells.as_slice().len(), cells);
    Ok(())
}

fn expect_bad(
    rt: &impl Abort,
    read: Result<Record, RecordError>,
    rule: BadRecord,
) -> Result<(), Fail> {
    match read {
        Err(RecordError::Bad(broken)) => assert_eq!(rt; broken, rule),
        _ => return Err(Fail::from("not refused")),
    }
    Ok(())
}

#[test]
fn limits_hold_at_their_last_value(rt: HostRuntime) -> Result<(), Fail> {
    let alloc = rt.alloc();
    let name = filled(alloc, "a", 64)?;
    let long = filled(alloc, "a", 65)?;
    expect_read(&rt, listed(alloc, name.as_str(), "A", "1")?, 1)?;
    expect_bad(
        &rt,
        listed(alloc, long.as_str(), "A", "1")?,
        BadRecord::Dtype,
    )?;
    expect_read(&rt, listed(alloc, "lab", name.as_str(), "1")?, 1)?;
    expect_bad(
        &rt,
        listed(alloc, "lab", long.as_str(), "1")?,
        BadRecord::Field,
    )?;
    expect_read(
        &rt,
        listed(alloc, "lab", "A", numbers(alloc, 4_096)?.as_str())?,
        4_096,
    )?;
    expect_bad(
        &rt,
        listed(alloc, "lab", "A", numbers(alloc, 4_097)?.as_str())?,
        BadRecord::TooLarge,
    )?;
    // 13 bytes of the type and the date, and for each value 4 and its own.
    expect_read(
        &rt,
        listed(alloc, "lab", "A", long_values(alloc, 4_019)?.as_str())?,
        16,
    )?;
    expect_bad(
        &rt,
        listed(alloc, "lab", "A", long_values(alloc, 4_020)?.as_str())?,
        BadRecord::TooLarge,
    )?;
    expect_bad(
        &rt,
        listed(alloc, "lab", "A", long_values(alloc, 4_097)?.as_str())?,
        BadRecord::Value,
    )?;
    Ok(())
}

#[test]
fn a_value_may_stand_many_times(rt: HostRuntime) -> Result<(), Fail> {
    let alloc = rt.alloc();
    let same = filled(alloc, "1,", 20_000)?;
    let items = format!(in alloc; "{same}2")?;
    expect_read(&rt, listed(alloc, "lab", "A", items.as_str())?, 2)
}
