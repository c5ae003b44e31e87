use crate::{Reply, Request, read_line, write_reply};
use dw_event::BadRecord;
use std::alloc::Global;
use std::test::Fail;

mod limits;
mod routes;

/// The text that answers a line that is no request, without its line feed, or `read`.
fn refusal(alloc: Global, line: &str) -> Result<String, Fail> {
    match read_line(alloc, line.as_bytes())? {
        Ok(_) => Ok(String::from_str(alloc, "read")?),
        Err(why) => {
            let text = write_reply(alloc, &Reply::Malformed { why })?;
            let bytes = text.as_slice();
            Ok(String::from_utf8_lossy(alloc, bytes)?)
        }
    }
}

#[test]
fn the_first_reason_is_told(rt: HostRuntime) -> Result<(), Fail> {
    let alloc = rt.alloc();
    let cases = [
        (r#"{"op":"#, "{\"error\":\"malformed\",\"why\":\"json\"}\n"),
        (
            r#"{"op":"page","caller":"ann","number":1e999,"page":1}"#,
            "{\"error\":\"malformed\",\"why\":\"json\"}\n",
        ),
        (r#"[]"#, "{\"error\":\"malformed\",\"why\":\"shape\"}\n"),
        (
            r#"{"op":"other"}"#,
            "{\"error\":\"malformed\",\"why\":\"shape\"}\n",
        ),
        (
            r#"{"op":"define","field":"1","kind":"X","indexed":1,"reversed":true}"#,
            "{\"error\":\"malformed\",\"why\":\"shape\"}\n",
        ),
        (
            r#"{"op":"define","field":"1","kind":"X","indexed":false,"reversed":true}"#,
            "{\"error\":\"malformed\",\"why\":\"field\"}\n",
        ),
        (
            r#"{"op":"define","field":"a","kind":"noop","indexed":true,"reversed":true}"#,
            "{\"error\":\"malformed\",\"why\":\"kind\"}\n",
        ),
        (
            r#"{"op":"define","field":"a","kind":"NOOP","indexed":false,"reversed":true}"#,
            "{\"error\":\"malformed\",\"why\":\"kind\"}\n",
        ),
        (
            r#"{"op":"define","field":"a","kind":"NOOP","indexed":true,"reversed":true}"#,
            "read",
        ),
        (
            r#"{"op":"grant","caller":"a n","auths":["",1]}"#,
            "{\"error\":\"malformed\",\"why\":\"shape\"}\n",
        ),
        (
            r#"{"op":"grant","caller":"a n","auths":[""]}"#,
            "{\"error\":\"malformed\",\"why\":\"caller\"}\n",
        ),
        (
            r#"{"op":"grant","caller":"ann","auths":[""]}"#,
            "{\"error\":\"malformed\",\"why\":\"auths\"}\n",
        ),
        (
            r#"{"op":"ingest"}"#,
            "{\"error\":\"malformed\",\"why\":\"shape\"}\n",
        ),
        (
            r#"{"op":"ingest","records":[],"csv":""}"#,
            "{\"error\":\"malformed\",\"why\":\"shape\"}\n",
        ),
        (
            r#"{"op":"ingest","csv":1}"#,
            "{\"error\":\"malformed\",\"why\":\"shape\"}\n",
        ),
        (
            r#"{"op":"create","caller":"a n","query":"A","from":"x","to":"","types":[],"size":0,"auths":[""]}"#,
            "{\"error\":\"malformed\",\"why\":\"caller\"}\n",
        ),
        (
            r#"{"op":"create","caller":"ann","query":"A","from":"x","to":"","types":[],"size":0,"auths":[""]}"#,
            "{\"error\":\"malformed\",\"why\":\"auths\"}\n",
        ),
        (
            r#"{"op":"create","caller":"ann","query":"A == 'x'","from":"x","to":"","types":[],"size":0}"#,
            "{\"error\":\"malformed\",\"why\":\"days\"}\n",
        ),
        (
            r#"{"op":"create","caller":"ann","query":"A == 'x'","from":"20240102","to":"20240101","types":[],"size":0}"#,
            "{\"error\":\"malformed\",\"why\":\"days\"}\n",
        ),
        (
            r#"{"op":"create","caller":"ann","query":"A == 'x'","from":"20240101","to":"2024-01-01","types":[],"size":0}"#,
            "{\"error\":\"malformed\",\"why\":\"types\"}\n",
        ),
        (
            r#"{"op":"create","caller":"ann","query":"A == 'x'","from":"20240101","to":"20240101","types":["fi"]}"#,
            "{\"error\":\"malformed\",\"why\":\"types\"}\n",
        ),
        (
            r#"{"op":"create","caller":"ann","query":"A == 'x'","from":"20240101","to":"20240101","size":-1}"#,
            "{\"error\":\"malformed\",\"why\":\"size\"}\n",
        ),
        (
            r#"{"op":"create","caller":"ann","query":"A == 'x'","from":"20240101","to":"20240101","size":1.0}"#,
            "{\"error\":\"malformed\",\"why\":\"shape\"}\n",
        ),
        (
            r#"{"op":"create","caller":"ann","query":"A == 'x'","from":"20240101","to":"20240101","size":1000}"#,
            "read",
        ),
        (
            r#"{"op":"page","caller":"a n","number":0,"page":0}"#,
            "{\"error\":\"malformed\",\"why\":\"caller\"}\n",
        ),
        (
            r#"{"op":"page","caller":"ann","number":0,"page":0}"#,
            "{\"error\":\"malformed\",\"why\":\"number\"}\n",
        ),
        (
            r#"{"op":"page","caller":"ann","number":9223372036854775807,"page":0}"#,
            "{\"error\":\"malformed\",\"why\":\"page\"}\n",
        ),
        (
            r#"{"op":"page","caller":"ann","number":1,"page":4294967296}"#,
            "{\"error\":\"malformed\",\"why\":\"page\"}\n",
        ),
        (
            r#"{"op":"page","caller":"ann","number":1,"page":18446744073709551616}"#,
            "{\"error\":\"malformed\",\"why\":\"shape\"}\n",
        ),
        (
            r#"{"op":"close","caller":"ann","number":9223372036854775808}"#,
            "{\"error\":\"malformed\",\"why\":\"number\"}\n",
        ),
        (
            r#"{"op":"close","caller":"ann","number":1,"number":0,"page":1}"#,
            "{\"error\":\"malformed\",\"why\":\"shape\"}\n",
        ),
        (
            r#"{"op":"close","caller":"ann","number":0,"number":1}"#,
            "read",
        ),
    ];
    for (line, want) in cases {
        let text = refusal(alloc, line)?;
        assert_eq!(&rt; text.as_str(), want, "at {line}");
    }
    let rule =
        r#"{"op":"create","caller":"ann","query":"A =~ '.*'","from":"x","to":"","types":[],"size":0}"#;
    assert_eq!(&rt;
        refusal(alloc, rule)?.as_str(),
        "{\"error\":\"malformed\",\"rule\":\"pattern\",\"why\":\"query\"}\n"
    );
    Ok(())
}

#[test]
fn records_come_in_both_forms(rt: HostRuntime) -> Result<(), Fail> {
    let alloc = rt.alloc();
    let csv =
        r#"{"op":"ingest","csv":"@type,@date,@vis,name\nlab,2024-03-01,A,\"x;y\"\nlab,2024-02-30,,x\nlab\n"}"#;
    let json =
        r#"{"op":"ingest","records":[{"type":"lab","date":"20240301","vis":"A","fields":{"n":1}},1.5]}"#;
    let wanted = [
        (csv, 3, 2, Some(BadRecord::Shape)),
        (json, 2, 1, Some(BadRecord::Shape)),
        (r#"{"op":"ingest","csv":""}"#, 0, 0, None),
    ];
    for (line, count, at, rule) in wanted {
        match read_line(alloc, line.as_bytes())? {
            Ok(Request::Ingest { records }) => {
                assert_eq!(&rt; records.as_slice().len(), count);
                let last = match records.as_slice().get(at) {
                    Some(Err(broken)) => Some(*broken),
                    _ => None,
                };
                assert_eq!(&rt; last, rule);
            }
            _ => return Err(Fail::from("no ingest")),
        }
    }
    Ok(())
}
