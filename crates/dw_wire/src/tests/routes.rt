//! Messages by HTTP: which request each is, or the first reason why it is none.
use crate::{Reply, Request, Route, Why, read_route, write_reply};
use std::alloc::Global;
use std::test::Fail;

/// What a message of a route has: a caller, none where it is empty, the numbers in its path and its body.
#[derive(Clone, Copy)]
struct Message<'a> {
    route: Route,
    caller: &'a str,
    path: [&'a str; 2],
    body: &'a str,
    want: &'a str,
}

/// The name of the request, or the reason why it is none.
fn told(alloc: Global, read: Result<Request, Why>) -> Result<String, Fail> {
    let name = match read {
        Ok(Request::Define { .. }) => "define",
        Ok(Request::Grant { .. }) => "grant",
        Ok(Request::Ingest { .. }) => "ingest",
        Ok(Request::Create { .. }) => "create",
        Ok(Request::Page { .. }) => "page",
        Ok(Request::Close { .. }) => "close",
        Err(why) => {
            let text = write_reply(alloc, &Reply::Malformed { why })?;
            return Ok(String::from_utf8_lossy(alloc, text.as_slice())?);
        }
    };
    Ok(String::from_str(alloc, name)?)
}

fn answer(alloc: Global, sent: &Message<'_>) -> Result<String, Fail> {
    let caller = if sent.caller.is_empty() {
        None
    } else {
        Some(sent.caller.as_bytes())
    };
    let [number, page] = sent.path;
    let read = read_route(
        alloc,
        sent.route,
        caller,
        number.as_bytes(),
        page.as_bytes(),
        sent.body.as_bytes(),
    )?;
    told(alloc, read)
}

fn of_body<'a>(route: Route, caller: &'a str, body: &'a str, want: &'a str) -> Message<'a> {
    Message {
        route,
        caller,
        path: ["", ""],
        body,
        want,
    }
}

fn of_path<'a>(route: Route, caller: &'a str, path: [&'a str; 2], want: &'a str) -> Message<'a> {
    Message {
        route,
        caller,
        path,
        body: "[",
        want,
    }
}

const JSON: &str = "{\"error\":\"malformed\",\"why\":\"json\"}\n";

const SHAPE: &str = "{\"error\":\"malformed\",\"why\":\"shape\"}\n";

const CALLER: &str = "{\"error\":\"malformed\",\"why\":\"caller\"}\n";

const FIELD: &str = "{\"error\":\"malformed\",\"why\":\"field\"}\n";

const AUTHS: &str = "{\"error\":\"malformed\",\"why\":\"auths\"}\n";

const DAYS: &str = "{\"error\":\"malformed\",\"why\":\"days\"}\n";

const NUMBER: &str = "{\"error\":\"malformed\",\"why\":\"number\"}\n";

const PAGE: &str = "{\"error\":\"malformed\",\"why\":\"page\"}\n";

#[test]
fn a_body_is_its_request_or_the_first_reason(rt: HostRuntime) -> Result<(), Fail> {
    let query = r#"{"query":"A == 'x'","from":"20240101","to":"20240101"}"#;
    for case in [
        of_body(Route::Field, "", "[", JSON),
        of_body(
            Route::Field,
            "",
            r#"{"op":"define","field":"a","kind":"TEXT","indexed":true,"reversed":true}"#,
            SHAPE,
        ),
        of_body(
            Route::Field,
            "",
            r#"{"field":"a b","kind":"TEXT","indexed":true,"reversed":true}"#,
            FIELD,
        ),
        of_body(
            Route::Field,
            "",
            r#"{"field":"a","kind":"TEXT","indexed":true,"reversed":true}"#,
            "define",
        ),
        of_body(Route::Grant, "ann", r#"{"auths":["S"]}"#, SHAPE),
        of_body(Route::Grant, "", r#"{"caller":"a n","auths":[""]}"#, CALLER),
        of_body(Route::Grant, "", r#"{"caller":"ann","auths":[""]}"#, AUTHS),
        of_body(
            Route::Grant,
            "",
            r#"{"caller":"ann","auths":["S"]}"#,
            "grant",
        ),
        of_body(Route::IngestJson, "", r#"{"csv":""}"#, SHAPE),
        of_body(Route::IngestJson, "", r#"{"records":[1]}"#, "ingest"),
        of_body(Route::IngestCsv, "", "", "ingest"),
        of_body(Route::IngestCsv, "", "[", "ingest"),
        of_body(Route::Query, "", "[", JSON),
        of_body(Route::Query, "", query, SHAPE),
        of_body(
            Route::Query,
            "a n",
            r#"{"query":"A == 'x'","from":"x","to":"20240101"}"#,
            CALLER,
        ),
        of_body(Route::Query, "é", query, CALLER),
        of_body(
            Route::Query,
            "ann",
            r#"{"caller":"ann","query":"A == 'x'","from":"x","to":"20240101"}"#,
            SHAPE,
        ),
        of_body(
            Route::Query,
            "ann",
            r#"{"query":"A == 'x'","from":"x","to":"20240101"}"#,
            DAYS,
        ),
        of_body(Route::Query, "ann", query, "create"),
    ] {
        let text = answer(rt.alloc(), &case)?;
        assert_eq!(&rt; text.as_str(), case.want, "at {}", case.body);
    }
    Ok(())
}

#[test]
fn a_path_is_its_request_whatever_the_body(rt: HostRuntime) -> Result<(), Fail> {
    for case in [
        of_path(Route::Page, "", ["x", "x"], SHAPE),
        of_path(Route::Page, "a n", ["x", "x"], CALLER),
        of_path(Route::Page, "ann", ["x", "x"], NUMBER),
        of_path(Route::Page, "ann", ["0", "1"], NUMBER),
        of_path(Route::Page, "ann", ["9223372036854775808", "1"], NUMBER),
        of_path(Route::Page, "ann", ["9223372036854775807", "x"], PAGE),
        of_path(Route::Page, "ann", ["1", "+1"], PAGE),
        of_path(Route::Page, "ann", ["1", "0"], PAGE),
        of_path(Route::Page, "ann", ["1", "4294967296"], PAGE),
        of_path(
            Route::Page,
            "ann",
            ["0000000000000000000000001", "4294967295"],
            "page",
        ),
        of_path(Route::Close, "", ["1", ""], SHAPE),
        of_path(Route::Close, "ann", ["", ""], NUMBER),
        of_path(Route::Close, "ann", ["1", "x"], "close"),
    ] {
        let text = answer(rt.alloc(), &case)?;
        let [number, page] = case.path;
        assert_eq!(&rt; text.as_str(), case.want, "at {number}/{page}");
    }
    Ok(())
}

#[test]
fn bytes_that_are_no_text_are_told(rt: HostRuntime) -> Result<(), Fail> {
    let alloc = rt.alloc();
    let broken = read_route(alloc, Route::Query, Some(b"\xff"), b"", b"", b"\xff")?;
    assert!(rt; broken.err() == Some(Why::Json));
    let caller = read_route(alloc, Route::Close, Some(b"\xff"), b"1", b"", b"")?;
    assert!(rt; caller.err() == Some(Why::Caller));
    let number = read_route(alloc, Route::Close, Some(b"ann"), b"\xff", b"", b"")?;
    assert!(rt; number.err() == Some(Why::Number));
    Ok(())
}
