use crate::{parse_lucene, print_lucene};
use dw_jexl::{QueryError, parse, print};
use std::alloc::{AllocError, Global};
use std::process::Abort;
use std::test::Fail;

/// What is printed in JEXL of the query that a Lucene text spells, or the name of the rule that it breaks.
fn as_jexl(alloc: Global, text: &str) -> Result<String, AllocError> {
    match parse_lucene(alloc, text) {
        Ok(query) => print(alloc, &query),
        Err(QueryError::OutOfMemory) => String::from_str(alloc, "no memory"),
        Err(QueryError::Rule(rule)) => format!(in alloc; "{rule:?}"),
    }
}

/// What is printed in Lucene of the query that a JEXL text spells.
fn as_lucene(alloc: Global, text: &str) -> Result<String, AllocError> {
    match parse(alloc, text) {
        Ok(query) => match print_lucene(alloc, &query)? {
            Some(text) => Ok(text),
            None => String::from_str(alloc, "none"),
        },
        Err(_) => String::from_str(alloc, "refused"),
    }
}

/// Each Lucene text, and its query in JEXL.
fn check(rt: &impl Abort, alloc: Global, cases: &[(&str, &str)]) -> Result<(), AllocError> {
    for (text, wanted) in cases {
        let found = as_jexl(alloc, text)?;
        assert_eq!(rt; found.as_str(), *wanted, "{text}");
    }
    Ok(())
}

/// Each JEXL text that is canonical, and its query in Lucene, which is read as the same query where there is one.
fn check_printed(rt: &impl Abort, alloc: Global, cases: &[(&str, &str)]) -> Result<(), AllocError> {
    for (text, wanted) in cases {
        let found = as_lucene(alloc, text)?;
        assert_eq!(rt; found.as_str(), *wanted, "{text}");
        if found.as_str() != "none" {
            let again = as_jexl(alloc, found.as_str())?;
            assert_eq!(rt; again.as_str(), *text, "{wanted}");
        }
    }
    Ok(())
}

#[test]
fn clauses(rt: HostRuntime) -> Result<(), Fail> {
    let cases = [
        (
            "NAME:smith* AND NOT RESULT:[25 TO 30}",
            "NAME =~ 'smith.*' && !(((_Bounded_ = true) && (RESULT >= '25' && RESULT < '30')))",
        ),
        ("a:b", "A == 'b'"),
        ("a:\"b c\"", "A == 'b c'"),
        ("a:\"it's\"", "A == 'it\\'s'"),
        ("a:\"x\\\"y\\\\z\\n\"", "A == 'x\"y\\\\z\\\\n'"),
        ("a:\"\"", "A == ''"),
        ("a:*b", "A =~ '.*b'"),
        ("a:b*", "A =~ 'b.*'"),
        ("a:*b*", "A =~ '.*b.*'"),
        ("a:b*c", "Pattern"),
        ("NAME:sm*th", "Pattern"),
        ("a:*", "Pattern"),
        ("a:**", "Pattern"),
        ("a:b\\*", "A == 'b*'"),
        ("a:\\*b", "A == '*b'"),
        ("a:b\\*c*", "A =~ 'b\\\\*c.*'"),
        ("a:b?", "Pattern"),
        ("a:b\\?", "A == 'b?'"),
        ("a:b\\", "Syntax"),
        ("a:b\\ c", "A == 'b c'"),
        ("a:b\\:c\\(\\)", "A == 'b:c()'"),
        ("a:b'c", "A == 'b\\'c'"),
        ("a:\u{e9}cole*", "A =~ '\u{e9}cole.*'"),
        ("a:\"\u{e9}\u{1f600}\"", "A == '\u{e9}\u{1f600}'"),
        ("\u{e9}:a", "Syntax"),
        ("a:", "Syntax"),
        (":a", "Syntax"),
        ("a", "Syntax"),
        ("", "Syntax"),
        ("a:\"b", "Syntax"),
        ("a::b", "Syntax"),
    ];
    check(&rt, rt.alloc(), &cases)?;
    Ok(())
}

#[test]
fn words(rt: HostRuntime) -> Result<(), Fail> {
    let cases = [
        ("a:AND", "Syntax"),
        ("a:OR", "Syntax"),
        ("a:NOT", "Syntax"),
        ("a:TO", "Syntax"),
        ("a:\\AND", "A == 'AND'"),
        ("a:\\OR", "A == 'OR'"),
        ("a:\\NOT", "A == 'NOT'"),
        ("a:\\TO", "A == 'TO'"),
        ("a:\"AND\"", "A == 'AND'"),
        ("a:and", "A == 'and'"),
        ("a:ANDY", "A == 'ANDY'"),
        ("AND:x", "AND == 'x'"),
        ("OR:x OR NOT:y", "OR == 'x' || NOT == 'y'"),
        ("NOT NOT:y", "!(NOT == 'y')"),
        ("TO:TO", "Syntax"),
        ("TO:x", "TO == 'x'"),
        ("and:x", "Syntax"),
        ("ge:x", "Syntax"),
        ("true:x", "Syntax"),
        ("_Bounded_:x", "Syntax"),
        ("a-b:x", "Syntax"),
        ("1a:x", "Syntax"),
        ("*:x", "Syntax"),
        (
            "a234567890123456789012345678901234567890123456789012345678901234:1",
            "A234567890123456789012345678901234567890123456789012345678901234 == '1'",
        ),
        (
            "a2345678901234567890123456789012345678901234567890123456789012345:1",
            "Syntax",
        ),
    ];
    check(&rt, rt.alloc(), &cases)?;
    Ok(())
}

#[test]
fn ranges(rt: HostRuntime) -> Result<(), Fail> {
    let cases = [
        (
            "n:[1 TO 2]",
            "((_Bounded_ = true) && (N >= '1' && N <= '2'))",
        ),
        (
            "n:{1 TO 2]",
            "((_Bounded_ = true) && (N > '1' && N <= '2'))",
        ),
        (
            "n:[1 TO 2}",
            "((_Bounded_ = true) && (N >= '1' && N < '2'))",
        ),
        ("n:{1 TO 2}", "((_Bounded_ = true) && (N > '1' && N < '2'))"),
        (
            "n:[\"1 2\"TO\"3\"]",
            "((_Bounded_ = true) && (N >= '1 2' && N <= '3'))",
        ),
        (
            "n:[ 1\tTO\r\n2 ]",
            "((_Bounded_ = true) && (N >= '1' && N <= '2'))",
        ),
        ("RESULT:{* TO 5}", "RESULT < '5'"),
        ("n:[* TO 5]", "N <= '5'"),
        ("n:[5 TO *}", "N >= '5'"),
        ("n:{5 TO *]", "N > '5'"),
        ("F:[* TO *]", "Syntax"),
        (
            "n:[\\* TO 5]",
            "((_Bounded_ = true) && (N >= '*' && N <= '5'))",
        ),
        (
            "n:[\"*\" TO 5]",
            "((_Bounded_ = true) && (N >= '*' && N <= '5'))",
        ),
        ("n:[1* TO 5]", "Pattern"),
        ("n:[1 TO *5]", "Pattern"),
        ("n:[1 TO 5?]", "Pattern"),
        (
            "n:[1 TO \\TO]",
            "((_Bounded_ = true) && (N >= '1' && N <= 'TO'))",
        ),
        ("n:[1 TO TO]", "Syntax"),
        ("n:[1 to 2]", "Syntax"),
        ("n:[1 2]", "Syntax"),
        ("n:[1 TO 2", "Syntax"),
        ("n:1 TO 2]", "Syntax"),
        ("n: [1 TO 2]", "Syntax"),
    ];
    check(&rt, rt.alloc(), &cases)?;
    Ok(())
}

#[test]
fn structure(rt: HostRuntime) -> Result<(), Fail> {
    let cases = [
        ("a:1 AND b:2", "A == '1' && B == '2'"),
        ("a:1 OR b:2", "A == '1' || B == '2'"),
        (
            "a:1 OR b:2 AND NOT c:3 OR d:4",
            "A == '1' || (B == '2' && !(C == '3')) || D == '4'",
        ),
        ("(a:1 OR b:2) AND c:3", "(A == '1' || B == '2') && C == '3'"),
        (
            "(a:1 AND b:2) AND c:3",
            "(A == '1' && B == '2') && C == '3'",
        ),
        ("NOT a:1 AND b:2", "!(A == '1') && B == '2'"),
        ("NOT (a:1 AND b:2)", "!(A == '1' && B == '2')"),
        ("NOT NOT a:1", "!!(A == '1')"),
        ("NOT(NOT(a:1))", "!!(A == '1')"),
        ("((a:1))", "A == '1'"),
        ("a:1AND b:2", "Syntax"),
        ("a:\"1\"AND(b:2)", "A == '1' && B == '2'"),
        ("\t a:1\r\nAND\tb:2 \n", "A == '1' && B == '2'"),
        ("a :1", "Syntax"),
        ("a: 1", "Syntax"),
        ("a:1 ANDb:2", "Syntax"),
        ("NAME:a NAME:b", "Syntax"),
        ("a:1 AND", "Syntax"),
        ("AND a:1", "Syntax"),
        ("NOT", "Syntax"),
        ("()", "Syntax"),
        ("(a:1", "Syntax"),
        ("a:1)", "Syntax"),
        ("a:(1)", "Syntax"),
        ("TO", "Syntax"),
        ("a:1 TO b:2", "Syntax"),
    ];
    check(&rt, rt.alloc(), &cases)?;
    Ok(())
}

#[test]
fn printed(rt: HostRuntime) -> Result<(), Fail> {
    let cases = [
        (
            "NAME =~ 'smith.*' && !(((_Bounded_ = true) && (RESULT >= '25' && RESULT < '30')))",
            "NAME:smith* AND NOT RESULT:[\"25\" TO \"30\"}",
        ),
        ("A == 'it\\'s \"x\" \\\\'", "A:\"it's \\\"x\\\" \\\\\""),
        ("A < '5'", "A:[* TO \"5\"}"),
        ("A <= '5'", "A:[* TO \"5\"]"),
        ("A > '5'", "A:{\"5\" TO *]"),
        ("A >= '5'", "A:[\"5\" TO *]"),
        (
            "((_Bounded_ = true) && (A > '1' && A <= '2'))",
            "A:{\"1\" TO \"2\"]",
        ),
        ("A =~ '.*x'", "A:*x"),
        ("A =~ '.*x.*'", "A:*x*"),
        ("A =~ 'AND.*'", "A:AND*"),
        (
            "A =~ 'a b:\\\\(\\\\)\\\\[\\\\]\\\\{\\\\}\"\\\\\\\\\\\\*\\\\?c.*'",
            "A:a\\ b\\:\\(\\)\\[\\]\\{\\}\\\"\\\\\\*\\?c*",
        ),
        ("A =~ '\u{e9}.*'", "A:\u{e9}*"),
        (
            "(A == '1' || B == '2') && C == '3'",
            "(A:\"1\" OR B:\"2\") AND C:\"3\"",
        ),
        (
            "(A == '1' && B == '2') || !(C == '3' || D == '4')",
            "(A:\"1\" AND B:\"2\") OR NOT (C:\"3\" OR D:\"4\")",
        ),
        ("!!(A == '1')", "NOT NOT A:\"1\""),
        ("A != '1'", "none"),
        ("B == '2' && !(A != '1')", "none"),
        ("A !~ 'x.*'", "none"),
        ("A =~ 'x'", "none"),
        ("B == '2' || A =~ 'x'", "none"),
    ];
    check_printed(&rt, rt.alloc(), &cases)?;
    Ok(())
}

/// A text again and again, between two others.
fn many(
    alloc: Global,
    front: &str,
    part: &str,
    count: u32,
    back: &str,
) -> Result<String, AllocError> {
    let mut out = String::new(alloc);
    out.push_str(front)?;
    for _ in 0..count {
        out.push_str(part)?;
    }
    out.push_str(back)?;
    Ok(out)
}

/// A text between so many of two others.
fn nested(
    alloc: Global,
    open: &str,
    middle: &str,
    close: &str,
    count: u32,
) -> Result<String, AllocError> {
    let opened = many(alloc, "", open, count, middle)?;
    many(alloc, opened.as_str(), close, count, "")
}

#[test]
fn depths(rt: HostRuntime) -> Result<(), Fail> {
    let alloc = rt.alloc();
    let fits = nested(alloc, "(", "a:1", ")", 64)?;
    let over = nested(alloc, "(", "a:1", ")", 65)?;
    assert_eq!(rt; as_jexl(alloc, fits.as_str())?.as_str(), "A == '1'");
    assert_eq!(rt; as_jexl(alloc, over.as_str())?.as_str(), "TooDeep");
    let fits = many(alloc, "", "NOT ", 64, "a:1")?;
    let over = many(alloc, "", "NOT ", 65, "a:1")?;
    assert_ne!(rt; as_jexl(alloc, fits.as_str())?.as_str(), "TooDeep");
    assert_eq!(rt; as_jexl(alloc, over.as_str())?.as_str(), "TooDeep");
    let over = many(alloc, "a:", "NOT ", 65, "")?;
    assert_eq!(rt; as_jexl(alloc, over.as_str())?.as_str(), "TooDeep");
    let field = many(alloc, "", "NOT ", 63, "NOT:1")?;
    assert_ne!(rt; as_jexl(alloc, field.as_str())?.as_str(), "Syntax");
    let brackets = many(alloc, "", "[", 65, "")?;
    assert_eq!(rt; as_jexl(alloc, brackets.as_str())?.as_str(), "Syntax");
    Ok(())
}

#[test]
fn sizes(rt: HostRuntime) -> Result<(), Fail> {
    let alloc = rt.alloc();
    let fits = many(alloc, "a:1", " OR a:1", 255, "")?;
    assert_ne!(rt; as_jexl(alloc, fits.as_str())?.as_str(), "TooMany");
    let over = many(alloc, "a:1", " OR a:1", 256, "")?;
    assert_eq!(rt; as_jexl(alloc, over.as_str())?.as_str(), "TooMany");
    let over = many(alloc, "a:b*c", " OR a:[1 TO 2]", 256, "")?;
    assert_eq!(rt; as_jexl(alloc, over.as_str())?.as_str(), "TooMany");
    let fits = many(alloc, "a:1", " ", 16_381, "")?;
    assert_eq!(rt; as_jexl(alloc, fits.as_str())?.as_str(), "A == '1'");
    let over = many(alloc, "a:1", " ", 16_382, "")?;
    assert_eq!(rt; as_jexl(alloc, over.as_str())?.as_str(), "TooLong");
    Ok(())
}
