ghost use Rattle.std.specs.Prelude.{◌≡◌, IfOk, vec_len};

use crate::{Op, Query, QueryError, Word, names_field, parse, print};
use std::alloc::{AllocError, Global};
use std::process::Abort;
use std::test::Fail;

/// What is printed of the query that a text spells, or the name of the rule that it breaks.
fn reprinted(alloc: Global, text: &str) -> Result<String, AllocError> {
    match parse(alloc, text) {
        Ok(query) => print(alloc, &query),
        Err(QueryError::OutOfMemory) => String::from_str(alloc, "no memory"),
        Err(QueryError::Rule(rule)) => format!(in alloc; "{rule:?}"),
    }
}

/// Each text, what is printed of it, and that this is printed again.
fn check(rt: &impl Abort, alloc: Global, cases: &[(&str, &str)]) -> Result<(), AllocError> {
    for (text, wanted) in cases {
        let once = reprinted(alloc, text)?;
        assert_eq!(rt; once.as_str(), *wanted, "{text}");
        if once.as_str().contains('\'') {
            let twice = reprinted(alloc, once.as_str())?;
            assert_eq!(rt; twice.as_str(), *wanted, "{text} again");
        }
    }
    Ok(())
}

#[test]
fn operators(rt: HostRuntime) -> Result<(), Fail> {
    let cases = [
        ("A=='1' and not(B eq \"2\")", "A == '1' && !(B == '2')"),
        ("X >= 3", "X >= '3'"),
        ("a == 1", "A == '1'"),
        ("a eq 1", "A == '1'"),
        ("a != 1", "A != '1'"),
        ("a ne 1", "A != '1'"),
        ("a < 1", "A < '1'"),
        ("a lt 1", "A < '1'"),
        ("a <= 1", "A <= '1'"),
        ("a le 1", "A <= '1'"),
        ("a > 1", "A > '1'"),
        ("a gt 1", "A > '1'"),
        ("a >= 1", "A >= '1'"),
        ("a ge 1", "A >= '1'"),
        ("a =~ 'x'", "A =~ 'x'"),
        ("a !~ 'x'", "A !~ 'x'"),
        ("a == 1 and b == 2", "A == '1' && B == '2'"),
        ("a == 1 or b == 2", "A == '1' || B == '2'"),
        ("not (a == 1)", "!(A == '1')"),
        ("\ta==1\r\n&&b==2 ", "A == '1' && B == '2'"),
    ];
    check(&rt, rt.alloc(), &cases)?;
    Ok(())
}

#[test]
fn structure(rt: HostRuntime) -> Result<(), Fail> {
    let cases = [
        (
            "a == 1 || b == 2 && !(c == 3) || d == 4",
            "A == '1' || (B == '2' && !(C == '3')) || D == '4'",
        ),
        (
            "(a == 1 || b == 2) && c == 3",
            "(A == '1' || B == '2') && C == '3'",
        ),
        (
            "(a == 1 && b == 2) && c == 3",
            "(A == '1' && B == '2') && C == '3'",
        ),
        (
            "a == 1 && b == 2 && c == 3",
            "A == '1' && B == '2' && C == '3'",
        ),
        ("((a == 1))", "A == '1'"),
        ("!!(a == 1)", "!!(A == '1')"),
        ("!(!(a == 1))", "!!(A == '1')"),
        ("! ! ((a == 1 || b == 2))", "!!(A == '1' || B == '2')"),
        ("!F == 'a'", "Syntax"),
        ("!!F == 'a'", "Syntax"),
        ("a == 1 &&", "Syntax"),
        ("(a == 1", "Syntax"),
        ("a == 1)", "Syntax"),
        ("a == 1 b == 2", "Syntax"),
        ("a = 1", "Syntax"),
        ("a & b", "Syntax"),
        ("", "Syntax"),
        ("()", "Syntax"),
    ];
    check(&rt, rt.alloc(), &cases)?;
    Ok(())
}

#[test]
fn bounded(rt: HostRuntime) -> Result<(), Fail> {
    let cases = [
        (
            "((_Bounded_ = true) && (N >= -2 && N < 10))",
            "((_Bounded_ = true) && (N >= '-2' && N < '10'))",
        ),
        (
            "((_Bounded_ = true) and (n <= 10 and N > 2))",
            "((_Bounded_ = true) && (N > '2' && N <= '10'))",
        ),
        (
            "!((_Bounded_ = true) && (N > 1 && N < 2)) && a == 1",
            "!(((_Bounded_ = true) && (N > '1' && N < '2'))) && A == '1'",
        ),
        ("((_Bounded_ = true) && (N >= 1 && M < 10))", "Syntax"),
        ("((_Bounded_ = true) && (N >= 1 && N > 10))", "Syntax"),
        ("((_Bounded_ = true) && (N == 1 && N < 10))", "Syntax"),
        ("((_Bounded_ = true) && N >= 1 && N < 10)", "Syntax"),
        ("((_Bounded_ = false) && (N >= 1 && N < 10))", "Syntax"),
        ("((_Bounded_ == true) && (N >= 1 && N < 10))", "Syntax"),
        ("_Bounded_ == 1", "Syntax"),
        (
            "((_bounded_ == 1) && (N >= 1 && N < 10))",
            "_BOUNDED_ == '1' && (N >= '1' && N < '10')",
        ),
    ];
    check(&rt, rt.alloc(), &cases)?;
    Ok(())
}

#[test]
fn literals(rt: HostRuntime) -> Result<(), Fail> {
    let cases = [
        ("a == -12.50", "A == '-12.50'"),
        ("a == 12a", "Syntax"),
        ("a == 1.5x", "Syntax"),
        ("a == 1.", "Syntax"),
        ("a == -", "Syntax"),
        ("a == 1_", "Syntax"),
        ("a == \"it's\"", "A == 'it\\'s'"),
        ("a == 'say \"x\"'", "A == 'say \"x\"'"),
        ("a == 'it\\'s'", "A == 'it\\'s'"),
        ("a == 'a\\\\b'", "A == 'a\\\\b'"),
        ("a == 'a\\nb'", "A == 'a\\\\nb'"),
        ("a == 'a\\\"b'", "A == 'a\\\\\"b'"),
        ("a == \"a\\\"b\"", "A == 'a\"b'"),
        ("a == 'open", "Syntax"),
        ("a == 'open\\'", "Syntax"),
        ("a == ''", "A == ''"),
        (
            "a == 'h\u{e9}\u{1f600}\\\u{e9}'",
            "A == 'h\u{e9}\u{1f600}\\\\\u{e9}'",
        ),
        ("\u{e9} == 1", "Syntax"),
        ("AND == 1", "AND == '1'"),
        ("and == 1", "Syntax"),
        ("true == 1", "Syntax"),
        ("false == 1", "Syntax"),
        ("null == 1", "Syntax"),
        ("True == 1", "TRUE == '1'"),
        ("1a == 1", "Syntax"),
        ("_a1 == 1", "_A1 == '1'"),
        (
            "a234567890123456789012345678901234567890123456789012345678901234 == 1",
            "A234567890123456789012345678901234567890123456789012345678901234 == '1'",
        ),
        (
            "a2345678901234567890123456789012345678901234567890123456789012345 == 1",
            "Syntax",
        ),
    ];
    check(&rt, rt.alloc(), &cases)?;
    Ok(())
}

#[test]
fn patterns(rt: HostRuntime) -> Result<(), Fail> {
    let cases = [
        ("F =~ 'a\\.b.*'", "F =~ 'a\\\\.b.*'"),
        ("F =~ 'a\\\\.b.*'", "F =~ 'a\\\\.b.*'"),
        ("F =~ 'a[b'", "Pattern"),
        ("F =~ '.*'", "Pattern"),
        ("F =~ ''", "Pattern"),
        ("F =~ '.*.*'", "Pattern"),
        ("F =~ 'a.*b'", "Pattern"),
        ("F =~ '.*a.*'", "F =~ '.*a.*'"),
        ("F =~ 'a.b'", "Pattern"),
        ("F =~ 'a*'", "Pattern"),
        ("F =~ 'a+'", "Pattern"),
        ("F =~ 'a?'", "Pattern"),
        ("F =~ '(a'", "Pattern"),
        ("F =~ 'a)'", "Pattern"),
        ("F =~ 'a]'", "Pattern"),
        ("F =~ 'a{'", "Pattern"),
        ("F =~ 'a}'", "Pattern"),
        ("F =~ '^a'", "Pattern"),
        ("F =~ 'a$'", "Pattern"),
        ("F =~ 'a|b'", "Pattern"),
        (
            "F =~ 'a\\*\\+\\?\\(\\)\\[\\]\\{\\}\\^\\$\\|'",
            "F =~ 'a\\\\*\\\\+\\\\?\\\\(\\\\)\\\\[\\\\]\\\\{\\\\}\\\\^\\\\$\\\\|'",
        ),
        ("F =~ 'a\\b'", "F =~ 'ab'"),
        ("F =~ 'a\\\\\\\\b'", "F =~ 'a\\\\\\\\b'"),
        ("F =~ 'a\\\\'", "Pattern"),
        ("F =~ 'a.\\*'", "Pattern"),
        ("F =~ 'a' || G =~ '*' || H", "Syntax"),
        ("F =~ 3", "Syntax"),
    ];
    check(&rt, rt.alloc(), &cases)?;
    Ok(())
}

/// A text again and again, between two others.
fn many(
    alloc: Global,
    front: &str,
    part: &str,
    count: u32,
    back: &str,
) -> Result<String, AllocError> {
    let mut out = String::new(alloc);
    out.push_str(front)?;
    for _ in 0..count {
        out.push_str(part)?;
    }
    out.push_str(back)?;
    Ok(out)
}

/// So many parentheses or negations round a leaf.
fn nested(alloc: Global, front: &str, count: u32) -> Result<String, AllocError> {
    let open = many(alloc, "", front, count, "(A == '1')")?;
    many(alloc, open.as_str(), "", 0, "")
}

#[test]
fn depths(rt: HostRuntime) -> Result<(), Fail> {
    let alloc = rt.alloc();
    let leaf = "A == '1'";
    let opened = many(alloc, "", "(", 64, leaf)?;
    let closed = many(alloc, opened.as_str(), ")", 64, "")?;
    assert_eq!(rt; reprinted(alloc, closed.as_str())?.as_str(), leaf);
    let opened = many(alloc, "", "(", 65, leaf)?;
    let closed = many(alloc, opened.as_str(), ")", 65, "")?;
    assert_eq!(rt; reprinted(alloc, closed.as_str())?.as_str(), "TooDeep");
    let deep = nested(alloc, "!", 64)?;
    assert_eq!(rt; reprinted(alloc, deep.as_str())?.as_str(), "TooDeep");
    let fits = nested(alloc, "!", 63)?;
    assert_eq!(rt; reprinted(alloc, fits.as_str())?.as_str(), fits.as_str());
    let both = many(alloc, "", "!(", 32, leaf)?;
    let both = many(alloc, both.as_str(), ")", 32, "")?;
    let bangs = many(alloc, "", "!", 32, "(A == '1')")?;
    assert_eq!(rt; reprinted(alloc, both.as_str())?.as_str(), bangs.as_str());
    let over = many(alloc, "(", "!(", 32, leaf)?;
    let over = many(alloc, over.as_str(), ")", 33, "")?;
    assert_eq!(rt; reprinted(alloc, over.as_str())?.as_str(), "TooDeep");
    let run = many(alloc, "", "!", 65, "")?;
    assert_eq!(rt; reprinted(alloc, run.as_str())?.as_str(), "TooDeep");
    Ok(())
}

#[test]
fn sizes(rt: HostRuntime) -> Result<(), Fail> {
    let alloc = rt.alloc();
    let fits = many(alloc, "A == '1'", " || A == '1'", 255, "")?;
    assert_eq!(rt; reprinted(alloc, fits.as_str())?.as_str(), fits.as_str());
    let over = many(alloc, "A == '1'", " || A == '1'", 256, "")?;
    assert_eq!(rt; reprinted(alloc, over.as_str())?.as_str(), "TooMany");
    let over = many(alloc, "A =~ '*'", " || A == '1'", 256, "")?;
    assert_eq!(rt; reprinted(alloc, over.as_str())?.as_str(), "TooMany");
    let parentheses = many(alloc, "", "(", 16_384, "")?;
    assert_eq!(rt; reprinted(alloc, parentheses.as_str())?.as_str(), "TooDeep");
    let parentheses = many(alloc, "", "(", 16_385, "")?;
    assert_eq!(rt; reprinted(alloc, parentheses.as_str())?.as_str(), "TooLong");
    let blanks = many(alloc, "A == 1", " ", 16_378, "")?;
    assert_eq!(rt; reprinted(alloc, blanks.as_str())?.as_str(), "A == '1'");
    let blanks = many(alloc, "A == 1", " ", 16_379, "")?;
    assert_eq!(rt; reprinted(alloc, blanks.as_str())?.as_str(), "TooLong");
    Ok(())
}

#[test]
fn parts(rt: HostRuntime) -> Result<(), Fail> {
    let alloc = rt.alloc();
    let word = Word::of(alloc, "h\u{e9}")?;
    let same = word.copy()?;
    assert_eq!(rt; same.as_str(), "h\u{e9}");
    let equal = same == word;
    assert!(rt; equal);
    let text = "f le 2 || g =~ '.*a\\.b' || !(h == 1 && i == 2)";
    let wanted = "F <= '2' || G =~ '.*a\\\\.b' || !(H == '1' && I == '2')";
    let copied = parse(alloc, text)?.copy(alloc)?;
    assert_eq!(rt; print(alloc, &copied)?.as_str(), wanted);
    Ok(())
}

fn equal(alloc: Global) -> Result<Query, AllocError> {
    let field = Word::of(alloc, "A")?;
    Ok(Query::cmp(field, Op::Eq, Word::of(alloc, "1")?))
}

fn starts(alloc: Global) -> Result<Query, AllocError> {
    let field = Word::of(alloc, "B")?;
    Ok(Query::pattern(field, false, false, true, Word::of(alloc, "x")?))
}

fn between(alloc: Global) -> Result<Query, AllocError> {
    let field = Word::of(alloc, "C")?;
    let low = Word::of(alloc, "1")?;
    Ok(Query::bounded(field, low, false, Word::of(alloc, "2")?, true))
}

fn two(alloc: Global, first: Query, second: Query) -> Result<Vec<Query>, AllocError>
    ensures { IfOk result (λ v. vec_len v ≡ 2) }
{
    let mut both = Vec::new(alloc);
    both.push(first)?;
    both.push(second)?;
    Ok(both)
}

#[test]
fn built_queries(rt: HostRuntime) -> Result<(), Fail> {
    let alloc = rt.alloc();
    let either = Query::or(two(alloc, starts(alloc)?, between(alloc)?)?);
    assert_eq!(rt; either.leaves(), 2);
    let wanted = "B =~ 'x.*' || ((_Bounded_ = true) && (C >= '1' && C < '2'))";
    assert_eq!(rt; print(alloc, &either)?.as_str(), wanted);
    Ok(())
}

#[test]
fn built_nodes(rt: HostRuntime) -> Result<(), Fail> {
    let alloc = rt.alloc();
    let without = Query::not(alloc, starts(alloc)?)?;
    assert!(rt; without.child().is_some());
    let both = Query::and(two(alloc, equal(alloc)?, without)?);
    assert_eq!(rt; both.children().len(), 2);
    assert!(rt; both.child().is_none());
    assert_eq!(rt; print(alloc, &both)?.as_str(), "A == '1' && !(B =~ 'x.*')");
    Ok(())
}

#[test]
fn fields(rt: HostRuntime) -> Result<(), Fail> {
    let alloc = rt.alloc();
    let cases = [
        ("A", true),
        ("_a1", true),
        ("AND", true),
        ("and", false),
        ("ge", false),
        ("true", false),
        ("_Bounded_", false),
        ("", false),
        ("1a", false),
        ("a-b", false),
        ("\u{e9}", false),
        (
            "a234567890123456789012345678901234567890123456789012345678901234",
            true,
        ),
        (
            "a2345678901234567890123456789012345678901234567890123456789012345",
            false,
        ),
    ];
    for (text, wanted) in cases {
        let characters = crate::characters(alloc, text)?;
        assert_eq!(rt; names_field(&characters), wanted, "{text}");
    }
    Ok(())
}
