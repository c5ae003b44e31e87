use crate::{NQuery, NView, bind, kleene, satisfies};
use dw_base::Text;
use dw_dict::{Dict, FieldRule};
use dw_event::{Pair, View};
use dw_jexl::{Query, parse};
use dw_norm::Kind;
use std::alloc::{AllocError, Global};
use std::process::Abort;
use std::test::Fail;

/// One field of each kind with its index, and T with the reversed one too. U is not defined.
fn dictionary(alloc: Global) -> Result<Dict, Fail> {
    let fields = [
        ("A", Kind::Noop, false),
        ("B", Kind::Noop, false),
        ("C", Kind::Noop, false),
        ("F", Kind::Noop, false),
        ("G", Kind::Noop, false),
        ("K", Kind::Noop, false),
        ("N", Kind::Number, false),
        ("X", Kind::Number, false),
        ("D", Kind::Date, false),
        ("P", Kind::Ipv4, false),
        ("T", Kind::Text, true),
    ];
    let mut dict = Dict::new(alloc);
    for (name, kind, reversed) in fields {
        let rule = FieldRule::of(kind, true, reversed).ok_or("no rule")?;
        dict.define(name, rule)?;
    }
    Ok(dict)
}

/// The view of pairs that are written as in `X=1 X=9`.
fn view_of(alloc: Global, pairs: &str) -> Result<View, Fail> {
    let mut all = View::new(alloc);
    for pair in pairs.split(' ') {
        let (field, raw) = pair.split_once('=').ok_or("no pair")?;
        let field = Text::of(alloc, field)?;
        let raw = Text::of(alloc, raw)?;
        all.put(Pair { field, raw })?;
    }
    Ok(all)
}

fn read(alloc: Global, text: &str) -> Result<Query, Fail> {
    match parse(alloc, text) {
        Ok(query) => Ok(query),
        Err(_) => Err(Fail::from("no query")),
    }
}

/// Whether the values satisfy the query, and what the indexes know of it.
fn evaluated(alloc: Global, query: &NQuery, values: &NView) -> Result<String, AllocError> {
    let satisfied = satisfies(query, values);
    let known = kleene(query, values);
    format!(in alloc; "{satisfied} {known:?}")
}

fn evaluated_copy(alloc: Global, query: &NQuery, values: &NView) -> Result<String, AllocError> {
    let copy = query.copy(alloc)?;
    evaluated(alloc, &copy, values)
}

/// The same of the query that is bound, or why it is not bound.
fn bound(alloc: Global, query: &Query, dict: &Dict, values: &NView) -> Result<String, AllocError> {
    match bind(alloc, query, dict) {
        Ok(query) => evaluated_copy(alloc, &query, values),
        Err(error) => format!(in alloc; "{error:?}"),
    }
}

fn outcome(alloc: Global, dict: &Dict, text: &str, pairs: &str) -> Result<String, Fail> {
    let view = view_of(alloc, pairs)?;
    let values = NView::of(alloc, &view, dict)?;
    let query = read(alloc, text)?;
    Ok(bound(alloc, &query, dict, &values)?)
}

/// Each query, the pairs of a view, and the outcome.
fn check(rt: &impl Abort, alloc: Global, cases: &[(&str, &str, &str)]) -> Result<(), Fail> {
    let dict = dictionary(alloc)?;
    for (text, pairs, wanted) in cases {
        let outcome = outcome(alloc, &dict, text, pairs)?;
        assert_eq!(rt; outcome.as_str(), *wanted, "{text}");
    }
    Ok(())
}

#[test]
fn numbers(rt: HostRuntime) -> Result<(), Fail> {
    let range = "((_Bounded_ = true) && (N >= -2 && N < 10))";
    let cases = [
        (range, "N=-2", "true Yes"),
        (range, "N=10", "false No"),
        (range, "N=9 N=abc", "true Yes"),
        ("N == 'abc'", "N=9 N=abc", "Literal"),
        ("N != 'abc'", "N=9", "Literal"),
        ("N < 10", "N=10", "false No"),
        ("N <= 10", "N=10", "true Yes"),
        ("N > -10", "N=-9", "true Yes"),
        ("N > 10", "N=10", "false No"),
        ("N =~ '10'", "N=10.0", "true Yes"),
        ("N =~ '1.*'", "N=10", "Literal"),
    ];
    check(&rt, rt.alloc(), &cases)
}

#[test]
fn several_values(rt: HostRuntime) -> Result<(), Fail> {
    let one = "((_Bounded_ = true) && (X >= 3 && X <= 5))";
    let cases = [
        ("K == 'k' && X >= 3 && X <= 5", "K=k X=1 X=9", "true Yes"),
        (one, "K=k X=1 X=9", "false No"),
        (one, "K=k X=1 X=4", "true Yes"),
        ("X != 1", "X=1 X=9", "false No"),
        ("X != 2", "X=1 X=9", "true Yes"),
        ("B != 2", "X=1 X=9", "true Yes"),
    ];
    check(&rt, rt.alloc(), &cases)
}

#[test]
fn negations(rt: HostRuntime) -> Result<(), Fail> {
    let hidden = "G == 'x' && !(F == 'a')";
    let nested = "A == '1' && !(B == '2' || !(C == '3'))";
    let cases = [
        (hidden, "F=a G=x", "false No"),
        (hidden, "G=x", "true Yes"),
        (nested, "A=1 C=3", "true Yes"),
        (nested, "A=1 B=2 C=3", "false No"),
        (nested, "A=1", "false No"),
    ];
    check(&rt, rt.alloc(), &cases)
}

#[test]
fn patterns_and_kinds(rt: HostRuntime) -> Result<(), Fail> {
    let cases = [
        ("D >= '20231231'", "D=2024-01-01", "true Yes"),
        ("D =~ '2024.*'", "D=2024-01-01", "Literal"),
        ("P > '9.0.0.0'", "P=10.0.0.1", "true Yes"),
        ("P =~ '.*1'", "P=10.0.0.1", "Literal"),
        ("T =~ 'CREME.*'", "T=CremeBrulee", "true Yes"),
        ("T =~ '.*LEE'", "T=CremeBrulee", "true Yes"),
        ("T =~ '.*CREME'", "T=CremeBrulee", "false No"),
        ("T =~ '.*meb.*'", "T=CremeBrulee", "true Yes"),
        ("T !~ 'creme.*'", "T=CremeBrulee", "false No"),
        ("K =~ 'K.*'", "K=k", "false No"),
        ("K == 'a\0'", "K=a", "Literal"),
    ];
    check(&rt, rt.alloc(), &cases)
}

#[test]
fn fields_without_an_index(rt: HostRuntime) -> Result<(), Fail> {
    let cases = [
        ("U == 'a'", "U=A", "true Unknown"),
        ("U != 'a'", "U=A", "false Unknown"),
        ("K == 'k' || U == 'b'", "K=k U=a", "true Yes"),
        ("K == 'l' && U == 'a'", "K=k U=a", "false No"),
        ("K == 'k' && U == 'b'", "K=k U=a", "false Unknown"),
    ];
    check(&rt, rt.alloc(), &cases)
}
