use crate::{Auths, OutOfMemory, Vis, VisError};
use std::alloc::Global;
use std::process::Abort;
use std::test::Fail;

fn set_of(alloc: Global, names: &[&str]) -> Result<Auths, OutOfMemory> {
    let mut auths = Auths::new(alloc);
    for name in names {
        auths.add(name)?;
    }
    Ok(auths)
}

/// So often one text, then a text, and so often another.
fn framed(
    alloc: Global,
    count: usize,
    before: &str,
    text: &str,
    after: &str,
) -> Result<String, OutOfMemory> {
    let mut all = String::new(alloc);
    for _ in 0..count {
        all.push_str(before)?;
    }
    all.push_str(text)?;
    for _ in 0..count {
        all.push_str(after)?;
    }
    Ok(all)
}

/// Each text is read, or is refused so.
fn check(rt: &impl Abort, alloc: Global, wanted: Option<VisError>, texts: &[&str]) {
    for text in texts {
        let found = Vis::parse(alloc, text.as_bytes()).err();
        assert_eq!(rt; found, wanted, "{text}");
    }
}

static READ: [&str; 11] = [
    "A",
    "az_AZ-09:./",
    "A&B&C",
    "A|B|C",
    "((A))",
    "(A&B)&C",
    "A&(B|C)",
    "(A&B)|(C&D)",
    "\"a b\"&\"()&|\"",
    "\"\\\"\\\\\"",
    "\"\u{e9}\"",
];

static IN_NO_GRAMMAR: [&str; 25] = [
    "A&",
    "|A",
    "A&&B",
    "A&|B",
    "\"\"",
    "\"A",
    "\"a\\n\"",
    "\"a\\",
    "A\\\"",
    "A\"b\"",
    "\"a\"b",
    "\u{e9}",
    "A B",
    " ",
    "A&\n B",
    "()",
    "(A",
    "A)",
    ")A",
    "A)(",
    "(A)(B)",
    "A(B)",
    "A&B|C&",
    "A&B|C)",
    "(A&B|C)&(D",
];

static MIXED: [&str; 5] = ["A&B|C", "A|B|C&D", "(A&B|C)", "(A|B&C)&D", "A|(B&(C|D&E))"];

#[test]
fn grammar(rt: HostRuntime) {
    check(&rt, rt.alloc(), None, &READ);
    check(&rt, rt.alloc(), Some(VisError::Syntax), &IN_NO_GRAMMAR);
    check(&rt, rt.alloc(), Some(VisError::Mixed), &MIXED);
}

#[test]
fn not_utf8(rt: HostRuntime) {
    let texts: [&[u8]; 3] = [b"\"\xff\"", b"A&\"\xc3\"", b"\x80"];
    for text in texts {
        assert_eq!(rt; Vis::parse(rt.alloc(), text).err(), Some(VisError::Syntax));
    }
    let mixed = b"A&B|\"\xff\"";
    assert_eq!(rt; Vis::parse(rt.alloc(), mixed).err(), Some(VisError::Syntax));
}

#[test]
fn limits(rt: HostRuntime) -> Result<(), Fail> {
    let alloc = rt.alloc();
    let long = framed(alloc, 512, "a", "", "")?;
    let longer = framed(alloc, 513, "(", "", "")?;
    let unclosed = framed(alloc, 512, "(", "", "")?;
    let deep = framed(alloc, 32, "(", "A", ")")?;
    let deeper = framed(alloc, 33, "(", "A", ")")?;
    let wide = framed(alloc, 33, "(A)&", "A", "&(A)")?;
    let closed_first = framed(alloc, 33, "(", "", "")?;
    let closed_first = framed(alloc, 1, ")", closed_first.as_str(), "")?;
    let quoted = framed(alloc, 33, "(", "", ")")?;
    let quoted = framed(alloc, 1, "\"\\\"", quoted.as_str(), "\"")?;
    let read = [long.as_str(), deep.as_str(), wide.as_str(), quoted.as_str()];
    check(&rt, alloc, None, &read);
    check(&rt, alloc, Some(VisError::TooLong), &[longer.as_str()]);
    let too_deep = [unclosed.as_str(), deeper.as_str()];
    check(&rt, alloc, Some(VisError::TooDeep), &too_deep);
    check(&rt, alloc, Some(VisError::Syntax), &[closed_first.as_str()]);
    Ok(())
}

/// Which of the texts one who has the names sees.
fn check_seen(
    rt: &impl Abort,
    alloc: Global,
    names: &[&str],
    cases: &[(&str, bool)],
) -> Result<(), VisError> {
    let auths = set_of(alloc, names)?;
    for (text, wanted) in cases {
        let vis = Vis::parse(alloc, text.as_bytes())?;
        assert_eq!(rt; vis.sees(&auths), *wanted, "{text}");
    }
    Ok(())
}

static SEEN_BY_NO_NAME: [(&str, bool); 2] = [("", true), ("A", false)];

static SEEN_BY_A: [(&str, bool); 6] = [
    ("", true),
    ("A", true),
    ("\"A\"", true),
    ("((A))", true),
    ("(A&B)|C", false),
    ("AA|a|B", false),
];

static SEEN_BY_A_AND_C: [(&str, bool); 6] = [
    ("(A&B)|C", true),
    ("(A&B)&C", false),
    ("A&(B|C)", true),
    ("B&(A|C)", false),
    ("B|A|D", true),
    ("A&C&B", false),
];

static SEEN_BY_OTHERS: [(&str, bool); 7] = [
    ("\"a b\"", true),
    ("\"a\"|b", false),
    ("\"a\\\"b\\\\c\"", true),
    ("\"a\\\\b\"", false),
    ("\"\u{e9}\"", true),
    ("\"e\"", false),
    ("a/b.c", true),
];

#[test]
fn seen_by_names(rt: HostRuntime) -> Result<(), Fail> {
    let alloc = rt.alloc();
    check_seen(&rt, alloc, &[], &SEEN_BY_NO_NAME)?;
    check_seen(&rt, alloc, &["A"], &SEEN_BY_A)?;
    check_seen(&rt, alloc, &["C", "A"], &SEEN_BY_A_AND_C)?;
    check_seen(&rt, alloc, &["C"], &[("(A&B)|C", true)])?;
    check_seen(&rt, alloc, &["B", "A"], &[("(A&B)|C", true)])?;
    let others = ["a b", "a\"b\\c", "\u{e9}", "a/b.c"];
    check_seen(&rt, alloc, &others, &SEEN_BY_OTHERS)?;
    Ok(())
}

#[test]
fn sets_of_names(rt: HostRuntime) -> Result<(), Fail> {
    let alloc = rt.alloc();
    let some = set_of(alloc, &["lab", "admin", "zoo", "lab", "b"])?;
    let others = set_of(alloc, &["zoo", "c", "lab"])?;
    let both = some.meet(alloc, &others)?;
    let copy = both.copy()?;
    let cases = [
        ("lab", true, true),
        ("admin", true, false),
        ("zoo", true, true),
        ("b", true, false),
        ("c", false, false),
        ("", false, false),
    ];
    for (name, in_some, in_both) in cases {
        assert_eq!(rt; some.has(name.as_bytes()), in_some, "{name}");
        assert_eq!(rt; both.has(name.as_bytes()), in_both, "{name}");
        assert_eq!(rt; copy.has(name.as_bytes()), in_both, "{name}");
    }
    Ok(())
}

#[test]
fn visibilities_are_their_texts(rt: HostRuntime) -> Result<(), Fail> {
    let alloc = rt.alloc();
    let empty = Vis::everyone(alloc);
    let plain = Vis::parse(alloc, b"A")?;
    let quoted = Vis::parse(alloc, b"\"A\"")?;
    let longer = Vis::parse(alloc, b"A&B")?;
    let copy = longer.copy()?;
    assert_eq!(rt; empty.text(), b"".as_slice());
    assert_eq!(rt; copy.text(), b"A&B".as_slice());
    assert_eq!(rt; copy, longer);
    assert_ne!(rt; plain, quoted);
    assert!(rt; empty < quoted && quoted < plain && plain < longer);
    Ok(())
}
