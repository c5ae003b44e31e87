use crate::{anchored, shards};
use dw_base::Text;
use dw_dict::{Dict, FieldRule};
use dw_eval::{NQuery, Truth, bind};
use dw_event::{Days, Listed, Types};
use dw_jexl::parse;
use dw_key::{Bytes, DType, Key, encode};
use dw_norm::{Kind, reversed};
use dw_outside::{Keeper, MemKeeper, Put, Reading};
use dw_vis::Auths;
use std::alloc::{AllocError, Global};
use std::test::Fail;

/// A cell of a global index, with its value forwards.
#[derive(Clone, Copy)]
struct IndexCell {
    table: u8,
    value: &'static str,
    field: &'static str,
    shard: &'static str,
    dtype: &'static str,
    vis: &'static str,
}

fn row(
    table: u8,
    value: &'static str,
    field: &'static str,
    shard: &'static str,
    dtype: &'static str,
    vis: &'static str,
) -> IndexCell {
    IndexCell {
        table,
        value,
        field,
        shard,
        dtype,
        vis,
    }
}

fn put_of(alloc: Global, row: &IndexCell, content: &[u8]) -> Result<Put, Fail> {
    let mut qualifier = Vec::from_slice(alloc, row.shard.as_bytes())?;
    qualifier.push(0)?;
    qualifier.extend_from_slice(row.dtype.as_bytes())?;
    let value = if row.table == 2 {
        reversed(alloc, row.value)?
    } else {
        String::from_str(alloc, row.value)?
    };
    let key = Key {
        row: Bytes::of(alloc, value.as_bytes())?,
        family: Bytes::of(alloc, row.field.as_bytes())?,
        qualifier: Bytes::from_vec(qualifier),
        vis: Bytes::of(alloc, row.vis.as_bytes())?,
        stamp: 0,
    };
    Ok(Put {
        table: row.table,
        key: encode(alloc, &key)?,
        content: Bytes::of(alloc, content)?,
    })
}

/// A keeper with the rows whose bit is set.
fn keeper_of(
    alloc: Global,
    rows: &[IndexCell],
    chosen: u64,
    content: &[u8],
) -> Result<MemKeeper, Fail> {
    let mut keeper = MemKeeper::new(alloc, Vec::new(alloc));
    let mut left = chosen;
    for row in rows {
        if left % 2 == 1 && row.table <= 3 {
            let put = put_of(alloc, row, content)?;
            if put.table <= 3 {
                let puts = vec![in alloc; put]?;
                if keeper.apply(puts.as_slice()).is_err() {
                    return Err(Fail::from("no apply"));
                }
            }
        }
        left /= 2;
    }
    Ok(keeper)
}

fn days_of(alloc: Global, first: &str, last: &str) -> Result<Days, AllocError> {
    Ok(Days {
        first: Text::of(alloc, first)?,
        last: Text::of(alloc, last)?,
    })
}

/// The names of the shards with a blank between them, or None of a query that is not anchored.
fn planned(
    alloc: Global,
    keeper: &mut MemKeeper,
    query: &NQuery,
    auths: &Auths,
    days: &Days,
    types: &Types,
) -> Result<Option<String>, Fail> {
    if !anchored(query) {
        return Ok(None);
    }
    let found = shards(alloc, keeper, query, auths, days, types)?;
    let mut names = String::new(alloc);
    for name in found.as_slice() {
        names.push_str(name.as_str())?;
        names.push(' ')?;
    }
    Ok(Some(names))
}

/// Fields of the kind NOOP or TEXT, each with whether it is reversed. Any other is not defined.
fn dictionary(alloc: Global, fields: &[(&str, Kind, bool)]) -> Result<Dict, Fail> {
    let mut dict = Dict::new(alloc);
    for (name, kind, reversed) in fields {
        let rule = FieldRule::of(*kind, true, *reversed).ok_or("no rule")?;
        dict.define(name, rule)?;
    }
    Ok(dict)
}

/// A query on A, which is not reversed, and NAME, which is.
fn bound(alloc: Global, text: &str) -> Result<NQuery, Fail> {
    let fields = [("A", Kind::Noop, false), ("NAME", Kind::Text, true)];
    bound_by(alloc, &dictionary(alloc, &fields)?, text)
}

fn bound_by(alloc: Global, dict: &Dict, text: &str) -> Result<NQuery, Fail> {
    let Ok(query) = parse(alloc, text) else {
        return Err(Fail::from("no query"));
    };
    match bind(alloc, &query, dict) {
        Ok(query) => Ok(query),
        Err(_) => Err(Fail::from("a literal")),
    }
}

/// Two shards of one day, whose order by bytes is not that by numbers, and one name with its reversal.
fn examples() -> [IndexCell; 8] {
    [
        row(1, "x", "A", "20240101_2", "lab", ""),
        row(1, "x", "A", "20240101_10", "lab", ""),
        row(1, "x", "A", "20240103_0", "lab", ""),
        row(1, "y", "A", "20240101_2", "web", ""),
        row(1, "jackson", "NAME", "20240101_7", "lab", ""),
        row(2, "jackson", "NAME", "20240101_7", "lab", ""),
        row(1, "x", "A", "20240101_100", "lab", ""),
        row(1, "x", "A", "20240101_3", "lab", "S"),
    ]
}

#[test]
fn anchored_queries_lead_to_their_shards(rt: HostRuntime) -> Result<(), Fail> {
    let alloc = rt.alloc();
    let cases = [
        ("!(A == 'x')", None),
        ("A =~ '.*x.*'", None),
        ("A >= 'x'", None),
        ("A == 'x' || U == '2'", None),
        ("A =~ '.*son'", None),
        ("A == 'x'", Some("20240101_10 20240101_2 ")),
        ("A == 'x' && U == '2'", Some("20240101_10 20240101_2 ")),
        ("!(!(A == 'x'))", Some("20240101_10 20240101_2 ")),
        ("A == 'x' && A == 'y'", Some("20240101_2 ")),
        (
            "A == 'x' || NAME == 'JACKSON'",
            Some("20240101_10 20240101_2 20240101_7 "),
        ),
        ("NAME =~ '.*SON'", Some("20240101_7 ")),
        ("NAME =~ 'jack.*' && A == 'x'", Some("")),
        ("A == 'z'", Some("")),
    ];
    // A list of 51 uids is counted, and a bad one is read no further.
    for content in [
        b"\x02\x01\x00\x00\x00\x00\x00\x00\x00\x33".as_slice(),
        b"".as_slice(),
    ] {
        let mut keeper = keeper_of(alloc, &examples(), u64::MAX, content)?;
        let days = days_of(alloc, "20240101", "20240102")?;
        for (text, wanted) in cases {
            let query = bound(alloc, text)?;
            let names = planned(
                alloc,
                &mut keeper,
                &query,
                &Auths::new(alloc),
                &days,
                &Types::All,
            )?;
            match (names, wanted) {
                (None, None) => {}
                (Some(names), Some(wanted)) => assert_eq!(rt; names.as_str(), wanted, "{text}"),
                _ => return Err(Fail::from("anchored or not")),
            }
        }
    }
    Ok(())
}

/// Adds bytes, the byte 0 as `~` and the byte 1 as `^`.
fn put_shown(out: &mut String, bytes: &[u8]) -> Result<(), AllocError> {
    for byte in bytes {
        out.push(match *byte {
            0 => '~',
            1 => '^',
            byte => char::from(byte),
        })?;
    }
    Ok(())
}

/// Reads, each as its table and its two ends.
fn shown_reads(alloc: Global, reads: &[Reading]) -> Result<String, AllocError> {
    let mut shown = String::new(alloc);
    for read in reads {
        shown.push(if read.table == 1 { '1' } else { '2' })?;
        shown.push(' ')?;
        put_shown(&mut shown, read.from.as_slice())?;
        shown.push(' ')?;
        put_shown(&mut shown, read.before.as_slice())?;
        shown.push(';')?;
    }
    Ok(shown)
}

/// Plans a query over the keeper for one who holds no names.
fn plan_all(alloc: Global, keeper: &mut MemKeeper, text: &str) -> Result<(), Fail> {
    let query = bound(alloc, text)?;
    let days = days_of(alloc, "20240101", "20240102")?;
    let auths = Auths::new(alloc);
    let _names = planned(alloc, keeper, &query, &auths, &days, &Types::All)?;
    Ok(())
}

/// The reads that a query makes.
fn reads_of(alloc: Global, text: &str) -> Result<String, Fail> {
    let mut keeper = keeper_of(alloc, &examples(), u64::MAX, b"")?;
    plan_all(alloc, &mut keeper, text)?;
    let shown = shown_reads(alloc, keeper.reads())?;
    Ok(shown)
}

#[test]
fn each_anchor_reads_what_can_meet_it(rt: HostRuntime) -> Result<(), Fail> {
    let alloc = rt.alloc();
    let x = "1 x~~A~~20240101 x~~A~~20240103;";
    let z = "1 z~~A~~20240101 z~~A~~20240103;";
    let x_and_z = "1 x~~A~~20240101 x~~A~~20240103;1 z~~A~~20240101 z~~A~~20240103;";
    let cases = [
        ("A == 'x'", x),
        ("((_Bounded_ = true) && (A > 'a' && A < 'c'))", "1 a~^ c~~;"),
        (
            "((_Bounded_ = true) && (A >= 'a' && A <= 'c'))",
            "1 a~~ c~^;",
        ),
        ("NAME =~ 'jack.*'", "1 jack jacl;"),
        ("NAME =~ '.*son'", "2 nos not;"),
        // The first is empty, so the second is not read.
        ("A == 'z' && A == 'x'", z),
        ("A == 'x' && A == 'z'", x_and_z),
        ("A == 'x' || A == 'z'", x_and_z),
        // Nothing is known of a field without an index, of one side alone, or under a Not.
        ("U == 'x' && A >= 'a' && !(A == 'z') && A == 'x'", x),
        ("A == 'x' && (A == 'z' || U == 'x')", x),
        ("A == 'x' && !(!(A == 'z') || U == 'x')", x_and_z),
    ];
    for (text, wanted) in cases {
        let shown = reads_of(alloc, text)?;
        assert_eq!(rt; shown.as_str(), wanted, "{text}");
    }
    Ok(())
}

/// The names of their shards, ascending by bytes. The last but two is no name of a shard.
const SHARDS: [&str; 6] = [
    "20231231_15",
    "20240101_1",
    "20240101_10",
    "20240101_100",
    "20240101_2",
    "20240102_0",
];

const VALUES: [&str; 4] = ["ab", "ba", "b", "abb"];

const VISIBILITIES: [&str; 7] = ["", "S", "", "T", "S|T", "S&T", "bad("];

/// A cell of those of which each small store has some, by its number.
fn candidate(number: usize) -> IndexCell {
    IndexCell {
        table: if number % 3 == 2 { 2 } else { 1 },
        value: VALUES[number % 4],
        field: if number % 5 < 3 { "A" } else { "B" },
        shard: SHARDS[number / 2 % 6],
        dtype: if number % 4 == 1 { "web" } else { "lab" },
        vis: VISIBILITIES[number % 7],
    }
}

fn candidates(alloc: Global) -> Result<Vec<IndexCell>, AllocError> {
    let mut cells = Vec::new(alloc);
    for number in 0..40 {
        cells.push(candidate(number))?;
    }
    Ok(cells)
}

/// The next of a sequence of numbers (Knuth's MMIX).
fn next(state: &mut u64) -> u64 {
    *state = state
        .wrapping_mul(6_364_136_223_846_793_005)
        .wrapping_add(1_442_695_040_888_963_407);
    *state >> 33
}

fn pick(state: &mut u64, words: &[&'static str]) -> &'static str {
    let at = next(state) as usize;
    if words.is_empty() {
        return "";
    }
    words[at % words.len()]
}

/// B is not reversed, and C has no index.
const LEAVES: [&str; 15] = [
    "A == 'ab'",
    "B == 'b'",
    "A == 'ba'",
    "C == 'b'",
    "A =~ 'ab.*'",
    "B =~ 'b.*'",
    "A =~ '.*b'",
    "A =~ '.*bb'",
    "B =~ '.*b'",
    "A =~ '.*b.*'",
    "A >= 'b'",
    "((_Bounded_ = true) && (A > 'ab' && A < 'b'))",
    "((_Bounded_ = true) && (A >= 'ab' && A <= 'b'))",
    "((_Bounded_ = true) && (B > 'abb' && B <= 'ba'))",
    "((_Bounded_ = true) && (B >= 'b' && B < 'ba'))",
];

/// The text of a query of up to four leaves.
fn shape(alloc: Global, state: &mut u64) -> Result<String, AllocError> {
    let a = pick(state, &LEAVES);
    let b = pick(state, &LEAVES);
    let c = pick(state, &LEAVES);
    let d = pick(state, &LEAVES);
    match next(state) % 8 {
        0 => format!(in alloc; "{a}"),
        1 => format!(in alloc; "{a} && {b}"),
        2 => format!(in alloc; "{a} || {b}"),
        3 => format!(in alloc; "{a} && !({b})"),
        4 => format!(in alloc; "({a} || {b}) && ({c} || {d})"),
        5 => format!(in alloc; "{a} && {b} || {c} && {d}"),
        6 => format!(in alloc; "!(!({a}) || !({b}) && {c})"),
        _ => format!(in alloc; "!(!({a}) && !({b} || {c}))"),
    }
}

/// Whether a value meets a leaf.
fn meets(query: &NQuery, value: &str) -> bool {
    match query {
        NQuery::Equal { value: wanted, .. } => value == wanted.as_str(),
        NQuery::Between {
            low,
            low_edge,
            high,
            high_edge,
            ..
        } => {
            let (low, high) = (low.as_str(), high.as_str());
            (low < value || (*low_edge && low == value))
                && (value < high || (*high_edge && value == high))
        }
        NQuery::Starts { text, .. } => value.starts_with(text.as_str()),
        NQuery::Ends { text, .. } => value.ends_with(text.as_str()),
        _ => false,
    }
}

/// A leaf that is an anchor is No where no cell of its table meets it.
fn leaf_truth(
    query: &NQuery,
    anchor: bool,
    table: u8,
    field: &Text,
    seen: &[IndexCell],
    shard: &str,
) -> Truth {
    if !anchor {
        return Truth::Unknown;
    }
    for cell in seen {
        if cell.table == table
            && cell.shard == shard
            && cell.field == field.as_str()
            && meets(query, cell.value)
        {
            return Truth::Unknown;
        }
    }
    Truth::No
}

/// The value of a query for a shard, by the cells that are seen of the types that are asked for.
fn truth(query: &NQuery, positive: bool, seen: &[IndexCell], shard: &str) -> Truth {
    match query {
        NQuery::Equal { field, rule, .. } => {
            leaf_truth(query, positive && rule.indexed, 1, field, seen, shard)
        }
        NQuery::Between { field, rule, .. } => {
            leaf_truth(query, positive && rule.indexed, 1, field, seen, shard)
        }
        NQuery::Starts { field, rule, .. } => {
            leaf_truth(query, positive && rule.indexed, 1, field, seen, shard)
        }
        NQuery::Ends { field, rule, .. } => {
            leaf_truth(query, positive && rule.reversed, 2, field, seen, shard)
        }
        NQuery::Not(child) => match truth(child.get(), !positive, seen, shard) {
            Truth::No => Truth::Yes,
            Truth::Unknown => Truth::Unknown,
            Truth::Yes => Truth::No,
        },
        NQuery::And(children) => {
            let mut least = Truth::Yes;
            for child in children.as_slice() {
                match truth(child, positive, seen, shard) {
                    Truth::No => least = Truth::No,
                    Truth::Unknown if least == Truth::Yes => least = Truth::Unknown,
                    _ => {}
                }
            }
            least
        }
        NQuery::Or(children) => {
            let mut greatest = Truth::No;
            for child in children.as_slice() {
                match truth(child, positive, seen, shard) {
                    Truth::Yes => greatest = Truth::Yes,
                    Truth::Unknown if greatest == Truth::No => greatest = Truth::Unknown,
                    _ => {}
                }
            }
            greatest
        }
        _ => Truth::Unknown,
    }
}

/// The cells of those chosen that one sees who has the name S, or the name T.
fn seen_cells(
    alloc: Global,
    chosen: u64,
    has_s: bool,
    has_t: bool,
) -> Result<Vec<IndexCell>, Fail> {
    let mut seen = Vec::new(alloc);
    let mut left = chosen;
    for cell in &candidates(alloc)? {
        let open = match cell.vis {
            "" => true,
            "S" => has_s,
            "T" => has_t,
            "S|T" => has_s || has_t,
            "S&T" => has_s && has_t,
            _ => false,
        };
        if left % 2 == 1 && open {
            seen.push(*cell)?;
        }
        left /= 2;
    }
    Ok(seen)
}

/// The hit shards by their definition.
fn plainly(
    alloc: Global,
    query: &NQuery,
    seen: &[IndexCell],
    labs: bool,
    first: &str,
    last: &str,
) -> Result<String, Fail> {
    let mut wanted = Vec::new(alloc);
    for cell in seen {
        if !labs || cell.dtype == "lab" {
            wanted.push(*cell)?;
        }
    }
    let mut names = String::new(alloc);
    for shard in SHARDS {
        let day = shard.split('_').next().unwrap_or("");
        let named = seen.iter().any(|cell| cell.shard == shard);
        let good = shard.len() <= 11 && first <= day && day <= last;
        if good && named && truth(query, true, wanted.as_slice(), shard) != Truth::No {
            names.push_str(shard)?;
            names.push(' ')?;
        }
    }
    Ok(names)
}

/// Who asks, and for what.
#[derive(Drop)]
struct Asker {
    auths: Auths,
    types: Types,
    has_s: bool,
    has_t: bool,
    labs: bool,
    first: &'static str,
    last: &'static str,
}

fn auths_of(alloc: Global, has_s: bool, has_t: bool) -> Result<Auths, AllocError> {
    let mut auths = Auths::new(alloc);
    if has_s {
        auths.add("S")?;
    }
    if has_t {
        auths.add("T")?;
    }
    Ok(auths)
}

fn types_of(alloc: Global, labs: bool) -> Result<Types, Fail> {
    if !labs {
        return Ok(Types::All);
    }
    let mut types = Listed::new(alloc);
    types.put(DType::of(b"lab").ok_or("no type")?)?;
    Ok(Types::Only { types })
}

fn drawn_asker(alloc: Global, state: &mut u64) -> Result<Asker, Fail> {
    let days = ["20231231", "20240101", "20240102"];
    let (has_s, has_t) = (next(state) % 2 == 0, next(state) % 2 == 0);
    let labs = next(state) % 2 == 0;
    Ok(Asker {
        auths: auths_of(alloc, has_s, has_t)?,
        types: types_of(alloc, labs)?,
        has_s,
        has_t,
        labs,
        first: pick(state, &days),
        last: pick(state, &days),
    })
}

/// What is planned, and the hit shards by their definition, of a query that is anchored.
fn compared(
    alloc: Global,
    query: &NQuery,
    chosen: u64,
    asker: &Asker,
) -> Result<Option<(String, String)>, Fail> {
    let days = days_of(alloc, asker.first, asker.last)?;
    let mut keeper = keeper_of(alloc, candidates(alloc)?.as_slice(), chosen, b"")?;
    let planned = planned(alloc, &mut keeper, query, &asker.auths, &days, &asker.types)?;
    let seen = seen_cells(alloc, chosen, asker.has_s, asker.has_t)?;
    let plain = plainly(
        alloc,
        query,
        seen.as_slice(),
        asker.labs,
        asker.first,
        asker.last,
    )?;
    match planned {
        None => Ok(None),
        Some(planned) => Ok(Some((planned, plain))),
    }
}

#[test]
fn plans_are_the_hit_shards_of_small_stores(rt: HostRuntime) -> Result<(), Fail> {
    let alloc = rt.alloc();
    let dict = dictionary(alloc, &[("A", Kind::Noop, true), ("B", Kind::Noop, false)])?;
    let mut state = 7;
    let mut anchored = 0u32;
    for _round in 0..1_500 {
        let text = shape(alloc, &mut state)?;
        let query = bound_by(alloc, &dict, text.as_str())?;
        let asker = drawn_asker(alloc, &mut state)?;
        let chosen = next(&mut state) ^ (next(&mut state) << 20);
        if let Some((planned, plain)) = compared(alloc, &query, chosen, &asker)? {
            assert_eq!(rt; planned.as_str(), plain.as_str(), "{text}");
            anchored = anchored.saturating_add(1);
        }
    }
    assert!(rt; anchored > 500);
    Ok(())
}
