//! Batches of a shard beside the plain answer of its events.

ghost use Rattle.std.specs.Prelude.{◌≡◌, ◌≤◌, ◌<◌, IsTrue, IfOk};
ghost use Rattle.dw_plan.specs.Anchored.{anchored as is_anchored};
ghost use Rattle.dw_plan.specs.PlanLaws.{is_ruled};

use crate::tests::{cell, load, store};
use crate::{Ask, Batch, OutOfMemory, Resume, scan_batch};
use dw_base::{Listed, Text};
use dw_dict::{Dict, FieldRule};
use dw_eval::{NQuery, NView, bind, satisfies};
use dw_event::{Cells, Event, EventCell, Types, View, view};
use dw_iter::EqualLeaf;
use dw_jexl::parse;
use dw_key::{DType, DocKey};
use dw_nest::{DocIter, Top};
use dw_norm::Kind;
use dw_outside::MemKeeper;
use dw_plan::{anchored, bound_are_ruled};
use dw_tablet::{Steps, Tablet};
use dw_vis::Auths;
use std::alloc::{AllocError, Global};
use std::marker::Brand;
use std::process::Abort;
use std::sync::ledger::{Blank, Ledger};
use std::test::Fail;

const SHARD: &str = "20240101_0";

/// An ask that can be searched for.
#[derive(Drop)]
struct Anchored {
    ask: Ask,
    ghost anchored: { IsTrue (is_anchored ask.query) },
    ghost ruled: { IsTrue (is_ruled ask.dict ask.query) },
}

/// A query that is bound, which has the rules of its dictionary.
fn bound_query(alloc: Global, text: &str, dict: &Dict) -> Result<NQuery, Fail>
    ensures { IfOk result (λ q. IsTrue (is_ruled dict.now q)) }
{
    bound_are_ruled();
    let Ok(query) = parse(alloc, text) else {
        return Err(Fail::from("no query"));
    };
    match bind(alloc, &query, dict) {
        Ok(query) => Ok(query),
        Err(_) => Err(Fail::from("a literal")),
    }
}

/// Who asks, and of what.
#[derive(Drop)]
struct Asker {
    dict: Dict,
    auths: Auths,
    snapshot: u64,
    types: Types,
}

fn ask_of(asker: &Asker, query: NQuery) -> Result<Ask, OutOfMemory>
    ensures query { IfOk result (λ a. a.query ≡ query) }
    ensures dict { IfOk result (λ a. a.dict ≡ asker.now.dict) }
{
    Ok(Ask {
        query,
        dict: asker.dict.copy()?,
        auths: asker.auths.copy()?,
        snapshot: asker.snapshot,
        types: asker.types.copy()?,
    })
}

/// None of a query that no index leads to.
fn anchored_ask(alloc: Global, asker: &Asker, text: &str) -> Result<Option<Anchored>, Fail> {
    let query = bound_query(alloc, text, &asker.dict)?;
    if !anchored(&query) {
        return Ok(None);
    }
    let ask = ask_of(asker, query)?;
    Ok(Some(Anchored { ask }))
}

fn scan_counted<L: Ledger>(
    alloc: Global,
    tablet: &Tablet,
    of: &Anchored,
    resume: &Resume,
    budget: u32,
    want: u32,
    blank: Blank,
) -> Result<Batch, OutOfMemory>
    requires shard { resume.now.shard ≡ tablet.now.shard }
    requires budget { 1 ≤ budget }
    requires want { 1 ≤ want }
    requires named { blank.name ≡ L.name }
    requires parts { blank.parts ≡ L.parts }
    requires some { 0 < blank.parts }
{
    let mut steps = Steps::<L>::new(blank);
    scan_batch(alloc, tablet, &of.ask, resume, budget, want, &mut steps)
}

fn scan_quietly(
    alloc: Global,
    tablet: &Tablet,
    of: &Anchored,
    resume: &Resume,
    budget: u32,
    want: u32,
) -> Result<Batch, OutOfMemory>
    requires shard { resume.now.shard ≡ tablet.now.shard }
    requires budget { 1 ≤ budget }
    requires want { 1 ≤ want }
{
    scan_counted::<Brand>(alloc, tablet, of, resume, budget, want, Blank::new(1))
}

/// The batch after a key.
fn batch_after(
    alloc: Global,
    tablet: &Tablet,
    of: &Anchored,
    after: Option<DocKey>,
    budget: u32,
    want: u32,
) -> Result<Batch, Fail> {
    if budget == 0 || want == 0 {
        return Err(Fail::from("no batch"));
    }
    let shard = tablet.shard().copy()?;
    let resume = Resume { shard, after };
    let batch = scan_quietly(alloc, tablet, of, &resume, budget, want)?;
    Ok(batch)
}

fn key_of(dtype: &str, number: u8) -> Result<DocKey, Fail> {
    let dtype = DType::of(dtype.as_bytes()).ok_or("no type")?;
    let mut uid = [0u8; 32];
    uid[31] = number;
    Ok(DocKey { dtype, uid })
}

/// Puts a key, and the values that are seen under it.
fn put_shown(out: &mut String, key: &DocKey, view: &View) -> Result<(), AllocError> {
    for byte in key.dtype.as_slice() {
        out.push(char::from(*byte))?;
    }
    out.push(char::from(b'0'.wrapping_add(key.uid[31])))?;
    for pair in view.as_slice() {
        out.push(' ')?;
        out.push_str(pair.field.as_str())?;
        out.push_str(pair.raw.as_str())?;
    }
    out.push(';')?;
    Ok(())
}

fn put_found(out: &mut String, batch: &Batch) -> Result<(), AllocError> {
    for item in batch.found.as_slice() {
        put_shown(out, &item.key, &item.view)?;
    }
    Ok(())
}

/// Whether an event answers, by its definition: its values that are seen satisfy the query.
fn seen_answer(alloc: Global, ask: &Ask, event: &Event) -> Result<Option<View>, Fail> {
    let seen = view(alloc, event, &ask.auths)?;
    let values = NView::of(alloc, &seen, &ask.dict)?;
    if event.batch > ask.snapshot
        || !ask.types.want(&event.key.dtype)
        || !satisfies(&ask.query, &values)
    {
        return Ok(None);
    }
    Ok(Some(seen))
}

fn is_past(key: &DocKey, after: &Option<DocKey>) -> bool {
    match after {
        None => true,
        Some(after) => after.cmp(key).is_lt(),
    }
}

/// The answer after a key, of events in the order of their keys.
fn plain_answer(
    alloc: Global,
    ask: &Ask,
    events: &[Event],
    after: &Option<DocKey>,
) -> Result<String, Fail> {
    let mut out = String::new(alloc);
    for event in events {
        if is_past(&event.key, after) {
            if let Some(seen) = seen_answer(alloc, ask, event)? {
                put_shown(&mut out, &event.key, &seen)?;
            }
        }
    }
    Ok(out)
}

/// A rule for each field but C, which has no index.
fn dictionary(alloc: Global) -> Result<Dict, Fail> {
    let fields = [
        ("A", Kind::Noop, true),
        ("B", Kind::Text, false),
        ("N", Kind::Number, false),
    ];
    let mut dict = Dict::new(alloc);
    for (name, kind, reversed) in fields {
        let rule = FieldRule::of(kind, true, reversed).ok_or("no rule")?;
        dict.define(name, rule)?;
    }
    Ok(dict)
}

/// The events of one shard in the order of their keys, and their cells.
#[derive(Drop)]
struct Archive {
    events: Vec<Event>,
    keeper: MemKeeper,
}

fn archive_of(alloc: Global, events: Vec<Event>, dict: &Dict) -> Result<Archive, Fail> {
    let mut keeper = MemKeeper::new(alloc, Vec::new(alloc));
    for event in &events {
        store(alloc, &mut keeper, event, dict)?;
    }
    Ok(Archive { events, keeper })
}

/// What a search may do: the documents of a batch, the events of a batch, and the cells of a load, or 0 where the shard
/// is loaded whole.
#[derive(Clone, Copy)]
struct Allowed {
    budget: u32,
    want: u32,
    run: u32,
}

/// A tablet that is loaded whole where runs have no limit, and else holds nothing.
fn tablet_of(alloc: Global, archive: &mut Archive, run: u32) -> Result<Tablet, Fail> {
    let mut tablet = Tablet::empty(alloc, &Text::of(alloc, SHARD)?)?;
    if run == 0 {
        load(&mut archive.keeper, &mut tablet, b"20240101_0\x00\x00", 0)?;
    }
    Ok(tablet)
}

/// Loads what a batch lacks.
fn load_missing(
    archive: &mut Archive,
    tablet: &mut Tablet,
    batch: &Batch,
    run: u32,
) -> Result<(), Fail> {
    match &batch.missing {
        None => Ok(()),
        Some(place) => {
            if tablet.covers(place.as_slice()) {
                return Err(Fail::from("it is covered"));
            }
            load(&mut archive.keeper, tablet, place.as_slice(), run)
        }
    }
}

/// The batch after a key, which puts what it finds.
fn put_batch(
    alloc: Global,
    tablet: &Tablet,
    of: &Anchored,
    after: Option<DocKey>,
    allowed: Allowed,
    out: &mut String,
) -> Result<Batch, Fail> {
    let batch = batch_after(alloc, tablet, of, after, allowed.budget, allowed.want)?;
    put_found(out, &batch)?;
    Ok(batch)
}

/// The key to go on after, or None at the end.
fn next_after(batch: &Batch) -> Option<Option<DocKey>> {
    if batch.ended {
        return None;
    }
    Some(batch.resume.after)
}

/// What batch after batch finds, in no more than so many turns.
fn all_turns(
    alloc: Global,
    archive: &mut Archive,
    of: &Anchored,
    after: Option<DocKey>,
    allowed: Allowed,
    turns: u32,
) -> Result<String, Fail> {
    let mut tablet = tablet_of(alloc, archive, allowed.run)?;
    let mut out = String::new(alloc);
    let mut after = after;
    for _turn in 0..turns {
        let batch = put_batch(alloc, &tablet, of, after, allowed, &mut out)?;
        load_missing(archive, &mut tablet, &batch, allowed.run)?;
        match next_after(&batch) {
            None => return Ok(out),
            Some(key) => after = key,
        }
    }
    Err(Fail::from("too many turns"))
}

fn event_of(alloc: Global, number: u8, cells: &[(&str, &str, &str)]) -> Result<Event, Fail> {
    let mut listed = Vec::new(alloc);
    for (field, raw, vis) in cells {
        listed.push(cell(alloc, field, raw, vis)?)?;
    }
    Ok(Event {
        shard: Text::of(alloc, SHARD)?,
        key: key_of("lab", number)?,
        cells: Cells::from_vec(listed),
        batch: 1,
    })
}

/// A, B and C are indexed. The first event shows C to S alone, the third shows B to S alone.
fn nested(alloc: Global) -> Result<Archive, Fail> {
    let mut events = Vec::new(alloc);
    events.push(event_of(alloc, 1, &[("A", "1", ""), ("C", "3", "S")])?)?;
    events.push(event_of(alloc, 2, &[("A", "1", ""), ("C", "3", "")])?)?;
    events.push(event_of(alloc, 3, &[("A", "1", ""), ("B", "2", "S"), ("C", "3", "")])?)?;
    archive_of(alloc, events, &nested_dictionary(alloc)?)
}

fn nested_dictionary(alloc: Global) -> Result<Dict, Fail> {
    let mut dict = Dict::new(alloc);
    for name in ["A", "B", "C"] {
        let rule = FieldRule::of(Kind::Noop, true, false).ok_or("no rule")?;
        dict.define(name, rule)?;
    }
    Ok(dict)
}

/// The names of one letter that stand in a text.
fn auths_of(alloc: Global, names: &str) -> Result<Auths, AllocError> {
    let mut auths = Auths::new(alloc);
    for name in ["S", "T"] {
        if names.contains(name) {
            auths.add(name)?;
        }
    }
    Ok(auths)
}

fn nested_ask(alloc: Global, names: &str) -> Result<Anchored, Fail> {
    let asker = Asker {
        dict: nested_dictionary(alloc)?,
        auths: auths_of(alloc, names)?,
        snapshot: 1,
        types: Types::All,
    };
    let asked = anchored_ask(alloc, &asker, "A == '1' && !(B == '2' || !(C == '3'))")?;
    Ok(asked.ok_or("not anchored")?)
}

/// What a batch finds, the uid that it goes on after, and whether it ended.
fn shown(alloc: Global, batch: &Batch) -> Result<String, AllocError> {
    let mut out = String::new(alloc);
    put_found(&mut out, batch)?;
    if let Some(key) = &batch.resume.after {
        out.push(char::from(b'0'.wrapping_add(key.uid[31])))?;
    }
    out.push_str(if batch.ended { " ended" } else { "" })?;
    Ok(out)
}

/// For one who holds a name: the uid to go on after, the documents that may be read, and what the batch is.
const NESTED: [(bool, u8, u32, &str); 9] = [
    // Of one step: the first event, whose C is hidden, is no candidate.
    (false, 0, 1, "lab2 A1 C3;2"),
    (false, 1, 1, "lab2 A1 C3;2"),
    (false, 2, 1, "lab3 A1 C3;3 ended"),
    (false, 0, 2, "lab2 A1 C3;lab3 A1 C3;3 ended"),
    (false, 3, 1, "3 ended"),
    (false, 9, 1, "9 ended"),
    // The third, whose B excludes it, is answered by the index: its document is not read.
    (true, 0, 2, "lab1 A1 C3;lab2 A1 C3;2 ended"),
    (true, 0, 1, "lab1 A1 C3;1"),
    (true, 2, 1, "2 ended"),
];

/// The batch of the nested query after a uid.
fn nested_batch(
    alloc: Global,
    tablet: &Tablet,
    named: bool,
    after: u8,
    budget: u32,
) -> Result<Batch, Fail> {
    let names = if named { "S" } else { "" };
    let of = nested_ask(alloc, names)?;
    let key = key_of("lab", after)?;
    batch_after(alloc, tablet, &of, Some(key), budget, 10)
}

fn check_nested(
    rt: &impl Abort,
    alloc: Global,
    tablet: &Tablet,
    case: (bool, u8, u32, &str),
) -> Result<(), Fail> {
    let batch = nested_batch(alloc, tablet, case.0, case.1, case.2)?;
    let text = shown(alloc, &batch)?;
    assert_eq!(rt; text.as_str(), case.3);
    Ok(())
}

/// The tablet of all cells.
fn nested_tablet(alloc: Global) -> Result<Tablet, Fail> {
    let mut archive = nested(alloc)?;
    tablet_of(alloc, &mut archive, 0)
}

#[test]
fn a_batch_reads_its_candidates_alone(rt: HostRuntime) -> Result<(), Fail> {
    let alloc = rt.alloc();
    let tablet = nested_tablet(alloc)?;
    for case in NESTED {
        check_nested(&rt, alloc, &tablet, case)?;
    }
    Ok(())
}

/// The uids that an iterator goes through.
fn uids_of<I: DocIter>(alloc: Global, leaf: &mut I) -> Result<String, AllocError> {
    let mut out = String::new(alloc);
    for _key in 0..4 {
        if let Top::Key(key) = leaf.top() {
            out.push(char::from(b'0'.wrapping_add(key.uid[31])))?;
            leaf.next();
        }
    }
    Ok(out)
}

/// Those of the documents that show C with the value 3 to one who holds the names.
fn uids_seen(alloc: Global, names: &str) -> Result<String, Fail> {
    let tablet = nested_tablet(alloc)?;
    let auths = auths_of(alloc, names)?;
    let mut leaf = EqualLeaf::new(&tablet, "C", "3", &Types::All, &auths, 1);
    let uids = uids_of(alloc, &mut leaf)?;
    Ok(uids)
}

#[test]
fn an_iterator_goes_through_what_is_seen(rt: HostRuntime) -> Result<(), Fail> {
    let alloc = rt.alloc();
    let some = uids_seen(alloc, "")?;
    assert_eq!(rt; some.as_str(), "23");
    let all = uids_seen(alloc, "S")?;
    assert_eq!(rt; all.as_str(), "123");
    Ok(())
}

/// The next of a sequence of numbers (Knuth's MMIX).
fn next(state: &mut u64) -> u64 {
    *state = state
        .wrapping_mul(6_364_136_223_846_793_005)
        .wrapping_add(1_442_695_040_888_963_407);
    *state >> 33
}

fn pick(state: &mut u64, words: &[&'static str]) -> &'static str {
    let at = next(state) as usize;
    if words.is_empty() {
        return "";
    }
    words[at % words.len()]
}

fn drawn_cell(alloc: Global, state: &mut u64) -> Result<EventCell, Fail> {
    let field = pick(state, &["A", "B", "N", "C"]);
    let raw = match field {
        "N" => pick(state, &["1", "2", "2.0", "37", "no"]),
        _ => pick(state, &["ab", "ba", "b", "abb"]),
    };
    let vis = pick(state, &["", "S", "", "T", "S|T", "S&T"]);
    cell(alloc, field, raw, vis)
}

fn drawn_cells(alloc: Global, state: &mut u64) -> Result<Cells, Fail> {
    let mut cells = Vec::new(alloc);
    for _cell in 0..1 + next(state) % 4 {
        cells.push(drawn_cell(alloc, state)?)?;
    }
    Ok(Cells::from_vec(cells))
}

fn drawn_event(alloc: Global, state: &mut u64, key: DocKey) -> Result<Event, Fail> {
    Ok(Event {
        shard: Text::of(alloc, SHARD)?,
        key,
        cells: drawn_cells(alloc, state)?,
        batch: 1 + next(state) % 3,
    })
}

/// Up to eight events of two types, of even uids.
fn drawn_events(alloc: Global, state: &mut u64) -> Result<Vec<Event>, Fail> {
    let mut events = Vec::new(alloc);
    for dtype in ["lab", "web"] {
        for number in 0..4 {
            if next(state) % 3 != 0 {
                let key = key_of(dtype, number * 2)?;
                events.push(drawn_event(alloc, state, key)?)?;
            }
        }
    }
    Ok(events)
}

fn drawn_types(alloc: Global, state: &mut u64) -> Result<Types, Fail> {
    if next(state) % 2 == 0 {
        return Ok(Types::All);
    }
    let mut types = Listed::new(alloc);
    types.put(DType::of(b"lab").ok_or("no type")?)?;
    Ok(Types::Only { types })
}

fn drawn_asker(alloc: Global, state: &mut u64) -> Result<Asker, Fail> {
    let names = pick(state, &["", "S", "ST"]);
    Ok(Asker {
        dict: dictionary(alloc)?,
        auths: auths_of(alloc, names)?,
        snapshot: 1 + next(state) % 3,
        types: drawn_types(alloc, state)?,
    })
}

const LEAVES: [&str; 13] = [
    "A == 'ab'",
    "B == 'ba'",
    "N == 2",
    "C == 'b'",
    "A =~ 'ab.*'",
    "A =~ '.*b'",
    "B =~ '.*b'",
    "A =~ '.*b.*'",
    "A >= 'b'",
    "N < 30",
    "((_Bounded_ = true) && (A > 'ab' && A < 'b'))",
    "((_Bounded_ = true) && (N >= 1 && N <= 2))",
    "((_Bounded_ = true) && (B >= 'b' && B < 'c'))",
];

/// The text of a query of up to four leaves.
fn drawn_query(alloc: Global, state: &mut u64) -> Result<String, AllocError> {
    let (a, b) = (pick(state, &LEAVES), pick(state, &LEAVES));
    let (c, d) = (pick(state, &LEAVES), pick(state, &LEAVES));
    match next(state) % 6 {
        0 => format!(in alloc; "{a}"),
        1 => format!(in alloc; "{a} && {b}"),
        2 => format!(in alloc; "{a} || {b}"),
        3 => format!(in alloc; "{a} && !({b} || {c})"),
        4 => format!(in alloc; "({a} || {b}) && !({c} && {d})"),
        _ => format!(in alloc; "!(!({a}) || {b} && {c})"),
    }
}

const ALLOWED: [Allowed; 7] = [
    Allowed {
        budget: 1,
        want: 1_000,
        run: 0,
    },
    Allowed {
        budget: 2,
        want: 1_000,
        run: 0,
    },
    Allowed {
        budget: 1_000,
        want: 2,
        run: 0,
    },
    Allowed {
        budget: 1_000,
        want: 1_000,
        run: 0,
    },
    Allowed {
        budget: 1,
        want: 1,
        run: 3,
    },
    Allowed {
        budget: 2,
        want: 1_000,
        run: 1,
    },
    Allowed {
        budget: 1_000,
        want: 1_000,
        run: 2,
    },
];

/// How many turns a search may take: one for each of eight events and one more where the shard is loaded whole, a
/// single one where all may be read at once, and else one more for each of at most 200 cells.
fn turns_allowed(allowed: Allowed) -> u32 {
    match allowed {
        Allowed {
            budget: 1_000,
            want: 1_000,
            run: 0,
        } => 1,
        Allowed { run: 0, .. } => 9,
        _ => 209,
    }
}

/// Every way to search after a key finds the plain answer.
fn check_after(
    rt: &impl Abort,
    alloc: Global,
    archive: &mut Archive,
    of: &Anchored,
    after: Option<DocKey>,
) -> Result<(), Fail> {
    let plain = plain_answer(alloc, &of.ask, archive.events.as_slice(), &after)?;
    for allowed in ALLOWED {
        let turns = turns_allowed(allowed);
        let found = all_turns(alloc, archive, of, after, allowed, turns)?;
        assert_eq!(rt; found.as_str(), plain.as_str());
    }
    Ok(())
}

/// Every resume: of keys that events have, of uids between them, and of other types.
fn check_all(
    rt: &impl Abort,
    alloc: Global,
    archive: &mut Archive,
    of: &Anchored,
) -> Result<(), Fail> {
    check_after(rt, alloc, archive, of, None)?;
    for dtype in ["a", "lab", "labs", "web", "z"] {
        for number in 0..8 {
            check_after(rt, alloc, archive, of, Some(key_of(dtype, number)?))?;
        }
    }
    Ok(())
}

/// Whether the query could be searched for.
fn check_drawn(
    rt: &impl Abort,
    alloc: Global,
    archive: &mut Archive,
    state: &mut u64,
) -> Result<bool, Fail> {
    let asker = drawn_asker(alloc, state)?;
    let text = drawn_query(alloc, state)?;
    match anchored_ask(alloc, &asker, text.as_str())? {
        None => Ok(false),
        Some(of) => {
            check_all(rt, alloc, archive, &of)?;
            Ok(true)
        }
    }
}

/// How many of some queries could be searched for in a drawn shard.
fn check_shard(rt: &impl Abort, alloc: Global, state: &mut u64) -> Result<u32, Fail> {
    let events = drawn_events(alloc, state)?;
    let mut archive = archive_of(alloc, events, &dictionary(alloc)?)?;
    let mut searched = 0u32;
    for _query in 0..4 {
        if check_drawn(rt, alloc, &mut archive, state)? {
            searched = searched.saturating_add(1);
        }
    }
    Ok(searched)
}

#[test]
fn batches_join_to_the_plain_answer(rt: HostRuntime) -> Result<(), Fail> {
    let alloc = rt.alloc();
    let mut state = 11;
    let mut searched = 0u32;
    for _shard in 0..20 {
        let more = check_shard(&rt, alloc, &mut state)?;
        searched = searched.saturating_add(more);
    }
    assert!(rt; searched > 30);
    Ok(())
}
