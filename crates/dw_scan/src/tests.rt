ghost use Rattle.std.specs.Prelude.{◌≡◌, ◌≤◌, ◌<◌, IsTrue};
ghost use Rattle.dw_nest.specs.Shapes.{shape, is_enumerable};

use crate::partly_known_keys::{PartlyKnownKeys, Spot};
use crate::{Ask, Batch, Gaps, OutOfMemory, Resume, search};
use dw_base::{Bytes, Text};
use dw_derive::entries;
use dw_dict::Dict;
use dw_eval::{NQuery, bind};
use dw_event::{Cells, Event, EventCell, Types};
use dw_jexl::parse;
use dw_key::{DType, DocKey};
use dw_nest::{Bound, Place, Tree};
use dw_outside::{Keeper, MemKeeper, Put};
use dw_tablet::{Steps, Tablet};
use dw_vis::{Auths, Vis};
use std::alloc::{AllocError, Global};
use std::marker::Brand;
use std::process::Abort;
use std::sync::ledger::{Blank, Ledger};
use std::test::Fail;

/// The number of an event, a field, a value and who sees it.
const CELLS: [(u8, &str, &str, &str); 9] = [
    (1, "A", "1", ""),
    (1, "C", "3", "S"),
    (2, "A", "1", ""),
    (2, "C", "3", ""),
    (3, "A", "1", ""),
    (3, "B", "2", "S"),
    (4, "A", "1", "S"),
    (5, "A", "1", ""),
    (6, "A", "1", ""),
];

pub(crate) fn key(number: u8) -> Result<DocKey, Fail> {
    let dtype = DType::of(b"lab").ok_or("no type")?;
    let mut uid = [0u8; 32];
    uid[31] = number;
    Ok(DocKey { dtype, uid })
}

pub(crate) fn cell(alloc: Global, field: &str, raw: &str, vis: &str) -> Result<EventCell, Fail> {
    let Ok(vis) = Vis::parse(alloc, vis.as_bytes()) else {
        return Err(Fail::from("no visibility"));
    };
    Ok(EventCell {
        field: Text::of(alloc, field)?,
        raw: Text::of(alloc, raw)?,
        vis,
    })
}

/// The event of a number. The fifth is of a later batch.
fn event(alloc: Global, number: u8) -> Result<Event, Fail> {
    let mut cells = Vec::new(alloc);
    for (event, field, raw, vis) in CELLS {
        if event == number {
            cells.push(cell(alloc, field, raw, vis)?)?;
        }
    }
    Ok(Event {
        shard: Text::of(alloc, "20240101_0")?,
        key: key(number)?,
        cells: Cells::from_vec(cells),
        batch: if number == 5 { 2 } else { 1 },
    })
}

/// Stores the cells of an event in table 0.
pub(crate) fn store(
    alloc: Global,
    keeper: &mut MemKeeper,
    event: &Event,
    dict: &Dict,
) -> Result<(), Fail> {
    for entry in entries(alloc, event, dict)? {
        if entry.table == 0 {
            let slot = entry.slot(alloc)?;
            let put = Put {
                table: 0,
                key: slot.key,
                content: Bytes::new(alloc),
            };
            let puts = vec![in alloc; put]?;
            if keeper.apply(puts.as_slice()).is_err() {
                return Err(Fail::from("no apply"));
            }
        }
    }
    Ok(())
}

fn keeper_of(alloc: Global) -> Result<MemKeeper, Fail> {
    let mut keeper = MemKeeper::new(alloc, Vec::new(alloc));
    for number in 1..7 {
        store(
            alloc,
            &mut keeper,
            &event(alloc, number)?,
            &Dict::new(alloc),
        )?;
    }
    Ok(keeper)
}

/// Loads a run of cells from a place on.
pub(crate) fn load(
    keeper: &mut MemKeeper,
    tablet: &mut Tablet,
    from: &[u8],
    limit: u32,
) -> Result<(), Fail> {
    if !from.cmp(tablet.end()).is_lt() {
        return Err(Fail::from("past the shard"));
    }
    let cells = keeper.scan(0, from, tablet.end(), limit)?;
    tablet.load(from, limit, cells)?;
    Ok(())
}

/// The tablet of the first cells of the shard, or of all where the limit is 0.
fn tablet_of(alloc: Global, limit: u32) -> Result<Tablet, Fail> {
    let mut keeper = keeper_of(alloc)?;
    let mut tablet = Tablet::empty(alloc, &Text::of(alloc, "20240101_0")?)?;
    load(&mut keeper, &mut tablet, b"20240101_0\x00\x00", limit)?;
    Ok(tablet)
}

fn bound_query(alloc: Global, dict: &Dict, text: &str) -> Result<NQuery, Fail> {
    let Ok(query) = parse(alloc, text) else {
        return Err(Fail::from("no query"));
    };
    match bind(alloc, &query, dict) {
        Ok(query) => Ok(query),
        Err(_) => Err(Fail::from("a literal")),
    }
}

/// An ask for the events with A, of one who holds no names, at the first batch.
fn ask(alloc: Global) -> Result<Ask, Fail> {
    let dict = Dict::new(alloc);
    let query = bound_query(alloc, &dict, "A == '1'")?;
    Ok(Ask {
        query,
        dict,
        auths: Auths::new(alloc),
        snapshot: 1,
        types: Types::All,
    })
}

fn search_counted<I: Gaps + Drop, L: Ledger>(
    alloc: Global,
    tablet: &Tablet,
    ask: &Ask,
    tree: &mut Tree<I>,
    resume: &Resume,
    budget: u32,
    want: u32,
    blank: Blank,
) -> Result<Batch, OutOfMemory>
    requires enumerable { IsTrue (is_enumerable Place.Positive (shape tree.old)) }
    requires shard { resume.now.shard ≡ tablet.now.shard }
    requires budget { 1 ≤ budget }
    requires want { 1 ≤ want }
    requires named { blank.name ≡ L.name }
    requires parts { blank.parts ≡ L.parts }
    requires some { 0 < blank.parts }
{
    let mut steps = Steps::<L>::new(blank);
    search(alloc, tablet, ask, tree, resume, budget, want, &mut steps)
}

fn search_quietly<I: Gaps + Drop>(
    alloc: Global,
    tablet: &Tablet,
    ask: &Ask,
    tree: &mut Tree<I>,
    resume: &Resume,
    budget: u32,
    want: u32,
) -> Result<Batch, OutOfMemory>
    requires enumerable { IsTrue (is_enumerable Place.Positive (shape tree.old)) }
    requires shard { resume.now.shard ≡ tablet.now.shard }
    requires budget { 1 ≤ budget }
    requires want { 1 ≤ want }
{
    search_counted::<I, Brand>(
        alloc,
        tablet,
        ask,
        tree,
        resume,
        budget,
        want,
        Blank::new(1),
    )
}

/// What is searched: the tablet of the first cells of the shard, or of all where the limit is 0.
#[derive(Drop)]
struct Fixture {
    tablet: Tablet,
    ask: Ask,
}

fn fixture_of(alloc: Global, limit: u32) -> Result<Fixture, Fail> {
    let tablet = tablet_of(alloc, limit)?;
    let ask = ask(alloc)?;
    Ok(Fixture { tablet, ask })
}

/// The batch of a tree that can be enumerated, after a key.
fn batch_of(
    alloc: Global,
    of: &Fixture,
    tree: &mut Tree<PartlyKnownKeys<'_>>,
    after: Option<DocKey>,
    budget: u32,
    want: u32,
) -> Result<Batch, Fail> {
    if budget == 0 || want == 0 || !tree.enumerable() {
        return Err(Fail::from("no batch"));
    }
    let shard = of.tablet.shard().copy()?;
    let resume = Resume { shard, after };
    let batch = search_quietly(alloc, &of.tablet, &of.ask, tree, &resume, budget, want)?;
    Ok(batch)
}

fn put_number(out: &mut String, key: &DocKey) -> Result<(), AllocError> {
    out.push(char::from(b'0' + key.uid[31] % 10))?;
    Ok(())
}

/// Puts the numbers of the events found.
fn put_found(out: &mut String, batch: &Batch) -> Result<(), AllocError> {
    for item in batch.found.as_slice() {
        put_number(out, &item.key)?;
    }
    Ok(())
}

fn put_after(out: &mut String, after: &Option<DocKey>) -> Result<(), AllocError> {
    match after {
        None => Ok(()),
        Some(key) => put_number(out, key),
    }
}

/// The numbers of the events found, then that of the resume, and how the batch ended.
fn shown(alloc: Global, batch: &Batch) -> Result<String, AllocError> {
    let mut out = String::new(alloc);
    put_found(&mut out, batch)?;
    out.push_str(" after ")?;
    put_after(&mut out, &batch.resume.after)?;
    out.push_str(if batch.ended { " ended" } else { "" })?;
    out.push_str(if batch.missing.is_some() {
        " missing"
    } else {
        ""
    })?;
    Ok(out)
}

/// Searches once, and compares what came of it.
fn check(
    rt: &impl Abort,
    alloc: Global,
    of: &Fixture,
    tree: &mut Tree<PartlyKnownKeys<'_>>,
    after: u8,
    budget: u32,
    want: u32,
    wanted: &str,
) -> Result<(), Fail> {
    let batch = batch_of(alloc, of, tree, Some(key(after)?), budget, want)?;
    let text = shown(alloc, &batch)?;
    assert_eq!(rt; text.as_str(), wanted);
    Ok(())
}

/// The numbers as spots, each of them known but one.
fn spots_of(alloc: Global, numbers: &[u8], unknown: u8) -> Result<Vec<Spot>, Fail> {
    let mut spots = Vec::new(alloc);
    for number in numbers {
        spots.push((key(*number)?, *number != unknown))?;
    }
    Ok(spots)
}

fn leaf_of<'a>(spots: &'a [Spot], name: &'a [u8]) -> Tree<PartlyKnownKeys<'a>> {
    Tree::Leaf(PartlyKnownKeys {
        spots,
        bound: Bound::Start,
        name,
    })
}

/// Where it resumes, the budget, what is wanted, and what comes of it. No event has the number 0, and a reader without
/// names sees nothing of the events 4 and 5 at the first batch.
const BATCHES: [(u8, u32, u32, &str); 12] = [
    (0, 1, 10, "1 after 1"),
    (0, 6, 10, "1236 after 6 ended"),
    (0, 5, 10, "123 after 5"),
    (0, 10, 4, "1236 after 6 ended"),
    (0, 10, 3, "123 after 3"),
    (0, 3, 3, "123 after 3"),
    (3, 2, 1, " after 5"),
    (3, 3, 1, "6 after 6 ended"),
    (5, 1, 1, "6 after 6 ended"),
    (4, 1, 1, " after 5"),
    (6, 1, 1, " after 6 ended"),
    (9, 1, 1, " after 9 ended"),
];

#[test]
fn batches_end_at_budget_want_or_end(rt: HostRuntime) -> Result<(), Fail> {
    let alloc = rt.alloc();
    let of = fixture_of(alloc, 0)?;
    let spots = spots_of(alloc, &[1, 2, 3, 4, 5, 6], 0)?;
    let mut tree = leaf_of(spots.as_slice(), b"A");
    for (after, budget, want, wanted) in BATCHES {
        check(&rt, alloc, &of, &mut tree, after, budget, want, wanted)?;
    }
    Ok(())
}

/// The key to go on after, or None at the end.
fn next_after(batch: &Batch) -> Option<DocKey> {
    if batch.ended {
        return None;
    }
    batch.resume.after
}

/// Searches once, and puts the numbers found and a stroke. The key to go on after, or None at the end.
fn put_batch(
    alloc: Global,
    of: &Fixture,
    tree: &mut Tree<PartlyKnownKeys<'_>>,
    after: Option<DocKey>,
    budget: u32,
    want: u32,
    out: &mut String,
) -> Result<Option<DocKey>, Fail> {
    let batch = batch_of(alloc, of, tree, after, budget, want)?;
    put_found(out, &batch)?;
    out.push('|')?;
    Ok(next_after(&batch))
}

/// The numbers found by batch after batch from the beginning.
fn all_batches(
    alloc: Global,
    of: &Fixture,
    tree: &mut Tree<PartlyKnownKeys<'_>>,
    budget: u32,
    want: u32,
) -> Result<String, Fail> {
    let mut out = String::new(alloc);
    let mut after = None;
    for _turn in 0..10 {
        after = put_batch(alloc, of, tree, after, budget, want, &mut out)?;
        if after.is_none() {
            return Ok(out);
        }
    }
    Err(Fail::from("it does not end"))
}

/// The budget, what is wanted of each batch, and what they find, with a stroke behind each batch.
const JOINED: [(u32, u32, &str); 6] = [
    (1, 9, "1|2|3|||6|"),
    (2, 9, "12|3|6|"),
    (2, 1, "1|2|3||6|"),
    (4, 9, "123|6|"),
    (9, 2, "12|36|"),
    (1000, 1, "1|2|3|6|"),
];

#[test]
fn batches_join_to_the_answer(rt: HostRuntime) -> Result<(), Fail> {
    let alloc = rt.alloc();
    let of = fixture_of(alloc, 0)?;
    let spots = spots_of(alloc, &[1, 2, 3, 4, 5, 6], 0)?;
    let mut tree = leaf_of(spots.as_slice(), b"A");
    for (budget, want, wanted) in JOINED {
        let text = all_batches(alloc, &of, &mut tree, budget, want)?;
        assert_eq!(rt; text.as_str(), wanted);
    }
    Ok(())
}

/// The keys of the first that are not of the second.
fn without<'a>(
    alloc: Global,
    first: &'a [Spot],
    second: &'a [Spot],
) -> Result<Tree<PartlyKnownKeys<'a>>, AllocError> {
    let second = Tree::Not(Box::new(alloc, leaf_of(second, b"B"))?);
    let mut both = Vec::new(alloc);
    both.push(leaf_of(first, b"A"))?;
    both.push(second)?;
    Ok(Tree::And(both))
}

#[test]
fn exclusions_are_answered_by_the_tree(rt: HostRuntime) -> Result<(), Fail> {
    let alloc = rt.alloc();
    let of = fixture_of(alloc, 0)?;
    let spots = spots_of(alloc, &[1, 2, 3, 4, 5, 6], 0)?;
    let others = spots_of(alloc, &[2, 3], 0)?;
    let mut tree = without(alloc, spots.as_slice(), others.as_slice())?;
    // Four documents are read of six: those of the events 1, 4, 5 and 6.
    check(&rt, alloc, &of, &mut tree, 0, 4, 9, "16 after 6 ended")?;
    check(&rt, alloc, &of, &mut tree, 0, 3, 9, "1 after 5")?;
    Ok(())
}

#[test]
fn a_stuck_iterator_is_asked_for_its_place(rt: HostRuntime) -> Result<(), Fail> {
    let alloc = rt.alloc();
    let of = fixture_of(alloc, 0)?;
    let spots = spots_of(alloc, &[1, 2, 3, 4, 5, 6], 3)?;
    let mut tree = leaf_of(spots.as_slice(), b"A");
    // With a budget of 2, or 2 that are wanted, it is met by the look past the last document.
    for (budget, want) in [(9, 9), (2, 9), (9, 2)] {
        check(
            &rt,
            alloc,
            &of,
            &mut tree,
            0,
            budget,
            want,
            "12 after 2 missing",
        )?;
    }
    let batch = batch_of(alloc, &of, &mut tree, None, 9, 9)?;
    let place = place_of(batch)?;
    assert!(rt; place.as_slice() == b"A".as_slice());
    Ok(())
}

/// The place that a batch names.
fn place_of(batch: Batch) -> Result<Bytes, Fail> {
    let Batch {
        found: _,
        resume: _,
        ended: _,
        missing,
    } = batch;
    Ok(missing.ok_or("no place")?)
}

/// Loads from a place on, which is not covered.
fn load_missing(
    rt: &impl Abort,
    alloc: Global,
    of: &mut Fixture,
    place: &[u8],
) -> Result<(), Fail> {
    assert!(rt; !of.tablet.covers(place));
    let mut keeper = keeper_of(alloc)?;
    load(&mut keeper, &mut of.tablet, place, 0)
}

/// Where the second event is covered in part: the budget, what is wanted, and what comes of it.
const COVERED_IN_PART: [(u32, u32, &str); 3] = [
    (1, 9, "1 after 1"),
    (9, 1, "1 after 1"),
    (9, 9, "1 after 1 missing"),
];

/// Searches what is covered in part, and loads the place that is missing.
fn load_the_rest(
    rt: &impl Abort,
    alloc: Global,
    of: &mut Fixture,
    tree: &mut Tree<PartlyKnownKeys<'_>>,
) -> Result<(), Fail> {
    for (budget, want, wanted) in COVERED_IN_PART {
        check(rt, alloc, of, tree, 0, budget, want, wanted)?;
    }
    let place = place_of(batch_of(alloc, of, tree, None, 9, 9)?)?;
    load_missing(rt, alloc, of, place.as_slice())
}

#[test]
fn a_document_that_is_not_covered_is_named(rt: HostRuntime) -> Result<(), Fail> {
    let alloc = rt.alloc();
    // Of the second event's two cells the first is covered.
    let mut of = fixture_of(alloc, 3)?;
    let spots = spots_of(alloc, &[1, 2, 3, 4, 5, 6], 0)?;
    let mut tree = leaf_of(spots.as_slice(), b"A");
    load_the_rest(&rt, alloc, &mut of, &mut tree)?;
    check(&rt, alloc, &of, &mut tree, 1, 9, 9, "236 after 6 ended")?;
    Ok(())
}
