ghost use Rattle.std.specs.Prelude.{◌≡◌, ◌≤◌, true, IfOk};
ghost use Rattle.dw_plan.specs.PlanLaws.{is_ruled};

use crate::{Mark, MarkPlace, Settings, Turned, turn_page};
use dw_base::{Bytes, Listed, Text};
use dw_derive::entries;
use dw_dict::{Dict, FieldRule};
use dw_eval::{BindError, NQuery, bind};
use dw_event::{Cells, Days, Event, EventCell, Types};
use dw_jexl::{Query, parse};
use dw_key::{DType, DocKey};
use dw_norm::Kind;
use dw_outside::{Keeper, MemKeeper, Put, Reading};
use dw_plan::{anchored, bound_are_ruled};
use dw_pool::OpenGate;
use dw_scan::Ask;
use dw_vis::{Auths, Vis};
use std::alloc::{AllocError, Global};
use std::process::Abort;
use std::test::Fail;
use std::thread::Threads;

/// A shard, the number of an event in it, its field and who sees it. Each value is 1.
const EVENTS: [(&str, u8, &str, &str); 10] = [
    ("20240101_0", 1, "A", ""),
    ("20240101_0", 2, "A", ""),
    ("20240101_0", 3, "A", "S"),
    ("20240101_0", 4, "A", ""),
    ("20240101_1", 5, "B", ""),
    ("20240102_10", 6, "A", ""),
    ("20240102_7", 0, "A", "S"),
    ("20240131_2", 7, "A", ""),
    ("20240131_2", 8, "A", ""),
    ("20240201_2", 9, "A", ""),
];

fn key(number: u8) -> Result<DocKey, Fail> {
    let dtype = DType::of(b"lab").ok_or("no type")?;
    let mut uid = [0u8; 32];
    uid[31] = number;
    Ok(DocKey { dtype, uid })
}

fn cells_of(alloc: Global, field: &str, vis: &str) -> Result<Cells, Fail> {
    let Ok(vis) = Vis::parse(alloc, vis.as_bytes()) else {
        return Err(Fail::from("no visibility"));
    };
    let mut cells = Vec::new(alloc);
    cells.push(EventCell {
        field: Text::of(alloc, field)?,
        raw: Text::of(alloc, "1")?,
        vis,
    })?;
    Ok(Cells::from_vec(cells))
}

/// The cells of an event in the tables 0 to 2. No content is read.
fn puts_of(alloc: Global, event: &Event, dict: &Dict) -> Result<Vec<Put>, Fail> {
    let mut puts = Vec::new(alloc);
    for entry in entries(alloc, event, dict)? {
        let slot = entry.slot(alloc)?;
        puts.push(Put {
            table: slot.table,
            key: slot.key,
            content: Bytes::new(alloc),
        })?;
    }
    Ok(puts)
}

fn apply(keeper: &mut MemKeeper, puts: Vec<Put>) -> Result<(), Fail> {
    for put in puts {
        if put.table <= 3 && keeper.apply(&[put]).is_err() {
            return Err(Fail::from("no apply"));
        }
    }
    Ok(())
}

fn keeper_of(alloc: Global, dict: &Dict) -> Result<MemKeeper, Fail> {
    let mut keeper = MemKeeper::new(alloc, Vec::new(alloc));
    for (shard, number, field, vis) in EVENTS {
        let event = Event {
            shard: Text::of(alloc, shard)?,
            key: key(number)?,
            cells: cells_of(alloc, field, vis)?,
            batch: 1,
        };
        apply(&mut keeper, puts_of(alloc, &event, dict)?)?;
    }
    Ok(keeper)
}

fn dictionary(alloc: Global) -> Result<Dict, Fail> {
    let mut dict = Dict::new(alloc);
    let rule = FieldRule::of(Kind::Noop, true, false).ok_or("no rule")?;
    dict.define("A", rule)?;
    Ok(dict)
}

fn bound(alloc: Global, query: &Query, dict: &Dict) -> Result<NQuery, BindError>
    ensures { IfOk result (λ q. is_ruled dict.now q ≡ true) }
{
    bound_are_ruled();
    bind(alloc, query, dict)
}

fn bound_query(alloc: Global, dict: &Dict, text: &str) -> Result<NQuery, Fail>
    ensures { IfOk result (λ q. is_ruled dict.now q ≡ true) }
{
    let Ok(query) = parse(alloc, text) else {
        return Err(Fail::from("no query"));
    };
    match bound(alloc, &query, dict) {
        Ok(query) => Ok(query),
        Err(_) => Err(Fail::from("a literal")),
    }
}

/// An ask for the events with A of one who holds no names.
fn ask(alloc: Global) -> Result<Ask, Fail>
    ensures { IfOk result (λ a. is_ruled a.dict a.query ≡ true) }
{
    let dict = dictionary(alloc)?;
    let query = bound_query(alloc, &dict, "A == '1'")?;
    Ok(Ask {
        query,
        dict,
        auths: Auths::new(alloc),
        snapshot: 1,
        types: Types::All,
    })
}

/// How pages are walked: their size, and the workers and the documents of a batch.
#[derive(Clone, Copy, Drop)]
struct How {
    size: u32,
    workers: u32,
    batch: u32,
}

fn settings(alloc: Global, how: How) -> Result<Settings, Fail> {
    let mut batches = Listed::new(alloc);
    batches.put(how.batch)?;
    Ok(Settings::of(how.workers, batches).ok_or("no settings")?)
}

fn days(alloc: Global) -> Result<Days, AllocError> {
    Ok(Days {
        first: Text::of(alloc, "20240101")?,
        last: Text::of(alloc, "20240131")?,
    })
}

/// The shards that the query of the tests hits, and a letter for each.
const HITS: [(&str, char); 3] = [
    ("20240101_0", 'a'),
    ("20240102_10", 'b'),
    ("20240131_2", 'c'),
];

/// The letters of the shards that were read.
fn letters(alloc: Global, keeper: &MemKeeper) -> Result<String, AllocError> {
    let mut out = String::new(alloc);
    for read in keeper.reads() {
        put_letter(&mut out, read)?;
    }
    Ok(out)
}

fn put_letter(out: &mut String, read: &Reading) -> Result<(), AllocError> {
    for (shard, letter) in HITS {
        if read.table == 0 && read.from.as_slice().starts_with(shard.as_bytes()) {
            out.push(letter)?;
        }
    }
    Ok(())
}

/// A page, over a keeper and an ask of its own, and the letters of the shards that were read.
fn turned<R: Threads + Sync>(
    rt: &R,
    alloc: Global,
    how: How,
    mark: Option<&Mark>,
    page: u32,
) -> Result<(Turned, String), Fail>
    requires { 1 ≤ page }
{
    let ask = ask(alloc)?;
    let mut keeper = keeper_of(alloc, &ask.dict)?;
    if !anchored(&ask.query) {
        return Err(Fail::from("no anchor"));
    }
    let settings = settings(alloc, how)?;
    let days = days(alloc)?;
    let turned = turn_page(
        rt,
        alloc,
        &mut keeper,
        &OpenGate,
        &ask,
        &days,
        how.size,
        mark,
        page,
        &settings,
    )?;
    let read = letters(alloc, &keeper)?;
    Ok((turned, read))
}

fn number(key: &DocKey) -> char {
    char::from(b'0' + key.uid[31] % 10)
}

/// The numbers of the events shown, and a stroke where more follow.
fn put_page(out: &mut String, turned: &Turned) -> Result<(), AllocError> {
    for event in turned.shown.as_slice() {
        out.push(number(&event.key))?;
    }
    if turned.more {
        out.push('|')?;
    }
    Ok(())
}

/// The page, the number of the event that its mark names or a dot at the end, and the shards that were read.
fn put_turn(out: &mut String, turned: &Turned, read: &str) -> Result<(), AllocError> {
    put_page(out, turned)?;
    let end = match &turned.mark.place {
        MarkPlace::At { key, .. } => number(key),
        MarkPlace::End => '.',
    };
    out.push(end)?;
    out.push_str(read)?;
    Ok(())
}

/// All pages, one after another, each with the mark of the one before or with none.
fn pages<R: Threads + Sync>(rt: &R, alloc: Global, how: How, marked: bool) -> Result<String, Fail> {
    let mut out = String::new(alloc);
    let mut mark = None;
    for page in 1..10u32 {
        let (turned, _read) = turned(rt, alloc, how, mark.as_ref(), page)?;
        put_page(&mut out, &turned)?;
        if !turned.more {
            return Ok(out);
        }
        mark = if marked { Some(turned.mark) } else { None };
    }
    Err(Fail::from("it does not end"))
}

/// The size of a page, and all pages. No event of another field, of a later day or of one who holds a name is shown, and
/// of two shards of one day that of the lower bytes comes first.
const PAGES: [(u32, &str); 6] = [
    (1, "1|2|4|6|7|8"),
    (2, "12|46|78"),
    (3, "124|678"),
    (4, "1246|78"),
    (6, "124678"),
    (1000, "124678"),
];

fn check<R: Threads + Sync + Abort>(
    rt: &R,
    alloc: Global,
    how: How,
    wanted: &str,
) -> Result<(), Fail> {
    for marked in [false, true] {
        let text = pages(rt, alloc, how, marked)?;
        assert_eq!(rt; text.as_str(), wanted);
    }
    Ok(())
}

#[test]
fn pages_join_to_the_answer(rt: HostRuntime) -> Result<(), Fail> {
    let alloc = rt.alloc();
    for (size, wanted) in PAGES {
        for workers in [1, 3] {
            for batch in [1, 1000] {
                let how = How {
                    size,
                    workers,
                    batch,
                };
                check(&rt, alloc, how, wanted)?;
            }
        }
    }
    Ok(())
}

/// The workers, the size of a page, and the pages in turn up to the first that shows nothing: what each shows, where it ends
/// and which shards it reads. A page begins in the shard in which the one before ended.
const TURNS: [(u32, u32, &str); 4] = [
    (1, 1, "1|1a 2|2a 4|4ab 6|6abc 7|7bc 8.c ."),
    (1, 2, "12|2a 46|6abc 78.bc ."),
    (2, 2, "12|2ab 46|6abc 78.bc ."),
    (3, 4, "1246|6abc 78.bc ."),
];

fn in_turn<R: Threads + Sync>(rt: &R, alloc: Global, how: How) -> Result<String, Fail> {
    let mut out = String::new(alloc);
    let mut mark = None;
    for page in 1..10u32 {
        let (turned, read) = turned(rt, alloc, how, mark.as_ref(), page)?;
        put_turn(&mut out, &turned, read.as_str())?;
        if turned.shown.as_slice().is_empty() {
            return Ok(out);
        }
        out.push(' ')?;
        mark = Some(turned.mark);
    }
    Err(Fail::from("it does not end"))
}

#[test]
fn pages_go_on_from_marks(rt: HostRuntime) -> Result<(), Fail> {
    let alloc = rt.alloc();
    for (workers, size, wanted) in TURNS {
        let how = How {
            size,
            workers,
            batch: 1000,
        };
        let text = in_turn(&rt, alloc, how)?;
        assert_eq!(rt; text.as_str(), wanted);
    }
    Ok(())
}

/// The page of a mark, or 0 for none, a page, its size, and what is shown and read. Only the mark of the page before is gone
/// on from.
const ALONE: [(u32, u32, u32, &str); 11] = [
    (0, 1, 0, "|.ab"),
    (0, 7, 0, "|.ab"),
    (0, 3, 2, "78.abc"),
    (0, 4, 2, ".abc"),
    (0, 4_294_967_295, 4_294_967_295, ".abc"),
    (0, 2, 5, "8.abc"),
    (1, 1, 2, "12|2ab"),
    (1, 3, 2, "78.abc"),
    (2, 3, 2, "78.bc"),
    (3, 2, 2, "46|6abc"),
    (3, 4, 2, "."),
];

fn mark_of<R: Threads + Sync>(
    rt: &R,
    alloc: Global,
    how: How,
    page: u32,
) -> Result<Option<Mark>, Fail> {
    if page < 1 {
        return Ok(None);
    }
    let (turned, _read) = turned(rt, alloc, how, None, page)?;
    Ok(Some(turned.mark))
}

fn check_alone<R: Threads + Sync + Abort>(
    rt: &R,
    alloc: Global,
    how: How,
    mark: u32,
    page: u32,
    wanted: &str,
) -> Result<(), Fail> {
    if page >= 1 {
        let mark = mark_of(rt, alloc, how, mark)?;
        let (turned, read) = turned(rt, alloc, how, mark.as_ref(), page)?;
        let mut text = String::new(alloc);
        put_turn(&mut text, &turned, read.as_str())?;
        assert_eq!(rt; text.as_str(), wanted);
    }
    Ok(())
}

#[test]
fn a_page_needs_no_page_before(rt: HostRuntime) -> Result<(), Fail> {
    let alloc = rt.alloc();
    for (mark, page, size, wanted) in ALONE {
        let how = How {
            size,
            workers: 2,
            batch: 2,
        };
        check_alone(&rt, alloc, how, mark, page, wanted)?;
    }
    Ok(())
}

#[test]
fn settings_have_a_worker_and_a_document(rt: HostRuntime) -> Result<(), Fail> {
    let alloc = rt.alloc();
    for (workers, batch, is) in [(0, 1, false), (1, 0, false), (17, 1, false), (16, 1, true)] {
        let mut batches = Listed::new(alloc);
        batches.put(batch)?;
        assert_eq!(rt; Settings::of(workers, batches).is_some(), is);
    }
    assert!(rt; Settings::of(1, Listed::new(alloc)).is_none());
    Ok(())
}
