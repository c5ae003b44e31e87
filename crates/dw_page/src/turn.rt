ghost use Rattle.std.specs.Prelude.{◌≡◌, ◌⊎◌, ◌≤◌, ◌<◌, ◌-◌, ◌*◌, ◌+◌, ◌∷◌, List, [], true, false, Some, OnOk, IfOk, IsTrue, ◌↔◌, Err, take, drop, length};
ghost use Rattle.std.specs.List.Sorted.{IsStrictlySortedBy};
ghost use Rattle.std.specs.Option.{option_copied};
ghost use Rattle.std.specs.Ordering.{nat_cmp};
ghost use Rattle.std.specs.Cmp.Lexicographic.{slice_cmp};
ghost use Rattle.dw_outside.specs.Faults.{Rose};
ghost use Rattle.dw_outside.specs.declared.keeper_error.KeeperError.{KeeperError};
ghost use Rattle.dw_event.specs.declared.reports.Shown.{Shown};
ghost use Rattle.dw_derive.specs.World.{World};
ghost use Rattle.dw_eval.specs.Answer.{answer_of};
ghost use Rattle.dw_plan.specs.Anchored.{anchored};
ghost use Rattle.dw_plan.specs.PlanLaws.{is_ruled};
ghost use Rattle.dw_page.specs.declared.mark.MarkPlace.TheVariants.{End};
ghost use Rattle.dw_page.specs.Good.{Good};
ghost use Rattle.dw_page.specs.Marks.{IsMark, IsMarked, place_before, walked};
ghost use Rattle.dw_page.specs.Asked.{query_of, hits_in, IsTold, IsAsked};
ghost use Rattle.dw_page.specs.Reads.{Opens, ReadsPage, count_before};
ghost use Rattle.dw_page.specs.Remains.{IsOver, shards_of, open_shards};

use crate::hand::hand_out;
use crate::mark::{Mark, MarkPlace, is_end, mark_after, place_before};
use crate::settings::Settings;
use crate::walk::Walk;
use crate::waves::run_batches;
use dw_base::{Listed, OutOfMemory};
use dw_event::{Days, Shown};
use dw_outside::{Keeper, KeeperError};
use dw_pool::Gate;
use dw_scan::Ask;
use std::alloc::Global;
use std::mem;
use std::thread::Threads;

/// A page of an answer.
#[derive(Debug, Drop)]
pub struct Turned {
    pub shown: Listed<Shown>,
    /// Whether the answer goes on behind the page.
    pub more: bool,
    /// From which the next page goes on.
    pub mark: Mark,
}

/// Searches each open shard once.
fn scan_slots<R: Threads + Sync, G: Gate>(
    rt: &R,
    alloc: Global,
    gate: &G,
    walk: &mut Walk,
    ask: &Ask,
    workers: u32,
    budget: u32,
) -> Result<(), OutOfMemory>
    requires anchored { IsTrue (anchored ask.now.query) }
    requires ruled { IsTrue (is_ruled ask.now.dict ask.now.query) }
    requires more { walk.old.gather.more ≡ false }
    requires few { length walk.old.slots.items ≤ workers }
    requires some { 1 ≤ workers }
    requires at_most { workers ≤ 16 }
    requires budget { 1 ≤ budget }
    ensures good { OnOk result ((w : World) (page : List Shown) → Good ask.now w page walk.old → Good ask.now w page walk.new) }
    ensures few { OnOk result (length walk.new.slots.items ≡ length walk.old.slots.items) }
    ensures shards { OnOk result (open_shards walk.new.slots.items walk.new.waiting.items ≡ open_shards walk.old.slots.items walk.old.waiting.items) }
    ensures gather { walk.new.gather ≡ walk.old.gather }
    ensures waiting { walk.new.waiting.items ≡ walk.old.waiting.items }
{
    let want = walk.gather.want();
    let outs = run_batches(
        rt,
        alloc,
        gate,
        walk.slots.as_slice(),
        ask,
        workers,
        budget,
        want,
    )?;
    let slots = mem::replace(&mut walk.slots, Vec::new(alloc));
    walk.slots = hand_out(alloc, slots, outs, ask)?;
    Ok(())
}

/// Walks on, wave by wave, until more than the page has come or nothing remains.
#[tactic(auto, using(crate::proofs::ReadsLemmas::opens_none))]
fn walk_on<R: Threads + Sync, K: Keeper, G: Gate>(
    rt: &R,
    alloc: Global,
    keeper: &mut K,
    gate: &G,
    walk: &mut Walk,
    ask: &Ask,
    settings: &Settings,
) -> Result<(), KeeperError>
    requires anchored { IsTrue (anchored ask.now.query) }
    requires ruled { IsTrue (is_ruled ask.now.dict ask.now.query) }
    requires none { length walk.old.slots.items ≡ 0 }
    requires more { walk.old.gather.more ≡ false }
    ensures good { OnOk result ((w : World) (page : List Shown) → IsTold (K.told keeper.old) ask.now w → Good ask.now w page walk.old → Good ask.now w page walk.new) }
    ensures opens { OnOk result (Opens (K.reads keeper.old) (K.reads keeper.new) walk.old.waiting.items walk.new.waiting.items) }
    ensures near { OnOk result ((w : World) (page later : List Shown) (next : Shown) → IsTold (K.told keeper.old) ask.now w → Good ask.now w page walk.old → IsStrictlySortedBy (slice_cmp nat_cmp) (shards_of walk.old.waiting.items) → drop walk.old.gather.size page ≡ next ∷ later → length walk.old.waiting.items ≤ length walk.new.waiting.items + (count_before next.shard (shards_of walk.old.waiting.items) + settings.now.workers)) }
    ensures end { OnOk result ((walk.new.gather.more ≡ true) ⊎ IsOver walk.new.slots.items walk.new.waiting.items) }
    ensures size { OnOk result (walk.new.gather.size ≡ walk.old.gather.size) }
    ensures told { K.told keeper.new ≡ K.told keeper.old }
    ensures later { K.faults keeper.old ≤ K.faults keeper.new }
    ensures failed { result ≡ Err KeeperError.Failed → Rose (K.faults keeper.old) (K.faults keeper.new) }
{
    let workers = settings.workers();
    'waves: for wave in 0..usize::MAX {
        walk.open(alloc, keeper, workers)?;
        if walk.slots.is_empty() {
            return Ok(());
        }
        scan_slots(rt, alloc, gate, walk, ask, workers, settings.batch_at(wave))?;
        walk.flush(alloc)?;
        if walk.gather.more {
            return Ok(());
        }
    }
    Err(KeeperError::OutOfMemory)
}

/// A page with nothing on it, behind the end of the answer.
fn nothing_left(alloc: Global, page: u32) -> Turned
    ensures shown { result.shown ≡ [] }
    ensures more { result.more ≡ false }
    ensures page { result.mark.page ≡ page }
    ensures place { result.mark.place ≡ End }
{
    Turned {
        shown: Listed::new(alloc),
        more: false,
        mark: Mark {
            page,
            place: MarkPlace::End,
        },
    }
}

/// Turns to a page of the answer to a query, counted from 1, over what stands in a keeper's tables: at most `size`
/// events, whether more follow, and the mark of the page. With the mark of the page before it goes on from there, and where
/// the answer ended with that page the keeper is not called; with any other mark, or none, it walks from the first shard
/// that is hit. What is shown is the same. After an error nothing is shown, and the tables are as before; want of memory
/// is `OutOfMemory`, and `Failed` stands only where the keeper failed. A mark is one of the answer only where pages show at
/// least one event.
pub fn turn_page<R: Threads + Sync, K: Keeper, G: Gate>(
    rt: &R,
    alloc: Global,
    keeper: &mut K,
    gate: &G,
    ask: &Ask,
    days: &Days,
    size: u32,
    mark: Option<&Mark>,
    page: u32,
    settings: &Settings,
) -> Result<Turned, KeeperError>
    requires anchored { IsTrue (anchored ask.now.query) }
    requires ruled { IsTrue (is_ruled ask.now.dict ask.now.query) }
    requires counted { 1 ≤ page }
    ensures shown { IfOk result (λ turned. (w : World) → IsAsked (K.told keeper.old) ask.now days.now size w → IsMarked (answer_of (query_of ask.now days.now size) w.events) size (option_copied mark.entry) → turned.shown ≡ take size (drop ((page - 1) * size) (answer_of (query_of ask.now days.now size) w.events))) }
    ensures more { IfOk result (λ turned. (w : World) → IsAsked (K.told keeper.old) ask.now days.now size w → IsMarked (answer_of (query_of ask.now days.now size) w.events) size (option_copied mark.entry) → (IsTrue turned.more ↔ size < length (drop ((page - 1) * size) (answer_of (query_of ask.now days.now size) w.events)))) }
    ensures page { IfOk result (λ turned. turned.mark.page ≡ page) }
    ensures marked { IfOk result (λ turned. (w : World) → IsAsked (K.told keeper.old) ask.now days.now size w → IsMarked (answer_of (query_of ask.now days.now size) w.events) size (option_copied mark.entry) → 1 ≤ size → IsMark (answer_of (query_of ask.now days.now size) w.events) size turned.mark) }
    ensures reads { OnOk result ((w : World) → IsAsked (K.told keeper.old) ask.now days.now size w → IsMarked (answer_of (query_of ask.now days.now size) w.events) size (option_copied mark.entry) → ReadsPage (K.reads keeper.old) (K.reads keeper.new) (walked (place_before (option_copied mark.entry) page) (hits_in ask.now days.now w)) settings.now.workers (drop size (drop ((page - 1) * size) (answer_of (query_of ask.now days.now size) w.events)))) }
    ensures unread { place_before (option_copied mark.entry) page ≡ Some End → K.reads keeper.new ≡ K.reads keeper.old }
    ensures told { K.told keeper.new ≡ K.told keeper.old }
    ensures later { K.faults keeper.old ≤ K.faults keeper.new }
    ensures failed { result ≡ Err KeeperError.Failed → Rose (K.faults keeper.old) (K.faults keeper.new) }
{
    let start = place_before(mark, page);
    if is_end(start) {
        return Ok(nothing_left(alloc, page));
    }
    let mut walk = Walk::begin(alloc, keeper, ask, days, size, page, start)?;
    walk_on(rt, alloc, keeper, gate, &mut walk, ask, settings)?;
    let Walk {
        slots: _,
        waiting: _,
        gather,
    } = walk;
    let (shown, more) = gather.finish();
    let mark = mark_after(page, shown.as_slice(), more)?;
    Ok(Turned { shown, more, mark })
}
