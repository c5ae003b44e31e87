ghost use Rattle.std.specs.Prelude.{◌≡◌, ◌⊎◌, ◌≤◌, ◌<◌, ◌++◌, ◌∷◌, [], ℕ, List, ◌-◌, ◌*◌, OnOk, OnErr, IfOk, IfSome, IsTrue, Err, false, drop, length, vec_len};
ghost use Rattle.std.specs.Option.{option_copied};
ghost use Rattle.dw_outside.specs.Faults.{Rose};
ghost use Rattle.dw_outside.specs.declared.keeper_error.KeeperError.{KeeperError};
ghost use Rattle.dw_event.specs.declared.reports.Shown.{Shown};
ghost use Rattle.dw_derive.specs.World.{World};
ghost use Rattle.dw_eval.specs.Answer.{answer_of};
ghost use Rattle.dw_plan.specs.Anchored.{anchored};
ghost use Rattle.dw_plan.specs.Reads.{Adds, is_of_index};
ghost use Rattle.dw_scan.specs.declared.ask.Ask.{Ask};
ghost use Rattle.dw_page.specs.Good.{Good};
ghost use Rattle.dw_page.specs.Asked.{query_of, hits_in, IsTold, IsAsked};
ghost use Rattle.dw_page.specs.Reads.{Opens};
ghost use Rattle.dw_page.specs.Marks.{EndsAt, lined};
ghost use Rattle.dw_page.specs.Remains.{IsFlushed, open_shards, AreLast};

use crate::gather::Gather;
use crate::line::line_up;
use crate::mark::{MarkPlace, skip_to};
use crate::open::read_shard;
use crate::slot::Slot;
use dw_base::{Listed, OutOfMemory};
use dw_event::Days;
use dw_outside::{Keeper, KeeperError};
use dw_plan::shards;
use dw_scan::{Ask, Resume};
use std::alloc::Global;
use std::collections::VecDeque;

/// The shards that are searched side by side, those that wait, and the page so far.
#[derive(Drop)]
pub struct Walk {
    pub slots: Vec<Slot>,
    pub waiting: VecDeque<Resume>,
    pub gather: Gather,
}

fn push_slot(slots: &mut Vec<Slot>, slot: Slot) -> Result<(), OutOfMemory>
    ensures ok { OnOk result (slots.new.items ≡ slots.old.items ++ slot ∷ []) }
    ensures err { OnErr result (slots.new.items ≡ slots.old.items) }
{
    slots.push(slot)?;
    Ok(())
}

fn drop_first(slots: &mut Vec<Slot>)
    requires { 0 < length slots.old.items }
    ensures rest { slots.new.items ≡ drop 1 slots.old.items }
    ensures fewer { length slots.new.items < length slots.old.items }
{
    let _first = slots.remove(0);
}

impl Walk {
    /// The shards that the query hits wait, from where the page before ended if its mark tells, and so many events are to be
    /// passed over.
    pub fn begin<K: Keeper>(
        alloc: Global,
        keeper: &mut K,
        ask: &Ask,
        days: &Days,
        size: u32,
        page: u32,
        start: Option<&MarkPlace>,
    ) -> Result<Walk, KeeperError>
        requires anchored { IsTrue (anchored ask.now.query) }
        requires counted { 1 ≤ page }
        ensures good { IfOk result (λ walk. (w : World) → IsAsked (K.told keeper.old) ask.now days.now size w → IfSome (option_copied start.entry) (λ p. EndsAt p ((page - 1) * size) (answer_of (query_of ask.now days.now size) w.events)) → Good ask.now w (drop ((page - 1) * size) (answer_of (query_of ask.now days.now size) w.events)) walk) }
        ensures none { IfOk result (λ walk. length walk.slots.items ≡ 0) }
        ensures more { IfOk result (λ walk. walk.gather.more ≡ false) }
        ensures size { IfOk result (λ walk. walk.gather.size ≡ size) }
        ensures waits { IfOk result (λ walk. (w : World) → IsAsked (K.told keeper.old) ask.now days.now size w → walk.waiting.items ≡ lined (option_copied start.entry) (hits_in ask.now days.now w)) }
        ensures reads { Adds is_of_index (K.reads keeper.old) (K.reads keeper.new) }
        ensures told { K.told keeper.new ≡ K.told keeper.old }
        ensures later { K.faults keeper.old ≤ K.faults keeper.new }
        ensures failed { result ≡ Err KeeperError.Failed → Rose (K.faults keeper.old) (K.faults keeper.new) }
    {
        let hits = shards(alloc, keeper, &ask.query, &ask.auths, days, &ask.types)?;
        let waiting = line_up(alloc, hits, start)?;
        Ok(Walk {
            slots: Vec::new(alloc),
            waiting,
            gather: Gather {
                skip: skip_to(start, page, size),
                size,
                kept: Listed::new(alloc),
                more: false,
            },
        })
    }

    /// Opens the next shards, so that as many as there are workers are open. Each is read whole.
    #[tactic(auto, using(crate::proofs::ReadsLemmas::opens_none))]
    pub fn open<K: Keeper>(
        &mut self,
        alloc: Global,
        keeper: &mut K,
        workers: u32,
    ) -> Result<(), KeeperError>
        ensures good { OnOk result ((ask : Ask) (w : World) (page : List Shown) → IsTold (K.told keeper.old) ask w → Good ask w page self.old → Good ask w page self.new) }
        ensures few { length self.old.slots.items ≤ workers → length self.new.slots.items ≤ workers }
        ensures shards { OnOk result (open_shards self.new.slots.items self.new.waiting.items ≡ open_shards self.old.slots.items self.old.waiting.items) }
        ensures opens { OnOk result (Opens (K.reads keeper.old) (K.reads keeper.new) self.old.waiting.items self.new.waiting.items) }
        ensures all { OnOk result ((workers ≤ vec_len self.new.slots) ⊎ (self.new.waiting.items ≡ [])) }
        ensures gather { self.new.gather ≡ self.old.gather }
        ensures told { K.told keeper.new ≡ K.told keeper.old }
        ensures later { K.faults keeper.old ≤ K.faults keeper.new }
        ensures failed { result ≡ Err KeeperError.Failed → Rose (K.faults keeper.old) (K.faults keeper.new) }
    {
        'opening: while self.slots.len() < workers as usize {
            let Some(resume) = self.waiting.pop_front() else {
                return Ok(());
            };
            let tablet = read_shard(alloc, keeper, &resume.shard)?;
            let slot = Slot {
                resume,
                found: Listed::new(alloc),
                tablet: Some(tablet),
                missing: None,
            };
            push_slot(&mut self.slots, slot)?;
        }
        Ok(())
    }

    /// Gathers what the first slots found, up to the first that is searched on.
    pub fn flush(&mut self, alloc: Global) -> Result<(), OutOfMemory>
        ensures good { OnOk result ((ask : Ask) (w : World) (page : List Shown) → Good ask w page self.old → Good ask w page self.new) }
        ensures fewer { length self.new.slots.items ≤ length self.old.slots.items }
        ensures last { OnOk result ((all : List (List ℕ)) → AreLast all self.old.slots.items self.old.waiting.items → AreLast all self.new.slots.items self.new.waiting.items) }
        ensures flushed { OnOk result (IsFlushed self.new.slots.items) }
        ensures waiting { self.new.waiting.items ≡ self.old.waiting.items }
        ensures size { self.new.gather.size ≡ self.old.gather.size }
    {
        'giving: while !self.slots.is_empty() {
            let found = self.slots[0].give(alloc);
            self.gather.take_all(found)?;
            if self.slots[0].tablet.is_some() {
                return Ok(());
            }
            drop_first(&mut self.slots);
        }
        Ok(())
    }
}
