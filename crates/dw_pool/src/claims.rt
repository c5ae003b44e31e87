// The counter from which workers claim jobs, and their passes.
ghost use Rattle.std.specs.Prelude.{◌≡◌, ◌<◌, ◌≤◌, ◌+◌, ◌-◌, ◌^◌, ◌↔◌, ℕ, [], ◌∷◌, ◌++◌, IsTrue, Some, None, IsSome, IsNone, IfSome, IfNone, MatchOption, IfOk, IfErr, vec_len, vec_capacity, length, replicate, map};
ghost use Rattle.std.specs.List.{All, flat_map};
ghost use Rattle.dw_pool.specs.Numbers.{EachOnce, Climbs};
ghost use Rattle.dw_pool.specs.Drawn.{hand, both};
ghost use Rattle.dw_pool.specs.Counter.{fresh, drawn_by, claimed_by, held, IsSound};

use crate::drawing::{Deal, Seat, Shared, Table, draw, join, settle, split};
use crate::{Numbers, OutOfMemory};
use std::alloc::Global;
use std::marker::Model;

/// A counter that gives the numbers of jobs, from 0, to the workers that hold its passes, each number once.
#[derive(Drop)]
pub struct Claims {
    table: Table,
    deal: Deal,
    alloc: Global,
}

impl Model for Claims {
    ghost use Rattle.std.specs.Prelude.{◌≡◌, ◌<◌, ◌^◌};
    ghost use Rattle.dw_pool.specs.Counter.{Counter, counter_code};

    ghost Value = { Counter };

    ghost coded = { counter_code };

    ghost view = { λ c. record { id = c.table.shared.table_id; jobs = c.deal.jobs; passes = c.deal.passes } };

    // The word has no slot beside it, and was told the jobs and passes that the fields say.
    ghost invariant = { λ c. (c.table.shared.table_id.words ≡ 1) × (c.table.shared.table_id.slots ≡ 0) × (c.table.shared.key ≡ c.deal) × (c.deal.jobs < 2 ^ 32) × (c.deal.passes < 2 ^ 32) × (0 < c.deal.passes) };
}

/// What a worker claims with, and what it has claimed.
#[derive(Drop)]
pub struct Pass {
    seat: Seat,
    numbers: Vec<u32>,
    kept: Option<u64>,
    deal: Deal,
}

impl Model for Pass {
    ghost use Rattle.std.specs.Prelude.{◌≡◌, ◌<◌, ◌≤◌, ◌^◌, [], ◌++◌, option_to_list, IfSome, vec_capacity};
    ghost use Rattle.dw_pool.specs.Numbers.{Climbs};
    ghost use Rattle.dw_pool.specs.Drawn.{hand};
    ghost use Rattle.dw_pool.specs.Counter.{Holding, holding_code};

    ghost Value = { Holding };

    ghost coded = { holding_code };

    ghost view = { λ p. record { counter = record { id = p.seat.table_id; jobs = p.deal.jobs; passes = p.deal.passes }; numbers = p.numbers.items; kept = p.kept } };

    // The seat has drawn the numbers that stand here and no other, and the list has room for each number of a job.
    ghost invariant = { λ p. (p.seat.me ≡ (hand 1 (p.numbers.items ++ option_to_list p.kept), [])) × Climbs 0 p.deal.jobs p.numbers.items × IfSome p.kept (λ n. p.deal.jobs ≤ n) × (p.deal.jobs ≤ vec_capacity p.numbers) × (p.deal.jobs < 2 ^ 32) };
}

/// The numbers that one pass claimed, in order.
#[derive(Debug, Drop)]
pub struct Claimed {
    pub numbers: Numbers,
}

/// There was no memory to close a counter. It comes back with its passes, as they were.
#[derive(Drop)]
pub struct Unclosed {
    pub claims: Claims,
    pub passes: Vec<Pass>,
}

impl Pass {
    /// The numbers below the number of jobs that this pass claimed, in order.
    pub fn list(&self) -> &[u32]
        ensures numbers { result.now ≡ self.now.numbers }
        ensures climbs { Climbs 0 self.now.counter.jobs result.now }
    {
        self.numbers.as_slice()
    }

    fn into_parts(self) -> (Seat, Numbers)
        ensures mine { result.0.table_id ≡ self.counter.id }
        ensures drawn { result.0.me ≡ (hand 1 (drawn_by self), []) }
        ensures numbers { result.1 ≡ self.numbers }
        ensures sound { IsSound self }
    {
        let Pass {
            seat,
            numbers,
            kept: _,
            deal: _,
        } = self;
        (seat, Numbers::from_vec(numbers))
    }
}

// What a seat has drawn is joined to what `whole` has.
fn absorb(word: &Shared, whole: Option<Seat>, seat: Seat) -> Seat
    requires one { word.now.table_id.words ≡ 1 }
    requires ours { IfSome whole (λ w. w.table_id ≡ word.now.table_id) }
    requires theirs { seat.table_id ≡ word.now.table_id }
    requires no_slot { seat.me.1 ≡ [] }
    requires no_slots { IfSome whole (λ w. w.me.1 ≡ []) }
    ensures mine { result.table_id ≡ word.now.table_id }
    ensures joined { result.me ≡ (both (held whole) seat.me.0, []) }
{
    match whole {
        None => seat,
        Some(mut whole) => {
            join(word, &mut whole, seat);
            whole
        }
    }
}

// Joins all passes, and puts their numbers into `lists`, which has room.
fn gather(word: &Shared, lists: &mut Vec<Claimed>, passes: Vec<Pass>) -> Option<Seat>
    requires one { word.now.table_id.words ≡ 1 }
    requires mine { All (λ p. p.counter.id ≡ word.now.table_id) passes.items }
    requires empty { lists.old.items ≡ [] }
    requires room { length passes.items ≤ vec_capacity lists.old }
    ensures lists { lists.new.items ≡ map claimed_by passes.items }
    ensures ours { IfSome result (λ w. w.table_id ≡ word.now.table_id) }
    ensures whole { held result ≡ hand (length passes.items) (flat_map drawn_by passes.items) }
    ensures sound { All IsSound passes.items }
{
    let mut whole = None;
    for pass in passes {
        let (seat, numbers) = pass.into_parts();
        whole = Some(absorb(word, whole, seat));
        lists.push_reserved(Claimed { numbers });
    }
    whole
}

impl Claims {
    /// A counter of `jobs` jobs, and its passes: each has an empty list and was not told None. It takes all the memory
    /// that later claims need, which is room in each pass for the numbers of all jobs.
    pub fn new(alloc: Global, jobs: u32, passes: u32) -> Result<(Claims, Vec<Pass>), OutOfMemory>
        requires some { 0 < passes }
        requires few { passes ≤ 16 }
        ensures jobs { IfOk result (λ made. made.0.jobs ≡ jobs) }
        ensures passes { IfOk result (λ made. made.0.passes ≡ passes) }
        ensures fresh { IfOk result (λ made. made.1.items ≡ replicate passes (fresh made.0)) }
    {
        let deal = Deal { jobs, passes };
        let (table, whole) = Table::of_words(alloc, &[0], &deal)?;
        let claims = Claims { table, deal, alloc };
        let dealt = claims.deal_out(whole)?;
        Ok((claims, dealt))
    }

    fn deal_out(&self, mut whole: Seat) -> Result<Vec<Pass>, OutOfMemory>
        requires mine { whole.table_id ≡ self.now.id }
        requires every { whole.me ≡ (hand self.now.passes [], []) }
        ensures { IfOk result (λ dealt. dealt.items ≡ replicate self.now.passes (fresh self.now)) }
    {
        let passes = self.deal.passes;
        let mut dealt = Vec::with_capacity(self.alloc, passes as usize)?;
        for _pass in 0..passes {
            dealt.push(self.another(&mut whole)?)?;
        }
        Ok(dealt)
    }

    fn another(&self, whole: &mut Seat) -> Result<Pass, OutOfMemory>
        requires mine { whole.old.table_id ≡ self.now.id }
        requires part { 0 < whole.old.me.0.parts }
        requires fresh { whole.old.me.0.drawn ≡ [] }
        requires no_slot { whole.old.me.1 ≡ [] }
        ensures mine { IfOk result (λ _. whole.new.table_id ≡ self.now.id) }
        ensures left { IfOk result (λ _. whole.new.me ≡ (hand (whole.old.me.0.parts - 1) [], [])) }
        ensures fresh { IfOk result (λ pass. pass ≡ fresh self.now) }
    {
        let numbers = Vec::with_capacity(self.alloc, self.deal.jobs as usize)?;
        Ok(Pass {
            seat: split(&self.table.shared, whole),
            numbers,
            kept: None,
            deal: self.deal,
        })
    }

    /// Claims the next number. None means that there is no job left: the pass then keeps the number that it drew, and
    /// draws no more. It takes no memory, and draws at most once.
    pub fn claim(&self, pass: &mut Pass) -> Option<u32>
        requires mine { pass.old.counter ≡ self.now }
        ensures some { IfSome result (λ i. (pass.old.kept ≡ None) × (i < self.now.jobs) × All (λ n. n < i) pass.old.numbers
            × (pass.new ≡ record pass.old { numbers = pass.old.numbers ++ i ∷ [] })) }
        ensures none { IsNone result ↔ IsSome pass.new.kept }
        ensures climbs { Climbs 0 self.now.jobs pass.new.numbers }
        ensures kept { IfNone result (MatchOption pass.old.kept
            ((n : ℕ) × (self.now.jobs ≤ n) × All (λ m. m < n) pass.old.numbers × (pass.new ≡ record pass.old { kept = Some n }))
            (λ _. pass.new ≡ pass.old)) }
    {
        if pass.kept.is_some() {
            return None;
        }
        let number = draw(&self.table.shared, &mut pass.seat);
        if number < u64::from(self.deal.jobs) {
            pass.numbers.push_reserved(number as u32);
            Some(number as u32)
        } else {
            pass.kept = Some(number);
            None
        }
    }

    /// Ends the counter and its passes, each of which was told None, and gives the list of each, in their order. The
    /// lists together hold each number below the number of jobs once, and no other. Where there is no memory it does so
    /// before any pass is joined.
    pub fn close(self, passes: Vec<Pass>) -> Result<Vec<Claimed>, Unclosed>
        requires all { vec_len passes ≡ self.passes }
        requires mine { All (λ p. p.counter ≡ self) passes.items }
        requires told { All (λ p. IsSome p.kept) passes.items }
        ensures lists { IfOk result (λ lists. lists.items ≡ map claimed_by passes.items) }
        ensures once { IfOk result (λ lists. EachOnce self.jobs (flat_map (λ l. l.numbers) lists.items)) }
        ensures back { IfErr result (λ unclosed. (unclosed.claims ≡ self) × (unclosed.passes ≡ passes)) }
    {
        let Ok(lists) = Vec::with_capacity(self.alloc, passes.len()) else {
            return Err(Unclosed {
                claims: self,
                passes,
            });
        };
        Ok(self.close_into(passes, lists))
    }

    /// Closes in room that was taken before, and takes no memory.
    pub(crate) fn close_into(self, passes: Vec<Pass>, lists: Vec<Claimed>) -> Vec<Claimed>
        requires all { vec_len passes ≡ self.passes }
        requires mine { All (λ p. p.counter ≡ self) passes.items }
        requires told { All (λ p. IsSome p.kept) passes.items }
        requires empty { lists.items ≡ [] }
        requires room { vec_len passes ≤ vec_capacity lists }
        ensures lists { result.items ≡ map claimed_by passes.items }
        ensures once { EachOnce self.jobs (flat_map (λ l. l.numbers) result.items) }
    {
        let mut lists = lists;
        let Claims {
            table,
            deal: _,
            alloc: _,
        } = self;
        let whole = gather(&table.shared, &mut lists, passes);
        settle(table, whole.unwrap());
        lists
    }
}
