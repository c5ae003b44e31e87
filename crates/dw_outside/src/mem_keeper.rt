ghost use Rattle.std.specs.Prelude.{◌≡◌, ◌≢◌, ◌≤◌, ◌⊎◌, ◌↔◌, [], Some, None, All, IsTrue, IfOk, OnOk, OnErr, Err, unwrap_or, vec_len, if◌then◌else◌, map as list_map};
ghost use Rattle.std.specs.Option.{option_map};
ghost use Rattle.std.specs.Ordering.{nat_cmp};
ghost use Rattle.std.specs.Cmp.Lexicographic.{slice_cmp};
ghost use Rattle.std.specs.List.Sorted.{IsStrictlySortedBy};
ghost use Rattle.std.specs.FinMap as map;
ghost use Rattle.dw_outside.specs.Faults.{Rose, one_more};
ghost use Rattle.dw_outside.specs.Tables.{Tables, HasFourTables, applied, cell_pair, is_in_span, limited, span_of};
ghost use Rattle.dw_outside.specs.Reads.{reading_of, with_read};
ghost use Rattle.dw_outside.specs.MemoryKeeper.{called, failed_call, keeper_after, tables_after, one_passed, IsDue};

use crate::OutOfMemory;
use crate::cell::{Cell, Put, Reading};
use crate::keeper::Keeper;
use crate::keeper_error::KeeperError;
use crate::store::Store;
use dw_key::Bytes;
use std::alloc::Global;
use std::marker::Model;

/// A keeper in memory, which fails at the calls that are named. Calls are numbered from 1.
#[derive(Drop)]
pub struct MemKeeper {
    alloc: Global,
    store: Store,
    reads: Option<Vec<Reading>>,
    fail_calls: Vec<u64>,
    passing: Option<u64>,
    calls: u64,
    applies: u64,
    faults: u64,
}

impl Model for MemKeeper {
    ghost use Rattle.std.specs.Option.{option_map};
    ghost use Rattle.dw_outside.specs.Tables.{HasFourTables};
    ghost use Rattle.dw_outside.specs.MemoryKeeper.{MemoryKeeper, keeper_code};

    ghost Value = { MemoryKeeper };

    ghost coded = { keeper_code };

    ghost view = { λ k. record {
      tables = k.store;
      reads = option_map (λ v. v.items) k.reads;
      fail_calls = k.fail_calls.items;
      passing = k.passing;
      calls = k.calls;
      applies = k.applies;
      faults = k.faults;
    } };

    ghost invariant = { λ k. HasFourTables k.store };
}

impl MemKeeper {
    /// An empty keeper, which tells its reads. Takes no memory.
    pub fn new(alloc: Global, fail_calls: Vec<u64>) -> MemKeeper
        ensures tables { result.tables ≡ map.empty }
        ensures reads { result.reads ≡ Some [] }
        ensures fail_calls { result.fail_calls ≡ fail_calls.items }
        ensures passing { result.passing ≡ None }
        ensures calls { result.calls ≡ 0 }
        ensures applies { result.applies ≡ 0 }
        ensures faults { result.faults ≡ 0 }
    {
        MemKeeper {
            alloc,
            store: Store::new(alloc),
            reads: Some(Vec::new(alloc)),
            fail_calls,
            passing: None,
            calls: 0,
            applies: 0,
            faults: 0,
        }
    }

    /// An empty keeper, which tells and keeps no reads, and fails at no call. Takes no memory.
    pub fn without_reads(alloc: Global) -> MemKeeper
        ensures tables { result.tables ≡ map.empty }
        ensures reads { result.reads ≡ None }
        ensures fail_calls { result.fail_calls ≡ [] }
        ensures passing { result.passing ≡ None }
        ensures calls { result.calls ≡ 0 }
        ensures applies { result.applies ≡ 0 }
        ensures faults { result.faults ≡ 0 }
    {
        MemKeeper {
            alloc,
            store: Store::new(alloc),
            reads: None,
            fail_calls: Vec::new(alloc),
            passing: None,
            calls: 0,
            applies: 0,
            faults: 0,
        }
    }

    /// The reads made, in order, where they are kept.
    pub fn reads(&self) -> &[Reading]
        ensures { result.now ≡ unwrap_or self.now.reads [] }
    {
        match &self.reads {
            None => &[],
            Some(made) => made.as_slice(),
        }
    }

    /// Lets so many more calls pass, and fails the next one only.
    pub fn fail_after(&mut self, calls: u64)
        ensures { self.new ≡ record self.old { passing = Some calls } }
    {
        self.passing = Some(calls);
    }

    /// Counts a call, and says whether it fails.
    fn fails(&mut self) -> bool
        ensures fails { IsTrue result ↔ IsDue self.old }
        ensures after { self.new ≡ (if result then failed_call self.old else called self.old) }
        ensures later { self.old.faults ≤ self.new.faults }
    {
        self.calls = self.calls.saturating_add(1);
        let last = pass(&mut self.passing);
        if last || self.fail_calls.contains(&self.calls) {
            self.faults = self.faults.saturating_add(1);
            return true;
        }
        false
    }
}

/// Lets one call pass, and says whether it is the one that fails.
fn pass(passing: &mut Option<u64>) -> bool
    ensures last { IsTrue result ↔ (passing.old ≡ Some 0) }
    ensures left { passing.new ≡ one_passed passing.old }
{
    match *passing {
        None => false,
        Some(0) => {
            *passing = None;
            true
        }
        Some(left) => {
            *passing = Some(left - 1);
            false
        }
    }
}

/// Adds a read, where reads are kept.
fn note(reads: &mut Option<Vec<Reading>>, reading: Reading) -> Result<(), OutOfMemory>
    ensures ok { OnOk result (option_map (λ v. v.items) reads.new ≡ with_read (option_map (λ v. v.items) reads.old) reading) }
    ensures err { OnErr result (option_map (λ v. v.items) reads.new ≡ option_map (λ v. v.items) reads.old) }
{
    match reads {
        None => Ok(()),
        Some(made) => {
            made.push(reading)?;
            Ok(())
        }
    }
}

impl Keeper for MemKeeper {
    ghost told = { λ k. Some k.tables };

    ghost reads = { λ k. k.reads };

    ghost faults = { λ k. k.faults };

    ghost asked = { λ k. Some k.applies };

    /// Fails at the named calls, and else sets all contents or wants memory.
    fn apply(&mut self, puts: &[Put]) -> Result<(), KeeperError>
        requires { All (λ p. p.table ≤ 3) puts.now }
        ensures ok { OnOk result (Some self.new.tables ≡ option_map (applied puts.now) (Some self.old.tables)) }
        ensures err { OnErr result (Some self.new.tables ≡ Some self.old.tables) }
        ensures reads { self.new.reads ≡ self.old.reads }
        ensures asked { Some self.new.applies ≡ option_map one_more (Some self.old.applies) }
        ensures counted { self.old.faults ≤ self.new.faults }
        ensures failed { result ≡ Err KeeperError.Failed → Rose self.old.faults self.new.faults }

        // It fails at the named calls and at no others.
        ensures fails { (result ≡ Err KeeperError.Failed) ↔ IsDue self.old }
        ensures after { self.new ≡ record (keeper_after self.old result) { tables = tables_after self.old.tables puts.now result; applies = one_more self.old.applies } }
    {
        self.applies = self.applies.saturating_add(1);
        if self.fails() {
            return Err(KeeperError::Failed);
        }
        self.store.apply(self.alloc, puts)?;
        Ok(())
    }

    /// Fails at the named calls, and else reads the cells or wants memory. An error leaves the reads.
    fn scan(
        &mut self,
        table: u8,
        from: &[u8],
        before: &[u8],
        limit: u32,
    ) -> Result<Vec<Cell>, KeeperError>
        requires { table ≤ 3 }
        ensures same { Some self.new.tables ≡ Some self.old.tables }
        ensures cells { (t : Tables) → Some self.old.tables ≡ Some t → IfOk result (λ cells. list_map cell_pair cells.items ≡ limited limit (span_of table from.now before.now t)) }
        ensures four { (t : Tables) → Some self.old.tables ≡ Some t → OnOk result (HasFourTables t) }
        ensures ascending { IfOk result (λ cells. IsStrictlySortedBy (slice_cmp nat_cmp) (list_map (λ c. c.key) cells.items)) }
        ensures bounds { IfOk result (λ cells. All (λ c. IsTrue (is_in_span from.now before.now c.key)) cells.items) }
        ensures few { IfOk result (λ cells. limit ≢ 0 → vec_len cells ≤ limit) }
        ensures read { OnOk result (self.new.reads ≡ with_read self.old.reads (reading_of table from.now before.now limit)) }
        ensures unread { OnErr result ((self.new.reads ≡ self.old.reads) ⊎ (self.new.reads ≡ with_read self.old.reads (reading_of table from.now before.now limit))) }
        ensures unasked { Some self.new.applies ≡ Some self.old.applies }
        ensures counted { self.old.faults ≤ self.new.faults }
        ensures failed { result ≡ Err KeeperError.Failed → Rose self.old.faults self.new.faults }

        // It fails at the named calls and at no others.
        ensures fails { (result ≡ Err KeeperError.Failed) ↔ IsDue self.old }
        ensures after { self.new ≡ record (keeper_after self.old result) { reads = self.new.reads } }
        ensures still { OnErr result (self.new.reads ≡ self.old.reads) }
    {
        if self.fails() {
            return Err(KeeperError::Failed);
        }
        let cells = self.store.span(self.alloc, table, from, before, limit)?;
        let reading = Reading {
            table,
            from: Bytes::of(self.alloc, from)?,
            before: Bytes::of(self.alloc, before)?,
            limit,
        };
        note(&mut self.reads, reading)?;
        Ok(cells)
    }
}
