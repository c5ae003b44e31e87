ghost use Rattle.std.specs.Prelude.{◌≡◌, ◌≢◌, ◌<◌, ◌≤◌, ◌+◌, ◌++◌, ◌∷◌, [], All, IsTrue, vec_len, vec_capacity, IfOk, OnOk, OnErr, IsSome, None, reverse, map as list_map};
ghost use Rattle.std.specs.Option.{option_copied};
ghost use Rattle.std.specs.Ordering.{nat_cmp};
ghost use Rattle.std.specs.Cmp.Lexicographic.{slice_cmp};
ghost use Rattle.std.specs.FinMap as map;
ghost use Rattle.std.specs.BTreeMap.Range.{IsLeBy};
ghost use Rattle.std.specs.List.Sorted.{IsStrictlySortedBy};
ghost use Rattle.dw_outside.specs.Tables.{applied, cell_pair, is_in_span, limited, puts_from, slot_cmp, slot_of_put, span_of};
ghost use Rattle.dw_outside.specs.Spans.{cells_between, span_end};
ghost use Rattle.dw_outside.specs.Undo.{restored, undone, CanUndo};

use crate::OutOfMemory;
use crate::cell::{Cell, Put};
use crate::slot::Slot;
use dw_key::Bytes;
use std::alloc::Global;
use std::collections::BTreeMap;
use std::marker::Model;

/// Tables in memory: the content of each slot, in one ordered map.
#[derive(Drop)]
pub struct Store {
    cells: BTreeMap<Slot, Bytes>,
}

impl Model for Store {
    ghost use Rattle.std.specs.FinMap as map;
    ghost use Rattle.dw_outside.specs.Tables.{Tables, tables_code};

    ghost Value = { Tables };

    ghost coded = { tables_code };

    ghost view = { λ s. map.from_entries s.cells.entries };
}

/// What a slot had before it was set.
#[derive(Drop)]
struct Before {
    slot: Slot,
    content: Option<Bytes>,
}

/// What slots had before they were set.
#[derive(Drop)]
pub struct Undo {
    log: Vec<Before>,
}

impl Model for Undo {
    ghost use Rattle.std.specs.Prelude.{List, reverse};
    ghost use Rattle.dw_outside.specs.declared.store.Before.{Before};

    ghost Value = { List Before };

    ghost view = { λ u. reverse u.log.items };
}

impl Store {
    /// Takes no memory.
    pub fn new(alloc: Global) -> Store
        ensures { result ≡ map.empty }
    {
        Store {
            cells: BTreeMap::new(alloc),
        }
    }

    pub fn get(&self, slot: &Slot) -> Option<&Bytes>
        ensures { option_copied result ≡ map.get self.now slot.now }
    {
        self.cells.get(slot)
    }

    /// Sets all contents, or none.
    pub fn apply(&mut self, alloc: Global, puts: &[Put]) -> Result<(), OutOfMemory>
        ensures ok { OnOk result (self.new ≡ applied puts.now self.old) }
        ensures err { OnErr result (self.new ≡ self.old) }
    {
        let _undo = self.apply_undoable(alloc, puts)?;
        Ok(())
    }

    /// Sets all contents, or none, and says how to take them back.
    pub fn apply_undoable(&mut self, alloc: Global, puts: &[Put]) -> Result<Undo, OutOfMemory>
        ensures ok { OnOk result (self.new ≡ applied puts.now self.old) }
        ensures err { OnErr result (self.new ≡ self.old) }
        ensures can { IfOk result (λ u. CanUndo u self.new) }
        ensures back { IfOk result (λ u. undone u self.new ≡ self.old) }
    {
        let mut log = Vec::with_capacity(alloc, puts.len())?;
        for put in puts {
            if self.apply_one(put, &mut log).is_err() {
                self.undo(log);
                return Err(OutOfMemory);
            }
        }
        Ok(Undo { log })
    }

    /// Takes back what was set. Takes no memory.
    pub fn take_back(&mut self, undo: Undo)
        requires { CanUndo undo self.old }
        ensures { self.new ≡ undone undo self.old }
    {
        let Undo { log } = undo;
        self.undo(log);
    }

    /// All that stands in the tables, as puts in the order of their slots.
    pub fn puts(&self, alloc: Global) -> Result<Vec<Put>, OutOfMemory>
        ensures { IfOk result (λ v. v.items ≡ puts_from self.now) }
    {
        let mut puts = Vec::new(alloc);
        for (slot, content) in self.cells.iter() {
            add_put(&mut puts, slot, content)?;
        }
        Ok(puts)
    }

    /// The first cells of a table from a key on and below another. An empty `before` is no bound, and a
    /// limit of 0 is none.
    pub fn span(
        &self,
        alloc: Global,
        table: u8,
        from: &[u8],
        before: &[u8],
        limit: u32,
    ) -> Result<Vec<Cell>, OutOfMemory>
        requires { table ≤ 3 }
        ensures cells { IfOk result (λ cells. list_map cell_pair cells.items ≡ limited limit (span_of table from.now before.now self.now)) }
        ensures ascending { IfOk result (λ cells. IsStrictlySortedBy (slice_cmp nat_cmp) (list_map (λ c. c.key) cells.items)) }
        ensures bounds { IfOk result (λ cells. All (λ c. IsTrue (is_in_span from.now before.now c.key)) cells.items) }
        ensures few { IfOk result (λ cells. limit ≢ 0 → vec_len cells ≤ limit) }
    {
        let lo = Slot {
            table,
            key: Bytes::of(alloc, from)?,
        };
        let hi = end_of(alloc, table, before)?;
        let cells = self.between(alloc, lo, hi, limit)?;
        Ok(cells)
    }

    /// The first cells from a slot on and below another.
    fn between(
        &self,
        alloc: Global,
        lo: Slot,
        hi: Slot,
        limit: u32,
    ) -> Result<Vec<Cell>, OutOfMemory>
        ensures { IfOk result (λ cells. list_map cell_pair cells.items ≡ limited limit (cells_between lo hi self.now)) }
    {
        if hi.cmp(&lo).is_lt() {
            return Ok(Vec::new(alloc));
        }
        self.between_ordered(alloc, lo, hi, limit)
    }

    fn between_ordered(
        &self,
        alloc: Global,
        lo: Slot,
        hi: Slot,
        limit: u32,
    ) -> Result<Vec<Cell>, OutOfMemory>
        requires { IsLeBy slot_cmp lo hi }
        ensures { IfOk result (λ cells. list_map cell_pair cells.items ≡ limited limit (cells_between lo hi self.now)) }
    {
        let mut cells = Vec::new(alloc);
        for (slot, content) in self.cells.range(lo..hi) {
            if limit != 0 && cells.len() >= limit as usize {
                break;
            }
            cells.push(cell_from(slot, content)?)?;
        }
        Ok(cells)
    }

    /// Sets one content, and gives what the slot had. After an error the tables are as before.
    pub fn put(&mut self, slot: Slot, content: Bytes) -> Result<Option<Bytes>, OutOfMemory>
        ensures ok { OnOk result (self.new ≡ map.insert self.old slot content) }
        ensures was { IfOk result (λ was. was ≡ map.get self.old slot) }
        ensures err { OnErr result (self.new ≡ self.old) }
        ensures new { OnErr result (map.get self.old slot ≡ None) }
    {
        let was = self.cells.insert(slot, content)?;
        Ok(was)
    }

    /// Sets one content, and logs what its slot had.
    #[tactic(auto, using(crate::proofs::Undoing::can_write, crate::proofs::Undoing::back_write))]
    fn apply_one(&mut self, put: &Put, log: &mut Vec<Before>) -> Result<(), OutOfMemory>
        requires { vec_len log.old < vec_capacity log.old }
        ensures ok { OnOk result (self.new ≡ map.insert self.old (slot_of_put put.now) put.now.content) }
        ensures can { CanUndo (reverse log.old.items) self.old → CanUndo (reverse log.new.items) self.new }
        ensures back { CanUndo (reverse log.old.items) self.old → undone (reverse log.new.items) self.new ≡ undone (reverse log.old.items) self.old }
        ensures grown { vec_len log.new ≤ vec_len log.old + 1 }
        ensures room { vec_capacity log.new ≡ vec_capacity log.old }
    {
        let slot = slot_of(put)?;
        let slot_again = slot.copy()?;
        let content = put.content.copy()?;
        let was = self.put(slot, content)?;
        log.push_reserved(Before {
            slot: slot_again,
            content: was,
        });
        Ok(())
    }

    /// Gives back what was there, the newest put first.
    #[tactic(auto, using(crate::proofs::Undoing::can_pop, crate::proofs::Undoing::back_pop))]
    fn undo(&mut self, log: Vec<Before>)
        requires { CanUndo (reverse log.items) self.old }
        ensures { self.new ≡ undone (reverse log.items) self.old }
    {
        let mut log = log;
        while let Some(before) = log.pop() {
            self.restore(before);
        }
    }

    fn restore(&mut self, before: Before)
        requires { IsSome before.content → IsSome (map.get self.old before.slot) }
        ensures { self.new ≡ restored self.old before.slot before.content }
    {
        let Before { slot, content } = before;
        match content {
            None => self.remove(&slot),
            Some(content) => {
                let _ = self.put(slot, content);
            }
        }
    }

    fn remove(&mut self, slot: &Slot)
        ensures { self.new ≡ map.remove self.old slot.now }
    {
        let _ = self.cells.remove(slot);
    }
}

/// The first slot past the keys of a table below `before`.
fn end_of(alloc: Global, table: u8, before: &[u8]) -> Result<Slot, OutOfMemory>
    requires { table ≤ 3 }
    ensures { IfOk result (λ s. s ≡ span_end table before.now) }
{
    if before.is_empty() {
        return Ok(Slot {
            table: table + 1,
            key: Bytes::new(alloc),
        });
    }
    let key = Bytes::of(alloc, before)?;
    Ok(Slot { table, key })
}

fn slot_of(put: &Put) -> Result<Slot, OutOfMemory>
    ensures { IfOk result (λ s. s ≡ slot_of_put put.now) }
{
    let key = put.key.copy()?;
    Ok(Slot {
        table: put.table,
        key,
    })
}

fn cell_from(slot: &Slot, content: &Bytes) -> Result<Cell, OutOfMemory>
    ensures { IfOk result (λ cell. cell_pair cell ≡ (slot.now.key, content.now)) }
{
    Ok(Cell {
        key: slot.key.copy()?,
        content: content.copy()?,
    })
}

fn add_put(puts: &mut Vec<Put>, slot: &Slot, content: &Bytes) -> Result<(), OutOfMemory>
    ensures { OnOk result (puts.new.items ≡ puts.old.items ++ record { table = slot.now.table; key = slot.now.key; content = content.now } ∷ []) }
{
    let key = slot.key.copy()?;
    let content = content.copy()?;
    puts.push(Put {
        table: slot.table,
        key,
        content,
    })?;
    Ok(())
}
