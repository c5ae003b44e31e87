ghost use Rattle.std.specs.Prelude.{◌≡◌, ◌≢◌, ◌≤◌, ◌⊎◌, ◌∷◌, ◌++◌, [], ℕ, List, Some, None, All, IsTrue, IfOk, OnOk, OnErr, Err, vec_len, map as list_map};
ghost use Rattle.std.specs.declared.option.Option.{Option};
ghost use Rattle.std.specs.Option.{option_map};
ghost use Rattle.std.specs.Ordering.{nat_cmp};
ghost use Rattle.std.specs.Cmp.Lexicographic.{slice_cmp};
ghost use Rattle.std.specs.List.Sorted.{IsStrictlySortedBy};
ghost use Rattle.dw_outside.specs.declared.cell.Put.{Put};
ghost use Rattle.dw_outside.specs.Faults.{Rose};
ghost use Rattle.dw_outside.specs.Tables.{Tables, HasFourTables, applied, cell_pair, is_in_span, limited, span_of};
ghost use Rattle.dw_outside.specs.Reads.{reading_of, with_read};
ghost use Rattle.dw_outside.specs.Disks.{Since};
ghost use Rattle.dw_journal.specs.Frames.{Holds};
ghost use Rattle.dw_journal.specs.Journal.{told_by, IsJournal, Could, LeavesOnly};

use crate::frames::frame_bytes;
use crate::steps::append;
use dw_key::Bytes;
use dw_outside::{Cell, Disk, Failed, Keeper, KeeperError, OutOfMemory, Put, Reading, Store};
use std::alloc::Global;
use std::marker::Model;

/// A keeper of tables in memory, each change of which stands in a file before it is acknowledged.
#[derive(Drop)]
pub struct JournalKeeper<D: Disk + Drop> {
    pub(crate) alloc: Global,
    pub(crate) disk: D,
    pub(crate) store: Store,
    pub(crate) gate: u64,
    pub(crate) in_doubt: bool,
    pub(crate) reads: Vec<Reading>,
}

impl<D: Disk + Drop> Model for JournalKeeper<D> {
    ghost use Rattle.std.specs.Coded.{codes};
    ghost use Rattle.dw_outside.specs.Tables.{HasFourTables, tables_code};
    ghost use Rattle.dw_outside.specs.Disks.{Now};
    ghost use Rattle.dw_outside.specs.MemoryKeeper.{coded_reading};
    ghost use Rattle.dw_journal.specs.Journal.{Journal, IsPlaced};

    ghost Value = { Journal D };

    ghost coded = { Prim.hlevel (codes, tables_code, coded_reading) };

    ghost view = { λ k. record { disk = k.disk; tables = k.store; gate = k.gate; in_doubt = k.in_doubt; reads = k.reads.items } };

    // What is told are four tables.
    ghost invariant = { λ k. IsPlaced (D.model k.disk) k.gate × Now (λ _. HasFourTables k.store) (D.model k.disk) };
}

impl<D: Disk + Drop> JournalKeeper<D> {
    /// Gives the disk as it is.
    pub fn into_disk(self) -> D
        ensures { result ≡ self.disk }
    {
        let JournalKeeper { disk, .. } = self;
        disk
    }
}

impl<D: Disk + Drop> Keeper for JournalKeeper<D> {
    ghost told = { λ k. told_by (D.model k.disk) k.tables };

    ghost reads = { λ k. told_by (D.model k.disk) k.reads };

    ghost faults = { λ k. D.faults k.disk };

    /// The frame stands on the disk behind a closed gate before that gate is opened, and the gate is open
    /// on the disk before this answers Ok. All memory is taken before the first write.
    fn apply(&mut self, puts: &[Put]) -> Result<(), KeeperError>
        requires { All (λ p. p.table ≤ 3) puts.now }
        ensures ok { OnOk result (told_by (D.model self.new.disk) self.new.tables ≡ option_map (applied puts.now) (told_by (D.model self.old.disk) self.old.tables)) }
        ensures err { OnErr result (told_by (D.model self.new.disk) self.new.tables ≡ told_by (D.model self.old.disk) self.old.tables) }
        ensures reads { told_by (D.model self.new.disk) self.new.reads ≡ told_by (D.model self.old.disk) self.old.reads }
        ensures counted { D.faults self.old.disk ≤ D.faults self.new.disk }
        ensures failed { result ≡ Err KeeperError.Failed → Rose (D.faults self.old.disk) (D.faults self.new.disk) }

        // Acknowledged, the puts are one batch more, and nothing is in doubt.
        ensures added { (batches : List (List Put)) (doubt : Option (List Put)) → IsJournal (D.model self.old.disk) batches doubt self.old → OnOk result (IsJournal (D.model self.new.disk) (batches ++ puts.now ∷ []) None self.new) }

        // Refused, the batches are the same, and in doubt is what was, or nothing, or this call's puts.
        ensures refused { (batches : List (List Put)) (doubt : Option (List Put)) → IsJournal (D.model self.old.disk) batches doubt self.old → OnErr result (IsJournal (D.model self.new.disk) batches doubt self.new ⊎ (IsJournal (D.model self.new.disk) batches None self.new ⊎ IsJournal (D.model self.new.disk) batches (Some puts.now) self.new)) }

        // A stop at any moment of the call leaves what it could before, or the batches with this call's puts.
        ensures moments { (batches : List (List Put)) (doubt : Option (List Put)) → IsJournal (D.model self.old.disk) batches doubt self.old → Since (LeavesOnly (λ c. Could batches doubt c ⊎ Holds (batches ++ puts.now ∷ []) c)) (D.model self.old.disk) (D.model self.new.disk) }
    {
        let frame = frame_bytes(self.alloc, puts)?;
        let undo = self.store.apply_undoable(self.alloc, puts)?;
        match append(&mut self.disk, &mut self.gate, &mut self.in_doubt, &frame) {
            Ok(()) => Ok(()),
            Err(Failed) => {
                self.store.take_back(undo);
                Err(KeeperError::Failed)
            }
        }
    }

    /// Reads memory alone.
    fn scan(
        &mut self,
        table: u8,
        from: &[u8],
        before: &[u8],
        limit: u32,
    ) -> Result<Vec<Cell>, KeeperError>
        requires { table ≤ 3 }
        ensures same { told_by (D.model self.new.disk) self.new.tables ≡ told_by (D.model self.old.disk) self.old.tables }
        ensures cells { (t : Tables) → told_by (D.model self.old.disk) self.old.tables ≡ Some t → IfOk result (λ cells. list_map cell_pair cells.items ≡ limited limit (span_of table from.now before.now t)) }
        ensures four { (t : Tables) → told_by (D.model self.old.disk) self.old.tables ≡ Some t → OnOk result (HasFourTables t) }
        ensures ascending { IfOk result (λ cells. IsStrictlySortedBy (slice_cmp nat_cmp) (list_map (λ c. c.key) cells.items)) }
        ensures bounds { IfOk result (λ cells. All (λ c. IsTrue (is_in_span from.now before.now c.key)) cells.items) }
        ensures few { IfOk result (λ cells. limit ≢ 0 → vec_len cells ≤ limit) }
        ensures read { OnOk result (told_by (D.model self.new.disk) self.new.reads ≡ with_read (told_by (D.model self.old.disk) self.old.reads) (reading_of table from.now before.now limit)) }
        ensures unread { OnErr result ((told_by (D.model self.new.disk) self.new.reads ≡ told_by (D.model self.old.disk) self.old.reads) ⊎ (told_by (D.model self.new.disk) self.new.reads ≡ with_read (told_by (D.model self.old.disk) self.old.reads) (reading_of table from.now before.now limit))) }
        ensures counted { D.faults self.old.disk ≤ D.faults self.new.disk }
        ensures failed { result ≡ Err KeeperError.Failed → Rose (D.faults self.old.disk) (D.faults self.new.disk) }

        // Nothing but the reads changes, and it fails in no other way than for want of memory.
        ensures after { self.new ≡ record self.old { reads = self.new.reads } }
        ensures memory { OnErr result (result ≡ Err KeeperError.OutOfMemory) }
    {
        let cells = self.store.span(self.alloc, table, from, before, limit)?;
        let reading = reading_made(self.alloc, table, from, before, limit)?;
        note(&mut self.reads, reading)?;
        Ok(cells)
    }
}

fn reading_made(
    alloc: Global,
    table: u8,
    from: &[u8],
    before: &[u8],
    limit: u32,
) -> Result<Reading, OutOfMemory>
    ensures { IfOk result (λ r. r ≡ reading_of table from.now before.now limit) }
{
    let from = Bytes::of(alloc, from)?;
    let before = Bytes::of(alloc, before)?;
    Ok(Reading {
        table,
        from,
        before,
        limit,
    })
}

fn note(reads: &mut Vec<Reading>, reading: Reading) -> Result<(), OutOfMemory>
    ensures ok { OnOk result (reads.new.items ≡ reads.old.items ++ reading ∷ []) }
    ensures err { OnErr result (reads.new.items ≡ reads.old.items) }
{
    reads.push(reading)?;
    Ok(())
}
