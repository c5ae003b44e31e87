ghost use Rattle.std.specs.Prelude.{◌≡◌, ◌≢◌, ◌≤◌, ◌⊎◌, ◌++◌, ◌∷◌, [], ℕ, List, Option, Some, None, All, IsTrue, IfOk, OnOk, OnErr, Err, vec_len, map as list_map};
ghost use Rattle.std.specs.Option.{option_map};
ghost use Rattle.std.specs.Ordering.{nat_cmp};
ghost use Rattle.std.specs.Cmp.Lexicographic.{slice_cmp};
ghost use Rattle.std.specs.List.Sorted.{IsStrictlySortedBy};
ghost use Rattle.std.specs.FinMap as map;
ghost use Rattle.dw_outside.specs.Faults.{Rose, one_more};
ghost use Rattle.dw_outside.specs.Tables.{Tables, HasFourTables, applied, cell_pair, is_in_span, limited, span_of};
ghost use Rattle.dw_outside.specs.Reads.{key_read, reading_of, with_read};
ghost use Rattle.dw_outside.specs.TableLaws.{cell_of};
ghost use Rattle.dw_outside.specs.declared.cell.Reading.{Reading};

use crate::OutOfMemory;
use crate::cell::{Cell, Put};
use crate::keeper_error::KeeperError;
use crate::slot::Slot;
use dw_key::Bytes;
use std::alloc::Global;

/// A keeper of cells in four ordered tables, by the codes of their keys.
pub trait Keeper {
    /// What stands in the tables, where told.
    ghost told: { Self → Option Tables };

    /// The reads made, in order, where told.
    ghost reads: { Self → Option (List Reading) };

    /// How many faults there were; the count stands still at 2^64 - 1.
    ghost faults: { Self → ℕ };

    /// How often it was asked to apply puts, where told; the count stands still at 2^64 - 1.
    ghost asked: { Self → Option ℕ } = { λ _. None };

    /// Sets all contents, or none.
    fn apply(&mut self, puts: &[Put]) -> Result<(), KeeperError>
        requires { All (λ p. p.table ≤ 3) puts.now }
        ensures ok { OnOk result (told self.new ≡ option_map (applied puts.now) (told self.old)) }
        ensures err { OnErr result (told self.new ≡ told self.old) }
        ensures reads { reads self.new ≡ reads self.old }
        ensures asked { asked self.new ≡ option_map one_more (asked self.old) }
        ensures counted { faults self.old ≤ faults self.new }
        ensures failed { result ≡ Err KeeperError.Failed → Rose (faults self.old) (faults self.new) };

    /// The first cells of a table from a key on and below another. An empty `before` is no bound, and a
    /// limit of 0 is none.
    fn scan(
        &mut self,
        table: u8,
        from: &[u8],
        before: &[u8],
        limit: u32,
    ) -> Result<Vec<Cell>, KeeperError>
        requires { table ≤ 3 }
        ensures same { told self.new ≡ told self.old }
        ensures cells { (t : Tables) → told self.old ≡ Some t → IfOk result (λ cells. list_map cell_pair cells.items ≡ limited limit (span_of table from.now before.now t)) }

        // What a keeper tells are four tables.
        ensures four { (t : Tables) → told self.old ≡ Some t → OnOk result (HasFourTables t) }

        // These hold of every keeper, whether it tells its tables or not.
        ensures ascending { IfOk result (λ cells. IsStrictlySortedBy (slice_cmp nat_cmp) (list_map (λ c. c.key) cells.items)) }
        ensures bounds { IfOk result (λ cells. All (λ c. IsTrue (is_in_span from.now before.now c.key)) cells.items) }
        ensures few { IfOk result (λ cells. limit ≢ 0 → vec_len cells ≤ limit) }

        // An error adds the read or leaves the reads.
        ensures read { OnOk result (reads self.new ≡ with_read (reads self.old) (reading_of table from.now before.now limit)) }
        ensures unread { OnErr result ((reads self.new ≡ reads self.old) ⊎ (reads self.new ≡ with_read (reads self.old) (reading_of table from.now before.now limit))) }
        ensures unasked { asked self.new ≡ asked self.old }
        ensures counted { faults self.old ≤ faults self.new }
        ensures failed { result ≡ Err KeeperError.Failed → Rose (faults self.old) (faults self.new) };
}

/// What stands in a slot, by the read of its key alone.
pub fn read_cell<K: Keeper>(
    alloc: Global,
    keeper: &mut K,
    slot: &Slot,
) -> Result<Option<Bytes>, KeeperError>
    requires { slot.now.table ≤ 3 }
    ensures same { K.told keeper.new ≡ K.told keeper.old }
    ensures content { (t : Tables) → K.told keeper.old ≡ Some t → IfOk result (λ o. o ≡ map.get t slot.now) }
    ensures read { OnOk result (K.reads keeper.new ≡ with_read (K.reads keeper.old) (key_read slot.now.table slot.now.key)) }
    ensures unread { OnErr result ((K.reads keeper.new ≡ K.reads keeper.old) ⊎ (K.reads keeper.new ≡ with_read (K.reads keeper.old) (key_read slot.now.table slot.now.key))) }
    ensures unasked { K.asked keeper.new ≡ K.asked keeper.old }
    ensures counted { K.faults keeper.old ≤ K.faults keeper.new }
    ensures failed { result ≡ Err KeeperError.Failed → Rose (K.faults keeper.old) (K.faults keeper.new) }
{
    let before = with_zero(alloc, slot.key.as_slice())?;
    let mut cells = keeper.scan(slot.table, slot.key.as_slice(), before.as_slice(), 1)?;
    Ok(only_content(&mut cells))
}

/// The key and a byte 0, which is the next key.
fn with_zero(alloc: Global, key: &[u8]) -> Result<Bytes, OutOfMemory>
    ensures { IfOk result (λ b. b ≡ key.now ++ 0 ∷ []) }
{
    let mut all = Vec::from_slice(alloc, key)?;
    all.push(0)?;
    Ok(Bytes::from_vec(all))
}

/// The content of the only cell, where there is one.
fn only_content(cells: &mut Vec<Cell>) -> Option<Bytes>
    ensures { (o : Option (List ℕ)) (key : List ℕ) → list_map cell_pair cells.old.items ≡ cell_of key o → result ≡ o }
{
    match cells.pop() {
        None => None,
        Some(cell) => Some(cell.content),
    }
}
