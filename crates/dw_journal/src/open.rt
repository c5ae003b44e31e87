ghost use Rattle.std.specs.Prelude.{◌≡◌, ◌<◌, ◌≤◌, [], ℕ, List, Ok, Err, None, false, length, IfOk, IfErr, OnOk, OnErr};
ghost use Rattle.std.specs.FinMap as map;
ghost use Rattle.dw_outside.specs.declared.cell.Put.{Put};
ghost use Rattle.dw_outside.specs.Faults.{Rose};
ghost use Rattle.dw_outside.specs.Disks.{Now};
ghost use Rattle.dw_journal.specs.Frames.{IsBadAt, StandsFor};
ghost use Rattle.dw_journal.specs.Fixed.{IsAtRest, told_length};
ghost use Rattle.dw_journal.specs.Journal.{IsPlaced, IsJournal};
ghost use Rattle.dw_journal.specs.Opening.{IsOpened, SinceNoMore};

use crate::keeper::JournalKeeper;
use crate::open_error::OpenError;
use crate::reading::read_frames;
use dw_outside::{Disk, Failed, Store};
use std::alloc::Global;

/// The disk of a journal that could not be opened.
#[derive(Debug, Drop)]
pub struct Unopened<D: Drop> {
    pub disk: D,
    pub why: OpenError,
}

impl<D: Disk + Drop> JournalKeeper<D> {
    /// Reads the journal of a disk. Where it has fewer than two bytes it is begun anew. What is read is put
    /// on the disk first, so that no later stop leaves anything else.
    pub fn open(alloc: Global, disk: D) -> Result<JournalKeeper<D>, Unopened<D>>
        // The disk told bytes that stand for batches, and those stand now, with nothing in doubt.
        ensures opened { IfOk result (λ k. Now (λ s. (batches : List (List Put)) × StandsFor batches s.seen × IsJournal (D.model k.disk) batches None k) (D.model disk)) }
        ensures unread { IfOk result (λ k. k.reads ≡ []) }

        // Failed comes only of the disk, and BadJournal of a gate that is open before no frame.
        ensures failed { IfErr result (λ u. u.why ≡ OpenError.Failed → Rose (D.faults disk) (D.faults u.disk)) }
        ensures bad { IfErr result (λ u. (at : ℕ) → u.why ≡ OpenError.BadJournal at → Now (λ s. IsBadAt at s.seen) (D.model disk)) }
        ensures good { IfOk result (λ k. Now (λ s. (at : ℕ) → IsBadAt at s.seen → ⊥) (D.model disk)) }

        // A stop at any moment leaves no more than it could before.
        ensures moments { IfOk result (λ k. SinceNoMore (D.model disk) (D.model k.disk)) }
        ensures refused { IfErr result (λ u. SinceNoMore (D.model disk) (D.model u.disk)) }
        ensures counted { IfOk result (λ k. D.faults disk ≤ D.faults k.disk) }
    {
        let mut disk = disk;
        match open_disk(alloc, &mut disk) {
            Err(why) => Err(Unopened { disk, why }),
            Ok((store, gate)) => Ok(JournalKeeper {
                alloc,
                disk,
                store,
                gate,
                in_doubt: false,
                reads: Vec::new(alloc),
            }),
        }
    }
}

/// Reads the tables of a disk, and the place of its first closed gate.
fn open_disk<D: Disk>(alloc: Global, disk: &mut D) -> Result<(Store, u64), OpenError>
    ensures opened { IfOk result (λ r. Now (λ s. IsOpened s.seen r.0 r.1 (D.model disk.new)) (D.model disk.old)) }
    ensures placed { IfOk result (λ r. IsPlaced (D.model disk.new) r.1) }
    ensures bad { (at : ℕ) → result ≡ Err (OpenError.BadJournal at) → Now (λ s. IsBadAt at s.seen) (D.model disk.old) }
    ensures moments { SinceNoMore (D.model disk.old) (D.model disk.new) }
    ensures counted { D.faults disk.old ≤ D.faults disk.new }
    ensures failed { result ≡ Err OpenError.Failed → Rose (D.faults disk.old) (D.faults disk.new) }
{
    let size = disk.length()?;
    disk.sync()?;
    if size >= 2 {
        return read_frames(alloc, disk, size);
    }
    disk.write_at(0, &[0])?;
    disk.sync()?;
    Ok((Store::new(alloc), 0))
}
