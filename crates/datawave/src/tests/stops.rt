//! Batches of records over a journal whose disk fails and stops.
ghost use Rattle.std.specs.Prelude.{◌≤◌};

use dw_dict::{Dict, FieldRule};
use dw_event::{Cells, EventCell, MarkUid, Record};
use dw_ingest::{IngestError, LAST_BATCH, ingest};
use dw_journal::JournalKeeper;
use dw_key::{DType, Text};
use dw_norm::Kind;
use dw_outside::{Cell, Keeper, Leave, MemDisk, MemKeeper};
use dw_vis::Vis;
use std::alloc::Global;
use std::test::Fail;

fn cell(alloc: Global, field: &str, raw: &str) -> Result<EventCell, Fail> {
    Ok(EventCell {
        field: Text::of(alloc, field)?,
        raw: Text::of(alloc, raw)?,
        vis: Vis::everyone(alloc),
    })
}

/// A record of the type `lab` on the first day of 2024, unlike those of other numbers.
fn lab_record(alloc: Global, number: u8) -> Result<Record, Fail> {
    let id = format!(in alloc; "0-{number}")?;
    let mut cells = Cells::new(alloc);
    cells.put(cell(alloc, "A", "x")?)?;
    cells.put(cell(alloc, "ID", id.as_str())?)?;
    Ok(Record {
        dtype: DType::of(b"lab").ok_or("no type")?,
        date: Text::of(alloc, "20240101")?,
        cells,
    })
}

/// A is indexed as it stands.
fn dictionary(alloc: Global) -> Result<Dict, Fail> {
    let mut dict = Dict::new(alloc);
    let rule = FieldRule::of(Kind::Noop, true, false).ok_or("no rule")?;
    dict.define("A", rule)?;
    Ok(dict)
}

/// Takes one record as a batch, and gives its number, or None where the keeper failed.
fn take<K: Keeper>(
    alloc: Global,
    keeper: &mut K,
    last: u64,
    number: u8,
) -> Result<Option<u64>, Fail> {
    if last >= LAST_BATCH {
        return Err("no number is left")?;
    }
    let dict = dictionary(alloc)?;
    let records = [Ok(lab_record(alloc, number)?)];
    match ingest(alloc, keeper, &MarkUid, &dict, last, &records) {
        Ok(report) => Ok(Some(report.last)),
        Err(IngestError::StoreFault) => Ok(None),
        Err(_) => Err("another error")?,
    }
}

/// Takes five batches over a journal on this disk, and says which were acknowledged.
fn take_five(alloc: Global, disk: MemDisk) -> Result<(MemDisk, Vec<bool>), Fail> {
    let mut told = Vec::new(alloc);
    let mut keeper = match JournalKeeper::open(alloc, disk) {
        Ok(keeper) => keeper,
        Err(unopened) => return Ok((unopened.disk, told)),
    };
    let mut last = 0;
    for number in 0..5u8 {
        let taken = take(alloc, &mut keeper, last, number)?;
        last = taken.unwrap_or(last);
        told.push(taken.is_some())?;
    }
    Ok((keeper.into_disk(), told))
}

/// A keeper in memory that took the acknowledged batches, and the one that is in doubt, if there is one.
fn keeper_of(alloc: Global, told: &[bool], doubt: usize) -> Result<MemKeeper, Fail> {
    let mut keeper = MemKeeper::without_reads(alloc);
    let mut last = 0;
    let mut number = 0u8;
    for (at, acknowledged) in told.iter().enumerate() {
        if *acknowledged || at == doubt {
            last = take(alloc, &mut keeper, last, number)?.ok_or("a failure")?;
        }
        number = number.saturating_add(1);
    }
    Ok(keeper)
}

fn are_same(these: &[Cell], those: &[Cell]) -> bool {
    these.len() == those.len()
        && these.iter().zip(those.iter()).all(|(one, other)| one.key == other.key
            && one.content == other.content)
}

/// Whether two keepers have the same cells in a table.
fn have_same<K: Keeper, L: Keeper>(one: &mut K, other: &mut L, table: u8) -> bool
    requires { table ≤ 3 }
{
    let these = one.scan(table, b"", b"", 0);
    let those = other.scan(table, b"", b"", 0);
    match (these, those) {
        (Ok(these), Ok(those)) => are_same(these.as_slice(), those.as_slice()),
        _ => false,
    }
}

/// Whether two keepers have the same tables.
fn agree<K: Keeper, L: Keeper>(one: &mut K, other: &mut L) -> bool {
    for table in 0..4u8 {
        if !have_same(one, other, table) {
            return false;
        }
    }
    true
}

/// Whether a keeper has the tables of the acknowledged batches, or of these and one that was refused after
/// the last of them.
fn holds_what_was_told<K: Keeper>(
    alloc: Global,
    keeper: &mut K,
    told: &[bool],
) -> Result<bool, Fail> {
    let mut sure = 0usize;
    for (at, acknowledged) in told.iter().enumerate() {
        if *acknowledged {
            sure = at.saturating_add(1);
        }
    }
    for doubt in sure..told.len().saturating_add(1) {
        if agree(keeper, &mut keeper_of(alloc, told, doubt)?) {
            return Ok(true);
        }
    }
    Ok(false)
}

/// Takes five batches while these calls of the disk fail, stops, and opens again.
fn survives(alloc: Global, fail_calls: Vec<u64>, leave: Leave) -> Result<bool, Fail> {
    let disk = MemDisk::new(alloc, 16_384, 256, fail_calls)?;
    let (disk, told) = take_five(alloc, disk)?;
    let stopped = disk.stop(alloc, leave)?;
    let mut again = JournalKeeper::open(alloc, stopped)
        .ok()
        .ok_or("not opened again")?;
    holds_what_was_told(alloc, &mut again, told.as_slice())
}

/// The calls from one on.
fn from(alloc: Global, first: u64) -> Result<Vec<u64>, Fail> {
    let mut calls = Vec::new(alloc);
    for call in first..64 {
        calls.push(call)?;
    }
    Ok(calls)
}

const LEAVES: [Leave; 4] = [Leave::Old, Leave::New, Leave::Byte(0), Leave::Byte(1)];

#[test]
fn a_disk_that_never_fails_acknowledges_all(rt: HostRuntime) -> Result<(), Fail> {
    let alloc = rt.alloc();
    let whole = MemDisk::new(alloc, 16_384, 256, Vec::new(alloc))?;
    let (_, told) = take_five(alloc, whole)?;
    assert!(rt; told.len() == 5 && told.iter().all(|it| *it));
    Ok(())
}

#[test]
fn a_stop_leaves_the_batches_that_were_acknowledged(rt: HostRuntime) -> Result<(), Fail> {
    let alloc = rt.alloc();
    for call in 1..41 {
        for leave in LEAVES {
            let one = survives(alloc, vec![in alloc; call]?, leave)?;
            assert!(rt; one, "call {call} fails, {leave:?}");
        }
    }
    Ok(())
}

#[test]
fn a_stop_of_a_disk_that_fails_for_good_leaves_them_too(rt: HostRuntime) -> Result<(), Fail> {
    let alloc = rt.alloc();
    for call in 1..41 {
        for leave in LEAVES {
            let all = survives(alloc, from(alloc, call)?, leave)?;
            assert!(rt; all, "all from call {call} on fail, {leave:?}");
        }
    }
    Ok(())
}
