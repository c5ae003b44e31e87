use crate::{IngestError, LAST_BATCH, ReindexError, ingest, reindex};
use dw_base::Text;
use dw_derive::key_of;
use dw_dict::{Dict, FieldRule};
use dw_event::{BadReason, BadRecord, Cells, EventCell, MarkUid, Record, Report};
use dw_key::DType;
use dw_norm::Kind;
use dw_outside::{Keeper, MemKeeper};
use dw_vis::Vis;
use std::alloc::Global;
use std::test::Fail;

/// A record of the type `lab` and the first day of 2024.
fn lab_record(alloc: Global, fields: &[(&str, &str)]) -> Result<Record, Fail> {
    let mut cells = Cells::new(alloc);
    for (field, raw) in fields {
        cells.put(EventCell {
            field: Text::of(alloc, field)?,
            raw: Text::of(alloc, raw)?,
            vis: Vis::everyone(alloc),
        })?;
    }
    Ok(Record {
        dtype: DType::of(b"lab").ok_or("no type")?,
        date: Text::of(alloc, "20240101")?,
        cells,
    })
}

/// A is indexed as it stands.
fn dictionary(alloc: Global) -> Result<Dict, Fail> {
    let mut dict = Dict::new(alloc);
    let rule = FieldRule::of(Kind::Noop, true, false).ok_or("no rule")?;
    dict.define("A", rule)?;
    Ok(dict)
}

/// An ingest, or None of what is out of range.
fn take(
    alloc: Global,
    keeper: &mut MemKeeper,
    last: u64,
    records: &[Result<Record, BadRecord>],
) -> Result<Option<Result<Report, IngestError>>, Fail> {
    let dict = dictionary(alloc)?;
    if last > LAST_BATCH || records.len() > 1_000 {
        return Ok(None);
    }
    Ok(Some(ingest(alloc, keeper, &MarkUid, &dict, last, records)))
}

/// What was new, repeated and bad, and the last number.
fn counts(report: &Report) -> (u32, u32, usize, u64) {
    (
        report.new,
        report.repeat,
        report.bad.as_slice().len(),
        report.last,
    )
}

/// The counts of an ingest that succeeds.
fn taken(
    alloc: Global,
    keeper: &mut MemKeeper,
    last: u64,
    records: &[Result<Record, BadRecord>],
) -> Result<(u32, u32, usize, u64), Fail> {
    let report = take(alloc, keeper, last, records)?.ok_or("range")??;
    Ok(counts(&report))
}

fn is_clash(report: &Report) -> bool {
    match report.bad.as_slice() {
        [bad] => bad.at == 1 && matches!(&bad.why, BadReason::Clash { .. }),
        _ => false,
    }
}

/// How many cells a table has, and the content of the first.
fn first_of(alloc: Global, keeper: &mut MemKeeper, table: u8) -> Option<(usize, Vec<u8>)> {
    if table > 3 {
        return None;
    }
    let cells = keeper.scan(table, b"", b"", 0).ok()?;
    let content = match cells.first() {
        None => Vec::new(alloc),
        Some(cell) => Vec::from_slice(alloc, cell.content.as_slice()).ok()?,
    };
    Some((cells.len(), content))
}

/// So many events whose field A is `x`, from the number on.
fn same_values(
    alloc: Global,
    from: u32,
    count: u32,
) -> Result<Vec<Result<Record, BadRecord>>, Fail> {
    let mut records = Vec::new(alloc);
    for k in 0..count {
        let id = format!(in alloc; "0-{}", from.saturating_add(k))?;
        records.push(Ok(lab_record(alloc, &[("A", "x"), ("ID", id.as_str())])?))?;
    }
    Ok(records)
}

#[test]
fn records_are_new_repeats_or_clashes(rt: HostRuntime) -> Result<(), Fail> {
    let alloc = rt.alloc();
    let mut keeper = MemKeeper::without_reads(alloc);
    let mut records = Vec::new(alloc);
    for fields in [
        [("A", "x"), ("ID", "0-1")],
        [("A", "y"), ("ID", "0-1")],
        [("A", "x"), ("ID", "0-1")],
    ] {
        records.push(Ok(lab_record(alloc, &fields)?))?;
    }
    for (last, wanted) in [(0, (1, 1, 1, 1)), (1, (0, 2, 1, 1))] {
        let report = take(alloc, &mut keeper, last, records.as_slice())?.ok_or("range")??;
        assert_eq!(rt; counts(&report), wanted);
        assert!(rt; is_clash(&report));
    }
    Ok(())
}

#[test]
fn a_list_keeps_50_uids_and_then_their_number(rt: HostRuntime) -> Result<(), Fail> {
    let alloc = rt.alloc();
    let mut keeper = MemKeeper::without_reads(alloc);
    let fifty = same_values(alloc, 1, 50)?;
    let report = taken(alloc, &mut keeper, 0, fifty.as_slice())?;
    assert_eq!(rt; report, (50, 0, 0, 1));
    let (cells, content) = first_of(alloc, &mut keeper, 1).ok_or("a scan")?;
    assert_eq!(rt; (cells, content.len()), (1, 1_603));
    let more = same_values(alloc, 51, 1)?;
    let report = taken(alloc, &mut keeper, 1, more.as_slice())?;
    assert_eq!(rt; report, (1, 0, 0, 2));
    let (_, content) = first_of(alloc, &mut keeper, 1).ok_or("a scan")?;
    assert_eq!(rt;
        content.as_slice(),
        b"\x02\x01\x00\x00\x00\x00\x00\x00\x00\x33".as_slice()
    );
    Ok(())
}

#[test]
fn the_last_number_is_spent(rt: HostRuntime) -> Result<(), Fail> {
    let alloc = rt.alloc();
    let mut keeper = MemKeeper::without_reads(alloc);
    let one = same_values(alloc, 1, 1)?;
    let report = taken(alloc, &mut keeper, LAST_BATCH - 1, one.as_slice())?;
    assert_eq!(rt; report, (1, 0, 0, LAST_BATCH));
    let report = taken(alloc, &mut keeper, LAST_BATCH, one.as_slice())?;
    assert_eq!(rt; report, (0, 1, 0, LAST_BATCH));
    let other = same_values(alloc, 2, 1)?;
    let result = take(alloc, &mut keeper, LAST_BATCH, other.as_slice())?;
    assert!(rt; matches!(result, Some(Err(IngestError::Spent))));
    Ok(())
}

#[test]
fn a_failed_call_leaves_no_cell(rt: HostRuntime) -> Result<(), Fail> {
    let alloc = rt.alloc();
    let records = same_values(alloc, 1, 3)?;
    for call in 1..20u64 {
        let mut keeper = MemKeeper::new(alloc, vec![in alloc; call]?);
        let result = take(alloc, &mut keeper, 0, records.as_slice())?.ok_or("range")?;
        assert_eq!(rt; result.is_ok(), call > 5);
        if result.is_ok() {
            continue;
        }
        for table in 0..4u8 {
            let (cells, _) = first_of(alloc, &mut keeper, table).ok_or("a scan")?;
            assert_eq!(rt; cells, 0);
        }
    }
    Ok(())
}

/// The stamps of the cells of table 0, in the order of their keys.
fn stamps_of(alloc: Global, keeper: &mut MemKeeper) -> Result<Vec<u64>, Fail> {
    let cells = keeper.scan(0, b"", b"", 0)?;
    let mut stamps = Vec::new(alloc);
    for cell in cells.as_slice() {
        let key = key_of(alloc, cell.key.as_slice())?.ok_or("no key")?;
        stamps.push(key.stamp)?;
    }
    Ok(stamps)
}

#[test]
fn cells_have_the_number_of_their_batch(rt: HostRuntime) -> Result<(), Fail> {
    let alloc = rt.alloc();
    let mut keeper = MemKeeper::without_reads(alloc);
    let mut first = Vec::new(alloc);
    for id in ["0-2", "0-4"] {
        first.push(Ok(lab_record(alloc, &[("A", "x"), ("ID", id)])?))?;
    }
    let report = taken(alloc, &mut keeper, 0, first.as_slice())?;
    assert_eq!(rt; report, (2, 0, 0, 1));
    let second = same_values(alloc, 1, 1)?;
    let report = taken(alloc, &mut keeper, 1, second.as_slice())?;
    assert_eq!(rt; report, (1, 0, 0, 2));
    // The field index of 0-1, 0-2 and 0-4, and then the two cells of each.
    let stamps = stamps_of(alloc, &mut keeper)?;
    assert_eq!(rt; stamps.as_slice(), [2, 1, 1, 2, 2, 1, 1, 1, 1].as_slice());
    Ok(())
}

/// U becomes a field of words that is indexed, or None where its rule would not be wider.
fn index_words(
    alloc: Global,
    keeper: &mut MemKeeper,
) -> Result<Option<Result<u64, ReindexError>>, Fail> {
    let dict = dictionary(alloc)?;
    let rule = FieldRule::of(Kind::Text, true, false).ok_or("no rule")?;
    if !rule.widens(&dict.look("U")) {
        return Ok(None);
    }
    Ok(Some(reindex(alloc, keeper, &dict, "U", rule)))
}

/// Two events with A `1` and U `a` or `b`.
fn two_words(alloc: Global) -> Result<Vec<Result<Record, BadRecord>>, Fail> {
    let mut records = Vec::new(alloc);
    records.push(Ok(lab_record(alloc, &[("A", "1"), ("U", "a"), ("ID", "0-1")])?))?;
    records.push(Ok(lab_record(alloc, &[("A", "1"), ("U", "b"), ("ID", "0-2")])?))?;
    Ok(records)
}

/// How many cells the tables 0 to 3 have.
fn sizes(alloc: Global, keeper: &mut MemKeeper) -> Option<(usize, usize, usize, usize)> {
    let (zeroth, _) = first_of(alloc, keeper, 0)?;
    let (first, _) = first_of(alloc, keeper, 1)?;
    let (second, _) = first_of(alloc, keeper, 2)?;
    let (third, _) = first_of(alloc, keeper, 3)?;
    Some((zeroth, first, second, third))
}

#[test]
fn a_wider_rule_adds_its_cells(rt: HostRuntime) -> Result<(), Fail> {
    let alloc = rt.alloc();
    let mut keeper = MemKeeper::without_reads(alloc);
    let records = two_words(alloc)?;
    let report = taken(alloc, &mut keeper, 0, records.as_slice())?;
    assert_eq!(rt; report, (2, 0, 0, 1));
    assert!(rt; sizes(alloc, &mut keeper) == Some((8, 1, 0, 1)));
    let count = index_words(alloc, &mut keeper)?.ok_or("no rule")?;
    assert!(rt; count == Ok(4));
    assert!(rt; sizes(alloc, &mut keeper) == Some((10, 3, 0, 2)));
    // The cells of the field index have the batch of their events.
    let stamps = stamps_of(alloc, &mut keeper)?;
    assert!(rt; stamps.iter().all(|stamp| *stamp == 1));
    Ok(())
}

#[test]
fn a_fault_leaves_the_old_rule(rt: HostRuntime) -> Result<(), Fail> {
    let alloc = rt.alloc();
    let records = two_words(alloc)?;
    for calls in 0..2u64 {
        let mut keeper = MemKeeper::without_reads(alloc);
        let report = taken(alloc, &mut keeper, 0, records.as_slice())?;
        assert_eq!(rt; report, (2, 0, 0, 1));
        keeper.fail_after(calls);
        let failed = index_words(alloc, &mut keeper)?.ok_or("no rule")?;
        assert!(rt; failed == Err(ReindexError::StoreFault));
        assert!(rt; sizes(alloc, &mut keeper) == Some((8, 1, 0, 1)));
    }
    Ok(())
}
