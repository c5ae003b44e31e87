use dw_base::{Bytes, Names, Text};
use dw_derive::{field_cell, grant_cell};
use dw_dict::{Dict, FieldRule};
use dw_event::{BadRecord, Cells, EventCell, MarkUid, Record};
use dw_ingest::ingest;
use dw_key::DType;
use dw_norm::Kind;
use dw_outside::{Keeper, MemKeeper, Put};
use dw_vis::Vis;
use std::alloc::Global;
use std::cmp::Ordering;
use std::test::Fail;

/// What the plain store is made without.
#[derive(Clone, Copy)]
pub enum Lack {
    Nothing,
    /// A cell of its records, in the order of these and of their fields.
    Cell(usize),
    /// The rule of A.
    Rule,
    /// What was granted to ann.
    Grant,
}

/// What is done to a cell of a store.
#[derive(Clone, Copy)]
pub enum Harm<'a> {
    TakenOut,
    /// It gets another content.
    Changed(&'a [u8]),
    /// Its key gets a byte more, so that it is the code of no key.
    Spoilt,
}

/// Sets one cell.
pub fn set(keeper: &mut MemKeeper, put: Put) -> Result<(), Fail> {
    if put.table > 3 {
        return Err(Fail::from("no table"));
    }
    keeper.apply(&[put])?;
    Ok(())
}

/// A record of the type `lab` and the first day of 2024, without one of these fields.
fn lab_record(
    alloc: Global,
    fields: &[(&str, &str)],
    without: Option<usize>,
) -> Result<Record, Fail> {
    let mut cells = Cells::new(alloc);
    for (at, (field, raw)) in fields.iter().enumerate() {
        if without == Some(at) {
            continue;
        }
        cells.put(EventCell {
            field: Text::of(alloc, field)?,
            raw: Text::of(alloc, raw)?,
            vis: Vis::everyone(alloc),
        })?;
    }
    Ok(Record {
        dtype: DType::of(b"lab").ok_or("no type")?,
        date: Text::of(alloc, "20240101")?,
        cells,
    })
}

/// Two events. Each is named twice by its ID, so that it keeps its uid without one of its cells.
fn two_records(
    alloc: Global,
    without: Option<usize>,
) -> Result<Vec<Result<Record, BadRecord>>, Fail> {
    let first = [("A", "x"), ("ID", "0-1"), ("ID", "0-1b")];
    let second = [
        ("A", "x"),
        ("B", "1"),
        ("B", "2"),
        ("ID", "0-2"),
        ("ID", "0-2b"),
    ];
    let past = match without {
        None => None,
        Some(at) => at.checked_sub(3),
    };
    let mut records = Vec::new(alloc);
    records.push(Ok(lab_record(alloc, &first, without)?))?;
    records.push(Ok(lab_record(alloc, &second, past)?))?;
    Ok(records)
}

/// The store with these records, where A is indexed or has no rule.
pub fn stored(
    alloc: Global,
    keeper: MemKeeper,
    records: &[Result<Record, BadRecord>],
    indexed: bool,
) -> Result<MemKeeper, Fail> {
    let mut keeper = keeper;
    let mut dict = Dict::new(alloc);
    if indexed {
        let rule = FieldRule::of(Kind::Noop, true, false).ok_or("no rule")?;
        dict.define("A", rule)?;
        set(&mut keeper, field_cell(alloc, "A", rule)?)?;
    }
    if records.len() > 2 {
        return Err(Fail::from("range"));
    }
    let taken = ingest(alloc, &mut keeper, &MarkUid, &dict, 0, records);
    if taken.is_err() {
        return Err(Fail::from("an ingest"));
    }
    Ok(keeper)
}

/// Grants S to ann.
fn grant(alloc: Global, keeper: &mut MemKeeper) -> Result<(), Fail> {
    let mut names = Names::new(alloc);
    names.put(Text::of(alloc, "S")?)?;
    if names
        .as_slice()
        .iter()
        .all(|name| name.as_str().len() < 512)
    {
        set(keeper, grant_cell(alloc, "ann", names.as_slice())?)?;
    }
    Ok(())
}

/// The plain store, made without one thing.
pub fn store_without(alloc: Global, lack: Lack) -> Result<MemKeeper, Fail> {
    let without = match lack {
        Lack::Cell(at) => Some(at),
        _ => None,
    };
    let records = two_records(alloc, without)?;
    let keeper = MemKeeper::without_reads(alloc);
    let indexed = !matches!(lack, Lack::Rule);
    let mut keeper = stored(alloc, keeper, records.as_slice(), indexed)?;
    if !matches!(lack, Lack::Grant) {
        grant(alloc, &mut keeper)?;
    }
    Ok(keeper)
}

/// A store in which A is indexed, two events were taken in, and ann was granted S.
pub fn plain_store(alloc: Global) -> Result<MemKeeper, Fail> {
    store_without(alloc, Lack::Nothing)
}

/// All cells of a store, by table and then by key.
pub fn rows_of(alloc: Global, keeper: &mut MemKeeper) -> Result<Vec<Put>, Fail> {
    let mut rows = Vec::new(alloc);
    for table in 0..4u8 {
        for cell in keeper.scan(table, b"", b"", 0)?.as_slice() {
            rows.push(Put {
                table,
                key: cell.key.copy()?,
                content: cell.content.copy()?,
            })?;
        }
    }
    Ok(rows)
}

/// A keeper with these cells.
pub fn keeper_of(alloc: Global, rows: &[Put]) -> Result<MemKeeper, Fail> {
    let mut keeper = MemKeeper::without_reads(alloc);
    if !rows.iter().all(|row| row.table <= 3) {
        return Err(Fail::from("no table"));
    }
    keeper.apply(rows)?;
    Ok(keeper)
}

/// A cell once it is harmed, where it is left.
fn harmed(alloc: Global, row: &Put, harm: Harm<'_>) -> Result<Option<Put>, Fail> {
    let mut key = Vec::from_slice(alloc, row.key.as_slice())?;
    let content = match harm {
        Harm::TakenOut => return Ok(None),
        Harm::Changed(content) => content,
        Harm::Spoilt => {
            key.push(b'?')?;
            row.content.as_slice()
        }
    };
    Ok(Some(Put {
        table: row.table,
        key: Bytes::from_vec(key),
        content: Bytes::of(alloc, content)?,
    }))
}

/// The cells of a store, with the one at a place harmed. No key lies between a key and that with a byte more.
pub fn rows_with(alloc: Global, rows: &[Put], at: usize, harm: Harm<'_>) -> Result<Vec<Put>, Fail> {
    let mut others = Vec::new(alloc);
    for (place, row) in rows.iter().enumerate() {
        let harm = if place == at {
            harm
        } else {
            Harm::Changed(row.content.as_slice())
        };
        if let Some(row) = harmed(alloc, row, harm)? {
            others.push(row)?;
        }
    }
    Ok(others)
}

/// The store with one cell of a table harmed.
pub fn damaged(
    alloc: Global,
    keeper: &mut MemKeeper,
    table: u8,
    at: usize,
    harm: Harm<'_>,
) -> Result<MemKeeper, Fail> {
    let rows = rows_of(alloc, keeper)?;
    let start = rows
        .as_slice()
        .iter()
        .take_while(|row| row.table < table)
        .count();
    let others = rows_with(alloc, rows.as_slice(), start.saturating_add(at), harm)?;
    keeper_of(alloc, others.as_slice())
}

/// How two cells stand to each other, by table and then by key.
fn compare(one: &Put, other: &Put) -> Ordering {
    match one.table.cmp(&other.table) {
        Ordering::Equal => one.key.cmp(&other.key),
        order => order,
    }
}

/// The first difference of the cells of two stores: what stands there in each. Up to it both lists are the same.
pub fn difference<'a>(
    found: &'a [Put],
    wanted: &'a [Put],
) -> Option<(Option<&'a Put>, Option<&'a Put>)> {
    for at in 0..found.len().max(wanted.len()) {
        let (Some(is), Some(should)) = (found.get(at), wanted.get(at)) else {
            return Some((found.get(at), wanted.get(at)));
        };
        match compare(is, should) {
            Ordering::Less => return Some((Some(is), None)),
            Ordering::Greater => return Some((None, Some(should))),
            Ordering::Equal => {
                if is.content != should.content {
                    return Some((Some(is), Some(should)));
                }
            }
        }
    }
    None
}
