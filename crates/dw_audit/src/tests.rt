use crate::{Verdict, audit};
use dw_base::{Bytes, Text};
use dw_derive::{commit_cell, doc_text};
use dw_event::{Cells, EventCell, Record};
use dw_key::{DType, DocKey, Key, encode};
use dw_outside::{Keeper, KeeperError, MemKeeper, Put};
use dw_vis::Vis;
use std::alloc::Global;
use std::test::Fail;
use stores::{
    Harm, Lack, damaged, difference, keeper_of, plain_store, rows_of, rows_with, set,
    store_without, stored,
};

mod stores;

/// Where a key stands among the cells of a table.
fn place_of(keeper: &mut MemKeeper, table: u8, key: &[u8]) -> Option<usize> {
    if table > 3 {
        return None;
    }
    let cells = keeper.scan(table, b"", b"", 0).ok()?;
    cells
        .as_slice()
        .iter()
        .position(|cell| cell.key.as_slice() == key)
}

fn is_same(found: &Option<Bytes>, other: Option<&[u8]>) -> bool {
    match (found, other) {
        (None, None) => true,
        (Some(bytes), Some(others)) => bytes.as_slice() == others,
        _ => false,
    }
}

/// Whether a verdict is this difference.
fn shows(
    verdict: &Verdict,
    table: u8,
    key: &[u8],
    found: Option<&[u8]>,
    wanted: Option<&[u8]>,
) -> bool {
    match verdict {
        Verdict::Sound => false,
        Verdict::Damaged {
            table: of,
            key: at,
            found: is,
            wanted: should,
        } => {
            *of == table && at.as_slice() == key && is_same(is, found) && is_same(should, wanted)
        }
    }
}

fn is_sound(verdict: &Verdict) -> bool {
    matches!(verdict, Verdict::Sound)
}

/// What was found in a store: nothing, or the place of the first difference among the cells of the intact
/// store, and whether it was found and is wanted there.
fn place_found(intact: &mut MemKeeper, verdict: &Verdict) -> Option<(u8, usize, bool, bool)> {
    match verdict {
        Verdict::Sound => None,
        Verdict::Damaged {
            table,
            key,
            found,
            wanted,
        } => {
            let at = place_of(intact, *table, key.as_slice())?;
            Some((*table, at, found.is_some(), wanted.is_some()))
        }
    }
}

/// A document of the type `lab` whose uid ends with a number.
fn doc(alloc: Global, number: u8) -> Result<Bytes, Fail> {
    let mut uid = [0u8; 32];
    uid[31] = number;
    let dtype = DType::of(b"lab").ok_or("no type")?;
    Ok(doc_text(alloc, &DocKey { dtype, uid })?)
}

fn key(
    alloc: Global,
    row: &[u8],
    family: &[u8],
    qualifier: &[u8],
    vis: &[u8],
    stamp: u64,
) -> Result<Bytes, Fail> {
    let key = Key {
        row: Bytes::of(alloc, row)?,
        family: Bytes::of(alloc, family)?,
        qualifier: Bytes::of(alloc, qualifier)?,
        vis: Bytes::of(alloc, vis)?,
        stamp,
    };
    Ok(encode(alloc, &key)?)
}

/// The verdict on the plain store with one cell more.
fn audit_with(alloc: Global, table: u8, key: &Bytes, content: &[u8]) -> Result<Verdict, Fail> {
    let mut keeper = plain_store(alloc)?;
    let put = Put {
        table,
        key: key.copy()?,
        content: Bytes::of(alloc, content)?,
    };
    set(&mut keeper, put)?;
    Ok(audit(alloc, &mut keeper)?)
}

#[test]
fn a_store_is_sound_and_an_empty_one_too(rt: HostRuntime) -> Result<(), Fail> {
    let alloc = rt.alloc();
    let mut empty = MemKeeper::without_reads(alloc);
    assert!(rt; is_sound(&audit(alloc, &mut empty)?));
    let mut keeper = plain_store(alloc)?;
    assert!(rt; is_sound(&audit(alloc, &mut keeper)?));
    Ok(())
}

#[test]
fn a_cell_of_the_field_index_is_missed(rt: HostRuntime) -> Result<(), Fail> {
    let alloc = rt.alloc();
    let mut keeper = plain_store(alloc)?;
    let mut qualifier = Vec::from_slice(alloc, b"x\0")?;
    qualifier.extend_from_slice(doc(alloc, 1)?.as_slice())?;
    let missing = key(alloc, b"20240101_0", b"fi\0A", qualifier.as_slice(), b"", 1)?;
    let at = place_of(&mut keeper, 0, missing.as_slice()).ok_or("no cell")?;
    let mut other = damaged(alloc, &mut keeper, 0, at, Harm::TakenOut)?;
    let verdict = audit(alloc, &mut other)?;
    assert!(rt; shows(&verdict, 0, missing.as_slice(), None, Some(b"")));
    Ok(())
}

/// Whether a verdict is the first difference of these cells.
fn is_told(verdict: &Verdict, found: &[Put], wanted: &[Put]) -> bool {
    let Some((is, should)) = difference(found, wanted) else {
        return is_sound(verdict);
    };
    let Some(row) = is.or(should) else {
        return false;
    };
    let is = is.map(|row| row.content.as_slice());
    let should = should.map(|row| row.content.as_slice());
    shows(verdict, row.table, row.key.as_slice(), is, should)
}

/// What the world of the plain store lacks once the cell at a place is harmed. Table 0 has two cells of the
/// field index, A, ID and ID of 0-1, and A, B, B, ID and ID of 0-2; table 1 one list; table 3 the last number, the
/// rule of A and the grant.
fn lack_after(at: usize, harm: Harm<'_>) -> Lack {
    match (at, harm) {
        // An event has its cells whatever their content.
        (2..=9, Harm::Changed(_)) => Lack::Nothing,
        (2..=9, _) => Lack::Cell(at.saturating_sub(2)),
        (12, _) => Lack::Rule,
        (13, _) => Lack::Grant,
        _ => Lack::Nothing,
    }
}

/// Whether the verdict on the plain store with one cell harmed is the first difference from the store of the
/// world that is left.
fn is_told_of(alloc: Global, rows: &[Put], at: usize, harm: Harm<'_>) -> Result<bool, Fail> {
    let found = rows_with(alloc, rows, at, harm)?;
    let mut left = store_without(alloc, lack_after(at, harm))?;
    let wanted = rows_of(alloc, &mut left)?;
    let mut other = keeper_of(alloc, found.as_slice())?;
    let verdict = audit(alloc, &mut other)?;
    Ok(is_told(&verdict, found.as_slice(), wanted.as_slice()))
}

#[test]
fn each_cell_is_harmed(rt: HostRuntime) -> Result<(), Fail> {
    let alloc = rt.alloc();
    let mut keeper = plain_store(alloc)?;
    let rows = rows_of(alloc, &mut keeper)?;
    assert_eq!(rt; rows.len(), 14);
    for at in 0..14usize {
        for harm in [Harm::TakenOut, Harm::Changed(b"?"), Harm::Spoilt] {
            assert!(rt; is_told_of(alloc, rows.as_slice(), at, harm)?);
        }
    }
    Ok(())
}

#[test]
fn what_follows_from_a_cell_is_found(rt: HostRuntime) -> Result<(), Fail> {
    let alloc = rt.alloc();
    let mut keeper = plain_store(alloc)?;
    let wanted = [
        (0, 1, Harm::TakenOut, Some((0, 1, false, true))),
        // A is gone from 0-1 and from 0-2, and then its rule is: what the index has of it is too much.
        (0, 2, Harm::TakenOut, Some((0, 0, true, false))),
        (0, 5, Harm::TakenOut, Some((0, 1, true, false))),
        (3, 1, Harm::TakenOut, Some((0, 0, true, false))),
        // No index names an ID, and a grant stands for itself.
        (0, 3, Harm::TakenOut, None),
        (3, 2, Harm::TakenOut, None),
        (
            0,
            5,
            Harm::Changed(b"?".as_slice()),
            Some((0, 5, true, true)),
        ),
        (
            1,
            0,
            Harm::Changed(b"?".as_slice()),
            Some((1, 0, true, true)),
        ),
    ];
    for (table, at, harm, place) in wanted {
        let mut other = damaged(alloc, &mut keeper, table, at, harm)?;
        let verdict = audit(alloc, &mut other)?;
        assert_eq!(rt; is_sound(&verdict), place.is_none());
        assert!(rt; place_found(&mut keeper, &verdict) == place);
    }
    Ok(())
}

#[test]
fn a_broken_cell_of_an_event_is_one_too_many(rt: HostRuntime) -> Result<(), Fail> {
    let alloc = rt.alloc();
    let lab = doc(alloc, 1)?;
    let row = b"20240101_0".as_slice();
    let good = b"C\0x".as_slice();
    let cases: [(&[u8], &[u8], &[u8], u64); 15] = [
        (row, b"a\0x", b"", 1),
        (row, b"C\0\xff", b"", 1),
        (row, b"\xff\0x", b"", 1),
        (row, b"C", b"", 1),
        (row, b"C\0", b"", 1),
        (row, b"C\0x\0", b"", 1),
        (row, good, b"A&", 1),
        (row, good, b"\"\0\"", 1),
        (b"20240230_0", good, b"", 1),
        (b"20240101_16", good, b"", 1),
        (b"20240101_00", good, b"", 1),
        (b"2024010_0", good, b"", 1),
        (b"20240101-1", good, b"", 1),
        (b"20240101_1", good, b"", 0),
        (b"20240101_1", good, b"", 1 << 63),
    ];
    for (row, qualifier, vis, stamp) in cases {
        let key = key(alloc, row, lab.as_slice(), qualifier, vis, stamp)?;
        let verdict = audit_with(alloc, 0, &key, b"")?;
        assert!(rt; shows(&verdict, 0, key.as_slice(), Some(b""), None));
    }
    Ok(())
}

#[test]
fn a_family_of_no_document_is_one_too_many(rt: HostRuntime) -> Result<(), Fail> {
    let alloc = rt.alloc();
    for family in [
        b"lab".as_slice(),
        b"lab\0".as_slice(),
        b"l b\00000000000000000000000000000000000000000000000000000000000000009".as_slice(),
        b"lab\0000000000000000000000000000000000000000000000000000000000000000A".as_slice(),
    ] {
        let key = key(alloc, b"20240101_0", family, b"C\0x", b"", 1)?;
        let verdict = audit_with(alloc, 0, &key, b"")?;
        assert!(rt; shows(&verdict, 0, key.as_slice(), Some(b""), None));
    }
    Ok(())
}

#[test]
fn a_cell_of_no_event_is_one_too_many(rt: HostRuntime) -> Result<(), Fail> {
    let alloc = rt.alloc();
    for table in [1, 2] {
        let key = key(alloc, b"y", b"A", b"20240101_0\0lab", b"", 0)?;
        let verdict = audit_with(alloc, table, &key, b"\x02\x01")?;
        assert!(rt; shows(&verdict, table, key.as_slice(), Some(b"\x02\x01"), None));
    }
    let none = Bytes::of(alloc, b"no key")?;
    for table in 0..4u8 {
        let verdict = audit_with(alloc, table, &none, b"z")?;
        assert!(rt; shows(&verdict, table, none.as_slice(), Some(b"z"), None));
    }
    Ok(())
}

#[test]
fn an_event_has_the_batch_of_its_first_cell(rt: HostRuntime) -> Result<(), Fail> {
    let alloc = rt.alloc();
    let lab = doc(alloc, 1)?;
    // One cell more of 0-1, whose batch is 1: it is wanted with that stamp, which stands before a smaller one.
    let wanted = key(alloc, b"20240101_0", lab.as_slice(), b"C\0x", b"", 1)?;
    let older = key(alloc, b"20240101_0", lab.as_slice(), b"C\0x", b"", 0)?;
    let verdict = audit_with(alloc, 0, &older, b"")?;
    assert!(rt; shows(&verdict, 0, wanted.as_slice(), None, Some(b"")));
    // A batch above the last number makes that the number that is wanted.
    let commit = key(alloc, b"commit", b"", b"", b"", 0)?;
    let later = key(alloc, b"20240101_1", lab.as_slice(), b"C\0x", b"", 5)?;
    let verdict = audit_with(alloc, 0, &later, b"")?;
    let found = b"\0\0\0\0\0\0\0\x01";
    let should = b"\0\0\0\0\0\0\0\x05";
    assert!(rt; shows(&verdict, 3, commit.as_slice(), Some(found), Some(should)));
    Ok(())
}

#[test]
fn an_event_over_the_limits_is_left_out_whole(rt: HostRuntime) -> Result<(), Fail> {
    let alloc = rt.alloc();
    let lab = doc(alloc, 9)?;
    let mut keeper = plain_store(alloc)?;
    let mut first = Bytes::new(alloc);
    for at in 0..17u8 {
        let mut qualifier = Vec::from_slice(alloc, b"C\0")?;
        qualifier.push(at.saturating_add(65))?;
        for _ in 0..4_000u32 {
            qualifier.push(b'x')?;
        }
        let key = key(
            alloc,
            b"20240101_1",
            lab.as_slice(),
            qualifier.as_slice(),
            b"",
            1,
        )?;
        if at == 0 {
            first = key.copy()?;
        }
        set(
            &mut keeper,
            Put {
                table: 0,
                key,
                content: Bytes::new(alloc),
            },
        )?;
        // 16 such cells are within the limit.
        let verdict = audit(alloc, &mut keeper)?;
        assert_eq!(rt; is_sound(&verdict), at < 16);
    }
    let verdict = audit(alloc, &mut keeper)?;
    assert!(rt; shows(&verdict, 0, first.as_slice(), Some(b""), None));
    Ok(())
}

/// The bytes of a list of the two uids, or of the first alone.
fn list(alloc: Global, form: u8, both: bool) -> Result<Bytes, Fail> {
    let mut out = Vec::from_slice(alloc, &[form, 0, if both { 2 } else { 1 }])?;
    for number in [1u8, 2] {
        if number == 1 || both {
            out.extend_from_slice(&[0; 31])?;
            out.push(number)?;
        }
    }
    Ok(Bytes::from_vec(out))
}

/// The verdict on the plain store with these bytes in place of its one list.
fn audit_of_list(alloc: Global, found: &[u8]) -> Result<Verdict, Fail> {
    let mut keeper = plain_store(alloc)?;
    let mut other = damaged(alloc, &mut keeper, 1, 0, Harm::Changed(found))?;
    Ok(audit(alloc, &mut other)?)
}

/// Whether these bytes are the difference, in whose place those are wanted.
fn list_differs(alloc: Global, found: &[u8], wanted: &[u8]) -> Result<bool, Fail> {
    let at = key(alloc, b"x", b"A", b"20240101_0\0lab", b"", 0)?;
    let verdict = audit_of_list(alloc, found)?;
    Ok(shows(&verdict, 1, at.as_slice(), Some(found), Some(wanted)))
}

#[test]
fn lists_are_wanted_in_the_newer_form(rt: HostRuntime) -> Result<(), Fail> {
    let alloc = rt.alloc();
    let wanted = list(alloc, 2, true)?;
    let short = list(alloc, 2, false)?;
    assert!(rt; list_differs(alloc, short.as_slice(), wanted.as_slice())?);
    for found in [
        b"".as_slice(),
        b"\x03\0".as_slice(),
        b"\x02\0".as_slice(),
        b"\x02\x02".as_slice(),
        b"\x02\0\x33".as_slice(),
        b"\x02\x01\0\0\0\0\0\0\0\x02".as_slice(),
        b"\x02\x01\0\0\0\0\0\0\0\x33".as_slice(),
    ] {
        assert!(rt; list_differs(alloc, found, wanted.as_slice())?);
    }
    Ok(())
}

#[test]
fn a_list_of_the_older_form_is_wanted_in_it(rt: HostRuntime) -> Result<(), Fail> {
    let alloc = rt.alloc();
    let wanted = list(alloc, 1, true)?;
    assert!(rt; is_sound(&audit_of_list(alloc, wanted.as_slice())?));
    let short = list(alloc, 1, false)?;
    assert!(rt; list_differs(alloc, short.as_slice(), wanted.as_slice())?);
    for found in [
        b"\x01\0".as_slice(),
        b"\x01\0\0".as_slice(),
        b"\x01\x01\0\0\0\0\0\0\0\x15".as_slice(),
    ] {
        assert!(rt; list_differs(alloc, found, wanted.as_slice())?);
    }
    Ok(())
}

#[test]
fn a_cell_of_table_3_that_says_nothing_is_one_too_many(rt: HostRuntime) -> Result<(), Fail> {
    let alloc = rt.alloc();
    let cases: [(&[u8], &[u8], &[u8], u64, &[u8]); 13] = [
        (b"field", b"Z", b"", 0, b"\x05\0\0"),
        (b"field", b"Z", b"", 0, b"\0\0\x01"),
        (b"field", b"Z", b"", 0, b"\0\x02\0"),
        (b"field", b"Z", b"", 0, b"\0\0"),
        (b"field", b"Z", b"", 0, b"\0\x01\0\0"),
        (b"field", b"z", b"", 0, b"\x01\x01\0"),
        (b"field", b"Z", b"q", 0, b"\x01\x01\0"),
        (b"field", b"Z", b"", 1, b"\x01\x01\0"),
        (b"grant", b"bob", b"", 0, b"\0\x01b\0\x01a"),
        (b"grant", b"bob", b"", 0, b"\0\x02b"),
        (b"grant", b"bob", b"", 0, b"\0\0"),
        (b"grant", b"b b", b"", 0, b"\0\x01a"),
        (b"other", b"", b"", 0, b""),
    ];
    for (row, family, qualifier, stamp, content) in cases {
        let key = key(alloc, row, family, qualifier, b"", stamp)?;
        let verdict = audit_with(alloc, 3, &key, content)?;
        assert!(rt; shows(&verdict, 3, key.as_slice(), Some(content), None));
    }
    // These say something, and are as they are wanted.
    let field = key(alloc, b"field", b"Z", b"", b"", 0)?;
    assert!(rt; is_sound(&audit_with(alloc, 3, &field, b"\x01\x01\0")?));
    let grant = key(alloc, b"grant", b"bob", b"", b"", 0)?;
    assert!(rt; is_sound(&audit_with(alloc, 3, &grant, b"")?));
    Ok(())
}

#[test]
fn the_last_number_is_at_least_each_batch(rt: HostRuntime) -> Result<(), Fail> {
    let alloc = rt.alloc();
    let commit = key(alloc, b"commit", b"", b"", b"", 0)?;
    let one = b"\0\0\0\0\0\0\0\x01".as_slice();
    let cases: [(&[u8], bool); 6] = [
        (b"\0\0\0\0\0\0\0\x01", true),
        (b"\0\0\0\0\0\0\0\x09", true),
        (b"\x7f\xff\xff\xff\xff\xff\xff\xff", true),
        (b"\x80\0\0\0\0\0\0\0", false),
        (b"\0\0\0\0\0\0\0\0", false),
        (b"\x01", false),
    ];
    for (content, sound) in cases {
        let verdict = audit_with(alloc, 3, &commit, content)?;
        assert_eq!(rt; is_sound(&verdict), sound);
        assert_eq!(rt;
            shows(&verdict, 3, commit.as_slice(), Some(content), Some(one)),
            !sound
        );
    }
    // Without an event there is no number.
    let mut empty = MemKeeper::without_reads(alloc);
    set(&mut empty, commit_cell(alloc, 1)?)?;
    let verdict = audit(alloc, &mut empty)?;
    assert!(rt; shows(&verdict, 3, commit.as_slice(), Some(one), None));
    Ok(())
}

/// A store of one event with so many values of an indexed field, which tells its reads.
fn wide_store(alloc: Global, count: u32) -> Result<MemKeeper, Fail> {
    let mut cells = Cells::new(alloc);
    for value in 0..count {
        let raw = format!(in alloc; "{value}")?;
        cells.put(EventCell {
            field: Text::of(alloc, "A")?,
            raw: Text::from_string(raw),
            vis: Vis::everyone(alloc),
        })?;
    }
    let mut records = Vec::new(alloc);
    records.push(Ok(Record {
        dtype: DType::of(b"lab").ok_or("no type")?,
        date: Text::of(alloc, "20240101")?,
        cells,
    }))?;
    stored(
        alloc,
        MemKeeper::new(alloc, Vec::new(alloc)),
        records.as_slice(),
        true,
    )
}

/// The tables of the reads that were made.
fn tables_read(alloc: Global, keeper: &MemKeeper) -> Result<Vec<u8>, Fail> {
    let mut tables = Vec::new(alloc);
    for read in keeper.reads() {
        tables.push(read.table)?;
    }
    Ok(tables)
}

#[test]
fn lists_are_read_in_runs(rt: HostRuntime) -> Result<(), Fail> {
    let alloc = rt.alloc();
    let mut keeper = wide_store(alloc, 1_030)?;
    let before = keeper.reads().len();
    assert!(rt; is_sound(&audit(alloc, &mut keeper)?));
    let tables = tables_read(alloc, &keeper)?;
    assert!(rt;
        tables
            .as_slice()
            .iter()
            .skip(before)
            .eq([3, 0, 1, 1, 2].iter())
    );
    for at in [0usize, 1_023, 1_024, 1_029] {
        let mut other = damaged(alloc, &mut keeper, 1, at, Harm::TakenOut)?;
        let verdict = audit(alloc, &mut other)?;
        assert!(rt; place_found(&mut keeper, &verdict) == Some((1, at, false, true)));
    }
    Ok(())
}

#[test]
fn a_fault_is_told(rt: HostRuntime) -> Result<(), Fail> {
    let alloc = rt.alloc();
    let mut keeper = plain_store(alloc)?;
    for calls in 0..8u64 {
        keeper.fail_after(calls);
        let failed = matches!(audit(alloc, &mut keeper), Err(KeeperError::Failed));
        assert_eq!(rt; failed, calls < 4);
    }
    Ok(())
}
