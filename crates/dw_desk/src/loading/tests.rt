use super::*;
use dw_derive::field_cell;
use dw_key::{Bytes, encode};
use dw_outside::{MemKeeper, Put};
use std::test::Fail;

/// Sets a cell of table 3 under the bytes of a key.
fn set(keeper: &mut MemKeeper, key: Bytes, content: Bytes) -> Result<(), Fail> {
    let put = Put {
        table: 3,
        key,
        content,
    };
    keeper.apply(&[put])?;
    Ok(())
}

/// Sets a cell of table 3 by its row, its family and its content.
fn set_meta(keeper: &mut MemKeeper, alloc: Global, cell: [&[u8]; 3]) -> Result<(), Fail> {
    let [row, family, content] = cell;
    let key = Key {
        row: Bytes::of(alloc, row)?,
        family: Bytes::of(alloc, family)?,
        qualifier: Bytes::new(alloc),
        vis: Bytes::new(alloc),
        stamp: 0,
    };
    set(keeper, encode(alloc, &key)?, Bytes::of(alloc, content)?)
}

/// The batch 258, two fields, grants to ann and bob, and after each a cell that breaks its form.
fn store(alloc: Global) -> Result<MemKeeper, Fail> {
    let mut keeper = MemKeeper::without_reads(alloc);
    let cells: [[&[u8]; 3]; 10] = [
        [b"commit", b"", b"\0\0\0\0\0\0\x01\x02"],
        [b"commit", b"B", b"\0\0\0\0\0\0\x01\x03"],
        [b"field", b"A", b"\x04\x01\x01"],
        [b"field", b"B", b"\x02\0\0"],
        [b"field", b"C", b"\0\0\x01"],
        [b"field", b"d", b"\0\x01\0"],
        [b"grant", b"ann", b"\0\x02AB\0\x01S"],
        [b"grant", b"bob", b""],
        [b"grant", b"cid", b"\0\x01S\0\x01A"],
        [b"grant", b"", b"\0\x01S"],
    ];
    for cell in cells {
        set_meta(&mut keeper, alloc, cell)?;
    }
    set(
        &mut keeper,
        Bytes::of(alloc, b"commit")?,
        Bytes::of(alloc, b"\0")?,
    )?;
    Ok(keeper)
}

/// The content of the cell that a field would have.
fn rule_bytes(alloc: Global, start: &Start, field: &str) -> Result<Bytes, OutOfMemory> {
    let put = field_cell(alloc, field, start.dict.look(field))?;
    Ok(put.content)
}

/// How many names a caller was granted, where he was granted any set of them.
fn granted_names(alloc: Global, start: &Start, caller: &str) -> Result<Option<usize>, OutOfMemory> {
    let caller = Text::of(alloc, caller)?;
    Ok(
        start
            .grants
            .get(&caller)
            .map(|names| names.as_slice().len()),
    )
}

fn has_name(alloc: Global, start: &Start, caller: &str, name: &[u8]) -> Result<bool, OutOfMemory> {
    let caller = Text::of(alloc, caller)?;
    Ok(
        start
            .grants
            .get(&caller)
            .is_some_and(|names| names.has(name)),
    )
}

#[test]
fn the_number_and_the_fields_are_read(rt: HostRuntime) -> Result<(), Fail> {
    let mut keeper = store(rt.alloc())?;
    let start = read_start(rt.alloc(), &mut keeper)?;
    assert!(rt; start.last == 258);
    let fields: [(&str, &[u8]); 4] = [
        ("A", b"\x04\x01\x01"),
        ("B", b"\x02\0\0"),
        ("C", b"\0\0\0"),
        ("d", b"\0\0\0"),
    ];
    for (field, content) in fields {
        let bytes = rule_bytes(rt.alloc(), &start, field)?;
        assert!(rt; bytes.as_slice() == content, "at {field}");
    }
    Ok(())
}

#[test]
fn the_grants_are_read(rt: HostRuntime) -> Result<(), Fail> {
    let mut keeper = store(rt.alloc())?;
    let start = read_start(rt.alloc(), &mut keeper)?;
    assert!(rt; start.grants.len() == 2);
    for (caller, count) in [("ann", Some(2)), ("bob", Some(0)), ("cid", None)] {
        let names = granted_names(rt.alloc(), &start, caller)?;
        assert!(rt; names == count, "at {caller}");
    }
    for name in [b"AB".as_slice(), b"S".as_slice()] {
        assert!(rt; has_name(rt.alloc(), &start, "ann", name)?);
    }
    Ok(())
}
