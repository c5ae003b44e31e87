use crate::{Keeper, KeeperError, MemKeeper, Put, Slot, read_cell};
use dw_key::Bytes;
use std::alloc::Global;
use std::test::Fail;

/// Sets one key of table 1 twice in one apply.
fn set(
    alloc: Global,
    keeper: &mut MemKeeper,
    key: &[u8],
    first: &[u8],
    last: &[u8],
) -> Result<(), KeeperError> {
    let one = Put {
        table: 1,
        key: Bytes::of(alloc, key)?,
        content: Bytes::of(alloc, first)?,
    };
    let two = Put {
        table: 1,
        key: Bytes::of(alloc, key)?,
        content: Bytes::of(alloc, last)?,
    };
    keeper.apply(&[one, two])
}

/// How many cells a scan of table 1 gives.
fn count(keeper: &mut MemKeeper, from: &[u8], before: &[u8], limit: u32) -> Option<usize> {
    match keeper.scan(1, from, before, limit) {
        Ok(cells) => Some(cells.len()),
        Err(_) => None,
    }
}

/// How long the content of a key of table 1 is.
fn length_at(alloc: Global, keeper: &mut MemKeeper, key: &[u8]) -> Option<usize> {
    let Ok(key) = Bytes::of(alloc, key) else {
        return None;
    };
    match read_cell(alloc, keeper, &Slot { table: 1, key }) {
        Ok(Some(content)) => Some(content.as_slice().len()),
        _ => None,
    }
}

#[test]
fn spans_are_read_and_named_calls_fail(rt: HostRuntime) -> Result<(), Fail> {
    let alloc = rt.alloc();
    let mut keeper = MemKeeper::new(alloc, vec![in alloc; 3u64]?);
    assert_eq!(rt; set(alloc, &mut keeper, b"b", b"1", b"22"), Ok(()));
    assert_eq!(rt; set(alloc, &mut keeper, b"a", b"1", b""), Ok(()));
    assert_eq!(rt; count(&mut keeper, b"", b"", 0), None, "the third call");
    assert_eq!(rt; count(&mut keeper, b"", b"", 0), Some(2));
    assert_eq!(rt; count(&mut keeper, b"", b"", 1), Some(1));
    assert_eq!(rt; count(&mut keeper, b"a", b"b", 0), Some(1));
    assert_eq!(rt; count(&mut keeper, b"b", b"a", 0), Some(0));
    keeper.fail_after(1);
    assert_eq!(rt;
        length_at(alloc, &mut keeper, b"b"),
        Some(2),
        "the last of two"
    );
    assert_eq!(rt;
        length_at(alloc, &mut keeper, b"b"),
        None,
        "the call after one"
    );
    assert_eq!(rt; keeper.reads().len(), 5);
    Ok(())
}
