use crate::{JournalKeeper, OpenError};
use dw_key::Bytes;
use dw_outside::{Disk, Failed, Keeper, KeeperError, Leave, MemDisk, Put};
use std::alloc::Global;
use std::test::Fail;

/// The code of a key with the row `a`, the qualifier of `b`, 0 and `c`, the visibility `X` and the stamp 1.
const KEY: &[u8] = b"a\0\0\0\0b\0\xffc\0\0X\0\0\xff\xff\xff\xff\xff\xff\xff\xfe";

/// A gate, the length 48, one put of table 3 with that key and the content 7, and a closed gate.
const FILE: &[u8; 58] =
    b"\x01\0\0\0\0\0\0\0\x30\0\0\0\0\0\0\0\x01\x03\0\0\0\0\0\0\0\x16a\0\0\0\0b\0\xffc\0\0X\0\0\xff\xff\xff\xff\xff\xff\xff\xfe\0\0\0\0\0\0\0\x01\x07\0";

/// Sets one key of table 3.
fn set<K: Keeper>(
    alloc: Global,
    keeper: &mut K,
    key: &[u8],
    content: &[u8],
) -> Result<(), KeeperError> {
    let put = Put {
        table: 3,
        key: Bytes::of(alloc, key)?,
        content: Bytes::of(alloc, content)?,
    };
    keeper.apply(&[put])
}

/// Whether a key stands in table 3.
fn is_set<K: Keeper>(keeper: &mut K, key: u8) -> Option<bool> {
    let cells = keeper.scan(3, &[key], &[key, 0], 0).ok()?;
    Some(!cells.is_empty())
}

/// A disk with these bytes, all of them on the disk.
fn disk_of(alloc: Global, bytes: &[u8]) -> Result<MemDisk, Fail> {
    let mut disk = MemDisk::new(alloc, 4096, 256, Vec::new(alloc))?;
    if disk.write_at(0, bytes) != Ok(()) || disk.sync() != Ok(()) {
        return Err("no disk")?;
    }
    Ok(disk)
}

/// All bytes of a disk, where there are 58.
fn bytes_of<D: Disk>(disk: &mut D) -> Option<[u8; 58]> {
    let mut file = [0u8; 58];
    if disk.length() != Ok(58) || disk.read(0, &mut file) != Ok(58) {
        return None;
    }
    Some(file)
}

#[test]
fn a_frame_has_these_bytes(rt: HostRuntime) -> Result<(), Fail> {
    let alloc = rt.alloc();
    let disk = MemDisk::new(alloc, 256, 16, Vec::new(alloc))?;
    let mut keeper = JournalKeeper::open(alloc, disk).ok().ok_or("not opened")?;
    assert_eq!(rt; set(alloc, &mut keeper, KEY, &[7]), Ok(()));
    assert_eq!(rt; bytes_of(&mut keeper.into_disk()), Some(*FILE));
    Ok(())
}

#[test]
fn a_gate_that_is_open_before_no_frame_is_bad(rt: HostRuntime) -> Result<(), Fail> {
    let alloc = rt.alloc();
    let cases: [(&[u8], Option<OpenError>); 5] = [
        (&[1, 0], Some(OpenError::BadJournal { at: 0 })),
        (&[1], None),
        (&[0, 1], None),
        // A frame of no puts, and then a gate that is closed, or open before no frame.
        (
            &[1, 0, 0, 0, 0, 0, 0, 0, 8, 0, 0, 0, 0, 0, 0, 0, 0, 0],
            None,
        ),
        (
            &[1, 0, 0, 0, 0, 0, 0, 0, 8, 0, 0, 0, 0, 0, 0, 0, 0, 1],
            Some(OpenError::BadJournal { at: 17 }),
        ),
    ];
    for (bytes, refusal) in cases {
        let disk = disk_of(alloc, bytes)?;
        let why = match JournalKeeper::open(alloc, disk) {
            Ok(_) => None,
            Err(unopened) => Some(unopened.why),
        };
        assert_eq!(rt; why, refusal, "{bytes:?}");
    }
    Ok(())
}

/// The calls that fail: four, and all from `last` on.
fn failing(alloc: Global, last: u64) -> Result<Vec<u64>, Fail> {
    let mut calls = vec![in alloc; 7u64, 12, 20, 31]?;
    for call in last..80 {
        calls.push(call)?;
    }
    Ok(calls)
}

/// Sets the keys 0 to 11 until the disk fails for good, stops, and opens again. Each acknowledged key has to
/// be there, and of the others one at most, which came after the last that was acknowledged.
fn stops_whole(alloc: Global, last: u64, leave: Leave) -> Result<bool, Fail> {
    let disk = MemDisk::new(alloc, 4096, 256, failing(alloc, last)?)?;
    let mut told = Vec::new(alloc);
    let disk = match JournalKeeper::open(alloc, disk) {
        Err(unopened) => unopened.disk,
        Ok(mut keeper) => {
            for key in 0..12u8 {
                told.push(set(alloc, &mut keeper, &[key], &[key]) == Ok(()))?;
            }
            keeper.into_disk()
        }
    };
    let stopped = disk.stop(alloc, leave)?;
    let mut again = JournalKeeper::open(alloc, stopped)
        .ok()
        .ok_or("not opened again")?;
    let mut others = 0u8;
    let mut key = 0u8;
    for acknowledged in &told {
        let found = is_set(&mut again, key).ok_or("no scan")?;
        key = key.saturating_add(1);
        if *acknowledged && (!found || others > 0) {
            return Ok(false);
        }
        if found && !*acknowledged {
            others = others.saturating_add(1);
        }
    }
    Ok(others <= 1)
}

#[test]
fn a_stop_at_any_call_leaves_what_was_acknowledged(rt: HostRuntime) -> Result<(), Fail> {
    for last in 1..64 {
        for leave in [Leave::Old, Leave::New, Leave::Byte(0), Leave::Byte(1)] {
            assert!(rt; stops_whole(rt.alloc(), last, leave)?, "{last} {leave:?}");
        }
    }
    Ok(())
}
