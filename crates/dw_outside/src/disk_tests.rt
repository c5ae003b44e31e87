use crate::{Disk, Failed, FileDisk, Leave, MemDisk};
use std::fs;
use std::test::Fail;

/// The bytes that a disk gives from a place on, at most eight.
fn bytes_of<D: Disk>(disk: &mut D, at: u64) -> Option<([u8; 8], usize)> {
    let mut buf = [0u8; 8];
    let count = disk.read(at, &mut buf).ok()?;
    Some((buf, count))
}

/// Puts bytes at a place that is at most the length.
fn put<D: Disk>(disk: &mut D, at: u64, bytes: &[u8]) -> Result<(), Failed> {
    if at > disk.length()? {
        return Err(Failed);
    }
    disk.write_at(at, bytes)
}

#[test]
fn a_stop_leaves_what_was_synced_and_tears_the_rest(rt: HostRuntime) -> Result<(), Fail> {
    let alloc = rt.alloc();
    let mut disk = MemDisk::new(alloc, 12, 13, vec![in alloc; 7u64]?)?;
    assert_eq!(rt; put(&mut disk, 0, b"abcd"), Ok(()));
    assert_eq!(rt; disk.sync(), Ok(()));
    assert_eq!(rt; put(&mut disk, 3, b"xyz"), Ok(()));
    // The seventh call is named: nothing is put, and the range may still be torn.
    assert_eq!(rt; put(&mut disk, 0, b"q"), Err(Failed));
    assert_eq!(rt; bytes_of(&mut disk, 0), Some((*b"abcxyz\0\0", 6)));
    // Seven bytes are written, and six more have no room.
    assert_eq!(rt; put(&mut disk, 6, b"uvwuvw"), Err(Failed));
    assert_eq!(rt; disk.length(), Ok(6));
    let cases = [
        (Leave::Old, (*b"abcd\0\0\0\0", 4)),
        (Leave::New, (*b"abcxyz\0\0", 6)),
        (Leave::Byte(b'-'), (*b"-bc---\0\0", 6)),
    ];
    for (leave, left) in cases {
        let mut stopped = disk.stop(alloc, leave)?;
        assert_eq!(rt; bytes_of(&mut stopped, 0), Some(left), "{leave:?}");
        assert_eq!(rt; put(&mut stopped, 1, b"synced"), Ok(()));
        assert_eq!(rt; stopped.sync(), Ok(()));
        let mut again = stopped.stop(alloc, Leave::Old)?;
        assert_eq!(rt; bytes_of(&mut again, 1), Some((*b"synced\0\0", 6)));
    }
    assert_eq!(rt; disk.sync(), Ok(()));
    assert_eq!(rt; disk.length(), Ok(6));
    // Thirteen calls were made.
    assert_eq!(rt; disk.sync(), Err(Failed));
    Ok(())
}

#[test]
fn a_file_is_a_disk(rt: HostRuntime) -> Result<(), Fail> {
    let path = "dw_outside_file_is_a_disk.tmp";
    let _ = fs::remove_file(&rt, path);
    let mut disk = FileDisk::at(&rt, path).ok().ok_or("no file")?;
    assert_eq!(rt; disk.length(), Ok(0));
    assert_eq!(rt; put(&mut disk, 0, b"abcd"), Ok(()));
    assert_eq!(rt; put(&mut disk, 2, b"xyz"), Ok(()));
    assert_eq!(rt; disk.sync(), Ok(()));
    drop(disk);
    let mut again = FileDisk::at(&rt, path).ok().ok_or("no file")?;
    assert_eq!(rt; again.length(), Ok(5));
    assert_eq!(rt; bytes_of(&mut again, 1), Some((*b"bxyz\0\0\0\0", 4)));
    assert_eq!(rt; bytes_of(&mut again, 9), Some(([0; 8], 0)));
    assert_eq!(rt; put(&mut again, u64::MAX, b"x"), Err(Failed));
    fs::remove_file(&rt, path)?;
    Ok(())
}
