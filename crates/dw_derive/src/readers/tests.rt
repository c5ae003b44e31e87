use super::*;
use dw_base::{Bytes, OutOfMemory};
use std::alloc::Global;
use std::test::Fail;

fn key_of(alloc: Global, row: &[u8], family: &[u8], qualifier: &[u8]) -> Result<Key, OutOfMemory> {
    Ok(Key {
        row: Bytes::of(alloc, row)?,
        family: Bytes::of(alloc, family)?,
        qualifier: Bytes::of(alloc, qualifier)?,
        vis: Bytes::new(alloc),
        stamp: 1,
    })
}

const DOC: &[u8] = b"lab\000000000000000000000000000000000000000000000000000000000000000a1";

const UPPER: &[u8] = b"lab\000000000000000000000000000000000000000000000000000000000000000A1";

const NO_TYPE: &[u8] = b"fi\000000000000000000000000000000000000000000000000000000000000000a1";

const SHORT: &[u8] = b"lab\00000000000000000000000000000000000000000000000000000000000000a1";

fn is_doc(doc: &DocKey) -> bool {
    let mut uid = [0; 32];
    uid[31] = 0xa1;
    doc.dtype.as_slice() == b"lab".as_slice() && doc.uid == uid
}

#[test]
fn keys_of_events_are_read(rt: HostRuntime) -> Result<(), Fail> {
    let alloc = rt.alloc();
    let key = key_of(alloc, b"20240101_0", DOC, b"A\0x\0y")?;
    let Some(fields) = event_fields(&key) else {
        return Err("no event's".into());
    };
    assert!(rt; fields.shard == b"20240101_0".as_slice() && is_doc(&fields.doc));
    assert!(rt; fields.field == "A" && fields.raw == "x\0y");
    assert!(rt; index_fields(&key).is_none());
    let others: [(&[u8], &[u8]); 5] = [
        (UPPER, b"A\0x"),
        (NO_TYPE, b"A\0x"),
        (SHORT, b"A\0x"),
        (DOC, b"Ax"),
        (DOC, b"A\0\xff"),
    ];
    for (family, qualifier) in others {
        let other = key_of(alloc, b"20240101_0", family, qualifier)?;
        assert!(rt; event_fields(&other).is_none(), "{family:?} {qualifier:?}");
    }
    Ok(())
}

#[test]
fn keys_of_indexes_are_read(rt: HostRuntime) -> Result<(), Fail> {
    let alloc = rt.alloc();
    let mut qualifier = Vec::from_slice(alloc, b"x\0")?;
    qualifier.extend_from_slice(DOC)?;
    let key = key_of(alloc, b"20240101_0", b"fi\0A", &qualifier)?;
    let Some(fields) = index_fields(&key) else {
        return Err("no field index's".into());
    };
    assert!(rt; fields.shard == b"20240101_0".as_slice() && is_doc(&fields.doc));
    assert!(rt; fields.field == "A" && fields.value == "x");
    assert!(rt; event_fields(&key).is_none());
    let key = key_of(alloc, b"x", b"A", b"20240101_0\0lab")?;
    let Some(fields) = global_fields(&key) else {
        return Err("no global index's".into());
    };
    assert!(rt; fields.value == "x" && fields.field == "A");
    assert!(rt; fields.shard == b"20240101_0".as_slice());
    assert!(rt; fields.dtype.as_slice() == b"lab".as_slice());
    let key = key_of(alloc, b"x", b"A", b"20240101_0\0fi")?;
    assert!(rt; global_fields(&key).is_none());
    Ok(())
}
