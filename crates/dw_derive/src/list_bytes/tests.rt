use super::*;
use std::test::Fail;

fn uid(last: u8) -> Uid {
    let mut uid = [0; 32];
    uid[31] = last;
    uid
}

/// Some bytes, and then uids.
fn joined(alloc: Global, head: &[u8], uids: &[Uid]) -> Result<Vec<u8>, OutOfMemory> {
    let mut bytes = Vec::from_slice(alloc, head)?;
    bytes.extend_from_slice(uids.as_flattened())?;
    Ok(bytes)
}

fn is_read(alloc: Global, bytes: &[u8], form: Form, list: &UidList) -> bool {
    match decode_list(alloc, bytes) {
        Ok((found, read)) => found == form && read == *list,
        Err(_) => false,
    }
}

#[test]
fn lists_are_written_and_read(rt: HostRuntime) -> Result<(), Fail> {
    let alloc = rt.alloc();
    let one = UidList::one(alloc, uid(1))?;
    let many = UidList::Counted(21);
    let first = joined(alloc, &[1, 0, 1], &[uid(1)])?;
    let second = joined(alloc, &[2, 0, 1], &[uid(1)])?;
    let count = [1, 1, 0, 0, 0, 0, 0, 0, 0, 21];
    assert!(rt; encode_list(alloc, &one, Form::One)?.as_slice() == first.as_slice());
    assert!(rt; encode_list(alloc, &one, Form::Two)?.as_slice() == second.as_slice());
    assert!(rt; encode_list(alloc, &many, Form::One)?.as_slice() == count.as_slice());
    assert!(rt; is_read(alloc, &first, Form::One, &one));
    assert!(rt; is_read(alloc, &second, Form::Two, &one));
    assert!(rt; is_read(alloc, &count, Form::One, &many));
    Ok(())
}

fn why(alloc: Global, bytes: &[u8]) -> Option<BadList> {
    decode_list(alloc, bytes).err()
}

#[test]
fn faults_are_told(rt: HostRuntime) -> Result<(), Fail> {
    let alloc = rt.alloc();
    let cases: [(&[u8], BadList); 10] = [
        (&[], BadList::Form),
        (&[3, 0], BadList::Form),
        (&[1], BadList::Form),
        (&[1, 2], BadList::Form),
        (&[2, 0], BadList::Cut),
        (&[1, 1, 0], BadList::Cut),
        (&[1, 0, 0], BadList::Count),
        (&[2, 0, 51], BadList::Count),
        (&[2, 1, 0, 0, 0, 0, 0, 0, 0, 50], BadList::Count),
        (&[1, 1, 0, 0, 0, 0, 0, 0, 0, 21, 0], BadList::Tail),
    ];
    for (bytes, fault) in cases {
        assert!(rt; why(alloc, bytes) == Some(fault), "{bytes:?}");
    }
    let twice = joined(alloc, &[1, 0, 2], &[uid(1), uid(1)])?;
    assert!(rt; why(alloc, &twice) == Some(BadList::Order));
    Ok(())
}

#[test]
fn uids_are_kept_up_to_the_cap(rt: HostRuntime) -> Result<(), Fail> {
    let alloc = rt.alloc();
    let mut list = UidList::one(alloc, uid(50))?;
    for last in 0..49 {
        list = list.add(uid(last), Form::Two)?;
    }
    let UidList::Kept(uids) = list.copy()? else {
        return Err("counted too early".into());
    };
    assert!(rt; uids.as_slice().len() == 50);
    assert!(rt; list.add(uid(51), Form::Two)? == UidList::Counted(51));
    assert!(rt; UidList::Counted(u64::MAX).add(uid(1), Form::One)? == UidList::Counted(u64::MAX));
    Ok(())
}
