use crate::{Bytes, Listed, Names, OutOfMemory, Sorted, Text};
use std::alloc::Global;
use std::test::Fail;

fn texts(alloc: Global, of: &[&str]) -> Result<Vec<Text>, OutOfMemory> {
    let mut all = Vec::new(alloc);
    for text in of {
        all.push(Text::of(alloc, text)?)?;
    }
    Ok(all)
}

#[test]
fn a_set_ascends_and_has_each_item_once(rt: HostRuntime) -> Result<(), Fail> {
    let alloc = rt.alloc();
    let mut set = Sorted::from_vec(texts(alloc, &["pear", "fig", "pear", "apple", "fig"])?);
    set.put(Text::of(alloc, "kiwi")?)?;
    set.put(Text::of(alloc, "fig")?)?;
    let expected = texts(alloc, &["apple", "fig", "kiwi", "pear"])?;
    assert_eq!(rt; set.as_slice(), expected.as_slice());
    assert!(rt; set.has(&Text::of(alloc, "kiwi")?));
    assert!(rt; set.has_name(b"apple"));
    assert!(rt; !set.has_name(b"appl"));
    let again = set.copy()?;
    assert!(rt; again.is_same(&set));
    assert_eq!(rt; again.into_vec().len(), 4);
    Ok(())
}

#[test]
fn bytes_order_a_beginning_first(rt: HostRuntime) -> Result<(), Fail> {
    let alloc = rt.alloc();
    let mut set = Sorted::new(alloc);
    for bytes in [b"b".as_slice(), b"ab", b"a", b"\xff", b"a\x00"] {
        set.put(Bytes::of(alloc, bytes)?)?;
    }
    let mut joined = Bytes::new(alloc);
    for bytes in set.as_slice() {
        joined.put(b'|')?;
        for byte in bytes.as_slice() {
            joined.put(*byte)?;
        }
    }
    assert_eq!(rt; joined.as_slice(), b"|a|a\x00|ab|b|\xff".as_slice());
    assert_eq!(rt; joined.copy()?.into_vec().len(), 12);
    Ok(())
}

#[test]
fn uids_stand_in_order(rt: HostRuntime) -> Result<(), Fail> {
    let alloc = rt.alloc();
    let mut uids: Sorted<[u8; 32]> = Sorted::new(alloc);
    for first in [3, 1, 2, 1] {
        uids.put([first; 32])?;
    }
    let found = uids.copy()?;
    assert_eq!(rt; found.as_slice().len(), 3);
    assert_eq!(rt; found.as_slice()[0][31], 1);
    Ok(())
}

#[test]
fn a_list_is_put_to_copied_and_given_back(rt: HostRuntime) -> Result<(), Fail> {
    let alloc = rt.alloc();
    let mut names = Names::new(alloc);
    for text in texts(alloc, &["b", "a"])? {
        names.put(text)?;
    }
    let again = names.copy()?;
    assert!(rt; again == names);
    let expected = Listed::from_vec(texts(alloc, &["b", "a"])?);
    assert_eq!(rt; again.into_vec().as_slice(), expected.as_slice());
    Ok(())
}
