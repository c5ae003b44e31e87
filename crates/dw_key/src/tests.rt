mod cases;

use super::*;
use cases::{CASES, Case};
use std::alloc::Global;
use std::test::Fail;

fn key_of(alloc: Global, case: &Case) -> Result<Key, OutOfMemory> {
    let [row, family, qualifier, vis] = case.parts;
    Ok(Key {
        row: Bytes::of(alloc, row)?,
        family: Bytes::of(alloc, family)?,
        qualifier: Bytes::of(alloc, qualifier)?,
        vis: Bytes::of(alloc, vis)?,
        stamp: case.stamp,
    })
}

/// The bytes with the one at a place changed.
fn changed(alloc: Global, bytes: &[u8], at: usize, byte: u8) -> Result<Vec<u8>, OutOfMemory> {
    let mut all = Vec::new(alloc);
    for (i, old) in bytes.iter().enumerate() {
        all.push(if i == at { byte } else { *old })?;
    }
    Ok(all)
}

fn is_written_and_read(alloc: Global, case: &Case) -> Result<bool, OutOfMemory> {
    let key = key_of(alloc, case)?;
    let code = encode(alloc, &key)?;
    Ok(code.as_slice() == case.code && decode(alloc, case.code) == Ok(key))
}

fn each_beginning_is_cut(alloc: Global, code: &[u8]) -> bool {
    (0..code.len()).all(|len| decode(alloc, &code[..len]) == Err(BadKey::Cut))
}

fn each_wrong_byte_is_told(alloc: Global, code: &[u8], at: usize) -> Result<bool, OutOfMemory> {
    for byte in 1..255 {
        let wrong = changed(alloc, code, at, byte)?;
        if decode(alloc, &wrong) != Err(BadKey::Escape) {
            return Ok(false);
        }
    }
    Ok(true)
}

fn has_a_tail_with(alloc: Global, code: &[u8], byte: u8) -> Result<bool, OutOfMemory> {
    let mut longer = code.to_vec(alloc)?;
    longer.push(byte)?;
    Ok(decode(alloc, &longer) == Err(BadKey::Tail))
}

fn faults_are_told(alloc: Global, case: &Case) -> Result<bool, OutOfMemory> {
    for at in case.behind_zeros {
        if !each_wrong_byte_is_told(alloc, case.code, *at)? {
            return Ok(false);
        }
    }
    Ok(
        each_beginning_is_cut(alloc, case.code)
            && has_a_tail_with(alloc, case.code, 0)?
            && has_a_tail_with(alloc, case.code, 255)?,
    )
}

/// Whether the key at a place of the ascending cases compares so with each of them.
fn stands_at(alloc: Global, at: usize, key: &Key, cases: &[Case]) -> Result<bool, OutOfMemory> {
    for (i, case) in cases.iter().enumerate() {
        if key.cmp(&key_of(alloc, case)?) != at.cmp(&i) {
            return Ok(false);
        }
    }
    Ok(true)
}

/// The first case that does not hold.
fn first_failure(alloc: Global, cases: &[Case]) -> Result<Option<usize>, OutOfMemory> {
    for (i, case) in cases.iter().enumerate() {
        let holds = is_written_and_read(alloc, case)?
            && faults_are_told(alloc, case)?
            && stands_at(alloc, i, &key_of(alloc, case)?, cases)?;
        if !holds {
            return Ok(Some(i));
        }
    }
    Ok(None)
}

#[test]
fn codes_faults_and_order(rt: HostRuntime) -> Result<(), Fail> {
    assert_eq!(rt; first_failure(rt.alloc(), &CASES)?, None);
    Ok(())
}

#[test]
fn a_one_behind_a_zero_is_no_escape(rt: HostRuntime) {
    assert_eq!(rt; decode(rt.alloc(), b"a\x00\x01"), Err(BadKey::Escape));
}

#[test]
fn bytes_are_kept(rt: HostRuntime) -> Result<(), Fail> {
    let mut bytes = Bytes::new(rt.alloc());
    bytes.put(7)?;
    bytes.put(0)?;
    assert_eq!(rt; bytes, Bytes::of(rt.alloc(), &[7, 0])?);
    assert!(rt; bytes.copy()? < Bytes::of(rt.alloc(), &[7, 0, 0])?);
    assert_eq!(rt;
        Bytes::from_vec(bytes.into_vec()).as_slice(),
        [7, 0].as_slice()
    );
    Ok(())
}

#[test]
fn texts_are_kept(rt: HostRuntime) -> Result<(), Fail> {
    let text = Text::of(rt.alloc(), "größe")?;
    assert!(rt; text.copy()? > Text::of(rt.alloc(), "gross")?);
    assert_eq!(rt; Text::from_string(text.into_string()).as_str(), "größe");
    Ok(())
}

#[test]
fn names_are_kept(rt: HostRuntime) -> Result<(), Fail> {
    let mut names = Names::new(rt.alloc());
    names.put(Text::of(rt.alloc(), "b")?)?;
    names.put(Text::of(rt.alloc(), "a")?)?;
    let copy = names.copy()?;
    assert_eq!(rt; copy.as_slice().len(), 2);
    assert_eq!(rt; Names::from_vec(copy.into_vec()), names);
    Ok(())
}

fn types_among(names: &[&[u8]]) -> usize {
    names
        .iter()
        .filter(|name| DType::of(name).is_some())
        .count()
}

static TYPES: [&[u8]; 8] = [
    b"a",
    b"lab",
    b"A-Z_9.",
    b"fi2",
    b"f",
    b"FI",
    b"-",
    &[b'z'; 64],
];

static NO_TYPES: [&[u8]; 12] = [
    b"",
    b"fi",
    b"a b",
    b"a/b",
    b"9:",
    b"@",
    b"[",
    b"`",
    b"{",
    b"a\x00",
    b"\xc3\xa9",
    &[b'z'; 65],
];

#[test]
fn types_keep_the_rule(rt: HostRuntime) {
    assert_eq!(rt; types_among(&TYPES), 8);
    assert_eq!(rt; types_among(&NO_TYPES), 0);
}

fn doc_key(name: &[u8], first: u8, last: u8) -> Option<DocKey> {
    let dtype = DType::of(name)?;
    let mut uid = [0; 32];
    uid[0] = first;
    uid[31] = last;
    Some(DocKey { dtype, uid })
}

fn is_below(low: Option<DocKey>, high: Option<DocKey>) -> bool {
    match (low, high) {
        (Some(low), Some(high)) => low < high && high > low && low != high,
        _ => false,
    }
}

#[test]
fn document_keys_go_by_type_and_then_uid(rt: HostRuntime) {
    assert!(rt; is_below(doc_key(b"b", 200, 0), doc_key(b"ba", 0, 0)));
    assert!(rt; is_below(doc_key(b"b", 0, 9), doc_key(b"b", 200, 0)));
    assert!(rt; is_below(doc_key(b"b", 0, 0), doc_key(b"b", 0, 1)));
}
