use super::*;
use crate::{commit_cell, field_cell, grant_cell, key_of};
use dw_base::{Bytes, Listed};
use dw_outside::Put;
use std::test::Fail;

/// A key of table 3 with a row and a family.
fn meta_key(alloc: Global, row: &[u8], family: &[u8]) -> Result<Key, OutOfMemory> {
    Ok(Key {
        row: Bytes::of(alloc, row)?,
        family: Bytes::of(alloc, family)?,
        qualifier: Bytes::new(alloc),
        vis: Bytes::new(alloc),
        stamp: 0,
    })
}

fn key_of_put(alloc: Global, put: &Put) -> Result<Key, Fail> {
    Ok(key_of(alloc, put.key.as_slice())?.ok_or("no key")?)
}

#[test]
fn the_cell_of_a_number_is_read(rt: HostRuntime) -> Result<(), Fail> {
    let put = commit_cell(rt.alloc(), 258)?;
    let key = key_of_put(rt.alloc(), &put)?;
    assert!(rt; commit_number(&key, put.content.as_slice()) == Some(258));
    assert!(rt; field_rule(&key, put.content.as_slice()).is_none());
    Ok(())
}

#[test]
fn the_cell_of_a_field_is_read(rt: HostRuntime) -> Result<(), Fail> {
    let rule = FieldRule::of(Kind::Ipv4, true, true).ok_or("no rule")?;
    let put = field_cell(rt.alloc(), "A_1", rule)?;
    let key = key_of_put(rt.alloc(), &put)?;
    let (field, said) = field_rule(&key, put.content.as_slice()).ok_or("no field")?;
    assert_eq!(rt; field, "A_1");
    assert!(rt; said == rule);
    Ok(())
}

#[test]
fn the_cell_of_a_grant_is_read(rt: HostRuntime) -> Result<(), Fail> {
    let mut names = Listed::new(rt.alloc());
    names.put(Text::of(rt.alloc(), "AB")?)?;
    names.put(Text::of(rt.alloc(), "S")?)?;
    let put = grant_cell(rt.alloc(), "ann", names.as_slice())?;
    let key = key_of_put(rt.alloc(), &put)?;
    let said = grant_names(rt.alloc(), &key, put.content.as_slice())?;
    let (caller, names) = said.ok_or("no grant")?;
    assert_eq!(rt; caller, "ann");
    assert!(rt; names.has_name(b"AB") && names.has_name(b"S"));
    Ok(())
}

/// Whether a content says the rule of the field.
fn says_rule(alloc: Global, field: &[u8], content: &[u8]) -> Result<bool, OutOfMemory> {
    let key = meta_key(alloc, b"field", field)?;
    Ok(field_rule(&key, content).is_some())
}

#[test]
fn rules_of_another_form_say_nothing(rt: HostRuntime) -> Result<(), Fail> {
    let alloc = rt.alloc();
    assert!(rt; says_rule(alloc, b"A", b"\0\x01\0")?);
    assert!(rt; !says_rule(alloc, b"a", b"\0\x01\0")?);
    assert!(rt; !says_rule(alloc, b"A", b"\x05\0\0")?);
    assert!(rt; !says_rule(alloc, b"A", b"\0\0\x01")?);
    assert!(rt; !says_rule(alloc, b"A", b"\0\x01\0\0")?);
    Ok(())
}

/// How many names a content says that the caller was granted.
fn names_said(alloc: Global, caller: &[u8], content: &[u8]) -> Result<Option<usize>, OutOfMemory> {
    let key = meta_key(alloc, b"grant", caller)?;
    match grant_names(alloc, &key, content)? {
        None => Ok(None),
        Some((_, names)) => Ok(Some(names.as_slice().len())),
    }
}

#[test]
fn grants_have_names_in_order(rt: HostRuntime) -> Result<(), Fail> {
    let alloc = rt.alloc();
    assert!(rt; names_said(alloc, b"ann", b"")? == Some(0));
    assert!(rt; names_said(alloc, b"a b", b"")?.is_none());
    assert!(rt; names_said(alloc, b"ann", b"\0\x01A\0\x01B")? == Some(2));
    assert!(rt; names_said(alloc, b"ann", b"\0\x01B\0\x01A")?.is_none());
    assert!(rt; names_said(alloc, b"ann", b"\0\x01A\0\x01A")?.is_none());
    Ok(())
}

#[test]
fn names_of_another_form_say_nothing(rt: HostRuntime) -> Result<(), Fail> {
    let alloc = rt.alloc();
    assert!(rt; names_said(alloc, b"ann", b"\0\0")?.is_none());
    assert!(rt; names_said(alloc, b"ann", b"\0\x02A")?.is_none());
    assert!(rt; names_said(alloc, b"ann", b"\0\x01\0")?.is_none());
    assert!(rt; names_said(alloc, b"ann", b"\0\x01\xff")?.is_none());
    assert!(rt; names_said(alloc, b"ann", b"\0\x01A\0")?.is_none());
    Ok(())
}
