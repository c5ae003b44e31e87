ghost use Rattle.std.specs.Prelude.{◌≡◌, ◌==◌, true, false, Some, None, MatchOption};
ghost use Rattle.std.specs.List.{position};
ghost use Rattle.std.specs.Str.{is_utf8};
ghost use Rattle.dw_derive.specs.Readers.{split_at_zero, uid_from, doc_from, field_of_family, event_reading, index_reading, global_reading};
ghost use Rattle.dw_derive.specs.KeyFields.{event_said, index_said, global_said};

use dw_key::{DType, DocKey, Key, Uid};
use hex::FromHex;

/// What the key of an event's cell in table 0 says.
#[derive(Drop)]
pub struct EventFields<'a> {
    pub shard: &'a [u8],
    pub doc: DocKey,
    pub field: &'a str,
    pub raw: &'a str,
}

/// What the key of a cell of the field index says.
#[derive(Drop)]
pub struct IndexFields<'a> {
    pub shard: &'a [u8],
    pub field: &'a str,
    pub value: &'a str,
    pub doc: DocKey,
}

/// What the key of a cell of a global index says. In table 2 the value is back to front.
#[derive(Drop)]
pub struct GlobalFields<'a> {
    pub value: &'a str,
    pub field: &'a str,
    pub shard: &'a [u8],
    pub dtype: DType,
}

/// What the key says as that of an event's cell, or None where it is of another form. Takes no memory.
pub fn event_fields(key: &Key) -> Option<EventFields<'_>>
    ensures { MatchOption result (event_reading key.now ≡ None) (λ f. event_reading key.now ≡ Some (event_said f)) }
{
    let doc = doc_from(key.family.as_slice())?;
    let (field, raw) = split_at_zero(key.qualifier.as_slice())?;
    Some(EventFields {
        shard: key.row.as_slice(),
        doc,
        field: text(field)?,
        raw: text(raw)?,
    })
}

/// What the key says as that of a cell of the field index, or None where it is of another form. Takes no
/// memory.
pub fn index_fields(key: &Key) -> Option<IndexFields<'_>>
    ensures { MatchOption result (index_reading key.now ≡ None) (λ f. index_reading key.now ≡ Some (index_said f)) }
{
    let field = indexed_field(key.family.as_slice())?;
    let (value, doc) = split_at_zero(key.qualifier.as_slice())?;
    Some(IndexFields {
        shard: key.row.as_slice(),
        field,
        value: text(value)?,
        doc: doc_from(doc)?,
    })
}

/// What the key says as that of a cell of a global index, or None where it is of another form. Takes no
/// memory.
pub fn global_fields(key: &Key) -> Option<GlobalFields<'_>>
    ensures { MatchOption result (global_reading key.now ≡ None) (λ f. global_reading key.now ≡ Some (global_said f)) }
{
    let (shard, dtype) = split_at_zero(key.qualifier.as_slice())?;
    Some(GlobalFields {
        value: text(key.row.as_slice())?,
        field: text(key.family.as_slice())?,
        shard,
        dtype: DType::of(dtype)?,
    })
}

/// The field of a family of the field index.
fn indexed_field(family: &[u8]) -> Option<&str>
    ensures { MatchOption result (field_of_family family.now ≡ None) (λ f. field_of_family family.now ≡ Some f.now) }
{
    let (front, field) = split_at_zero(family)?;
    if front != b"fi".as_slice() {
        return None;
    }
    text(field)
}

/// What stands before the first byte 0, and what behind it.
fn split_at_zero(bytes: &[u8]) -> Option<(&[u8], &[u8])>
    ensures { MatchOption result (split_at_zero bytes.now ≡ None) (λ p. split_at_zero bytes.now ≡ Some (p.0.now, p.1.now)) }
{
    let at = zero_at(bytes)?;
    Some((&bytes[..at], &bytes[at + 1..]))
}

/// Where the first byte 0 stands.
fn zero_at(bytes: &[u8]) -> Option<usize>
    ensures { result ≡ position (λ b. b == 0) bytes.now }
{
    bytes.iter().position(|byte| *byte == 0)
}

/// The bytes as a text, where they are UTF-8.
#[tactic(auto, using(crate::proofs::ReaderLemmas::a_text, crate::proofs::ReaderLemmas::no_text))]
pub fn text(bytes: &[u8]) -> Option<&str>
    ensures { MatchOption result (is_utf8 bytes.now ≡ false) (λ t. (is_utf8 bytes.now ≡ true) × (t.now ≡ bytes.now)) }
{
    match str::from_utf8(bytes) {
        Ok(text) => Some(text),
        Err(_) => None,
    }
}

/// The uid of 64 lower-case digits.
fn uid_from(digits: &[u8]) -> Option<Uid>
    ensures { result ≡ uid_from digits.now }
{
    let uid = <Uid as FromHex>::from_hex(digits).ok()?;
    let mut written = [0u8; 64];
    hex::encode_to_slice(uid, &mut written).ok()?;
    if written.as_slice() == digits {
        Some(uid)
    } else {
        None
    }
}

/// A type, a byte 0 and the digits of a uid.
fn doc_from(bytes: &[u8]) -> Option<DocKey>
    ensures { result ≡ doc_from bytes.now }
{
    let (dtype, digits) = split_at_zero(bytes)?;
    let dtype = DType::of(dtype)?;
    let uid = uid_from(digits)?;
    Some(DocKey { dtype, uid })
}

#[cfg(test)]
mod tests;
