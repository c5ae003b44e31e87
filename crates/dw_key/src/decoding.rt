ghost use Rattle.std.specs.Prelude.{◌≡◌, ◌↔◌, ◌<◌, ◌^◌, ◌++◌, ◌∷◌, ℕ, suc, Ok, Err, IfOk, IfErr, MatchResult};
ghost use Rattle.dw_key.specs.declared.decoding.BadKey.TheVariants.{OutOfMemory};
ghost use Rattle.dw_key.specs.KeyCode.{code, escaped, stamp_code, IsCode};
ghost use Rattle.dw_key.specs.KeyFaults.{IsCut, HasEscape, HasTail, IsFault, IsCodeOf, IsEscaped, IsSplit, Spells, IsDecoded, GivesTheKey};

use crate::OutOfMemory;
use crate::key::Key;
use dw_base::Bytes;
use std::alloc::{AllocError, Global};

/// Why bytes are not the code of a key: the first fault from left to right.
#[derive(Clone, Copy, Debug, PartialEq, Eq)]
pub enum BadKey {
    /// The bytes end inside a part or the stamp.
    Cut,
    /// In a part a byte 0 is followed by a byte other than 0 and 255.
    Escape,
    /// Bytes follow the stamp.
    Tail,
    /// The bytes are the code of a key, for which there is no memory.
    OutOfMemory,
}

impl From<AllocError> for BadKey {
    ghost from_gives = { λ _ e. e ≡ OutOfMemory };

    fn from(_e: AllocError) -> BadKey {
        BadKey::OutOfMemory
    }
}

/// The key whose code the bytes are. Otherwise the leftmost place at which they stop being the
/// beginning of any code decides: `Cut` where that is their end, `Escape` where it is in a part
/// behind a byte 0, and `Tail` where it is behind a stamp. Faults are found before any memory is
/// taken. Takes time linear in the bytes.
pub fn decode(alloc: Global, bytes: &[u8]) -> Result<Key, BadKey>
    // A key comes only from its code,
    ensures found { IfOk result (λ key. bytes.now ≡ code key) }
    // and from each code, unless memory runs out.
    ensures only { GivesTheKey bytes.now result }

    ensures cut { (result ≡ Err BadKey.Cut) ↔ IsCut IsCode bytes.now }
    ensures escape { (result ≡ Err BadKey.Escape) ↔ HasEscape IsCode bytes.now }
    ensures tail { (result ≡ Err BadKey.Tail) ↔ HasTail IsCode bytes.now }
    // Want of memory hides no fault.
    ensures memory { result ≡ Err BadKey.OutOfMemory → IsCode bytes.now }
{
    decoded(alloc, bytes)
}

/// `decode`, with what each result says in one clause.
fn decoded(alloc: Global, bytes: &[u8]) -> Result<Key, BadKey>
    ensures { IsDecoded bytes.now result }
{
    let pieces = split(bytes)?;
    Ok(key_of(alloc, &pieces)?)
}

/// The text of the first part, still escaped, and what stands behind its end.
fn split_part(bytes: &[u8]) -> Result<(&[u8], &[u8]), BadKey>
    ensures part { IfOk result (λ x. IsEscaped x.0.now × (bytes.now ≡ x.0.now ++ 0 ∷ 0 ∷ x.1.now)) }
    ensures fault { IfErr result (λ e. (n : ℕ) → IsFault (IsCodeOf (suc n)) bytes.now e) }
{
    let mut at = 0;
    while at < bytes.len() {
        if bytes[at] != 0 {
            at += 1;
            continue;
        }
        if at + 1 == bytes.len() {
            return Err(BadKey::Cut);
        }
        let next = bytes[at + 1];
        if next == 0 {
            return Ok((&bytes[..at], &bytes[at + 2..]));
        }
        if next != 255 {
            return Err(BadKey::Escape);
        }
        at += 2;
    }
    Err(BadKey::Cut)
}

/// The stamp that the bytes spell, all of the bytes.
fn stamp_of(bytes: &[u8]) -> Result<u64, BadKey>
    ensures stamp { IfOk result (λ s. bytes.now ≡ stamp_code s) }
    ensures fault { IfErr result (IsFault (IsCodeOf 0) bytes.now) }
{
    if bytes.len() < 8 {
        return Err(BadKey::Cut);
    }
    if bytes.len() > 8 {
        return Err(BadKey::Tail);
    }
    let distance = u64::from_be_bytes([
        bytes[0], bytes[1], bytes[2], bytes[3], bytes[4], bytes[5], bytes[6], bytes[7],
    ]);
    Ok(u64::MAX - distance)
}

/// The parts of a code, still escaped, and its stamp.
#[derive(Drop)]
struct Pieces<'a> {
    row: &'a [u8],
    family: &'a [u8],
    qualifier: &'a [u8],
    vis: &'a [u8],
    stamp: u64,
}

/// Takes the bytes of a code apart. Takes no memory.
fn split(bytes: &[u8]) -> Result<Pieces<'_>, BadKey>
    ensures pieces { IfOk result (λ p. IsSplit bytes.now p.row.now p.family.now p.qualifier.now p.vis.now p.stamp) }
    ensures fault { IfErr result (IsFault (IsCodeOf 4) bytes.now) }
{
    let (row, rest) = split_part(bytes)?;
    let (family, rest) = split_part(rest)?;
    let (qualifier, rest) = split_part(rest)?;
    let (vis, rest) = split_part(rest)?;
    let stamp = stamp_of(rest)?;
    Ok(Pieces {
        row,
        family,
        qualifier,
        vis,
        stamp,
    })
}

/// The part that is written so.
fn unescaped(alloc: Global, text: &[u8]) -> Result<Bytes, OutOfMemory>
    requires { IsEscaped text.now }
    ensures { IfOk result (λ part. text.now ≡ escaped part) }
{
    let mut part = Bytes::new(alloc);
    let mut at = 0;
    while at < text.len() {
        let byte = text[at];
        part.put(byte)?;
        at += if byte == 0 { 2 } else { 1 };
    }
    Ok(part)
}

/// The key of the pieces.
fn key_of(alloc: Global, pieces: &Pieces<'_>) -> Result<Key, OutOfMemory>
    requires row { IsEscaped pieces.now.row.now }
    requires family { IsEscaped pieces.now.family.now }
    requires qualifier { IsEscaped pieces.now.qualifier.now }
    requires vis { IsEscaped pieces.now.vis.now }
    ensures { IfOk result (Spells pieces.now.row.now pieces.now.family.now pieces.now.qualifier.now pieces.now.vis.now pieces.now.stamp) }
{
    Ok(Key {
        row: unescaped(alloc, pieces.row)?,
        family: unescaped(alloc, pieces.family)?,
        qualifier: unescaped(alloc, pieces.qualifier)?,
        vis: unescaped(alloc, pieces.vis)?,
        stamp: pieces.stamp,
    })
}
