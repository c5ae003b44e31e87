ghost use Rattle.std.specs.Prelude.{◌≡◌, ◌<◌, ◌≤◌, ◌^◌, ◌++◌, ◌∷◌, [], ℕ, List, Some, None, length, IfOk, IfSome, OnOk};
ghost use Rattle.dw_outside.specs.declared.cell.Put.{Put};
ghost use Rattle.dw_outside.specs.Disks.{Each};
ghost use Rattle.dw_journal.specs.Frames.{number, text_bytes, put_bytes, puts_bytes, body_of, frame_of, IsBatch};

use dw_key::Bytes;
use dw_outside::{OutOfMemory, Put};
use std::alloc::Global;

/// The frame of the puts without its gate, and a closed gate behind it.
pub(crate) fn frame_bytes(alloc: Global, puts: &[Put]) -> Result<Vec<u8>, OutOfMemory>
    ensures bytes { IfOk result (λ v. v.items ≡ frame_of puts.now ++ 0 ∷ []) }
    ensures small { OnOk result (length (body_of puts.now) < 2 ^ 63) }
{
    let body = body_bytes(alloc, puts)?;
    let mut frame = Vec::new(alloc);
    add_text(&mut frame, &body)?;
    frame.push(0)?;
    Ok(frame)
}

fn body_bytes(alloc: Global, puts: &[Put]) -> Result<Vec<u8>, OutOfMemory>
    ensures { IfOk result (λ v. v.items ≡ body_of puts.now) }
{
    let mut body = Vec::new(alloc);
    body.extend_from_slice(&(puts.len() as u64).to_be_bytes())?;
    for put in puts {
        add_put(&mut body, put)?;
    }
    Ok(body)
}

fn add_put(body: &mut Vec<u8>, put: &Put) -> Result<(), OutOfMemory>
    ensures { OnOk result (body.new.items ≡ body.old.items ++ put_bytes put.now) }
{
    body.push(put.table)?;
    add_text(body, put.key.as_slice())?;
    add_text(body, put.content.as_slice())
}

/// Adds bytes behind their count.
fn add_text(body: &mut Vec<u8>, text: &[u8]) -> Result<(), OutOfMemory>
    ensures { OnOk result (body.new.items ≡ body.old.items ++ text_bytes text.now) }
{
    body.extend_from_slice(&(text.len() as u64).to_be_bytes())?;
    body.extend_from_slice(text)?;
    Ok(())
}

/// The puts of a body, or None where it is no body of a frame.
pub(crate) fn read_body(alloc: Global, body: &[u8]) -> Result<Option<Vec<Put>>, OutOfMemory>
    ensures some { IfOk result (λ r. IfSome r (λ v. (body.now ≡ body_of v.items) × IsBatch v.items)) }
    ensures none { IfOk result (λ r. r ≡ None → (puts : List Put) → IsBatch puts → body.now ≡ body_of puts → ⊥) }
{
    let Some((count, first)) = take_number(body) else {
        return Ok(None);
    };
    let mut rest = first;
    let mut puts = Vec::new(alloc);
    for _put in 0..count {
        let Some(parts) = split_put(rest) else {
            return Ok(None);
        };
        puts.push(parts.put(alloc)?)?;
        rest = parts.rest;
    }
    if !rest.is_empty() {
        return Ok(None);
    }
    Ok(Some(puts))
}

/// The parts of the first put of some bytes, and what follows it.
#[derive(Clone, Copy)]
pub(crate) struct Parts<'a> {
    table: u8,
    key: &'a [u8],
    content: &'a [u8],
    rest: &'a [u8],
}

impl Parts<'_> {
    fn put(&self, alloc: Global) -> Result<Put, OutOfMemory>
        ensures { IfOk result (λ p. p ≡ record { table = self.now.table; key = self.now.key.now; content = self.now.content.now }) }
    {
        let key = Bytes::of(alloc, self.key)?;
        let content = Bytes::of(alloc, self.content)?;
        Ok(Put {
            table: self.table,
            key,
            content,
        })
    }
}

/// Takes the first put of some bytes apart.
fn split_put(bytes: &[u8]) -> Option<Parts<'_>>
    ensures some { IfSome result (λ p. bytes.now ≡ put_bytes (record { table = p.table; key = p.key.now; content = p.content.now }) ++ p.rest.now) }
    ensures table { IfSome result (λ p. p.table ≤ 3) }
    ensures none { result ≡ None → (put : Put) (more : List ℕ) → put.table ≤ 3 → length put.key < 2 ^ 64 → length put.content < 2 ^ 64 → bytes.now ≡ put_bytes put ++ more → ⊥ }
{
    let [table, rest @ ..] = bytes else {
        return None;
    };
    if *table > 3 {
        return None;
    }
    let (key, rest) = take_text(rest)?;
    let (content, rest) = take_text(rest)?;
    Some(Parts {
        table: *table,
        key,
        content,
        rest,
    })
}

/// The first bytes behind their count, and what follows them.
pub(crate) fn take_text(bytes: &[u8]) -> Option<(&[u8], &[u8])>
    ensures some { IfSome result (λ r. bytes.now ≡ text_bytes r.0.now ++ r.1.now) }
    ensures none { result ≡ None → (text more : List ℕ) → length text < 2 ^ 64 → bytes.now ≡ text_bytes text ++ more → ⊥ }
{
    let (count, rest) = take_number(bytes)?;
    if count > rest.len() as u64 {
        return None;
    }
    let count = count as usize;
    Some((&rest[..count], &rest[count..]))
}

/// The number in the first 8 bytes, and what follows it.
pub(crate) fn take_number(bytes: &[u8]) -> Option<(u64, &[u8])>
    ensures some { IfSome result (λ r. bytes.now ≡ number r.0 ++ r.1.now) }
    ensures none { result ≡ None → length bytes.now < 8 }
{
    if bytes.len() < 8 {
        return None;
    }
    let count = number_of(&bytes[..8]);
    Some((count, &bytes[8..]))
}

/// The number that 8 bytes spell.
fn number_of(bytes: &[u8]) -> u64
    requires { length bytes.now ≡ 8 }
    ensures { bytes.now ≡ number result }
{
    u64::from_be_bytes([
        bytes[0], bytes[1], bytes[2], bytes[3], bytes[4], bytes[5], bytes[6], bytes[7],
    ])
}
