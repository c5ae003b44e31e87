ghost use Rattle.std.specs.Prelude.{◌≡◌, ◌≢◌, ◌<◌, ◌^◌, ℕ, List, length, All, IfOk};
ghost use Rattle.dw_dict.specs.Rules.{kind_number};
ghost use Rattle.dw_derive.specs.Meta.{meta_slot, commit_slot, commit_bytes, field_slot, rule_bytes, grant_slot, names_bytes, put_at};

use dw_base::{Bytes, OutOfMemory, Text};
use dw_dict::FieldRule;
use dw_key::{Key, encode};
use dw_norm::Kind;
use dw_outside::Put;
use std::alloc::Global;

/// The cell of the number of the last batch, which there is only once a batch was taken.
pub fn commit_cell(alloc: Global, last: u64) -> Result<Put, OutOfMemory>
    requires { last ≢ 0 }
    ensures { IfOk result (λ p. p ≡ put_at commit_slot (commit_bytes last)) }
{
    let content = Bytes::of(alloc, &last.to_be_bytes())?;
    meta_put(alloc, b"commit", b"", content)
}

/// The cell of the rule of a field.
pub fn field_cell(alloc: Global, field: &str, rule: FieldRule) -> Result<Put, OutOfMemory>
    ensures { IfOk result (λ p. p ≡ put_at (field_slot field.now) (rule_bytes rule)) }
{
    let bytes = [
        kind_number(rule.kind),
        rule.indexed as u8,
        rule.reversed as u8,
    ];
    let content = Bytes::of(alloc, &bytes)?;
    meta_put(alloc, b"field", field.as_bytes(), content)
}

/// The cell of what a caller was granted. A cell that is to be read again has the names ascending, each once.
pub fn grant_cell(alloc: Global, caller: &str, names: &[Text]) -> Result<Put, OutOfMemory>
    requires { All (λ (name : List ℕ). length name < 2 ^ 16) names.now }
    ensures { IfOk result (λ p. p ≡ put_at (grant_slot caller.now) (names_bytes names.now)) }
{
    let content = names_bytes(alloc, names)?;
    meta_put(alloc, b"grant", caller.as_bytes(), content)
}

fn meta_put(alloc: Global, row: &[u8], family: &[u8], content: Bytes) -> Result<Put, OutOfMemory>
    ensures { IfOk result (λ p. p ≡ put_at (meta_slot row.now family.now) content) }
{
    let key = Key {
        row: Bytes::of(alloc, row)?,
        family: Bytes::of(alloc, family)?,
        qualifier: Bytes::new(alloc),
        vis: Bytes::new(alloc),
        stamp: 0,
    };
    Ok(Put {
        table: 3,
        key: encode(alloc, &key)?,
        content,
    })
}

fn kind_number(kind: Kind) -> u8
    ensures { result ≡ kind_number kind }
{
    match kind {
        Kind::Text => 0,
        Kind::Noop => 1,
        Kind::Number => 2,
        Kind::Date => 3,
        Kind::Ipv4 => 4,
    }
}

/// Each name behind its length.
fn names_bytes(alloc: Global, names: &[Text]) -> Result<Bytes, OutOfMemory>
    requires { All (λ (name : List ℕ). length name < 2 ^ 16) names.now }
    ensures { IfOk result (λ b. b ≡ names_bytes names.now) }
{
    let mut out = Vec::with_capacity(alloc, room_of(names))?;
    for name in names {
        let name = name.as_str().as_bytes();
        out.extend_from_slice(&(name.len() as u16).to_be_bytes())?;
        out.extend_from_slice(name)?;
    }
    Ok(Bytes::from_vec(out))
}

/// How many bytes the names take, so that room for them is taken once.
fn room_of(names: &[Text]) -> usize {
    names.iter().fold(0usize, |room, name| {
        room.saturating_add(name.as_str().len()).saturating_add(2)
    })
}

#[cfg(test)]
mod tests;
