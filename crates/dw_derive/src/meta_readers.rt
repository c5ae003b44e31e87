ghost use Rattle.std.specs.Prelude.{◌≡◌, Some, None, true, false, IfOk, MatchOption};
ghost use Rattle.std.specs.Option.{option_map};
ghost use Rattle.dw_base.specs.Callers.{is_caller as names_caller};
ghost use Rattle.dw_base.specs.FieldNames.{is_folded_name as names_folded};
ghost use Rattle.dw_base.specs.declared.limits.TheConstants.{MAX_NAMES as MOST_NAMES};
ghost use Rattle.dw_derive.specs.UidLists.{ascend};
ghost use Rattle.dw_derive.specs.MetaReaders.{is_in_row, number_from, commit_reading, kind_from, bit_from, rule_from, field_reading, name_in, names_in, names_from, grant_reading};

use crate::OutOfMemory;
use crate::readers::text;
use dw_base::{MAX_NAMES, Sorted, Text, is_auth, is_caller, is_folded_name};
use dw_dict::FieldRule;
use dw_key::Key;
use dw_norm::Kind;
use std::alloc::Global;

/// The number that a cell of table 3 says as that of the last batch, or None where it is of another form.
pub fn commit_number(key: &Key, content: &[u8]) -> Option<u64>
    ensures { result ≡ commit_reading key.now content.now }
{
    if !is_in_row(b"commit".as_slice(), key) || !key.family.as_slice().is_empty() {
        return None;
    }
    number_from(content)
}

fn number_from(content: &[u8]) -> Option<u64>
    ensures { result ≡ number_from content.now }
{
    if content.len() != 8 {
        return None;
    }
    let number = u64::from_be_bytes([
        content[0], content[1], content[2], content[3], content[4], content[5], content[6],
        content[7],
    ]);
    if number >= 1 && number < 1 << 63 {
        Some(number)
    } else {
        None
    }
}

fn is_in_row(row: &[u8], key: &Key) -> bool
    ensures { result ≡ is_in_row row.now key.now }
{
    key.row.as_slice() == row
        && key.qualifier.as_slice().is_empty()
        && key.vis.as_slice().is_empty()
        && key.stamp == 0
}

/// The field and the rule that a cell of table 3 says, or None where it is of another form or the name breaks
/// its limits. Takes no memory.
pub fn field_rule<'a>(key: &'a Key, content: &[u8]) -> Option<(&'a str, FieldRule)>
    ensures { MatchOption result (field_reading key.now content.now ≡ None) (λ f. field_reading key.now content.now ≡ Some (f.0.now, f.1)) }
{
    if !is_in_row(b"field".as_slice(), key) {
        return None;
    }
    let field = folded(key.family.as_slice())?;
    let rule = rule_from(content)?;
    Some((field, rule))
}

/// The bytes as the name of a field as it is kept.
#[tactic(auto, using(crate::proofs::MetaSpellings::no_field))]
fn folded(bytes: &[u8]) -> Option<&str>
    ensures { MatchOption result (names_folded bytes.now ≡ false) (λ t. (names_folded bytes.now ≡ true) × (t.now ≡ bytes.now)) }
{
    let name = text(bytes)?;
    if is_folded_name(name) {
        Some(name)
    } else {
        None
    }
}

fn rule_from(content: &[u8]) -> Option<FieldRule>
    ensures { result ≡ rule_from content.now }
{
    let [kind, indexed, reversed] = content else {
        return None;
    };
    FieldRule::of(kind_from(*kind)?, bit_from(*indexed)?, bit_from(*reversed)?)
}

fn kind_from(number: u8) -> Option<Kind>
    ensures { result ≡ kind_from number }
{
    match number {
        0 => Some(Kind::Text),
        1 => Some(Kind::Noop),
        2 => Some(Kind::Number),
        3 => Some(Kind::Date),
        4 => Some(Kind::Ipv4),
        _ => None,
    }
}

fn bit_from(byte: u8) -> Option<bool>
    ensures { result ≡ bit_from byte }
{
    match byte {
        0 => Some(false),
        1 => Some(true),
        _ => None,
    }
}

/// The caller and the names that a cell of table 3 says, or None where it is of another form or breaks a
/// limit: at most 256 names of 1 to 512 bytes of UTF-8, none of them 0, ascending, each once.
pub fn grant_names<'a>(
    alloc: Global,
    key: &'a Key,
    content: &[u8],
) -> Result<Option<(&'a str, Sorted<Text>)>, OutOfMemory>
    ensures { IfOk result (λ o. MatchOption o (grant_reading key.now content.now ≡ None) (λ g. grant_reading key.now content.now ≡ Some (g.0.now, g.1))) }
{
    if !is_in_row(b"grant".as_slice(), key) {
        return Ok(None);
    }
    let Some(caller) = caller(key.family.as_slice()) else {
        return Ok(None);
    };
    match names_from(alloc, content)? {
        None => Ok(None),
        Some(names) => Ok(Some((caller, names))),
    }
}

/// The bytes as the name of a caller.
#[tactic(auto, using(crate::proofs::MetaSpellings::no_caller))]
fn caller(bytes: &[u8]) -> Option<&str>
    ensures { MatchOption result (names_caller bytes.now ≡ false) (λ t. (names_caller bytes.now ≡ true) × (t.now ≡ bytes.now)) }
{
    let name = text(bytes)?;
    if is_caller(name) { Some(name) } else { None }
}

fn names_from(alloc: Global, content: &[u8]) -> Result<Option<Sorted<Text>>, OutOfMemory>
    ensures { IfOk result (λ o. o ≡ names_from content.now) }
{
    let Some(names) = names_in(alloc, content)? else {
        return Ok(None);
    };
    if !ascend(names.as_slice()) {
        return Ok(None);
    }
    Ok(Some(Sorted::from_ascending(names)))
}

/// Whether each name is below the next one.
fn ascend(names: &[Text]) -> bool
    ensures { result ≡ ascend names.now }
{
    names.is_sorted_by(|name, next| name.cmp(next).is_lt())
}

/// The names one after another, each behind its length, at most 256.
fn names_in(alloc: Global, content: &[u8]) -> Result<Option<Vec<Text>>, OutOfMemory>
    ensures { IfOk result (λ o. option_map (λ v. v.items) o ≡ names_in MOST_NAMES content.now) }
{
    let mut names = Vec::new(alloc);
    let mut rest = content;
    while !rest.is_empty() {
        if names.len() == MAX_NAMES {
            return Ok(None);
        }
        let Some((name, behind)) = name_in(rest) else {
            return Ok(None);
        };
        names.push(Text::of(alloc, name)?)?;
        rest = behind;
    }
    Ok(Some(names))
}

/// The name in front behind its length, and what follows it.
fn name_in(bytes: &[u8]) -> Option<(&str, &[u8])>
    ensures { MatchOption result (name_in bytes.now ≡ None) (λ p. name_in bytes.now ≡ Some (p.0.now, p.1.now)) }
{
    let [high, low, behind @ ..] = bytes else {
        return None;
    };
    let size = u16::from_be_bytes([*high, *low]) as usize;
    if behind.len() < size {
        return None;
    }
    let (name, rest) = behind.split_at(size);
    let name = text(name)?;
    if is_auth(name) {
        Some((name, rest))
    } else {
        None
    }
}

#[cfg(test)]
mod tests;
