ghost use Rattle.std.specs.Prelude.{◌≡◌, ◌&&◌, ◌||◌, ℕ, List, Some, None, false, true, IfOk, OnOk, MatchOption};
ghost use Rattle.std.specs.Option.{option_and_then, option_map_or};
ghost use Rattle.std.specs.List.{list_all, list_any};
ghost use Rattle.std.specs.Char.{is_ascii_digit};
ghost use Rattle.dw_event.specs.Texts.{is_same};
ghost use Rattle.dw_event.specs.Wanted.{is_in_range, is_type_wanted};
ghost use Rattle.dw_derive.specs.Readers.{global_reading};
ghost use Rattle.dw_plan.specs.Hit.{is_shard_name};
ghost use Rattle.dw_plan.specs.Spans.{is_wanted};
ghost use Rattle.dw_plan.specs.Joins.{has};
ghost use Rattle.dw_plan.specs.Cells.{shard_of, shard_from};

use crate::OutOfMemory;
use crate::sight::Sight;
use crate::wanted::Wanted;
use dw_base::{Sorted, Text};
use dw_derive::{GlobalFields, global_fields, key_of};
use dw_event::{Days, Types};
use dw_key::Key;
use dw_outside::Cell;
use dw_vis::Auths;
use std::alloc::Global;

/// For whom shards are looked for, and of which days and types.
#[derive(Clone, Copy)]
pub(crate) struct Scope<'a> {
    pub auths: &'a Auths,
    pub days: &'a Days,
    pub types: &'a Types,
}

fn is_digits(bytes: &[u8]) -> bool
    ensures { result ≡ list_all is_ascii_digit bytes.now }
{
    bytes.iter().all(|byte| byte.is_ascii_digit())
}

/// Whether the name is eight digits, `_` and one or two digits.
fn is_shard_name(name: &[u8]) -> bool
    ensures { result ≡ is_shard_name name.now }
{
    (10..=11).contains(&name.len())
        && is_digits(&name[..8])
        && name[8] == b'_'
        && is_digits(&name[9..])
}

/// The name of a shard as a text, or None where it is none.
fn shard_text(name: &[u8]) -> Option<&str>
    ensures { MatchOption result (is_shard_name name.now ≡ false) (λ t. (t.now ≡ name.now) × (is_shard_name name.now ≡ true)) }
{
    if !is_shard_name(name) {
        return None;
    }
    match str::from_utf8(name) {
        Ok(text) => Some(text),
        Err(_) => None,
    }
}

/// The shard that a key names, whoever sees it, where all else that it says is asked for.
fn asked_shard<'k>(
    key: &'k Key,
    scope: &Scope<'_>,
    field: &Text,
    wanted: &Wanted<'_>,
) -> Option<&'k str>
    ensures { let found = option_and_then (shard_of scope.now.days.now scope.now.types.now field.now wanted.now) (global_reading key.now) in MatchOption result (found ≡ None) (λ s. found ≡ Some s.now) }
{
    let Some(said) = global_fields(key) else {
        return None;
    };
    let shard = shard_text(said.shard)?;
    if is_asked(scope, &said, shard, field, wanted) {
        Some(shard)
    } else {
        None
    }
}

fn is_asked(
    scope: &Scope<'_>,
    said: &GlobalFields<'_>,
    shard: &str,
    field: &Text,
    wanted: &Wanted<'_>,
) -> bool
    ensures { result ≡ (is_in_range scope.now.days.now shard.now && is_type_wanted scope.now.types.now said.now.dtype && is_same field.now said.now.field.now && is_wanted wanted.now said.now.value.now) }
{
    scope.days.hold(shard)
        && scope.types.want(&said.dtype)
        && field.as_str().as_bytes().cmp(said.field.as_bytes()).is_eq()
        && wanted.holds(said.value)
}

/// Whether the last of the texts is this one.
fn ends_with(texts: &[Text], text: &str) -> bool
    ensures { result ≡ true → has texts.now text.now ≡ true }
{
    if texts.is_empty() {
        return false;
    }
    let last = &texts[texts.len() - 1];
    last.as_str().as_bytes() == text.as_bytes()
}

/// Adds the shard that a cell names, unless it was added last.
fn add_shard(
    alloc: Global,
    all: &mut Vec<Text>,
    sight: &mut Sight<'_>,
    scope: &Scope<'_>,
    field: &Text,
    wanted: &Wanted<'_>,
    cell: &Cell,
) -> Result<(), OutOfMemory>
    ensures added { OnOk result ((s : List ℕ) → list_any (is_same s) all.new.items ≡ (list_any (is_same s) all.old.items || option_map_or (is_same s) (shard_from sight.old.auths.now scope.now.days.now scope.now.types.now field.now wanted.now cell.now.key) false)) }
    ensures same { sight.new.auths.now ≡ sight.old.auths.now }
{
    let Some(key) = key_of(alloc, cell.key.as_slice())? else {
        return Ok(());
    };
    let Some(shard) = asked_shard(&key, scope, field, wanted) else {
        return Ok(());
    };
    if ends_with(all.as_slice(), shard) {
        return Ok(());
    }
    if sight.sees(alloc, key.vis.as_slice())? {
        all.push(Text::of(alloc, shard)?)?;
    }
    Ok(())
}

/// The shards that some cells name to the reader where all else that they say is asked for.
pub(crate) fn shards_of(
    alloc: Global,
    cells: &[Cell],
    scope: &Scope<'_>,
    field: &Text,
    wanted: &Wanted<'_>,
) -> Result<Sorted<Text>, OutOfMemory>
    ensures { IfOk result (λ l. (s : List ℕ) → list_any (is_same s) l ≡ list_any (λ c. option_map_or (is_same s) (shard_from scope.now.auths.now scope.now.days.now scope.now.types.now field.now wanted.now c.key) false) cells.now) }
{
    let mut sight = Sight::new(alloc, scope.auths);
    let mut all = Vec::new(alloc);
    for cell in cells {
        add_shard(alloc, &mut all, &mut sight, scope, field, wanted, cell)?;
    }
    Ok(Sorted::from_vec(all))
}
