ghost use Rattle.std.specs.Prelude.{◌≡◌, ◌<◌, ◌+◌, ◌∷◌, [], true, length, take, drop, slice_index_or, Some, None, MatchOption};
ghost use Rattle.std.specs.Option.{is_some, option_map};
ghost use Rattle.std.specs.List.{position as first_place};
ghost use Rattle.dw_nest.specs.declared.bound.Bound.{Bound};
ghost use Rattle.dw_tablet.specs.Places.{below};
ghost use Rattle.dw_tablet.specs.Positions.{place_of, field_start, field_end, value_end, bound_place, cursor_place, cursor_end};
ghost use Rattle.dw_tablet.specs.Held.{Agrees};
ghost use Rattle.dw_tablet.specs.Cursors.{known_keys, gap_before, gap_place, from_first};
ghost use Rattle.dw_tablet.specs.Values.{shown_by};

use crate::ahead::Gap;
use crate::asked::Asked;
use crate::position::{DocSpot, Position};
use crate::stored::Stored;
use crate::tablet::Tablet;
use dw_key::DocKey;
use dw_nest::Bound;

/// What stands at the position of a cursor.
#[derive(Clone, Copy, Debug)]
pub enum CursorTop<'t> {
    /// A value, and whose it is.
    Cell { value: &'t str, doc: DocKey },
    /// No cell stands there or behind it.
    End,
    /// A place there is not covered.
    Missing,
}

/// Where the first value stands among some keys.
fn first_value(keys: &[Stored], asked: &Asked<'_>) -> Option<usize>
    ensures { result ≡ first_place (λ k. is_some (shown_by asked.now k)) keys.now }
{
    keys.iter().position(|key| asked.value_of(key).is_some())
}

/// The keys from the first that says a value on.
fn from_first<'t>(keys: &'t [Stored], asked: &Asked<'_>) -> &'t [Stored]
    ensures { result.now ≡ from_first (shown_by asked.now) keys.now }
{
    match first_value(keys, asked) {
        Some(at) => &keys[at..],
        None => &[],
    }
}

/// Where the walk of a cursor begins: at the first cell of its field, at the first one of a value that meets
/// a bound, or after a key.
pub(crate) fn start_of<'p>(
    shard: &'p str,
    field: &'p str,
    value: Option<&'p str>,
    bound: &Bound,
    past: Option<&'p [u8]>,
) -> Position<'p>
    ensures { place_of result ≡ cursor_place shard.now field.now (option_map (λ v. v.now) value.entry) bound.now (option_map (λ k. k.now) past.entry) }
{
    if let Some(key) = past {
        return Position::Past { key };
    }
    let Some(value) = value else {
        return Position::FieldStart { shard, field };
    };
    let (doc, past) = match bound {
        Bound::Start => {
            return Position::ValueStart {
                shard,
                field,
                value,
            };
        }
        Bound::From(doc) => (doc, false),
        Bound::After(doc) => (doc, true),
    };
    Position::Entry {
        shard,
        field,
        value,
        spot: DocSpot::of(doc),
        past,
    }
}

/// Where it ends: with its field, or with the cells of one value.
fn end_of<'p>(shard: &'p str, field: &'p str, only: Option<&'p str>) -> Position<'p>
    ensures { place_of result ≡ cursor_end shard.now field.now (option_map (λ v. v.now) only.entry) }
{
    match only {
        None => Position::FieldEnd { shard, field },
        Some(value) => Position::ValueEnd {
            shard,
            field,
            value,
        },
    }
}

/// A walk over the cells of a field in the field index, which a reader sees and which are of a batch up to
/// the snapshot, in the order of their keys. Its calls take no memory, but for `gap`.
#[derive(Clone, Copy)]
pub struct Cursor<'t> {
    pub(crate) tablet: &'t Tablet,
    pub(crate) asked: Asked<'t>,
    pub(crate) value: Option<&'t str>,
    pub(crate) bound: Bound,
    pub(crate) past: Option<&'t [u8]>,
    pub(crate) keys: &'t [Stored],
    pub(crate) gap: Gap<'t>,
    ghost within: { below (cursor_place tablet.now.shard asked.field.now (option_map (λ v. v.now) value) bound (option_map (λ k. k.now) past)) (cursor_end tablet.now.shard asked.field.now (option_map (λ v. v.now) asked.only)) ≡ true },
    ghost known: { keys.now ≡ from_first (shown_by asked) (known_keys tablet.now (cursor_place tablet.now.shard asked.field.now (option_map (λ v. v.now) value) bound (option_map (λ k. k.now) past)) (cursor_end tablet.now.shard asked.field.now (option_map (λ v. v.now) asked.only))) },
    ghost missing: { gap_place (cursor_place tablet.now.shard asked.field.now (option_map (λ v. v.now) value) bound (option_map (λ k. k.now) past)) gap ≡ gap_before tablet.now (cursor_place tablet.now.shard asked.field.now (option_map (λ v. v.now) value) bound (option_map (λ k. k.now) past)) (cursor_end tablet.now.shard asked.field.now (option_map (λ v. v.now) asked.only)) },
}

/// A cursor that was sent to a value and a bound or past a key.
pub(crate) fn cursor_at<'t>(
    tablet: &'t Tablet,
    asked: Asked<'t>,
    value: Option<&'t str>,
    bound: Bound,
    past: Option<&'t [u8]>,
) -> Cursor<'t>
    requires { below (cursor_place tablet.now.shard asked.field.now (option_map (λ v. v.now) value) bound (option_map (λ k. k.now) past)) (cursor_end tablet.now.shard asked.field.now (option_map (λ v. v.now) asked.only)) ≡ true }
    ensures tablet { result.tablet.now ≡ tablet.now }
    ensures asked { shown_by result.asked ≡ shown_by asked.entry }
    ensures field { result.asked.field.now ≡ asked.entry.field.now }
    ensures auths { result.asked.auths.now ≡ asked.entry.auths.now }
    ensures snapshot { result.asked.snapshot ≡ asked.entry.snapshot }
    ensures place { cursor_place result.tablet.now.shard result.asked.field.now (option_map (λ v. v.now) result.value) result.bound (option_map (λ k. k.now) result.past) ≡ cursor_place tablet.now.shard asked.entry.field.now (option_map (λ v. v.now) value.entry) bound (option_map (λ k. k.now) past.entry) }
    ensures end { option_map (λ v. v.now) result.asked.only ≡ option_map (λ v. v.now) asked.entry.only }
{
    let shard = tablet.shard().as_str();
    let from = start_of(shard, asked.field, value, &bound, past);
    let end = end_of(shard, asked.field, asked.only);
    let ahead = tablet.ahead(&from, &end);
    Cursor {
        tablet,
        asked,
        value,
        bound,
        past,
        keys: from_first(ahead.keys, &asked),
        gap: ahead.gap,
    }
}
