ghost use Rattle.std.specs.Prelude.{◌≡◌, ◌++◌, ◌∷◌, [], IfOk, take};
ghost use Rattle.dw_key.specs.KeyCode.{escaped};
ghost use Rattle.dw_derive.specs.Meta.{bit};
ghost use Rattle.dw_plan.specs.Spans.{day_front, past, row_edge, span_from, span_before};

use crate::OutOfMemory;
use crate::wanted::Wanted;
use dw_base::{Bytes, Text};
use dw_event::Days;
use dw_key::{Key, encode};
use std::alloc::Global;

/// The keys of an index from one on and below another. An empty `before` is no bound.
#[derive(Drop)]
pub(crate) struct Span {
    pub from: Bytes,
    pub before: Bytes,
}

/// What the keys of the rows that begin so begin with.
fn row_front(alloc: Global, row: &[u8]) -> Result<Vec<u8>, OutOfMemory>
    ensures { IfOk result (λ v. v.items ≡ escaped row.now) }
{
    let key = Key {
        row: Bytes::of(alloc, row)?,
        family: Bytes::new(alloc),
        qualifier: Bytes::new(alloc),
        vis: Bytes::new(alloc),
        stamp: 0,
    };
    let mut front = encode(alloc, &key)?.into_vec();
    let len = front.len().saturating_sub(16);
    front.truncate(len);
    Ok(front)
}

/// What the keys of a row and a field begin with whose qualifier begins with the day.
fn day_front(alloc: Global, row: &[u8], field: &[u8], day: &[u8]) -> Result<Vec<u8>, OutOfMemory>
    ensures { IfOk result (λ v. v.items ≡ day_front row.now field.now day.now) }
{
    let key = Key {
        row: Bytes::of(alloc, row)?,
        family: Bytes::of(alloc, field)?,
        qualifier: Bytes::of(alloc, day)?,
        vis: Bytes::new(alloc),
        stamp: 0,
    };
    let mut front = encode(alloc, &key)?.into_vec();
    let len = front.len().saturating_sub(12);
    front.truncate(len);
    Ok(front)
}

/// The first bytes past all that begin with these, or none where nothing is past them.
fn past(bytes: Vec<u8>) -> Result<Vec<u8>, OutOfMemory>
    ensures { IfOk result (λ v. v.items ≡ past bytes.items) }
{
    let mut end = bytes;
    while let Some(last) = end.pop() {
        if last != 255 {
            end.push(last + 1)?;
            return Ok(end);
        }
    }
    Ok(end)
}

fn bit(set: bool) -> u8
    ensures { result ≡ bit set }
{
    if set { 1 } else { 0 }
}

/// The first key of a row, or with 1 the first key past it.
fn row_edge(alloc: Global, row: &[u8], last: u8) -> Result<Bytes, OutOfMemory>
    ensures { IfOk result (λ b. b ≡ row_edge row.now last) }
{
    let mut edge = row_front(alloc, row)?;
    edge.push(0)?;
    edge.push(last)?;
    Ok(Bytes::from_vec(edge))
}

fn first_eight(bytes: &[u8]) -> &[u8]
    ensures { result.now ≡ take 8 bytes.now }
{
    if bytes.len() < 8 { bytes } else { &bytes[..8] }
}

/// The keys of a row and a field whose shards are of the days.
fn days_span(
    alloc: Global,
    row: &[u8],
    field: &[u8],
    first: &[u8],
    last: &[u8],
) -> Result<Span, OutOfMemory>
    ensures { IfOk result (λ s. (s.from ≡ day_front row.now field.now first.now) × (s.before ≡ past (day_front row.now field.now (take 8 last.now)))) }
{
    let from = day_front(alloc, row, field, first)?;
    let end = day_front(alloc, row, field, first_eight(last))?;
    let before = past(end)?;
    Ok(Span {
        from: Bytes::from_vec(from),
        before: Bytes::from_vec(before),
    })
}

/// The keys of the rows that begin with a text.
fn front_span(alloc: Global, front: &[u8]) -> Result<Span, OutOfMemory>
    ensures { IfOk result (λ s. (s.from ≡ escaped front.now) × (s.before ≡ past (escaped front.now))) }
{
    let from = row_front(alloc, front)?;
    let end = from.clone()?;
    let before = past(end)?;
    Ok(Span {
        from: Bytes::from_vec(from),
        before: Bytes::from_vec(before),
    })
}

/// Where the keys stand in which a value that is wanted is named for a field and days: an equality reads its
/// row, its field and its days, a range its rows, and a text at the front the rows that begin with it.
pub(crate) fn span_of(
    alloc: Global,
    wanted: &Wanted<'_>,
    field: &Text,
    days: &Days,
) -> Result<Span, OutOfMemory>
    ensures { IfOk result (λ s. (s.from ≡ span_from field.now days.now wanted.now) × (s.before ≡ span_before field.now days.now wanted.now)) }
{
    match wanted {
        Wanted::Equal { value } => days_span(
            alloc,
            value.as_bytes(),
            field.as_str().as_bytes(),
            days.first.as_str().as_bytes(),
            days.last.as_str().as_bytes(),
        ),
        Wanted::Between {
            low,
            low_edge,
            high,
            high_edge,
        } => Ok(Span {
            from: row_edge(alloc, low.as_bytes(), bit(!*low_edge))?,
            before: row_edge(alloc, high.as_bytes(), bit(*high_edge))?,
        }),
        Wanted::Front { front } => front_span(alloc, front.as_bytes()),
    }
}
