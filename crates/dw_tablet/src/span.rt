ghost use Rattle.std.specs.Prelude.{◌≡◌, ◌++◌, ◌∷◌, List, IfOk};
ghost use Rattle.std.specs.Option.{option_map};
ghost use Rattle.dw_tablet.specs.Positions.{place_of};
ghost use Rattle.dw_tablet.specs.Places.{below, covers, covered_upto, gap, joined, with_span, with_open};
ghost use Rattle.dw_tablet.specs.declared.span.Span.{Span};

use crate::position::Position;
use dw_base::{Bytes, OutOfMemory};
use std::alloc::Global;

/// The places at or after `from` and before `upto`.
#[derive(Debug, Drop)]
pub struct Span {
    pub from: Bytes,
    pub upto: Bytes,
}

impl Span {
    pub fn copy(&self) -> Result<Span, OutOfMemory>
        ensures { IfOk result (λ s. s ≡ self.now) }
    {
        let from = self.from.copy()?;
        let upto = self.upto.copy()?;
        Ok(Span { from, upto })
    }

    /// One span for two that meet or touch.
    fn joined(self, old: &Span) -> Result<Span, OutOfMemory>
        ensures { IfOk result (λ s. s ≡ joined old.now self) }
    {
        let Span { from, upto } = self;
        let from = if is_below(old.from.as_slice(), from.as_slice()) {
            old.from.copy()?
        } else {
            from
        };
        let upto = if is_below(old.upto.as_slice(), upto.as_slice()) {
            upto
        } else {
            old.upto.copy()?
        };
        Ok(Span { from, upto })
    }
}

/// Whether the one place is before the other.
pub(crate) fn is_below(a: &[u8], b: &[u8]) -> bool
    ensures { result ≡ below a.now b.now }
{
    a.cmp(b).is_lt()
}

/// Whether one of the spans has the place.
pub(crate) fn covered_by(spans: &[Span], place: &[u8]) -> bool
    ensures { result ≡ covers spans.now place.now }
{
    for span in spans {
        if !is_below(place, span.from.as_slice()) && is_below(place, span.upto.as_slice()) {
            return true;
        }
    }
    false
}

/// The end of the span that has the place, or None where none of the spans has it.
pub(crate) fn covered_upto<'t>(spans: &'t [Span], position: &Position<'_>) -> Option<&'t [u8]>
    ensures { option_map (λ x. x.now) result ≡ covered_upto spans.now (place_of position.now) }
{
    for span in spans {
        if position.is_before(span.from.as_slice()) {
            return None;
        }
        if position.is_before(span.upto.as_slice()) {
            return Some(span.upto.as_slice());
        }
    }
    None
}

/// The place itself where none of the spans has it, and else the end of the span that does.
pub(crate) fn first_gap<'t>(spans: &'t [Span], place: &'t [u8]) -> &'t [u8]
    ensures { result.now ≡ gap spans.now place.now }
{
    match covered_upto(spans, &Position::At { place }) {
        None => place,
        Some(upto) => upto,
    }
}

/// Puts what stands before the next span, and says what is still to be put.
#[tactic(auto, using(crate::proofs::Placing::closed, crate::proofs::Placing::lower, crate::proofs::Placing::higher, crate::proofs::Placing::meeting))]
fn put_old(all: &mut Vec<Span>, left: Option<Span>, old: &Span) -> Result<Option<Span>, OutOfMemory>
    ensures { IfOk result (λ o. (rest : List Span) → all.new.items ++ with_open o rest ≡ all.old.items ++ with_open left (old.now ∷ rest)) }
{
    let Some(now) = left else {
        all.push(old.copy()?)?;
        return Ok(None);
    };
    if is_below(old.upto.as_slice(), now.from.as_slice()) {
        all.push(old.copy()?)?;
        return Ok(Some(now));
    }
    if is_below(now.upto.as_slice(), old.from.as_slice()) {
        all.push(now)?;
        all.push(old.copy()?)?;
        return Ok(None);
    }
    Ok(Some(now.joined(old)?))
}

/// The spans with one more, joined with those that it meets or touches.
pub(crate) fn with_span(alloc: Global, spans: &[Span], span: Span) -> Result<Vec<Span>, OutOfMemory>
    ensures { IfOk result (λ v. v.items ≡ with_span spans.now span) }
{
    let mut all = Vec::new(alloc);
    let mut left = Some(span);
    for old in spans {
        left = put_old(&mut all, left, old)?;
    }
    if let Some(now) = left {
        all.push(now)?;
    }
    Ok(all)
}
