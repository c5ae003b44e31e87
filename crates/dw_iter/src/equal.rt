ghost use Rattle.std.specs.Prelude.{◌≡◌, is_some, IfOk, IfSome, List, ℕ, Some};
ghost use Rattle.dw_nest.specs.declared.bound.Bound.{Bound};
ghost use Rattle.dw_tablet.specs.Positions.{value_end, bound_place};
ghost use Rattle.dw_tablet.specs.Values.{shown_at, shown_by, docs_of};
ghost use Rattle.dw_tablet.specs.Walks.{place_at, end_at, gap_shown};
ghost use Rattle.dw_tablet.specs.EqualWalks.{BoundFits};
ghost use Rattle.dw_iter.specs.LeafLists.{StandsFor};
ghost use Rattle.dw_iter.specs.Made.{made_of, LacksPlace};
ghost use Rattle.dw_iter.specs.Tops.{top_of};

use dw_base::{Bytes, OutOfMemory};
use dw_derive::doc_key_is_whole;
use dw_event::Types;
use dw_key::DocKey;
use dw_nest::{Bound, DocIter, Top};
use dw_tablet::{Cursor, CursorTop, Tablet, equal_walks_are_ordered};
use dw_vis::Auths;
use std::alloc::Global;

/// An iterator over the documents that have a value of a field. It walks the field index in place, and takes
/// no memory.
#[derive(Clone, Copy)]
pub struct EqualLeaf<'t> {
    tablet: &'t Tablet,
    field: &'t str,
    value: &'t str,
    types: &'t Types,
    auths: &'t Auths,
    snapshot: u64,
    bound: Bound,
    cursor: Cursor<'t>,
    ghost tablet_is: { cursor.tablet.now ≡ tablet.now },
    ghost asked: { shown_by cursor.asked ≡ shown_at field.now auths.now snapshot (Some value.now) (Some types.now) },
    ghost place: { place_at cursor ≡ bound_place tablet.now.shard field.now value.now bound },
    ghost end: { end_at cursor ≡ value_end tablet.now.shard field.now value.now },
}

/// The document key of a bound is one by its types.
fn bound_is_whole(bound: &Bound)
    ensures { BoundFits bound.now }
{
    match bound {
        Bound::Start => {}
        Bound::From(doc) => doc_key_is_whole(doc),
        Bound::After(doc) => doc_key_is_whole(doc),
    }
}

/// One that stands at a bound.
fn at_bound<'t>(
    tablet: &'t Tablet,
    field: &'t str,
    value: &'t str,
    types: &'t Types,
    auths: &'t Auths,
    snapshot: u64,
    bound: &Bound,
) -> EqualLeaf<'t>
    ensures tablet { result.tablet.now ≡ tablet.now }
    ensures field { result.field.now ≡ field.now }
    ensures value { result.value.now ≡ value.now }
    ensures types { result.types.now ≡ types.now }
    ensures auths { result.auths.now ≡ auths.now }
    ensures snapshot { result.snapshot ≡ snapshot }
    ensures bound { result.bound ≡ bound.now }
{
    EqualLeaf {
        tablet,
        field,
        value,
        types,
        auths,
        snapshot,
        bound: *bound,
        cursor: tablet.equal_cursor(field, value, types, auths, snapshot, bound),
    }
}

impl<'t> EqualLeaf<'t> {
    /// At the first document of a wanted type with this value, as a reader sees it in batches up to the snapshot.
    pub fn new(
        tablet: &'t Tablet,
        field: &'t str,
        value: &'t str,
        types: &'t Types,
        auths: &'t Auths,
        snapshot: u64,
    ) -> EqualLeaf<'t>
        ensures tablet { result.tablet.now ≡ tablet.now }
        ensures field { result.field.now ≡ field.now }
        ensures value { result.value.now ≡ value.now }
        ensures types { result.types.now ≡ types.now }
        ensures auths { result.auths.now ≡ auths.now }
        ensures snapshot { result.snapshot ≡ snapshot }
        ensures bound { result.bound ≡ Bound.Start }
    {
        at_bound(tablet, field, value, types, auths, snapshot, &Bound::Start)
    }

    /// What is shown as missing is a place of the value that is not covered.
    fn gap_is_lacked(&self)
        ensures { IfSome (gap_shown self.now.cursor) (λ place. LacksPlace (made_of self.now.tablet.now self.now.field.now self.now.value.now) place) }
    {
        self.cursor.gap_is_first();
    }

    /// The first place that is not covered, at or after the position, exactly where the top is missing.
    pub fn gap(&self, alloc: Global) -> Result<Option<Bytes>, OutOfMemory>
        ensures shown { IfOk result (λ o. o ≡ gap_shown self.now.cursor) }
        ensures lacks { IfOk result (λ o. IfSome o (λ place. LacksPlace (made_of self.now.tablet.now self.now.field.now self.now.value.now) place)) }
    {
        self.gap_is_lacked();
        self.cursor.gap(alloc)
    }
}

impl DocIter for EqualLeaf<'_> {
    ghost use Rattle.std.specs.Prelude.{nat_eq};
    ghost use Rattle.std.specs.Cmp.Lexicographic.{pointwise};

    ghost at = { λ s. s.bound };

    ghost stuck = { λ s. is_some (gap_shown s.cursor) };

    ghost stands = { λ s. StandsFor s.tablet.now s.field.now (λ form. pointwise nat_eq form s.value.now) s.auths.now s.snapshot s.types.now };

    ghost shown = { λ s. top_of s.cursor };

    ghost keys = { λ s. docs_of (shown_at s.field.now s.auths.now s.snapshot (Some s.value.now) (Some s.types.now)) s.tablet.now.keys };

    ghost made = { λ s. made_of s.tablet.now s.field.now s.value.now };

    fn seek(&mut self, bound: &Bound) {
        *self = at_bound(
            self.tablet,
            self.field,
            self.value,
            self.types,
            self.auths,
            self.snapshot,
            bound,
        );
    }

    fn top(&self) -> Top {
        equal_walks_are_ordered();
        bound_is_whole(&self.bound);
        match self.cursor.top() {
            CursorTop::Cell { value: _, doc } => Top::Key(doc),
            CursorTop::End => Top::End,
            CursorTop::Missing => Top::Missing,
        }
    }

    fn next(&mut self) {
        if let CursorTop::Cell { value: _, doc } = self.cursor.top() {
            *self = at_bound(
                self.tablet,
                self.field,
                self.value,
                self.types,
                self.auths,
                self.snapshot,
                &Bound::After(doc),
            );
        }
    }
}
