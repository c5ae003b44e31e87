ghost use Rattle.std.specs.Prelude.{◌≡◌, ◌↔◌, IsTrue, is_some, true, [], ℕ, List, drop, slice_get, Some, None, IfOk, IfSome, MatchOption};
ghost use Rattle.dw_tablet.specs.Places.{below, IsGap};
ghost use Rattle.std.specs.Option.{option_map};
ghost use Rattle.dw_tablet.specs.Positions.{field_start, field_end, value_end, bound_place};
ghost use Rattle.dw_tablet.specs.Held.{Agrees};
ghost use Rattle.dw_tablet.specs.Cursors.{gap_before, FirstIs};
ghost use Rattle.dw_tablet.specs.Values.{shown_at, shown_by};
ghost use Rattle.dw_tablet.specs.Walks.{place_at, end_at, left, known, IfCell, IsCell, shows, gap_shown};

use crate::ahead::Gap;
use crate::asked::Asked;
use crate::cursor::{Cursor, CursorTop, cursor_at, start_of};
use crate::tablet::Tablet;
use dw_base::{Bytes, OutOfMemory};
use dw_event::Types;
use dw_key::DocKey;
use dw_nest::Bound;
use dw_vis::Auths;
use std::alloc::Global;

impl Tablet {
    /// A cursor at the first cell of a field.
    #[tactic(auto, using(crate::proofs::Ranges::field_long))]
    pub fn cursor<'t>(&'t self, field: &'t str, auths: &'t Auths, snapshot: u64) -> Cursor<'t>
        ensures tablet { result.tablet.now ≡ self.now }
        ensures asked { shown_by result.asked ≡ shown_at field.now auths.now snapshot None None }
        ensures field { result.asked.field.now ≡ field.now }
        ensures auths { result.asked.auths.now ≡ auths.now }
        ensures snapshot { result.asked.snapshot ≡ snapshot }
        ensures place { place_at result ≡ field_start self.now.shard field.now }
        ensures end { end_at result ≡ field_end self.now.shard field.now }
    {
        let asked = Asked {
            field,
            auths,
            snapshot,
            only: None,
            types: None,
        };
        cursor_at(self, asked, None, Bound::Start, None)
    }

    /// A cursor over the cells of one value and of documents of some types, at the first one of a document
    /// that meets the bound.
    #[tactic(auto, using(crate::proofs::Ranges::bound_in_value))]
    pub fn equal_cursor<'t>(
        &'t self,
        field: &'t str,
        value: &'t str,
        types: &'t Types,
        auths: &'t Auths,
        snapshot: u64,
        bound: &Bound,
    ) -> Cursor<'t>
        ensures tablet { result.tablet.now ≡ self.now }
        ensures asked { shown_by result.asked ≡ shown_at field.now auths.now snapshot (Some value.now) (Some types.now) }
        ensures place { place_at result ≡ bound_place self.now.shard field.now value.now bound.now }
        ensures end { end_at result ≡ value_end self.now.shard field.now value.now }
    {
        let asked = Asked {
            field,
            auths,
            snapshot,
            only: Some(value),
            types: Some(types),
        };
        cursor_at(self, asked, Some(value), *bound, None)
    }
}

impl<'t> Cursor<'t> {
    /// Goes to the first cell of a value and of a document that meets the bound, or else to the first one
    /// behind it. All values and types are asked for.
    #[tactic(auto, using(crate::proofs::Ranges::bound_in_field))]
    pub fn seek_value(&mut self, value: &'t str, bound: &Bound)
        ensures tablet { self.new.tablet.now ≡ self.old.tablet.now }
        ensures asked { shown_by self.new.asked ≡ shown_at self.old.asked.field.now self.old.asked.auths.now self.old.asked.snapshot None None }
        ensures field { self.new.asked.field.now ≡ self.old.asked.field.now }
        ensures auths { self.new.asked.auths.now ≡ self.old.asked.auths.now }
        ensures snapshot { self.new.asked.snapshot ≡ self.old.asked.snapshot }
        ensures place { place_at self.new ≡ bound_place self.old.tablet.now.shard self.old.asked.field.now value.now bound.now }
        ensures end { end_at self.new ≡ field_end self.old.tablet.now.shard self.old.asked.field.now }
    {
        let asked = Asked {
            only: None,
            types: None,
            ..self.asked
        };
        *self = cursor_at(self.tablet, asked, Some(value), *bound, None);
    }

    /// The first value that is known.
    fn first(&self) -> Option<(&'t str, DocKey)>
        ensures { MatchOption result (self.now.keys.now ≡ []) (λ v. FirstIs (shown_by self.now.asked) self.now.keys.now (v.0.now, v.1)) }
    {
        let key = self.keys.first()?;
        self.asked.value_of(key)
    }

    /// What stands at the position, by what all contents of the shard that agree with the tablet have there.
    pub fn top(&self) -> CursorTop<'t>
        ensures cell { IfCell result (λ v d. (content : List (List ℕ)) → Agrees self.now.tablet.now content → slice_get (left self.now content) 0 ≡ Some (v, d)) }
        ensures known { IfCell result (λ v d. slice_get (known self.now) 0 ≡ Some (v, d)) }
        ensures shows { IsTrue (shows self.now) ↔ IsCell result }
        ensures missing { (result ≡ CursorTop.Missing) ↔ IsTrue (is_some (gap_shown self.now)) }
        ensures end { result ≡ CursorTop.End → (content : List (List ℕ)) → Agrees self.now.tablet.now content → left self.now content ≡ [] }
    {
        let _spans = self.tablet.spans();
        if let Some((value, doc)) = self.first() {
            return CursorTop::Cell { value, doc };
        }
        match self.gap {
            Gap::Nowhere => CursorTop::End,
            Gap::Here => CursorTop::Missing,
            Gap::Later { place: _ } => CursorTop::Missing,
        }
    }

    /// Goes on after the cell at the top.
    pub fn next(&mut self)
        requires { IsTrue (shows self.old) }
        ensures tablet { self.new.tablet.now ≡ self.old.tablet.now }
        ensures asked { shown_by self.new.asked ≡ shown_by self.old.asked }
        ensures field { self.new.asked.field.now ≡ self.old.asked.field.now }
        ensures auths { self.new.asked.auths.now ≡ self.old.asked.auths.now }
        ensures snapshot { self.new.asked.snapshot ≡ self.old.asked.snapshot }
        ensures end { end_at self.new ≡ end_at self.old }
        ensures left { (content : List (List ℕ)) → Agrees self.old.tablet.now content → left self.new content ≡ drop 1 (left self.old content) }
    {
        let _spans = self.tablet.spans();
        if let Some(key) = self.keys.first() {
            *self = cursor_at(
                self.tablet,
                self.asked,
                None,
                Bound::Start,
                Some(key.code()),
            );
        }
    }

    /// What is shown as missing is not covered, and all places from the position up to it are.
    pub fn gap_is_first(&self)
        ensures { IfSome (gap_shown self.now) (λ q. IsGap self.now.tablet.now.spans (place_at self.now) q × (below q (end_at self.now) ≡ true)) }
    {
        let _spans = self.tablet.spans();
    }

    /// The first place at or after the position that is not covered, exactly where the top is missing.
    pub fn gap(&self, alloc: Global) -> Result<Option<Bytes>, OutOfMemory>
        ensures { IfOk result (λ o. o ≡ gap_shown self.now) }
    {
        if self.keys.first().is_some() {
            return Ok(None);
        }
        match self.gap {
            Gap::Nowhere => Ok(None),
            Gap::Later { place } => Ok(Some(Bytes::of(alloc, place)?)),
            Gap::Here => {
                let shard = self.tablet.shard().as_str();
                let position = start_of(
                    shard,
                    self.asked.field,
                    self.value,
                    &self.bound,
                    self.past,
                );
                Ok(Some(position.to_bytes(alloc)?))
            }
        }
    }
}
