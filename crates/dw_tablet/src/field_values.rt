ghost use Rattle.std.specs.Prelude.{◌≡◌, ◌<◌, ℕ, List, length, get_or, [], Some, None, IfOk, IfSome, MatchOption, MatchResult};
ghost use Rattle.std.specs.Option.{option_map};
ghost use Rattle.dw_tablet.specs.Places.{IsGap};
ghost use Rattle.dw_tablet.specs.Held.{Agrees};
ghost use Rattle.dw_tablet.specs.Fronts.{values_front, with_front, front_gap};
ghost use Rattle.dw_tablet.specs.FrontWalks.{IsLeafError};
ghost use Rattle.dw_tablet.specs.Values.{shown_at, shown_by};

use crate::asked::Asked;
use crate::position::Position;
use crate::run::keys_with_front;
use crate::span::first_gap;
use crate::stored::Stored;
use crate::tablet::Tablet;
use dw_base::{Bytes, OutOfMemory};
use dw_event::Types;
use dw_key::DocKey;
use dw_vis::Auths;
use std::alloc::Global;

/// Why the values of a field are not known.
#[derive(Debug, Drop)]
pub enum LeafError {
    /// The first of their places that is not covered.
    Missing(Bytes),
    OutOfMemory,
}

impl From<OutOfMemory> for LeafError {
    ghost use Rattle.dw_tablet.specs.declared.field_values.LeafError.{LeafError};

    ghost from_gives = { λ _ e. e ≡ LeafError.OutOfMemory };

    fn from(_error: OutOfMemory) -> LeafError {
        LeafError::OutOfMemory
    }
}

/// The cells of a field whose values begin with a text, lent: those that a reader sees, of batches up to a
/// snapshot and of documents of some types.
#[derive(Clone, Copy)]
pub struct FieldValues<'t> {
    asked: Asked<'t>,
    keys: &'t [Stored],
}

impl Tablet {
    /// What the keys of the values of a field begin with that begin with a text.
    fn values_front(&self, alloc: Global, field: &str, text: &str) -> Result<Bytes, OutOfMemory>
        ensures { IfOk result (λ b. b ≡ values_front self.now.shard field.now text.now) }
    {
        let shard = self.shard().as_str();
        let front = Position::TextStart { shard, field, text };
        front.to_bytes(alloc)
    }

    /// The first place that begins with some bytes and is not covered.
    fn front_gap<'t>(&'t self, front: &'t [u8]) -> Option<&'t [u8]>
        ensures gap { option_map (λ q. q.now) result ≡ front_gap self.now front.now }
        ensures first { IfSome result (λ q. IsGap self.now.spans front.now q.now) }
    {
        let gap = first_gap(self.spans(), front);
        if gap.starts_with(front) {
            return Some(gap);
        }
        None
    }

    /// The cells of the values of a field that begin with a text. Missing exactly where a place of them is not
    /// covered, with the first such place, before any cell is looked at.
    pub fn field_values<'t>(
        &'t self,
        alloc: Global,
        field: &'t str,
        text: &str,
        auths: &'t Auths,
        snapshot: u64,
        types: &'t Types,
    ) -> Result<FieldValues<'t>, LeafError>
        ensures lent { IfOk result (λ v. (content : List (List ℕ)) → Agrees self.now content → v.keys.now ≡ with_front (values_front self.now.shard field.now text.now) content) }
        ensures asked { IfOk result (λ v. shown_by v.asked ≡ shown_at field.now auths.now snapshot None (Some types.now)) }
        ensures missing { MatchResult result (λ _. front_gap self.now (values_front self.now.shard field.now text.now) ≡ None) (IsLeafError self.now (values_front self.now.shard field.now text.now)) }
    {
        let _spans = self.spans();
        let front = self.values_front(alloc, field, text)?;
        if let Some(gap) = self.front_gap(front.as_slice()) {
            return Err(LeafError::Missing(Bytes::of(alloc, gap)?));
        }
        let asked = Asked {
            field,
            auths,
            snapshot,
            only: None,
            types: Some(types),
        };
        Ok(FieldValues {
            asked,
            keys: keys_with_front(self.keys(), front.as_slice()),
        })
    }
}

impl<'t> FieldValues<'t> {
    /// How many cells there are, shown or not.
    pub fn len(&self) -> usize
        ensures { result ≡ length self.now.keys.now }
    {
        self.keys.len()
    }

    /// The value of the cell at an index, and whose it is, where it is shown.
    pub fn value_at(&self, at: usize) -> Option<(&'t str, DocKey)>
        requires { at < length self.now.keys.now }
        ensures { MatchOption result (shown_by self.now.asked (get_or self.now.keys.now at []) ≡ None) (λ v. shown_by self.now.asked (get_or self.now.keys.now at []) ≡ Some (v.0.now, v.1)) }
    {
        self.asked.value_of(&self.keys[at])
    }
}
