ghost use Rattle.std.specs.Prelude.{◌≡◌, ◌<◌, ◌++◌, false, [], List, ℕ, length, get_or, slice_get, filter_map, None, Some, IfOk, MatchResult};
ghost use Rattle.std.specs.Option.{option_map};
ghost use Rattle.dw_nest.specs.Bounds.{rest, Ascends};
ghost use Rattle.dw_nest.specs.declared.bound.Bound.{Bound};
ghost use Rattle.dw_eval.specs.Meeting.{meets as is_met, field_of as field_is, front_of as front_is};
ghost use Rattle.dw_tablet.specs.Held.{Agrees};
ghost use Rattle.dw_tablet.specs.Fronts.{values_front, front_gap};
ghost use Rattle.dw_tablet.specs.FrontWalks.{IsLeafError};
ghost use Rattle.dw_tablet.specs.Values.{docs_of, shown_by};
ghost use Rattle.dw_iter.specs.LeafLists.{AreLeafDocs, passed_if, doc_where};
ghost use Rattle.dw_iter.specs.Tops.{set_top};

use dw_base::{OutOfMemory, Sorted};
use dw_eval::{NQuery, field_of, forms_begin_so, front_of, meets};
use dw_event::Types;
use dw_key::DocKey;
use dw_nest::{Bound, DocIter, Top};
use dw_tablet::{FieldValues, LeafError, Tablet, values_stand_in_fronts};
use dw_vis::Auths;
use std::alloc::Global;

/// An iterator over the documents that have a value which meets a leaf, gathered into a sorted set when it
/// is made.
#[derive(Debug, Drop)]
pub struct SetLeaf {
    keys: Sorted<DocKey>,
    bound: Bound,
}

/// The document of the cell at an index, where it is shown and its value meets a leaf.
fn doc_at(values: &FieldValues<'_>, at: usize, leaf: &NQuery) -> Option<DocKey>
    requires { at < length values.now.keys.now }
    ensures { result ≡ doc_where (is_met leaf.now) (shown_by values.now.asked) (get_or values.now.keys.now at []) }
{
    match values.value_at(at) {
        None => None,
        Some((value, doc)) => { if meets(leaf, value) { Some(doc) } else { None } }
    }
}

/// The documents of the cells that are shown and whose values meet a leaf, in the order of the cells.
fn docs_where(
    alloc: Global,
    values: &FieldValues<'_>,
    leaf: &NQuery,
) -> Result<Vec<DocKey>, OutOfMemory>
    ensures { IfOk result (λ v. v.items ≡ filter_map (doc_where (is_met leaf.now) (shown_by values.now.asked)) values.now.keys.now) }
{
    let mut docs = Vec::new(alloc);
    for at in 0..values.len() {
        if let Some(doc) = doc_at(values, at, leaf) {
            docs.push(doc)?;
        }
    }
    Ok(docs)
}

/// The key at an index, where there is one.
fn first_from(keys: &[DocKey], at: usize) -> Option<DocKey>
    ensures { result ≡ slice_get keys.now at }
{
    if at < keys.len() {
        return Some(keys[at]);
    }
    None
}

impl SetLeaf {
    /// At the first document of a wanted type that has a value which meets the leaf, as a reader sees it in
    /// batches up to the snapshot. Missing exactly where a place is not covered at which such values may
    /// stand, with the first such place; this is decided before any cell is looked at.
    pub fn new(
        alloc: Global,
        tablet: &Tablet,
        leaf: &NQuery,
        types: &Types,
        auths: &Auths,
        snapshot: u64,
    ) -> Result<SetLeaf, LeafError>
        ensures stands { IfOk result (λ s. (content : List (List ℕ)) → Agrees tablet.now content → AreLeafDocs (field_is leaf.now) (is_met leaf.now) auths.now snapshot types.now content s.keys) }
        ensures bound { IfOk result (λ s. s.bound ≡ Bound.Start) }
        ensures missing { MatchResult result (λ _. front_gap tablet.now (values_front tablet.now.shard (field_is leaf.now) (front_is leaf.now)) ≡ None) (IsLeafError tablet.now (values_front tablet.now.shard (field_is leaf.now) (front_is leaf.now))) }
    {
        forms_begin_so();
        values_stand_in_fronts();
        let field = field_of(leaf);
        let front = front_of(leaf);
        let values = tablet.field_values(alloc, field, front, auths, snapshot, types)?;
        let docs = docs_where(alloc, &values, leaf)?;
        Ok(SetLeaf {
            keys: Sorted::from_vec(docs),
            bound: Bound::Start,
        })
    }

    /// The first of its keys that meets the bound.
    fn first(&self) -> Option<DocKey>
        ensures { result ≡ slice_get (rest self.now.keys self.now.bound) 0 }
    {
        let keys = self.keys.as_slice();
        let bound = self.bound;
        let at = keys.partition_point(|key| !bound.is_met_by(key));
        first_from(keys, at)
    }
}

impl DocIter for SetLeaf {
    ghost at = { λ s. s.bound };

    ghost stuck = { λ _. false };

    ghost stands = { λ s all. (all ≡ s.keys) × Ascends all };

    ghost shown = { λ s. set_top (slice_get (rest s.keys s.bound) 0) };

    ghost keys = { λ s. s.keys };

    ghost made = { λ _. [] };

    fn seek(&mut self, bound: &Bound) {
        self.bound = *bound;
    }

    fn top(&self) -> Top {
        match self.first() {
            Some(key) => Top::Key(key),
            None => Top::End,
        }
    }

    fn next(&mut self) {
        if let Some(key) = self.first() {
            self.bound = Bound::After(key);
        }
    }
}
