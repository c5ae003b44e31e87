ghost use Rattle.std.specs.Prelude.{◌≡◌, ◌+◌, ℕ, List, Some, None, [], ◌∷◌, ◌++◌, IsTrue, is_some, IfOk, OnOk, IfSome, IfNone, MatchOption, filter, map as list_map};
ghost use Rattle.std.specs.Option.{option_map};
ghost use Rattle.dw_event.specs.Views.{view_of, seen_pairs, pair_of};
ghost use Rattle.dw_vis.specs.Sight.{sees};
ghost use Rattle.dw_tablet.specs.Held.{Agrees};
ghost use Rattle.dw_tablet.specs.Places.{between};
ghost use Rattle.dw_tablet.specs.Positions.{place_of};
ghost use Rattle.dw_tablet.specs.Cursors.{known_keys, gap_place};
ghost use Rattle.dw_tablet.specs.Documents.{cell_at, cells_of, view_in, document_start, document_end, document_gap};

use crate::ahead::{Ahead, Gap};
use crate::position::{DocSpot, Position};
use crate::said::Said;
use crate::steps::Steps;
use crate::stored::Stored;
use crate::tablet::Tablet;
use dw_base::{Bytes, OutOfMemory};
use dw_event::{EventCell, Pair, View};
use dw_key::DocKey;
use dw_vis::Auths;
use std::alloc::Global;
use std::sync::ledger::Ledger;

/// The cells of one document, as a tablet has them.
#[derive(Clone, Copy)]
pub struct Doc<'t> {
    doc: DocKey,
    keys: &'t [Stored],
}

/// The cell that a key says of a document, where it is of a batch up to the snapshot.
fn cell_of<'t>(key: &'t Stored, doc: &DocKey, snapshot: u64) -> Option<&'t EventCell>
    ensures { option_map (λ c. c.now) result ≡ cell_at doc.now snapshot key.now }
{
    match key.said() {
        Said::OfEvent(said) => {
            if said.doc.cmp(doc).is_eq() && said.batch <= snapshot {
                Some(&said.cell)
            } else {
                None
            }
        }
        Said::OfIndex(_) => None,
        Said::Nothing => None,
    }
}

/// Adds the pair of a cell, where a reader sees it.
fn put_pair(pairs: &mut Vec<Pair>, cell: &EventCell, auths: &Auths) -> Result<(), OutOfMemory>
    ensures { OnOk result (pairs.new.items ≡ pairs.old.items ++ seen_pairs auths.now (cell.now ∷ [])) }
{
    if cell.vis.sees(auths) {
        let field = cell.field.copy()?;
        let raw = cell.raw.copy()?;
        pairs.push(Pair { field, raw })?;
    }
    Ok(())
}

/// The same for the cell that a key says of a document.
fn put_key(
    pairs: &mut Vec<Pair>,
    key: &Stored,
    doc: &DocKey,
    auths: &Auths,
    snapshot: u64,
) -> Result<(), OutOfMemory>
    ensures { OnOk result (pairs.new.items ≡ pairs.old.items ++ seen_pairs auths.now (cells_of doc.now snapshot (key.now ∷ []))) }
{
    match cell_of(key, doc, snapshot) {
        None => Ok(()),
        Some(cell) => put_pair(pairs, cell, auths),
    }
}

/// The pairs of the cells of a document that a reader sees, in the order of the keys.
fn pairs_of(
    alloc: Global,
    keys: &[Stored],
    doc: &DocKey,
    auths: &Auths,
    snapshot: u64,
) -> Result<Vec<Pair>, OutOfMemory>
    ensures { IfOk result (λ v. v.items ≡ seen_pairs auths.now (cells_of doc.now snapshot keys.now)) }
{
    let mut pairs = Vec::new(alloc);
    for key in keys {
        put_key(&mut pairs, key, doc, auths, snapshot)?;
    }
    Ok(pairs)
}

impl Doc<'_> {
    /// What a reader sees of the document: its pairs of field and value that have a cell of a batch up to the
    /// snapshot which the reader sees.
    pub fn view(&self, alloc: Global, auths: &Auths, snapshot: u64) -> Result<View, OutOfMemory>
        ensures { IfOk result (λ v. v ≡ view_in auths.now snapshot self.now.doc self.now.keys.now) }
    {
        let pairs = pairs_of(alloc, self.keys, &self.doc, auths, snapshot)?;
        Ok(View::from_vec(pairs))
    }
}

/// The first place of a document.
fn start_of<'p>(shard: &'p str, key: &DocKey) -> Position<'p>
    ensures { place_of result ≡ document_start shard.now key.now }
{
    Position::DocumentStart {
        shard,
        spot: DocSpot::of(key),
    }
}

/// The first place past it.
fn end_of<'p>(shard: &'p str, key: &DocKey) -> Position<'p>
    ensures { place_of result ≡ document_end shard.now key.now }
{
    Position::DocumentEnd {
        shard,
        spot: DocSpot::of(key),
    }
}

impl Tablet {
    /// The cells of a document, as far as all its places are covered.
    #[tactic(auto, using(crate::proofs::Ranges::under))]
    fn document_ahead(&self, key: &DocKey) -> Ahead<'_>
        ensures keys { result.keys.now ≡ known_keys self.now (document_start self.now.shard key.now) (document_end self.now.shard key.now) }
        ensures gap { gap_place (document_start self.now.shard key.now) result.gap ≡ document_gap self.now key.now }
    {
        let shard = self.shard().as_str();
        let start = start_of(shard, key);
        let end = end_of(shard, key);
        self.ahead(&start, &end)
    }

    /// The document of a key, and one step. None, and no step, exactly where a place of its cells is not
    /// covered. Takes no memory.
    pub fn document<L: Ledger>(&self, key: &DocKey, steps: &mut Steps<L>) -> Option<Doc<'_>>
        ensures lent { IfSome result (λ d. (d.doc ≡ key.now) × ((content : List (List ℕ)) → Agrees self.now content → d.keys.now ≡ between (document_start self.now.shard key.now) (document_end self.now.shard key.now) content)) }
        ensures counted { IfSome result (λ _. steps.new ≡ steps.old + 1) }
        ensures uncounted { IfNone result (steps.new ≡ steps.old) }
        ensures covered { MatchOption result (IsTrue (is_some (document_gap self.now key.now))) (λ _. document_gap self.now key.now ≡ None) }
    {
        let _spans = self.spans();
        let ahead = self.document_ahead(key);
        match ahead.gap {
            Gap::Nowhere => {
                steps.tick();
                Some(Doc {
                    doc: *key,
                    keys: ahead.keys,
                })
            }
            Gap::Here => None,
            Gap::Later { place: _ } => None,
        }
    }

    /// The first place of a document's cells that is not covered.
    pub fn document_gap(&self, alloc: Global, key: &DocKey) -> Result<Option<Bytes>, OutOfMemory>
        ensures { IfOk result (λ o. o ≡ document_gap self.now key.now) }
    {
        match self.document_ahead(key).gap {
            Gap::Nowhere => Ok(None),
            Gap::Later { place } => Ok(Some(Bytes::of(alloc, place)?)),
            Gap::Here => {
                let start = start_of(self.shard().as_str(), key);
                Ok(Some(start.to_bytes(alloc)?))
            }
        }
    }
}
