ghost use Rattle.std.specs.Prelude.{◌≡◌, ◌≤◌, ◌<◌, ◌+◌, ◌⊎◌, ℕ, List, true, false, Some, None, IsTrue, IfOk, IfSome, is_some, length, map};
ghost use Rattle.std.specs.List.{list_any};
ghost use Rattle.dw_key.specs.declared.doc_key.DocKey.{DocKey};
ghost use Rattle.dw_nest.specs.declared.place.Place.{Place};
ghost use Rattle.dw_nest.specs.Shapes.{shape, leaves, is_enumerable};
ghost use Rattle.dw_tablet.specs.Documents.{document_gap};
ghost use Rattle.dw_scan.specs.Answers.{left, IsShard};
ghost use Rattle.dw_scan.specs.Stops.{IfStuck, SomeLacks, IsPlaceOf};
ghost use Rattle.dw_scan.specs.Scanned.{Scanned};

use crate::ask::{Ask, Batch, Resume};
use crate::gaps::Gaps;
use crate::stop::Stop;
use crate::walking::walk_on;
use dw_base::{Bytes, OutOfMemory};
use dw_nest::Tree;
use dw_tablet::{Steps, Tablet};
use std::alloc::Global;
use std::sync::ledger::Ledger;

/// The place that the first stuck iterator of a tree lacks.
fn stuck_place<I: Gaps>(alloc: Global, tree: &Tree<I>) -> Result<Option<Bytes>, OutOfMemory>
    requires { IsTrue (list_any I.stuck (leaves (shape tree.now))) }
    ensures { IfOk result (λ o. (place : List ℕ) × (o ≡ Some place) × SomeLacks I.made I.lacks (shape tree.now) place) }
{
    match tree.first_missing() {
        Some(leaf) => leaf.gap(alloc),
        None => unreachable!(),
    }
}

/// The place that is missing where a walk stopped.
fn missing_place<I: Gaps>(
    alloc: Global,
    tablet: &Tablet,
    tree: &Tree<I>,
    stop: &Stop,
) -> Result<Option<Bytes>, OutOfMemory>
    requires { IfStuck stop.now (IsTrue (list_any I.stuck (leaves (shape tree.now)))) }
    ensures { IfOk result (λ o. IsPlaceOf (SomeLacks I.made I.lacks (shape tree.now)) tablet.now stop.now o) }
{
    match stop {
        Stop::Ended => Ok(None),
        Stop::Full => Ok(None),
        Stop::Stuck => stuck_place(alloc, tree),
        Stop::Uncovered { key } => tablet.document_gap(alloc, key),
    }
}

/// Searches a shard from a resume on, by a tree of iterators over its keys, until `budget` documents were read, `want`
/// events were found, or no candidate is left; or until a place is not covered, which the batch names. One look past the
/// last document, which reads none, tells whether a candidate is left.
pub fn search<I: Gaps + Drop, L: Ledger>(
    alloc: Global,
    tablet: &Tablet,
    ask: &Ask,
    tree: &mut Tree<I>,
    resume: &Resume,
    budget: u32,
    want: u32,
    steps: &mut Steps<L>,
) -> Result<Batch, OutOfMemory>
    requires enumerable { IsTrue (is_enumerable Place.Positive (shape tree.old)) }
    requires shard { resume.now.shard ≡ tablet.now.shard }
    requires budget { 1 ≤ budget }
    requires want { 1 ≤ want }
    ensures shard { IfOk result (λ b. b.resume.shard ≡ resume.now.shard) }
    ensures scanned { IfOk result (λ b. (content : List (List ℕ)) (all : List DocKey) → IsShard I.stands tablet.now (shape tree.old) content all → Scanned (SomeLacks I.made I.lacks (shape tree.old)) ask.now tablet.now content all resume.now.after want b) }
    // The steps are the candidates strictly after the old resume and not after the new one,
    ensures counted { IfOk result (λ b. (content : List (List ℕ)) (all : List DocKey) → IsShard I.stands tablet.now (shape tree.old) content all → steps.new + length (left all b.resume.after) ≡ steps.old + length (left all resume.now.after)) }
    // and no more than were allowed, whatever is answered.
    ensures bounded { steps.new ≤ steps.old + budget }
    ensures few { IfOk result (λ b. length b.found ≤ want) }
    ensures full { IfOk result (λ b. b.ended ≡ false → b.missing ≡ None → (steps.new ≡ steps.old + budget) ⊎ (length b.found ≡ want)) }
    ensures whole { IfOk result (λ b. b.ended ≡ true → b.missing ≡ None) }
{
    let shard = resume.shard.copy()?;
    let walk = walk_on(alloc, tablet, ask, tree, resume.after, budget, want, steps)?;
    let missing = missing_place(alloc, tablet, tree, &walk.stop)?;
    let ended = walk.stop.is_end();
    let after = walk.after;
    Ok(Batch {
        found: walk.found,
        resume: Resume { shard, after },
        ended,
        missing,
    })
}
