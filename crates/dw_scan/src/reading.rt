ghost use Rattle.std.specs.Prelude.{◌≡◌, ◌≤◌, ◌+◌, ◌++◌, ◌∷◌, [], ℕ, List, true, false, None, IsTrue, IfOk, OnOk, IfSome, MatchOption, length, filter, is_some};
ghost use Rattle.dw_eval.specs.Sat.{sat};
ghost use Rattle.dw_eval.specs.Values.{normal_view};
ghost use Rattle.dw_tablet.specs.Held.{Agrees};
ghost use Rattle.dw_tablet.specs.Documents.{document_gap};
ghost use Rattle.dw_scan.specs.Answers.{shown_at, is_met, answers};

use crate::ask::Ask;
use dw_base::{Listed, OutOfMemory, Text};
use dw_eval::{NView, satisfies};
use dw_event::{Shown, View};
use dw_key::DocKey;
use dw_tablet::{Steps, Tablet};
use std::alloc::Global;
use std::sync::ledger::Ledger;

/// Whether what a reader sees of a document satisfies the query.
fn is_met(alloc: Global, ask: &Ask, view: &View) -> Result<bool, OutOfMemory>
    ensures { IfOk result (λ b. b ≡ sat (normal_view ask.now.dict view.now) ask.now.query) }
{
    let values = NView::named(alloc, view, &ask.dict, &ask.query)?;
    Ok(satisfies(&ask.query, &values))
}

/// Puts a document to what was found, where it satisfies the query.
fn put_answer(
    alloc: Global,
    found: &mut Listed<Shown>,
    ask: &Ask,
    shown: Shown,
) -> Result<(), OutOfMemory>
    ensures { OnOk result (found.new ≡ found.old ++ filter (is_met ask.now) (shown ∷ [])) }
{
    if is_met(alloc, ask, &shown.view)? {
        found.put(shown)?;
    }
    Ok(())
}

/// What a reader sees of the document of a key, with one step. None, with no step, exactly where a place of the
/// document is not covered.
fn view_of<L: Ledger>(
    alloc: Global,
    tablet: &Tablet,
    ask: &Ask,
    key: &DocKey,
    steps: &mut Steps<L>,
) -> Result<Option<View>, OutOfMemory>
    ensures view { IfOk result (λ o. IfSome o (λ v. (content : List (List ℕ)) → Agrees tablet.now content → v ≡ (shown_at ask.now tablet.now.shard content key.now).view)) }
    ensures counted { IfOk result (λ o. MatchOption o (steps.new ≡ steps.old) (λ _. steps.new ≡ steps.old + 1)) }
    ensures covered { IfOk result (λ o. MatchOption o (IsTrue (is_some (document_gap tablet.now key.now))) (λ _. document_gap tablet.now key.now ≡ None)) }
    ensures bounded { steps.new ≤ steps.old + 1 }
{
    match tablet.document(key, steps) {
        None => Ok(None),
        Some(doc) => {
            let view = doc.view(alloc, &ask.auths, ask.snapshot)?;
            Ok(Some(view))
        }
    }
}

/// Reads the document of a candidate, with one step, and puts it to what was found where it satisfies the query. False,
/// with no step, exactly where a place of the document is not covered.
pub(crate) fn read<L: Ledger>(
    alloc: Global,
    tablet: &Tablet,
    ask: &Ask,
    key: &DocKey,
    found: &mut Listed<Shown>,
    steps: &mut Steps<L>,
) -> Result<bool, OutOfMemory>
    ensures found { IfOk result (λ b. b ≡ true → (content : List (List ℕ)) → Agrees tablet.now content → found.new ≡ found.old ++ answers ask.now tablet.now.shard content (key.now ∷ [])) }
    ensures more { IfOk result (λ b. length found.new ≤ length found.old + 1) }
    ensures counted { IfOk result (λ b. b ≡ true → steps.new ≡ steps.old + 1) }
    ensures uncovered { IfOk result (λ b. b ≡ false → (found.new ≡ found.old) × (steps.new ≡ steps.old) × IsTrue (is_some (document_gap tablet.now key.now))) }
    ensures bounded { steps.new ≤ steps.old + 1 }
{
    match view_of(alloc, tablet, ask, key, steps)? {
        None => Ok(false),
        Some(view) => {
            let shard = tablet.shard().copy()?;
            let key = *key;
            put_answer(alloc, found, ask, Shown { shard, key, view })?;
            Ok(true)
        }
    }
}
