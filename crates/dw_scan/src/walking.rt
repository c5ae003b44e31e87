ghost use Rattle.std.specs.Prelude.{◌≡◌, ◌≤◌, ◌+◌, ℕ, List, true, IsTrue, IfOk, length, map};
ghost use Rattle.std.specs.List.{list_any};
ghost use Rattle.dw_key.specs.declared.doc_key.DocKey.{DocKey};
ghost use Rattle.dw_nest.specs.declared.place.Place.{Place};
ghost use Rattle.dw_nest.specs.Shapes.{shape, leaves, is_enumerable};
ghost use Rattle.dw_scan.specs.Answers.{beyond, left, IsShard, IsSearched};
ghost use Rattle.dw_scan.specs.Stops.{IsStopped, HasCause, IfStuck};

use crate::ask::Ask;
use crate::reading::read;
use crate::stop::Stop;
use dw_base::{Listed, OutOfMemory};
use dw_event::Shown;
use dw_key::DocKey;
use dw_nest::{Bound, DocIter, Found, Tree};
use dw_tablet::{Steps, Tablet};
use std::alloc::Global;
use std::sync::ledger::Ledger;

/// How far a walk over the candidates of a shard came.
#[derive(Debug, Drop)]
pub(crate) struct Walk {
    pub(crate) found: Listed<Shown>,
    /// The last candidate whose document was read.
    pub(crate) after: Option<DocKey>,
    pub(crate) stop: Stop,
}

/// Where a search goes on.
fn beyond(after: &Option<DocKey>) -> Bound
    ensures { result ≡ beyond after.now }
{
    match after {
        None => Bound::Start,
        Some(key) => Bound::After(*key),
    }
}

/// Reads the documents of the candidates after a key, in order, until `budget` of them were read, `want` of them satisfy
/// the query, none is left, or a place is not covered.
pub(crate) fn walk_on<I: DocIter + Drop, L: Ledger>(
    alloc: Global,
    tablet: &Tablet,
    ask: &Ask,
    tree: &mut Tree<I>,
    from: Option<DocKey>,
    budget: u32,
    want: u32,
    steps: &mut Steps<L>,
) -> Result<Walk, OutOfMemory>
    requires { IsTrue (is_enumerable Place.Positive (shape tree.old)) }
    ensures searched { IfOk result (λ w. (content : List (List ℕ)) (all : List DocKey) → IsShard I.stands tablet.now (shape tree.old) content all → IsSearched ask.now tablet.now.shard content all from w.after w.found) }
    ensures stopped { IfOk result (λ w. (content : List (List ℕ)) (all : List DocKey) → IsShard I.stands tablet.now (shape tree.old) content all → IsStopped all w.after w.stop) }
    ensures counted { IfOk result (λ w. (content : List (List ℕ)) (all : List DocKey) → IsShard I.stands tablet.now (shape tree.old) content all → steps.new + length (left all w.after) ≡ steps.old + length (left all from)) }
    ensures few { IfOk result (λ w. length w.found ≤ want) }
    ensures cause { IfOk result (λ w. HasCause tablet.now steps.old steps.new budget (length w.found) want w.stop) }
    ensures stuck { IfOk result (λ w. IfStuck w.stop (IsTrue (list_any I.stuck (leaves (shape tree.new))))) }
    ensures made { map I.made (leaves (shape tree.new)) ≡ map I.made (leaves (shape tree.old)) }
    ensures bounded { steps.new ≤ steps.old + budget }
{
    let mut found = Listed::new(alloc);
    let mut after = from;
    let mut unread = budget;
    'candidates: loop {
        match tree.least(&beyond(&after)) {
            Found::End => {
                let stop = Stop::Ended;
                return Ok(Walk { found, after, stop });
            }
            Found::Missing => {
                let stop = Stop::Stuck;
                return Ok(Walk { found, after, stop });
            }
            Found::Key(key) => {
                if unread == 0 || found.as_slice().len() == want as usize {
                    let stop = Stop::Full;
                    return Ok(Walk { found, after, stop });
                }
                if !read(alloc, tablet, ask, &key, &mut found, steps)? {
                    let stop = Stop::Uncovered { key };
                    return Ok(Walk { found, after, stop });
                }
                after = Some(key);
                unread -= 1;
            }
        }
    }
}
