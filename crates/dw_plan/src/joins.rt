//! Sets of shards, joined by walking over both in order.

ghost use Rattle.std.specs.Prelude.{◌≡◌, ◌≤◌, ◌<◌, ◌+◌, ◌++◌, ℕ, List, [], Some, true, Bool, IfOk, IsSome, IfNone, option_to_list, ◌&&◌, ◌||◌, length};
ghost use Rattle.std.specs.Ordering.{nat_cmp};
ghost use Rattle.std.specs.Cmp.Lexicographic.{slice_cmp};
ghost use Rattle.std.specs.Set.{sorted_merge};
ghost use Rattle.dw_plan.specs.Staying.{joined};
ghost use Rattle.dw_plan.specs.Joins.{has, has_found, first_order, all_found};

use crate::OutOfMemory;
use dw_base::{Sorted, Text};
use std::alloc::Global;
use std::cmp::Ordering;
use std::collections::VecDeque;

/// Which list has the first item.
fn first_order(left: &VecDeque<Text>, right: &VecDeque<Text>) -> Ordering
    ensures { result ≡ first_order left.now.items right.now.items }
{
    match (left.front(), right.front()) {
        (Some(item), Some(other)) => item.cmp(other),
        (Some(_), None) => Ordering::Less,
        (None, _) => Ordering::Greater,
    }
}

/// Takes the first item of both off them.
fn take_first(left: &mut VecDeque<Text>, right: &mut VecDeque<Text>) -> Option<Text>
    ensures taken { sorted_merge (slice_cmp nat_cmp) true left.old.items right.old.items ≡ option_to_list result ++ sorted_merge (slice_cmp nat_cmp) true left.new.items right.new.items }
    ensures none { IfNone result (sorted_merge (slice_cmp nat_cmp) true left.new.items right.new.items ≡ []) }
    ensures fewer { IsSome result → length left.new.items + length right.new.items < length left.old.items + length right.old.items }
{
    match first_order(left, right) {
        Ordering::Less => left.pop_front(),
        Ordering::Equal => {
            let _ = right.pop_front();
            left.pop_front()
        }
        Ordering::Greater => right.pop_front(),
    }
}

/// The items of either.
pub(crate) fn merged(
    alloc: Global,
    left: Sorted<Text>,
    right: Sorted<Text>,
) -> Result<Sorted<Text>, OutOfMemory>
    ensures { IfOk result (λ l. (s : List ℕ) → has l s ≡ (has left s || has right s)) }
{
    let mut left = VecDeque::from(left.into_vec());
    let mut right = VecDeque::from(right.into_vec());
    let mut all = Vec::new(alloc);
    while let Some(item) = take_first(&mut left, &mut right) {
        all.push(item)?;
    }
    Ok(Sorted::from_ascending(all))
}

/// The items of both.
pub(crate) fn common(
    alloc: Global,
    left: Sorted<Text>,
    right: &Sorted<Text>,
) -> Result<Sorted<Text>, OutOfMemory>
    ensures { IfOk result (λ l. (s : List ℕ) → has l s ≡ (has left s && has right.now s)) }
{
    let mut left = VecDeque::from(left.into_vec());
    let mut all = Vec::new(alloc);
    while let Some(item) = left.pop_front() {
        if right.has(&item) {
            all.push(item)?;
        }
    }
    Ok(Sorted::from_ascending(all))
}

/// What was found joined with more: the items of both, or of either. Nothing found yet leaves what comes.
pub(crate) fn joined(
    alloc: Global,
    both: bool,
    found: Option<Sorted<Text>>,
    more: Sorted<Text>,
) -> Result<Sorted<Text>, OutOfMemory>
    ensures { IfOk result (λ l. (s : List ℕ) → has l s ≡ joined both (has_found both found s) (has more s)) }
{
    match found {
        None => Ok(more),
        Some(found) => {
            if both {
                common(alloc, found, &more)
            } else {
                merged(alloc, found, more)
            }
        }
    }
}

/// Whether nothing that comes can change what was found.
pub(crate) fn is_settled(both: bool, found: &Option<Sorted<Text>>) -> bool
    ensures { result ≡ true → (both ≡ true) × (found.now ≡ Some []) }
{
    match found {
        None => false,
        Some(shards) => both && shards.as_slice().is_empty(),
    }
}

/// What was found, and no shard where nothing was.
pub(crate) fn all_found(alloc: Global, found: Option<Sorted<Text>>) -> Sorted<Text>
    ensures { result ≡ all_found found }
{
    match found {
        None => Sorted::new(alloc),
        Some(shards) => shards,
    }
}
