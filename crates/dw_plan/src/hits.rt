ghost use Rattle.std.specs.Prelude.{◌≡◌, ◌≤◌, ◌&&◌, ◌||◌, ◌==◌, ℕ, List, Some, true, false, IfOk, Err, nat_eq};
ghost use Rattle.std.specs.List.{ends_with};
ghost use Rattle.dw_outside.specs.Faults.{Rose};
ghost use Rattle.dw_outside.specs.Tables.{Tables};
ghost use Rattle.dw_outside.specs.declared.keeper_error.KeeperError.{KeeperError};
ghost use Rattle.dw_plan.specs.Anchored.{anchored_at};
ghost use Rattle.dw_plan.specs.Hit.{is_in_days, some_cell, says_value, backward};
ghost use Rattle.dw_plan.specs.Spans.{is_wanted};
ghost use Rattle.dw_plan.specs.Staying.{stays};
ghost use Rattle.dw_plan.specs.Joins.{has};
ghost use Rattle.dw_plan.specs.Reads.{Adds, is_of_index};

use crate::anchors::anchored_at;
use crate::cells::{Scope, shards_of};
use crate::joins::{all_found, is_settled, joined};
use crate::spans::span_of;
use crate::wanted::Wanted;
use dw_base::{Sorted, Text};
use dw_eval::NQuery;
use dw_norm::{ends_are_fronts_reversed, reversal_takes_back, reversed};
use dw_outside::{Keeper, KeeperError};
use std::alloc::Global;

/// The shards that the cells of an index name in which all is asked for, by one read.
fn read_shards<K: Keeper>(
    alloc: Global,
    keeper: &mut K,
    table: u8,
    scope: &Scope<'_>,
    field: &Text,
    wanted: &Wanted<'_>,
) -> Result<Sorted<Text>, KeeperError>
    requires { ((table == 1) || (table == 2)) ≡ true }
    ensures same { K.told keeper.new ≡ K.told keeper.old }
    ensures hits { (t : Tables) → K.told keeper.old ≡ Some t → IfOk result (λ l. (s : List ℕ) → has l s ≡ (is_in_days scope.now.days.now s && some_cell t scope.now.auths.now table (says_value scope.now.types.now s field.now (is_wanted wanted.now)))) }
    ensures reads { Adds is_of_index (K.reads keeper.old) (K.reads keeper.new) }
    ensures unasked { K.asked keeper.new ≡ K.asked keeper.old }
    ensures counted { K.faults keeper.old ≤ K.faults keeper.new }
    ensures failed { result ≡ Err KeeperError.Failed → Rose (K.faults keeper.old) (K.faults keeper.new) }
{
    let span = span_of(alloc, wanted, field, scope.days)?;
    let cells = keeper.scan(table, span.from.as_slice(), span.before.as_slice(), 0)?;
    let shards = shards_of(alloc, cells.as_slice(), scope, field, wanted)?;
    Ok(shards)
}

/// The shards of a leaf of table 2: its values end with the text, and stand there back to front.
fn backward_shards<K: Keeper>(
    alloc: Global,
    keeper: &mut K,
    scope: &Scope<'_>,
    field: &Text,
    text: &Text,
) -> Result<Sorted<Text>, KeeperError>
    ensures same { K.told keeper.new ≡ K.told keeper.old }
    ensures hits { (t : Tables) → K.told keeper.old ≡ Some t → IfOk result (λ l. (s : List ℕ) → has l s ≡ (is_in_days scope.now.days.now s && backward t scope.now.auths.now scope.now.types.now s field.now (λ form. ends_with nat_eq form text.now))) }
    ensures reads { Adds is_of_index (K.reads keeper.old) (K.reads keeper.new) }
    ensures unasked { K.asked keeper.new ≡ K.asked keeper.old }
    ensures counted { K.faults keeper.old ≤ K.faults keeper.new }
    ensures failed { result ≡ Err KeeperError.Failed → Rose (K.faults keeper.old) (K.faults keeper.new) }
{
    ends_are_fronts_reversed();
    reversal_takes_back();
    let front = reversed(alloc, text.as_str())?;
    let wanted = Wanted::Front {
        front: front.as_str(),
    };
    let shards = read_shards(alloc, keeper, 2, scope, field, &wanted)?;
    Ok(shards)
}

/// The shards of days in range for which an anchored query is looked for where it stands at a positive or
/// at a negative place. A leaf that changes nothing is not read: one that is no anchor, and any behind an
/// empty set of which both have to have what is found.
pub(crate) fn hits_at<K: Keeper>(
    alloc: Global,
    keeper: &mut K,
    query: &NQuery,
    positive: bool,
    scope: &Scope<'_>,
) -> Result<Sorted<Text>, KeeperError>
    requires { anchored_at query.now positive ≡ true }
    ensures same { K.told keeper.new ≡ K.told keeper.old }
    ensures hits { (t : Tables) → K.told keeper.old ≡ Some t → IfOk result (λ l. (s : List ℕ) → has l s ≡ (is_in_days scope.now.days.now s && stays t scope.now.auths.now scope.now.types.now s query.now positive)) }
    ensures reads { Adds is_of_index (K.reads keeper.old) (K.reads keeper.new) }
    ensures unasked { K.asked keeper.new ≡ K.asked keeper.old }
    ensures counted { K.faults keeper.old ≤ K.faults keeper.new }
    ensures failed { result ≡ Err KeeperError.Failed → Rose (K.faults keeper.old) (K.faults keeper.new) }
{
    match query {
        NQuery::Equal { field, value, .. } => {
            let value = value.as_str();
            let wanted = Wanted::Equal { value };
            read_shards(alloc, keeper, 1, scope, field, &wanted)
        }
        NQuery::Between {
            field,
            low,
            low_edge,
            high,
            high_edge,
            ..
        } => {
            let wanted = Wanted::Between {
                low: low.as_str(),
                low_edge: *low_edge,
                high: high.as_str(),
                high_edge: *high_edge,
            };
            read_shards(alloc, keeper, 1, scope, field, &wanted)
        }
        NQuery::Starts { field, text, .. } => {
            let front = text.as_str();
            let wanted = Wanted::Front { front };
            read_shards(alloc, keeper, 1, scope, field, &wanted)
        }
        NQuery::Ends { field, text, .. } => backward_shards(alloc, keeper, scope, field, text),
        NQuery::Below { .. } => Ok(Sorted::new(alloc)),
        NQuery::Above { .. } => Ok(Sorted::new(alloc)),
        NQuery::Holds { .. } => Ok(Sorted::new(alloc)),
        NQuery::Not(child) => hits_at(alloc, keeper, child.get(), !positive, scope),
        NQuery::And(children) => {
            let mut found = None;
            for child in children.as_slice() {
                if is_settled(positive, &found) {
                    return Ok(Sorted::new(alloc));
                }
                if anchored_at(child, positive) {
                    let more = hits_at(alloc, keeper, child, positive, scope)?;
                    found = Some(joined(alloc, positive, found, more)?);
                }
            }
            Ok(all_found(alloc, found))
        }
        NQuery::Or(children) => {
            let mut found = None;
            for child in children.as_slice() {
                if is_settled(!positive, &found) {
                    return Ok(Sorted::new(alloc));
                }
                if anchored_at(child, positive) {
                    let more = hits_at(alloc, keeper, child, positive, scope)?;
                    found = Some(joined(alloc, !positive, found, more)?);
                }
            }
            Ok(all_found(alloc, found))
        }
    }
}
