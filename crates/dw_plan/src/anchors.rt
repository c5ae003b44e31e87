ghost use Rattle.std.specs.Prelude.{◌≡◌, true};
ghost use Rattle.dw_plan.specs.Anchored.{anchored as is_anchored, anchored_at};

use dw_eval::NQuery;

#[tactic(auto, using(crate::proofs::Walking::and_goes_on, crate::proofs::Walking::and_ends, crate::proofs::Walking::or_goes_on, crate::proofs::Walking::or_ends, crate::proofs::Walking::and_over, crate::proofs::Walking::or_over))]
/// Whether a query is anchored where it stands at a positive or at a negative place.
pub(crate) fn anchored_at(query: &NQuery, positive: bool) -> bool
    ensures { result ≡ anchored_at query.now positive }
{
    match query {
        NQuery::Equal { rule, .. } => positive && rule.indexed,
        NQuery::Below { .. } => false,
        NQuery::Above { .. } => false,
        NQuery::Between { rule, .. } => positive && rule.indexed,
        NQuery::Starts { rule, .. } => positive && rule.indexed,
        NQuery::Ends { rule, .. } => positive && rule.reversed,
        NQuery::Holds { .. } => false,
        NQuery::Not(child) => anchored_at(child.get(), !positive),
        NQuery::And(children) => {
            // At a positive place one anchored child decides, at a negative one a child that is not.
            for child in children.as_slice() {
                if anchored_at(child, positive) == positive {
                    return positive;
                }
            }
            !positive
        }
        NQuery::Or(children) => {
            for child in children.as_slice() {
                if anchored_at(child, positive) != positive {
                    return !positive;
                }
            }
            positive
        }
    }
}

/// Whether an index leads to the answers of a query: at a positive place an equality, a range with two ends
/// or a pattern with a wildcard behind it on an indexed field, a pattern with one before it on a reversed
/// field, an And where a child is anchored and an Or where all are. A Not changes the place of its child; at
/// a negative place an And is anchored where all children are and an Or where one is. Takes no memory.
pub fn anchored(query: &NQuery) -> bool
    ensures { result ≡ is_anchored query.now }
{
    anchored_at(query, true)
}
