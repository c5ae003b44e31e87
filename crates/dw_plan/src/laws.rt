//! What holds of all anchored queries. The functions do nothing: their contracts are laws.

ghost use Rattle.dw_plan.specs.Anchored.{AnchorsLead};
ghost use Rattle.dw_plan.specs.PlanLaws.{AnswersAreHit, BoundAreRuled, NeighboursJoin, OtherTableAddsNothing};

/// Values that satisfy an anchored query meet one of its anchors, so that no event without a value in an index
/// answers it.
pub fn anchors_lead()
    ensures { AnchorsLead }
{}

/// The hit shards of two neighbouring ranges of days, one after the other, are those of both together, so that
/// days may be planned in stretches.
pub fn neighbours_join()
    ensures { NeighboursJoin }
{}

/// What answers a query stands in a shard that it reads, for the tables of a world.
pub fn answers_are_hit()
    ensures { AnswersAreHit }
{}

/// For the tables of a world, the cells of the index that does not lead to a leaf change no plan.
pub fn other_table_adds_nothing()
    ensures { OtherTableAddsNothing }
{}

/// A query that is bound by a dictionary has its rules.
pub fn bound_are_ruled()
    ensures { BoundAreRuled }
{}
