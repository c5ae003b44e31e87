//! What holds of all texts and names. The functions do nothing: their contracts are laws.

ghost use Rattle.dw_vis.specs.Test.{VisIsTested};
ghost use Rattle.dw_vis.specs.Laws.{SpellsOneTree, SeesByTheGrammar, DepthIsNesting};

/// A text spells at most one tree.
pub fn spells_one_tree()
    ensures { SpellsOneTree }
{}

/// What is read from left to right is what the grammar says.
pub fn sees_by_the_grammar()
    ensures { SeesByTheGrammar }
{}

/// The test says of each text whether it keeps every rule.
#[tactic(auto, using(crate::proofs::Testing::vis_is_tested))]
pub fn visibilities_are_tested()
    ensures { VisIsTested }
{}

/// A text of the grammar is too deep exactly where its groups stand more than 32 deep in one another.
#[tactic(auto, using(crate::proofs::Nesting::depth_is_nesting))]
pub fn depth_is_nesting()
    ensures { DepthIsNesting }
{}
