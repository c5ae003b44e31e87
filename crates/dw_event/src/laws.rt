ghost use Rattle.dw_event.specs.Pages.{PagesAreTheAnswer};

/// The pages of an answer, up to the one behind which no event stands, are together the answer.
#[tactic(auto, using(crate::proofs::PageLemmas::pages_are_the_answer))]
pub fn pages_are_the_answer()
    ensures { PagesAreTheAnswer }
{}
