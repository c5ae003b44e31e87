//! What holds of all queries and the events of a shard. The functions do nothing: their contracts are laws.

ghost use Rattle.dw_scan.specs.Candidates.{TreesFindCandidates, AnswersAreCandidates};
ghost use Rattle.dw_scan.specs.CandidateLists.{CandidatesAreOneList};
ghost use Rattle.dw_scan.specs.Worlds.{DocumentsAreViews, LeavesFindTheSeen, SeenAscend};
ghost use Rattle.dw_scan.specs.WorldAnswers.{WorldsAreContents, AnswersAreSeen};

/// The tree of an anchored query over the keys of the events of a shard finds its candidates, and nothing else.
pub fn trees_find_candidates()
    ensures { TreesFindCandidates }
{}

/// A tree that can be enumerated has one list of candidates, for any lists that its leaves stand for, and no other.
pub fn candidates_are_one_list()
    ensures { CandidatesAreOneList }
{}

/// What satisfies a query is a candidate.
pub fn answers_are_candidates()
    ensures { AnswersAreCandidates }
{}

/// The events of a shard are seen in the order of their keys, each once.
pub fn seen_ascend()
    ensures { SeenAscend }
{}

/// The documents that a leaf finds in the shard of a world's tables are the events that are seen there with a
/// value which meets it.
pub fn leaves_find_the_seen()
    ensures { LeavesFindTheSeen }
{}

/// The documents in a shard of a world's tables, as a reader sees them, are the views of the world's events.
pub fn documents_are_views()
    ensures { DocumentsAreViews }
{}

/// The keys of a shard of a world's tables are a content of it.
pub fn worlds_are_contents()
    ensures { WorldsAreContents }
{}

/// The answer of a shard of a world's tables after a resume is what is seen of the world's events there that answers the
/// ask and stands after the resume.
pub fn answers_are_seen()
    ensures { AnswersAreSeen }
{}
