ghost use Rattle.dw_desk.specs.Isolation.{RepliesAreIsolated};
ghost use Rattle.dw_desk.specs.Laws.{SessionsKeep, SessionsKeepQueries, SessionsTell, StepsKeep, StepsKeepQueries, StepsTell};

/// In each world that answers to requests leave, the events stand each place once, ascending by shard, type and
/// uid, none is of a batch after the last one, no open query sees a later batch, and each has a number that its
/// caller was given. Each step keeps this.
pub fn steps_keep()
    ensures { StepsKeep }
{}

/// `steps_keep` over a whole session.
pub fn sessions_keep()
    ensures { SessionsKeep }
{}

/// An open query that a step does not close stays open as it was, with its answer and its pages: whatever is
/// taken in, granted or defined later, by whomever.
pub fn steps_keep_queries()
    ensures { StepsKeepQueries }
{}

/// `steps_keep_queries` over a whole session.
pub fn sessions_keep_queries()
    ensures { SessionsKeepQueries }
{}

/// No text of a step says that memory was wanting or that the store failed.
pub fn steps_tell()
    ensures { StepsTell }
{}

/// The texts of a session tell what world it leaves and how many faults of the store it met.
pub fn sessions_tell()
    ensures { SessionsTell }
{}

/// A caller cannot tell apart two sessions that differ only in what he may not see. Let both start from states that
/// requests leave, in which the caller was given as many numbers and has open queries that ask the same and see the
/// same, each by its own names and up to its own snapshot. Let the caller ask the same creates, pages and closes in
/// both, in the same order; and let each create meet the same rules of fields, the same granted names and, where it
/// is accepted, the same visible events. Then the same texts answer these requests in both, whatever others ask,
/// and whatever is taken in, defined or granted in between. So all that a reader can learn from pages is what he
/// may see. The comparison ends at the first create or close that either session answers with want of memory, and
/// leaves out a page that either answers with want of memory or a fault of the store.
///
/// The uid of an event is a digest of the whole record, hidden values included, and so is among what must be the
/// same. Answers to ingest, define and grant are not compared: they tell what is held.
pub fn replies_are_isolated()
    ensures { RepliesAreIsolated }
{}
