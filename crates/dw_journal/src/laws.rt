ghost use Rattle.dw_journal.specs.Laws.{StopsLeaveBatches, MomentsAreLeft, OneReading, NeverBad, OneBadGate};

/// What a stop leaves of a journal, said of its disk alone.
pub fn stops_leave_batches()
    ensures { StopsLeaveBatches }
{}

/// A file is read in one way.
pub fn files_are_read_in_one_way()
    ensures { OneReading }
{}

/// What holds batches is never refused as a bad journal.
pub fn batches_are_never_bad()
    ensures { NeverBad }
{}

/// The place of a bad journal is told in one way.
pub fn bad_gates_are_one()
    ensures { OneBadGate }
{}

/// What is said of each moment of an apply is said of each stop since its start.
pub fn moments_are_left()
    ensures { MomentsAreLeft }
{}
