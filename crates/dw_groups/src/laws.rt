//! What holds of the groups of all lists. The function does nothing: its contract is a law.

ghost use Rattle.dw_groups.specs.Groups.{GroupsAreCuts};

/// The groups of records are together the records, in order; each but the last has 1,000, and the last from 1 to 1,000.
pub fn groups_are_cuts()
    ensures { GroupsAreCuts }
{}
