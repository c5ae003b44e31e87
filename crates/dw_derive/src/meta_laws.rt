//! What holds of the cells of table 3. The functions do nothing: their contracts are laws.

ghost use Rattle.dw_derive.specs.MetaReaders.{RulesHaveOneSpelling, GrantsHaveOneSpelling, NumbersHaveOneSpelling};
ghost use Rattle.dw_derive.specs.MetaTables.{MetaIsRead, RulesAreCells, GrantsAreCells, RulesKeepWorlds, GrantsKeepWorlds};

/// A content says a rule exactly where it is that rule's.
pub fn rules_have_one_spelling()
    ensures { RulesHaveOneSpelling }
{}

/// A content says names exactly where it is theirs, and they may be granted.
pub fn grants_have_one_spelling()
    ensures { GrantsHaveOneSpelling }
{}

/// A content says a number exactly where it is that number's, from 1 to 2^63 - 1.
pub fn numbers_have_one_spelling()
    ensures { NumbersHaveOneSpelling }
{}

/// The number, the rules and the grants of a world are read from its tables.
pub fn meta_is_read()
    ensures { MetaIsRead }
{}

/// Where there is no event the rule of a field is one cell.
pub fn rules_are_cells()
    ensures { RulesAreCells }
{}

/// A grant is one cell.
pub fn grants_are_cells()
    ensures { GrantsAreCells }
{}

/// A world without events keeps the rules of a world when a field is defined.
pub fn rules_keep_worlds()
    ensures { RulesKeepWorlds }
{}

/// And any world does when a caller is granted names.
pub fn grants_keep_worlds()
    ensures { GrantsKeepWorlds }
{}
