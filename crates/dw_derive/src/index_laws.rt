//! What holds of the cells that a field's new rule adds. The functions do nothing: their contracts are laws.

ghost use Rattle.dw_derive.specs.Indexing.{IndexesAreAdded, AddedAreNew, IndexesAreSteps, WiderRulesKeepWorlds};

use dw_key::codes_tell_keys;

/// With the cells that a field's new rule adds, and that of the rule, the tables are those of the world with
/// the rule.
pub fn indexes_are_added()
    ensures { IndexesAreAdded }
{
    codes_tell_keys();
}

/// These cells are all that are new.
pub fn added_are_new()
    ensures { AddedAreNew }
{
    codes_tell_keys();
}

/// Event by event the same cells are made.
pub fn indexes_are_steps()
    ensures { IndexesAreSteps }
{
    codes_tell_keys();
}

/// A world keeps the rules of a world when a field gets a wider rule.
pub fn wider_rules_keep_worlds()
    ensures { WiderRulesKeepWorlds }
{}
