//! What holds of sound tables. The functions do nothing: their contracts are laws.

ghost use Rattle.dw_audit.specs.Laws.{TablesStandForWorlds, WorldsAreRead, SoundTablesAreOfWorlds, ChangesAreSound};

use dw_derive::{
    grants_are_cells, grants_keep_worlds, meta_is_read, rules_are_cells, rules_keep_worlds,
};

/// Whatever bytes tables hold, what they stand for keeps the rules of a world.
pub fn tables_stand_for_worlds()
    ensures { TablesStandForWorlds }
{}

/// A world is read from its tables.
pub fn worlds_are_read()
    ensures { WorldsAreRead }
{
    meta_is_read();
}

/// Sound tables are those of a world, and the tables of a world are sound.
pub fn sound_tables_are_of_worlds()
    ensures { SoundTablesAreOfWorlds }
{
    meta_is_read();
}

/// What ingests, definitions and grants make of sound tables is sound.
pub fn changes_are_sound()
    ensures { ChangesAreSound }
{
    meta_is_read();
    rules_are_cells();
    rules_keep_worlds();
    grants_are_cells();
    grants_keep_worlds();
}
