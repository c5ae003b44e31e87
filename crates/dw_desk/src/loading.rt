ghost use Rattle.std.specs.Prelude.{◌≡◌, ◌≤◌, ◌-◌, ◌^◌, ◌∷◌, [], ℕ, List, Some, IfOk, OnOk, Err, map as list_map};
ghost use Rattle.dw_vis.specs.Names.{IsAscending};
ghost use Rattle.dw_outside.specs.Faults.{Rose};
ghost use Rattle.dw_outside.specs.Reads.{reading_of, with_read};
ghost use Rattle.dw_outside.specs.Tables.{Tables, cell_pair};
ghost use Rattle.dw_outside.specs.declared.keeper_error.KeeperError.{KeeperError};
ghost use Rattle.dw_derive.specs.Lawful.{IsWorld};
ghost use Rattle.dw_derive.specs.MetaReaders.{field_reading, grant_reading};
ghost use Rattle.dw_derive.specs.MetaTables.{meta_of};
ghost use Rattle.dw_derive.specs.Tables.{tables};
ghost use Rattle.dw_derive.specs.World.{World};
ghost use Rattle.dw_desk.specs.Stands.{grants_of};
ghost use Rattle.dw_desk.specs.Loading.{IsSaid, IsStart, with_entry};

use crate::OutOfMemory;
use crate::grants::put_names;
use dw_derive::{commit_number, field_rule, grant_names, key_of, meta_is_read};
use dw_dict::Dict;
use dw_key::{Key, Text};
use dw_outside::{Cell, Keeper, KeeperError};
use dw_vis::Auths;
use std::alloc::Global;
use std::collections::BTreeMap;

/// What table 3 says: the rules of fields, what callers are granted, and the number of the last batch, or 0.
#[derive(Debug, Drop)]
pub struct Start {
    pub dict: Dict,
    pub grants: BTreeMap<Text, Auths>,
    pub last: u64,
}

/// The names as a set that owns them.
fn auths_of(alloc: Global, names: &[Text]) -> Result<Auths, OutOfMemory>
    requires { IsAscending names.now }
    ensures { IfOk result (λ auths. auths ≡ names.now) }
{
    let mut auths = Auths::new(alloc);
    for name in names {
        auths.add(name.as_str())?;
    }
    Ok(auths)
}

fn take_grant(
    alloc: Global,
    grants: &mut BTreeMap<Text, Auths>,
    key: &Key,
    content: &[u8],
) -> Result<(), OutOfMemory>
    ensures { OnOk result (grants_of grants.new ≡ with_entry (grant_reading key.now content.now) (grants_of grants.old)) }
{
    match grant_names(alloc, key, content)? {
        None => Ok(()),
        Some((caller, names)) => {
            let caller = Text::of(alloc, caller)?;
            let auths = auths_of(alloc, names.as_slice())?;
            put_names(grants, &caller, auths)?;
            Ok(())
        }
    }
}

fn take_field(dict: &mut Dict, key: &Key, content: &[u8]) -> Result<(), OutOfMemory>
    ensures { OnOk result (dict.new ≡ with_entry (field_reading key.now content.now) dict.old) }
{
    match field_rule(key, content) {
        None => Ok(()),
        Some((field, rule)) => dict.define(field, rule),
    }
}

/// Takes what one cell more says, which stands before those that were taken.
fn take(alloc: Global, start: &mut Start, cell: &Cell) -> Result<(), OutOfMemory>
    ensures { (cells : List (List ℕ × List ℕ)) → IsSaid cells start.old → OnOk result (IsSaid (cell_pair cell.now ∷ cells) start.new) }
{
    let Some(key) = key_of(alloc, cell.key.as_slice())? else {
        return Ok(());
    };
    let content = cell.content.as_slice();
    start.last = commit_number(&key, content).unwrap_or(start.last);
    take_grant(alloc, &mut start.grants, &key, content)?;
    take_field(&mut start.dict, &key, content)
}

/// What the cells of table 3 say, from the last to the first.
fn start_in(alloc: Global, cells: &[Cell]) -> Result<Start, OutOfMemory>
    ensures said { IfOk result (λ s. IsSaid (list_map cell_pair cells.now) s) }
    ensures within { IfOk result (λ s. s.last ≤ 2 ^ 63 - 1) }
{
    let mut start = Start {
        dict: Dict::new(alloc),
        grants: BTreeMap::new(alloc),
        last: 0,
    };
    let mut left = cells;
    while let Some((cell, front)) = left.split_last() {
        take(alloc, &mut start, cell)?;
        left = front;
    }
    Ok(start)
}

/// Reads table 3, by one read. A cell of another form, a name over its limits and a number above 2^63 - 1 are
/// passed over. Failed where the keeper fails, with a fault counted, and OutOfMemory for want of memory.
pub fn read_start<K: Keeper>(alloc: Global, keeper: &mut K) -> Result<Start, KeeperError>
    // What any tables say, and of those of a world its rules, its grants and its last number.
    ensures cells { (t : Tables) → K.told keeper.old ≡ Some t → IfOk result (λ s. IsSaid (meta_of t) s) }
    ensures said { (w : World) → IsWorld w → K.told keeper.old ≡ Some (tables w) → IfOk result (λ s. IsStart w s) }
    ensures within { IfOk result (λ s. s.last ≤ 2 ^ 63 - 1) }
    ensures same { K.told keeper.new ≡ K.told keeper.old }
    ensures read { OnOk result (K.reads keeper.new ≡ with_read (K.reads keeper.old) (reading_of 3 [] [] 0)) }
    ensures counted { K.faults keeper.old ≤ K.faults keeper.new }
    ensures failed { result ≡ Err KeeperError.Failed → Rose (K.faults keeper.old) (K.faults keeper.new) }
{
    meta_is_read();
    let cells = keeper.scan(3, b"", b"", 0)?;
    let start = start_in(alloc, cells.as_slice())?;
    Ok(start)
}

#[cfg(test)]
mod tests;
