ghost use Rattle.std.specs.Prelude.{◌≡◌, ◌≤◌, IfOk, OnOk, Some, Err};
ghost use Rattle.dw_outside.specs.Faults.{Rose};
ghost use Rattle.dw_outside.specs.Reads.{with_read};
ghost use Rattle.dw_outside.specs.declared.keeper_error.KeeperError.{KeeperError};
ghost use Rattle.dw_derive.specs.World.{World};
ghost use Rattle.dw_derive.specs.Tables.{tables};
ghost use Rattle.dw_tablet.specs.Held.{Agrees};
ghost use Rattle.dw_scan.specs.Worlds.{content_of};
ghost use Rattle.dw_page.specs.Reads.{shard_read};

use dw_base::Text;
use dw_outside::{Keeper, KeeperError};
use dw_tablet::Tablet;
use std::alloc::Global;

/// The whole of a shard, by one read of its places in table 0.
pub(crate) fn read_shard<K: Keeper>(
    alloc: Global,
    keeper: &mut K,
    shard: &Text,
) -> Result<Tablet, KeeperError>
    ensures shard { IfOk result (λ t. t.shard ≡ shard.now) }
    ensures agrees { IfOk result (λ t. (w : World) → K.told keeper.old ≡ Some (tables w) → Agrees t (content_of w shard.now)) }
    ensures read { OnOk result (K.reads keeper.new ≡ with_read (K.reads keeper.old) (shard_read shard.now)) }
    ensures told { K.told keeper.new ≡ K.told keeper.old }
    ensures later { K.faults keeper.old ≤ K.faults keeper.new }
    ensures failed { result ≡ Err KeeperError.Failed → Rose (K.faults keeper.old) (K.faults keeper.new) }
{
    let none = Tablet::empty(alloc, shard)?;
    let cells = keeper.scan(0, none.start(), none.end(), 0)?;
    let tablet = Tablet::of(alloc, shard, cells)?;
    Ok(tablet)
}
