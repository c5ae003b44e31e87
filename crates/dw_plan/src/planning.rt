ghost use Rattle.std.specs.Prelude.{◌≡◌, ◌≤◌, Some, true, IfOk, Err};
ghost use Rattle.dw_outside.specs.Faults.{Rose};
ghost use Rattle.dw_outside.specs.Tables.{Tables};
ghost use Rattle.dw_outside.specs.declared.keeper_error.KeeperError.{KeeperError};
ghost use Rattle.dw_plan.specs.Anchored.{anchored};
ghost use Rattle.dw_plan.specs.Hit.{hit_shards};
ghost use Rattle.dw_plan.specs.Reads.{Adds, is_of_index};

use crate::cells::Scope;
use crate::hits::hits_at;
use dw_base::{Listed, Text};
use dw_eval::NQuery;
use dw_event::{Days, Types};
use dw_outside::{Keeper, KeeperError};
use dw_vis::Auths;
use std::alloc::Global;

/// The shards that an anchored query reads, ascending by bytes, each once.
pub fn shards<K: Keeper>(
    alloc: Global,
    keeper: &mut K,
    query: &NQuery,
    auths: &Auths,
    days: &Days,
    types: &Types,
) -> Result<Listed<Text>, KeeperError>
    requires { anchored query.now ≡ true }
    ensures same { K.told keeper.new ≡ K.told keeper.old }
    ensures hits { (t : Tables) → K.told keeper.old ≡ Some t → IfOk result (λ l. l ≡ hit_shards query.now auths.now days.now types.now t) }
    ensures reads { Adds is_of_index (K.reads keeper.old) (K.reads keeper.new) }
    ensures unasked { K.asked keeper.new ≡ K.asked keeper.old }
    ensures counted { K.faults keeper.old ≤ K.faults keeper.new }
    ensures failed { result ≡ Err KeeperError.Failed → Rose (K.faults keeper.old) (K.faults keeper.new) }
{
    let scope = Scope { auths, days, types };
    let found = hits_at(alloc, keeper, query, true, &scope)?;
    Ok(Listed::from_vec(found.into_vec()))
}
