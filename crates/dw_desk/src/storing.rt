ghost use Rattle.std.specs.Prelude.{◌≡◌, ◌≢◌, ◌≤◌, IsTrue, OnOk, OnErr, Some, Err};
ghost use Rattle.dw_base.specs.FieldNames.{is_folded_name};
ghost use Rattle.dw_dict.specs.Rules.{Widens};
ghost use Rattle.dw_dict.specs.Dictionary.{rule_of};
ghost use Rattle.dw_ingest.specs.Reindexed.{with_rule_read};
ghost use Rattle.dw_outside.specs.Faults.{Rose};
ghost use Rattle.dw_outside.specs.declared.keeper_error.KeeperError.{KeeperError};
ghost use Rattle.dw_derive.specs.World.{World};
ghost use Rattle.dw_derive.specs.Tables.{tables};
ghost use Rattle.dw_derive.specs.Lawful.{IsWorld};
ghost use Rattle.dw_derive.specs.MetaTables.{with_rule};
ghost use Rattle.dw_desk.specs.Desk.{refusal as refusal_by, keeper_error as error_of};

use dw_base::Text;
use dw_derive::{field_cell, rules_are_cells, rules_keep_worlds};
use dw_dict::{Dict, FieldRule};
use dw_ingest::{ReindexError, reindex};
use dw_outside::{Keeper, KeeperError};
use dw_wire::Reply;
use std::alloc::Global;

/// How an error of a keeper is answered.
pub fn refusal(error: KeeperError) -> Reply
    ensures { result ≡ refusal_by error }
{
    match error {
        KeeperError::Failed => Reply::StoreFault,
        KeeperError::OutOfMemory => Reply::OutOfMemory,
    }
}

fn keeper_error(error: ReindexError) -> KeeperError
    ensures { result ≡ error_of error }
{
    match error {
        ReindexError::StoreFault => KeeperError::Failed,
        ReindexError::OutOfMemory => KeeperError::OutOfMemory,
    }
}

/// Stores the rule of a field by its own cell, where no batch was taken.
fn store_first_rule<K: Keeper>(
    alloc: Global,
    keeper: &mut K,
    field: &Text,
    rule: FieldRule,
) -> Result<(), KeeperError>
    ensures ok { (w : World) → IsWorld w → w.last ≡ 0 → K.told keeper.old ≡ Some (tables w) → OnOk result (K.told keeper.new ≡ Some (tables (with_rule w field.now rule))) }
    ensures lawful { (w : World) → IsWorld w → w.last ≡ 0 → IsTrue (is_folded_name field.now) → IsWorld (with_rule w field.now rule) }
    ensures err { OnErr result (K.told keeper.new ≡ K.told keeper.old) }
    ensures reads { K.reads keeper.new ≡ K.reads keeper.old }
    ensures counted { K.faults keeper.old ≤ K.faults keeper.new }
    ensures failed { result ≡ Err KeeperError.Failed → Rose (K.faults keeper.old) (K.faults keeper.new) }
{
    rules_are_cells();
    rules_keep_worlds();
    let put = field_cell(alloc, field.as_str(), rule)?;
    keeper.apply(&[put])
}

/// Stores a rule that widens the present one, with the cells that it adds.
fn store_wider_rule<K: Keeper>(
    alloc: Global,
    keeper: &mut K,
    dict: &Dict,
    field: &Text,
    rule: FieldRule,
) -> Result<(), KeeperError>
    requires { Widens rule (rule_of dict.now field.now) }
    ensures ok { (w : World) → IsWorld w → w.dict ≡ dict.now → K.told keeper.old ≡ Some (tables w) → OnOk result (K.told keeper.new ≡ Some (tables (with_rule w field.now rule))) }
    ensures lawful { (w : World) → IsWorld w → w.dict ≡ dict.now → K.told keeper.old ≡ Some (tables w) → OnOk result (IsTrue (is_folded_name field.now) → IsWorld (with_rule w field.now rule)) }
    ensures err { OnErr result (K.told keeper.new ≡ K.told keeper.old) }
    ensures read { OnOk result (K.reads keeper.new ≡ with_rule_read (rule_of dict.now field.now) rule (K.reads keeper.old)) }
    ensures counted { K.faults keeper.old ≤ K.faults keeper.new }
    ensures failed { result ≡ Err KeeperError.Failed → Rose (K.faults keeper.old) (K.faults keeper.new) }
{
    match reindex(alloc, keeper, dict, field.as_str(), rule) {
        Ok(_) => Ok(()),
        Err(error) => Err(keeper_error(error)),
    }
}

/// Stores the rule of a field by one `apply`: where a batch was taken, with the cells that it adds. After an error the tables are
/// as before.
pub fn store_rule<K: Keeper>(
    alloc: Global,
    keeper: &mut K,
    dict: &Dict,
    last: u64,
    field: &Text,
    rule: FieldRule,
) -> Result<(), KeeperError>
    requires { last ≢ 0 → Widens rule (rule_of dict.now field.now) }
    ensures ok { (w : World) → IsWorld w → w.dict ≡ dict.now → w.last ≡ last → K.told keeper.old ≡ Some (tables w) → OnOk result (K.told keeper.new ≡ Some (tables (with_rule w field.now rule))) }
    ensures lawful { (w : World) → IsWorld w → w.dict ≡ dict.now → w.last ≡ last → K.told keeper.old ≡ Some (tables w) → OnOk result (IsTrue (is_folded_name field.now) → IsWorld (with_rule w field.now rule)) }
    ensures err { OnErr result (K.told keeper.new ≡ K.told keeper.old) }
    ensures first { last ≡ 0 → K.reads keeper.new ≡ K.reads keeper.old }
    ensures wider { last ≢ 0 → OnOk result (K.reads keeper.new ≡ with_rule_read (rule_of dict.now field.now) rule (K.reads keeper.old)) }
    ensures counted { K.faults keeper.old ≤ K.faults keeper.new }
    ensures failed { result ≡ Err KeeperError.Failed → Rose (K.faults keeper.old) (K.faults keeper.new) }
{
    if last == 0 {
        store_first_rule(alloc, keeper, field, rule)
    } else {
        store_wider_rule(alloc, keeper, dict, field, rule)
    }
}
