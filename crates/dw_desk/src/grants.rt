ghost use Rattle.std.specs.Prelude.{◌≡◌, ◌≤◌, ◌<◌, ◌^◌, ℕ, List, Option, All, IfOk, OnOk, OnErr, Err, true, cond, length};
ghost use Rattle.std.specs.Option.{option_copied, option_map};
ghost use Rattle.std.specs.List.{list_all};
ghost use Rattle.std.specs.Str.{is_utf8};
ghost use Rattle.std.specs.Ordering.{nat_cmp};
ghost use Rattle.std.specs.BTreeMap.{ContainsKey, get, is_at};
ghost use Rattle.std.specs.Cmp.Lexicographic.{slice_cmp};
ghost use Rattle.std.specs.FinMap as map;
ghost use Rattle.dw_base.specs.Callers.{is_auth as names_auth};
ghost use Rattle.dw_outside.specs.Faults.{Rose};
ghost use Rattle.dw_outside.specs.declared.keeper_error.KeeperError.{KeeperError};
ghost use Rattle.dw_derive.specs.Meta.{grant_slot, names_bytes};
ghost use Rattle.dw_desk.specs.Stands.{grants_of};

use crate::OutOfMemory;
use dw_base::{Text, is_auth};
use dw_derive::grant_cell;
use dw_outside::{Keeper, KeeperError};
use dw_vis::Auths;
use std::alloc::Global;
use std::collections::BTreeMap;

/// The names that the caller was granted, or None where he was granted none.
pub fn granted<'g>(grants: &'g BTreeMap<Text, Auths>, caller: &Text) -> Option<&'g Auths>
    ensures { option_copied result ≡ map.get (grants_of grants.now) caller.now }
{
    grants.get(caller)
}

/// Whether a name keeps its limits.
fn may_name(name: &Text) -> bool
    ensures rules { result ≡ names_auth name.now }
    ensures text { is_utf8 name.now ≡ true }
{
    is_auth(name.as_str())
}

/// Whether each name keeps its limits.
pub fn may_be_granted(names: &[Text]) -> bool
    ensures rules { result ≡ list_all names_auth names.now }
    ensures texts { result ≡ true → list_all is_utf8 names.now ≡ true }
{
    'naming: for name in names {
        if !may_name(name) {
            return false;
        }
    }
    true
}

/// Sets the names of a caller, and gives those that he had. After an error they are as before.
pub fn put_names(
    grants: &mut BTreeMap<Text, Auths>,
    caller: &Text,
    names: Auths,
) -> Result<Option<Auths>, OutOfMemory>
    ensures granted { OnOk result (grants_of grants.new ≡ map.insert (grants_of grants.old) caller.now names) }
    ensures put { OnOk result ((q : List ℕ) → get (slice_cmp nat_cmp) grants.new q ≡ cond (is_at (slice_cmp nat_cmp caller.now) q) (Some names) (get (slice_cmp nat_cmp) grants.old q)) }
    ensures before { IfOk result (λ before. before ≡ get (slice_cmp nat_cmp) grants.old caller.now) }
    ensures has { OnOk result (ContainsKey (slice_cmp nat_cmp) grants.new caller.now) }
    ensures err { OnErr result (grants_of grants.new ≡ grants_of grants.old) }
{
    let caller = caller.copy()?;
    let before = grants.insert(caller, names)?;
    Ok(before)
}

/// Gives a caller the names back that he had. Takes no memory.
fn put_back(grants: &mut BTreeMap<Text, Auths>, caller: &Text, before: Option<Auths>)
    requires { ContainsKey (slice_cmp nat_cmp) grants.old caller.now }
    ensures { (q : List ℕ) → get (slice_cmp nat_cmp) grants.new q ≡ cond (is_at (slice_cmp nat_cmp caller.now) q) before (get (slice_cmp nat_cmp) grants.old q) }
{
    let Some(names) = before else {
        let _dropped = grants.remove(caller);
        return;
    };
    match grants.get_mut(caller) {
        Some(present) => *present = names,
        None => unreachable!(),
    }
}

/// Replaces the names that the caller is granted, here and in their cell, by one `apply`. Memory is taken before it. After an
/// error both are as before.
pub fn store_grant<K: Keeper>(
    alloc: Global,
    keeper: &mut K,
    grants: &mut BTreeMap<Text, Auths>,
    caller: &Text,
    names: &Auths,
) -> Result<(), KeeperError>
    requires { All (λ (name : List ℕ). length name < 2 ^ 16) names.now }
    ensures granted { OnOk result (grants_of grants.new ≡ map.insert (grants_of grants.old) caller.now names.now) }
    ensures told { OnOk result (K.told keeper.new ≡ option_map (λ t. map.insert t (grant_slot caller.now) (names_bytes names.now)) (K.told keeper.old)) }
    ensures kept { OnErr result (grants_of grants.new ≡ grants_of grants.old) }
    ensures untold { OnErr result (K.told keeper.new ≡ K.told keeper.old) }
    ensures reads { K.reads keeper.new ≡ K.reads keeper.old }
    ensures counted { K.faults keeper.old ≤ K.faults keeper.new }
    ensures failed { result ≡ Err KeeperError.Failed → Rose (K.faults keeper.old) (K.faults keeper.new) }
{
    let put = grant_cell(alloc, caller.as_str(), names.as_slice())?;
    let before = put_names(grants, caller, names.copy()?)?;
    match keeper.apply(&[put]) {
        Ok(()) => Ok(()),
        Err(error) => {
            put_back(grants, caller, before);
            Err(error)
        }
    }
}
