ghost use Rattle.std.specs.Prelude.{◌≡◌, [], Some, IfOk, option_map, option_and_then};
ghost use Rattle.serde_json.specs.Find.{as_str};
ghost use Rattle.serde_json.specs.View.{view, items_view};
ghost use Rattle.dw_rows.specs.Values.{guarded};
ghost use Rattle.dw_base.specs.Callers.{is_auth as names_auth};
ghost use Rattle.dw_wire.specs.ReadLine.{with_auths, auths_of, asked_auths as asked};

use crate::OutOfMemory;
use dw_base::{MAX_NAMES, is_auth};
use dw_vis::Auths;
use serde_json::Value;
use std::alloc::Global;

fn auth_name(value: &Value) -> Option<&str>
    ensures { option_map (λ s. s.now) result ≡ option_and_then (λ name. guarded (names_auth name) (Some name)) (as_str (view value.now)) }
{
    let name = value.as_str()?;
    if !is_auth(name) {
        return None;
    }
    Some(name)
}

fn put_auths(alloc: Global, items: &[Value]) -> Result<Option<Auths>, OutOfMemory>
    ensures { IfOk result (λ o. o ≡ with_auths [] (items_view items.now)) }
{
    let mut auths = Auths::new(alloc);
    for value in items {
        match auth_name(value) {
            Some(name) => auths.add(name)?,
            None => return Ok(None),
        }
    }
    Ok(Some(auths))
}

/// The set of the names of a list of texts: at most 256 as they are written, each of 1 to 512 bytes, none of
/// them 0. None where it breaks a limit.
#[tactic(auto, using(crate::proofs::Counting::counted))]
pub fn read_auths(alloc: Global, items: &[Value]) -> Result<Option<Auths>, OutOfMemory>
    ensures { IfOk result (λ o. o ≡ auths_of (items_view items.now)) }
{
    if items.len() > MAX_NAMES {
        return Ok(None);
    }
    put_auths(alloc, items)
}

/// The names that are asked for, where a list of them is given. None where it breaks a limit.
pub fn asked_auths(
    alloc: Global,
    items: Option<&Vec<Value>>,
) -> Result<Option<Option<Auths>>, OutOfMemory>
    ensures { IfOk result (λ o. o ≡ asked (option_map (λ v. items_view v.now.items) items.entry)) }
{
    let Some(items) = items else {
        return Ok(Some(None));
    };
    match read_auths(alloc, items.as_slice())? {
        Some(auths) => Ok(Some(Some(auths))),
        None => Ok(None),
    }
}
