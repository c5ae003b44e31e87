ghost use Rattle.std.specs.Prelude.{◌≡◌, IfOk, OnOk, OnErr, is_some};
ghost use Rattle.std.specs.Cmp.Lexicographic.{slice_cmp};
ghost use Rattle.std.specs.Ordering.{nat_cmp};
ghost use Rattle.std.specs.BTreeMap.{ContainsKey};
ghost use Rattle.dw_desk.specs.Accounts.{closed, marked};
ghost use Rattle.dw_desk.specs.Stands.{kept_of};
ghost use Rattle.dw_desk.specs.Desk.{Changes, Gives, SameAccounts};

use crate::OutOfMemory;
use crate::caller::Caller;
use crate::kept_query::KeptQuery;
use dw_base::Text;
use dw_page::Mark;
use std::alloc::Global;
use std::collections::BTreeMap;

/// Sees that the caller has an entry, which by itself changes nothing of what is kept.
fn enter(
    alloc: Global,
    callers: &mut BTreeMap<Text, Caller>,
    name: &Text,
) -> Result<(), OutOfMemory>
    ensures same { SameAccounts callers.old callers.new }
    ensures entered { OnOk result (ContainsKey (slice_cmp nat_cmp) callers.new name.now) }
{
    if !callers.contains_key(name) {
        callers.insert(name.copy()?, Caller::new(alloc))?;
    }
    Ok(())
}

/// Opens a query under the caller's next number, or gives None where no number is left.
pub fn give(
    alloc: Global,
    callers: &mut BTreeMap<Text, Caller>,
    name: &Text,
    query: KeptQuery,
) -> Result<Option<u64>, OutOfMemory>
    ensures gives { IfOk result (Gives callers.old callers.new name.now query) }
    ensures err { OnErr result (SameAccounts callers.old callers.new) }
{
    enter(alloc, callers, name)?;
    match callers.get_mut(name) {
        Some(caller) => caller.give(query),
        None => unreachable!(),
    }
}

/// Sets the mark of the caller's query of a number, where there is one. Takes no memory.
pub fn set_mark(callers: &mut BTreeMap<Text, Caller>, name: &Text, number: u64, mark: Mark)
    ensures { Changes callers.old callers.new name.now (marked number mark) }
{
    match callers.get_mut(name) {
        Some(caller) => caller.set_mark(number, mark),
        None => (),
    }
}

/// Drops the caller's query of a number, and says whether there was one.
pub fn close(callers: &mut BTreeMap<Text, Caller>, name: &Text, number: u64) -> bool
    ensures found { result ≡ is_some ((kept_of callers.old name.now).queries number) }
    ensures closed { Changes callers.old callers.new name.now (closed number) }
{
    match callers.get_mut(name) {
        Some(caller) => caller.close(number),
        None => false,
    }
}
