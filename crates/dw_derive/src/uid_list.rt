ghost use Rattle.std.specs.Prelude.{◌≡◌, [], ◌∷◌, ◌<◌, ◌^◌, length, IfOk};
ghost use Rattle.dw_base.specs.Ascending.{with_item};
ghost use Rattle.dw_derive.specs.UidLists.{uid_cmp};

use dw_base::{OutOfMemory, Sorted};
use dw_key::Uid;
use std::alloc::Global;

/// How a list of uids is written: the older form keeps up to 20 uids, and the newer one up to 50.
#[derive(Clone, Copy, Debug, PartialEq, Eq)]
pub enum Form {
    One,
    Two,
}

impl Form {
    ghost use Rattle.dw_derive.specs.UidLists.{cap, form_byte};

    /// How many uids a list of this form keeps.
    pub fn cap(self) -> usize
        ensures { result ≡ cap self }
    {
        match self {
            Form::One => 20,
            Form::Two => 50,
        }
    }

    /// The first byte of a list of this form.
    pub fn number(self) -> u8
        ensures { result ≡ form_byte self }
    {
        match self {
            Form::One => 1,
            Form::Two => 2,
        }
    }
}

/// Some uids, ascending, each once.
pub type Uids = Sorted<Uid>;

/// What the cell of an index has: the uids of the events that give it, or how many they are.
#[derive(Debug, PartialEq, Eq, Drop)]
pub enum UidList {
    Kept(Uids),
    Counted(u64),
}

impl UidList {
    ghost use Rattle.dw_derive.specs.declared.uid_list.UidList.TheVariants.{Kept};
    ghost use Rattle.dw_derive.specs.UidLists.{added};

    /// The list of one uid.
    pub fn one(alloc: Global, uid: Uid) -> Result<UidList, OutOfMemory>
        ensures { IfOk result (λ l. l ≡ Kept (uid ∷ [])) }
    {
        let mut uids = Sorted::new(alloc);
        uids.put(uid)?;
        Ok(UidList::Kept(uids))
    }

    /// The list with one uid more, which is not in it: kept up to the form's cap, and then counted. A count
    /// of `u64::MAX` stays. A list that keeps the uid already is as before.
    pub fn add(&self, uid: Uid, form: Form) -> Result<UidList, OutOfMemory>
        ensures { IfOk result (λ l. l ≡ added form self.now uid) }
    {
        match self {
            UidList::Kept(uids) if uids.as_slice().len() < form.cap() => {
                Ok(UidList::Kept(with(uids, uid)?))
            }
            UidList::Kept(uids) => Ok(UidList::Counted(
                (uids.as_slice().len() as u64).saturating_add(1),
            )),
            UidList::Counted(count) => Ok(UidList::Counted(count.saturating_add(1))),
        }
    }

    /// An equal list of its own.
    pub fn copy(&self) -> Result<UidList, OutOfMemory>
        ensures { IfOk result (λ l. l ≡ self.now) }
    {
        match self {
            UidList::Kept(uids) => Ok(UidList::Kept(uids.copy()?)),
            UidList::Counted(count) => Ok(UidList::Counted(*count)),
        }
    }
}

/// The uids with one more, in one piece of memory.
fn with(uids: &Uids, uid: Uid) -> Result<Uids, OutOfMemory>
    requires { length uids.now < 2 ^ 63 }
    ensures { IfOk result (λ s. s ≡ with_item uid_cmp uids.now uid) }
{
    let kept = uids.as_slice();
    let mut inner = Vec::with_capacity(uids.allocator(), kept.len() + 1)?;
    inner.extend_from_slice(kept)?;
    let mut more = Sorted::from_ascending(inner);
    more.put(uid)?;
    Ok(more)
}
