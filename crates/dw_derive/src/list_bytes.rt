ghost use Rattle.std.specs.Prelude.{◌≡◌, ◌≢◌, ◌<◌, length, IfOk, IfErr, IsOk, Ok, Err};
ghost use Rattle.dw_derive.specs.UidLists.{FitsForm, list_bytes, list_read, body_read, kept_read, counted_read, ascend, ReadsAs, GivesTheList, ListsHaveOneSpelling};
ghost use Rattle.dw_derive.specs.declared.list_bytes.BadList.TheVariants.{OutOfMemory};
ghost use Rattle.dw_derive.specs.declared.uid_list.UidList.TheVariants.{Kept, Counted};

use crate::uid_list::{Form, UidList};
use dw_base::{Bytes, OutOfMemory, Sorted};
use dw_key::Uid;
use std::alloc::{AllocError, Global};

/// Why bytes are no list of uids: the first of these, in this order, that holds.
#[derive(Clone, Copy, Debug, PartialEq, Eq)]
pub enum BadList {
    /// The two bytes that tell the form are missing, or tell none.
    Form,
    /// Bytes are missing.
    Cut,
    /// The number of uids, or the count, is none of the form.
    Count,
    /// The uids do not ascend strictly.
    Order,
    /// Bytes follow.
    Tail,
    /// The bytes are a list, for which there is no memory.
    OutOfMemory,
}

impl From<AllocError> for BadList {
    ghost from_gives = { λ _ e. e ≡ OutOfMemory };

    fn from(_e: AllocError) -> BadList {
        BadList::OutOfMemory
    }
}

/// The bytes of a list that keeps no more uids than the form does: the number of the form; then 0, how many uids
/// follow, and these, or 1 and the count in 8 bytes, the highest first.
pub fn encode_list(alloc: Global, list: &UidList, form: Form) -> Result<Bytes, OutOfMemory>
    requires { FitsForm form list.now }
    ensures { IfOk result (λ b. b ≡ list_bytes form list.now) }
{
    match list {
        UidList::Kept(uids) => kept_bytes(alloc, uids.as_slice(), form),
        UidList::Counted(count) => counted_bytes(alloc, *count, form),
    }
}

fn kept_bytes(alloc: Global, uids: &[Uid], form: Form) -> Result<Bytes, OutOfMemory>
    requires { length uids.now < 256 }
    ensures { IfOk result (λ b. b ≡ list_bytes form (Kept uids.now)) }
{
    let mut out = Vec::with_capacity(alloc, 3 + 32 * uids.len())?;
    out.extend_from_slice(&[form.number(), 0, uids.len() as u8])?;
    out.extend_from_slice(uids.as_flattened())?;
    Ok(Bytes::from_vec(out))
}

fn counted_bytes(alloc: Global, count: u64, form: Form) -> Result<Bytes, OutOfMemory>
    ensures { IfOk result (λ b. b ≡ list_bytes form (Counted count)) }
{
    let mut out = Vec::with_capacity(alloc, 10)?;
    out.extend_from_slice(&[form.number(), 1])?;
    out.extend_from_slice(&count.to_be_bytes())?;
    Ok(Bytes::from_vec(out))
}

/// The list that the bytes spell, and its form. Faults are found before any memory is taken.
pub fn decode_list(alloc: Global, bytes: &[u8]) -> Result<(Form, UidList), BadList>
    // A list comes only from its bytes,
    ensures found { IfOk result (λ l. list_read bytes.now ≡ Ok l) }
    // and from each list's, unless memory runs out.
    ensures only { GivesTheList bytes.now result }
    // Each fault is answered,
    ensures fault { (e : BadList) → list_read bytes.now ≡ Err e → result ≡ Err e }
    // where it holds,
    ensures cause { IfErr result (λ e. e ≢ BadList.OutOfMemory → list_read bytes.now ≡ Err e) }
    // and want of memory hides none.
    ensures memory { result ≡ Err BadList.OutOfMemory → IsOk (list_read bytes.now) }
{
    decoded(alloc, bytes)
}

/// `decode_list`, with what each result says in one clause.
fn decoded(alloc: Global, bytes: &[u8]) -> Result<(Form, UidList), BadList>
    ensures { ReadsAs (list_read bytes.now) result }
{
    match bytes {
        [1, body @ ..] => body_of(alloc, Form::One, body),
        [2, body @ ..] => body_of(alloc, Form::Two, body),
        _ => Err(BadList::Form),
    }
}

/// What stands behind the byte of the form.
fn body_of(alloc: Global, form: Form, bytes: &[u8]) -> Result<(Form, UidList), BadList>
    ensures { ReadsAs (body_read form bytes.now) result }
{
    match bytes {
        [0] => Err(BadList::Cut),
        [0, count, uids @ ..] => kept_of(alloc, form, *count as usize, uids),
        [1, count @ ..] => counted_of(form, count),
        _ => Err(BadList::Form),
    }
}

/// So many uids, and nothing behind them.
fn kept_of(
    alloc: Global,
    form: Form,
    count: usize,
    bytes: &[u8],
) -> Result<(Form, UidList), BadList>
    ensures { ReadsAs (kept_read form count bytes.now) result }
{
    if count == 0 || count > form.cap() {
        return Err(BadList::Count);
    }
    let (chunks, _) = bytes.as_chunks::<32>();
    if chunks.len() < count {
        return Err(BadList::Cut);
    }
    let uids = &chunks[..count];
    if !ascends(uids) {
        return Err(BadList::Order);
    }
    if bytes.len() > 32 * count {
        return Err(BadList::Tail);
    }
    let inner = Vec::from_slice(alloc, uids)?;
    Ok((form, UidList::Kept(Sorted::from_ascending(inner))))
}

/// Whether each uid is below the next one.
fn ascends(uids: &[Uid]) -> bool
    ensures { result ≡ ascend uids.now }
{
    uids.is_sorted_by(|uid, next| uid.cmp(next).is_lt())
}

/// A count, and nothing behind it.
fn counted_of(form: Form, bytes: &[u8]) -> Result<(Form, UidList), BadList>
    ensures { ReadsAs (counted_read form bytes.now) result }
{
    let Some((count, behind)) = bytes.split_first_chunk::<8>() else {
        return Err(BadList::Cut);
    };
    let count = u64::from_be_bytes(*count);
    if count <= form.cap() as u64 {
        return Err(BadList::Count);
    }
    if !behind.is_empty() {
        return Err(BadList::Tail);
    }
    Ok((form, UidList::Counted(count)))
}

/// A list has one spelling in each form. The function does nothing: its contract is a law.
pub fn lists_have_one_spelling()
    ensures { ListsHaveOneSpelling }
{}

#[cfg(test)]
mod tests;
