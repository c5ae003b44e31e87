ghost use Rattle.std.specs.Prelude.{◌≡◌, ◌%◌, IfOk, string_bytes, take};
ghost use Rattle.dw_event.specs.Places.{shard_number, shard_name, place_of};

use crate::OutOfMemory;
use crate::canon::canonical;
use crate::records::{Place, Record};
use crate::uids::UidMaker;
use dw_key::{DocKey, Text, Uid};
use std::alloc::Global;

/// The place of a record: its uid is the digest of its canonical bytes, and its shard is the date, `_`
/// and a number from 0 to 15, the first eight bytes of the uid, the highest first, modulo 16.
pub fn place<U: UidMaker>(alloc: Global, uids: &U, rec: &Record) -> Result<Place, OutOfMemory>
    ensures { IfOk result (λ p. p ≡ place_of U.digest rec.now) }
{
    let bytes = canonical(alloc, rec)?;
    let uid = uids.digest(bytes.as_slice());
    let shard = shard_text(alloc, rec.date.as_str(), &uid)?;
    Ok(Place {
        shard,
        key: DocKey {
            dtype: rec.dtype,
            uid,
        },
    })
}

/// The number of the shard of a uid within its day.
pub(crate) fn number(uid: &Uid) -> u64
    ensures { result ≡ shard_number uid.now }
{
    let first = [
        uid[0], uid[1], uid[2], uid[3], uid[4], uid[5], uid[6], uid[7],
    ];
    u64::from_be_bytes(first) % 16
}

fn shard_text(alloc: Global, date: &str, uid: &Uid) -> Result<Text, OutOfMemory>
    ensures { IfOk result (λ text. text ≡ shard_name date.now uid.now) }
{
    let n = number(uid);
    let text = format!(in alloc; "{date}_{n}")?;
    Ok(Text::from_string(text))
}
