//! What document keys keep by their types.

ghost use Rattle.dw_key.specs.KeyCode.{AreBytes};
ghost use Rattle.dw_derive.specs.UidLists.{IsUid};
ghost use Rattle.dw_derive.specs.ReaderLaws.{IsDocKey};

use dw_key::{DocKey, Uid};

/// What a slice of bytes holds fits a byte.
fn are_bytes(bytes: &[u8])
    ensures { AreBytes bytes.now }
{
    let _len = bytes.len();
}

/// A uid is 32 bytes.
pub fn uid_is_whole(uid: &Uid)
    ensures { IsUid uid.now }
{
    are_bytes(uid.as_slice());
}

/// A document key has a type by its rule, and a uid of 32 bytes.
pub fn doc_key_is_whole(doc: &DocKey)
    ensures { IsDocKey doc.now }
{
    let _dtype = doc.dtype.as_slice();
    uid_is_whole(&doc.uid);
}
