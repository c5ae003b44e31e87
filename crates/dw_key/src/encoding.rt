ghost use Rattle.std.specs.Prelude.{◌≡◌, ◌++◌, OnOk, IfOk};
ghost use Rattle.dw_key.specs.KeyCode.{code, part_code};

use crate::OutOfMemory;
use crate::key::Key;
use dw_base::Bytes;
use std::alloc::Global;

/// The one code of the key: row, family, qualifier and visibility, each with its bytes 0 written as
/// 0 and 255 and ended by the bytes 0 and 0, and then 8 bytes, the highest first, of the distance
/// of the stamp from `u64::MAX`. Codes compare as their keys do.
pub fn encode(alloc: Global, key: &Key) -> Result<Bytes, OutOfMemory>
    ensures { IfOk result (λ b. b ≡ code key.now) }
{
    let mut out = Vec::with_capacity(alloc, room_of(key))?;
    put_part(&mut out, key.row.as_slice())?;
    put_part(&mut out, key.family.as_slice())?;
    put_part(&mut out, key.qualifier.as_slice())?;
    put_part(&mut out, key.vis.as_slice())?;
    out.extend_from_slice(&(u64::MAX - key.stamp).to_be_bytes())?;
    Ok(Bytes::from_vec(out))
}

/// How many bytes the code of a key has, so that room for it is taken once.
fn room_of(key: &Key) -> usize {
    let parts = [&key.row, &key.family, &key.qualifier, &key.vis];
    parts.iter().fold(8usize, |room, part| {
        room.saturating_add(part_room(part.as_slice()))
    })
}

fn part_room(part: &[u8]) -> usize {
    let zeros = part.iter().filter(|byte| **byte == 0).count();
    part.len().saturating_add(zeros).saturating_add(2)
}

fn put_part(out: &mut Vec<u8>, part: &[u8]) -> Result<(), OutOfMemory>
    ensures { OnOk result (out.new.items ≡ out.old.items ++ part_code part.now) }
{
    for byte in part {
        if *byte == 0 {
            out.extend_from_slice(&[0, 255])?;
        } else {
            out.push(*byte)?;
        }
    }
    out.extend_from_slice(&[0, 0])?;
    Ok(())
}
