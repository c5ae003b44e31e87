ghost use Rattle.std.specs.Prelude.{◌≡◌, ◌++◌, OnOk, IfOk, [], take, drop};
ghost use Rattle.dw_event.specs.Records.{ended, cell_canon, cells_canon, canon, CanonTellsApart};

use crate::OutOfMemory;
use crate::cells::EventCell;
use crate::records::Record;
use dw_key::Bytes;
use std::alloc::Global;

/// The bytes that tell records apart: the type, a byte 0, the date, a byte 0, and for each cell the
/// field, a byte 0, the raw value, a byte 0, the text of the visibility and a byte 0.
pub fn canonical(alloc: Global, rec: &Record) -> Result<Bytes, OutOfMemory>
    ensures { IfOk result (λ bytes. bytes ≡ canon rec.now) }
{
    let mut out = Vec::new(alloc);
    put_ended(&mut out, rec.dtype.as_slice())?;
    put_ended(&mut out, rec.date.as_str().as_bytes())?;
    put_cells(&mut out, rec.cells.as_slice())?;
    Ok(Bytes::from_vec(out))
}

/// Two well-formed records with the same canonical bytes are the same record.
pub fn canonical_tells_apart()
    ensures { CanonTellsApart }
{}

fn put_ended(out: &mut Vec<u8>, text: &[u8]) -> Result<(), OutOfMemory>
    ensures { OnOk result (out.new.items ≡ out.old.items ++ ended text.now) }
{
    out.extend_from_slice(text)?;
    out.push(0)?;
    Ok(())
}

fn put_cell(out: &mut Vec<u8>, cell: &EventCell) -> Result<(), OutOfMemory>
    ensures { OnOk result (out.new.items ≡ out.old.items ++ cell_canon cell.now) }
{
    put_ended(out, cell.field.as_str().as_bytes())?;
    put_ended(out, cell.raw.as_str().as_bytes())?;
    put_ended(out, cell.vis.text())?;
    Ok(())
}

fn put_cells(out: &mut Vec<u8>, cells: &[EventCell]) -> Result<(), OutOfMemory>
    ensures { OnOk result (out.new.items ≡ out.old.items ++ cells_canon cells.now) }
{
    for cell in cells {
        put_cell(out, cell)?;
    }
    Ok(())
}
