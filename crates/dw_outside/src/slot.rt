ghost use Rattle.std.specs.Prelude.{◌≡◌, IfOk};

use crate::OutOfMemory;
use dw_key::Bytes;

/// Where a cell stands: the table's number and the code of the cell's key.
#[derive(Debug, PartialEq, Eq, PartialOrd, Ord, Drop)]
pub struct Slot {
    pub table: u8,
    pub key: Bytes,
}

impl Slot {
    /// An equal slot of its own.
    pub fn copy(&self) -> Result<Slot, OutOfMemory>
        ensures { IfOk result (λ s. s ≡ self.now) }
    {
        let key = self.key.copy()?;
        Ok(Slot {
            table: self.table,
            key,
        })
    }
}
