ghost use Rattle.std.specs.Prelude.{◌≡◌, IfOk};

use crate::OutOfMemory;
use crate::bytes::Bytes;
use crate::text::Text;
use std::alloc::Global;

/// A value of which an equal one can be made, where there is memory for it.
pub trait Twin: Drop {
    /// An equal value of its own.
    fn copy(&self) -> Result<Self, OutOfMemory>
        ensures { IfOk result (λ c. c ≡ self.now) };
}

impl Twin for Text {
    fn copy(&self) -> Result<Text, OutOfMemory> {
        self.copy()
    }
}

impl Twin for Bytes {
    fn copy(&self) -> Result<Bytes, OutOfMemory> {
        self.copy()
    }
}

impl Twin for u32 {
    fn copy(&self) -> Result<u32, OutOfMemory> {
        Ok(*self)
    }
}

impl Twin for [u8; 32] {
    fn copy(&self) -> Result<[u8; 32], OutOfMemory> {
        Ok(*self)
    }
}

/// An equal vector of equal items.
pub fn copies<T: Twin>(alloc: Global, items: &[T]) -> Result<Vec<T>, OutOfMemory>
    ensures { IfOk result (λ v. v.items ≡ items.now) }
{
    let mut all = Vec::new(alloc);
    for item in items {
        all.push(item.copy()?)?;
    }
    Ok(all)
}
