ghost use Rattle.std.specs.Prelude.{◌≡◌, ◌++◌, ◌∷◌, [], IfOk, OnOk, OnErr};
ghost use Rattle.std.specs.Cmp.Lexicographic.{pointwise};
ghost use Rattle.std.specs.Cmp.Rules.{comparing};
ghost use Rattle.std.proofs.Common.{rules};

use crate::OutOfMemory;
use crate::twin::{Twin, copies};
use std::alloc::Global;
use std::marker::Model;

/// A list that contracts see as its items alone, whatever room it has.
#[derive(Debug, Drop)]
pub struct Listed<T> {
    inner: Vec<T>,
}

impl<T> Model for Listed<T> {
    ghost use Rattle.std.specs.Prelude.{List};

    ghost Value = { List T };

    ghost view = { λ l. l.inner.items };
}

impl<T> Listed<T> {
    /// Takes no memory.
    pub fn new(alloc: Global) -> Listed<T>
        ensures { result ≡ [] }
    {
        Listed {
            inner: Vec::new(alloc),
        }
    }

    /// Takes no memory.
    pub fn from_vec(inner: Vec<T>) -> Listed<T>
        ensures { result ≡ inner.items }
    {
        Listed { inner }
    }

    /// Takes no memory.
    pub fn into_vec(self) -> Vec<T>
        ensures { result.items ≡ self }
    {
        self.inner
    }

    pub fn as_slice(&self) -> &[T]
        ensures { result.now ≡ self.now }
    {
        self.inner.as_slice()
    }
}

impl<T: Drop> Listed<T> {
    /// Appends one item. After an error the list is as before, and the item is gone.
    pub fn put(&mut self, item: T) -> Result<(), OutOfMemory>
        ensures ok { OnOk result (self.new ≡ self.old ++ item ∷ []) }
        ensures err { OnErr result (self.new ≡ self.old) }
    {
        self.inner.push(item)?;
        Ok(())
    }
}

impl<T: Twin> Listed<T> {
    /// An equal list of its own.
    pub fn copy(&self) -> Result<Listed<T>, OutOfMemory>
        ensures { IfOk result (λ l. l ≡ self.now) }
    {
        let inner = copies(*self.inner.allocator(), self.inner.as_slice())?;
        Ok(Listed { inner })
    }
}

impl<T: PartialEq> PartialEq for Listed<T> {
    ghost eq = { pointwise T.eq };

    ghost laws = { Prim.search (comparing, rules) };

    fn eq(&self, other: &Listed<T>) -> bool {
        self.inner == other.inner
    }
}

impl<T: Eq> Eq for Listed<T> {
    ghost laws = { Prim.search (comparing, rules) };
}
