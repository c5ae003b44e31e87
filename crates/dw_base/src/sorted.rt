ghost use Rattle.std.specs.Prelude.{◌≡◌, ◌⊎◌, ◌↔◌, [], IsTrue, IfOk, OnOk, OnErr, MatchOption, Contains, Any};
ghost use Rattle.std.specs.Cmp.Lexicographic.{pointwise};
ghost use Rattle.std.specs.Cmp.Rules.{comparing};
ghost use Rattle.std.proofs.Common.{rules};
ghost use Rattle.dw_base.specs.Ascending.{IsAscending, IsGap, set_of, with_item};

use crate::OutOfMemory;
use crate::exact::{Exact, Named};
use crate::twin::{Twin, copies};
use std::alloc::Global;
use std::marker::Model;

/// A set of items, seen as the list of them that ascends.
#[derive(Debug, Drop)]
pub struct Sorted<T: Exact> {
    inner: Vec<T>,
}

impl<T: Exact> Model for Sorted<T> {
    ghost use Rattle.std.specs.Prelude.{List};
    ghost use Rattle.dw_base.specs.Ascending.{IsAscending};

    ghost Value = { List T };

    ghost view = { λ s. s.inner.items };

    ghost invariant = { λ s. IsAscending T.cmp s.inner.items };
}

impl<T: Exact> Sorted<T> {
    /// Takes no memory.
    pub fn new(alloc: Global) -> Sorted<T>
        ensures { result ≡ [] }
    {
        Sorted {
            inner: Vec::new(alloc),
        }
    }

    /// The set of items that ascend already. Takes no memory.
    pub fn from_ascending(inner: Vec<T>) -> Sorted<T>
        requires { IsAscending T.cmp inner.items }
        ensures { result ≡ inner.items }
    {
        Sorted { inner }
    }

    /// What its memory comes from.
    pub fn allocator(&self) -> Global {
        *self.inner.allocator()
    }

    pub fn as_slice(&self) -> &[T]
        ensures same { result.now ≡ self.now }
        ensures ascending { IsAscending T.cmp self.now }
    {
        self.inner.as_slice()
    }

    pub fn has(&self, item: &T) -> bool
        ensures { IsTrue result ↔ Contains self.now item.now }
    {
        self.inner.binary_search(item).is_ok()
    }

    /// Whether the two have the same items.
    pub fn is_same(&self, other: &Sorted<T>) -> bool
        ensures { IsTrue result ↔ (self.now ≡ other.now) }
    {
        self.inner == other.inner
    }

    /// Takes no memory.
    pub fn into_vec(self) -> Vec<T>
        ensures same { result.items ≡ self }
        ensures ascending { IsAscending T.cmp self }
    {
        self.inner
    }
}

impl<T: Named> Sorted<T> {
    /// Whether an item of this name is there.
    pub fn has_name(&self, name: &[u8]) -> bool
        ensures { IsTrue result ↔ Any (λ x. T.name x ≡ name.now) self.now }
    {
        self.inner
            .binary_search_by(|item| item.name().cmp(name))
            .is_ok()
    }
}

impl<T: Exact> PartialEq for Sorted<T> {
    ghost eq = { pointwise T.eq };

    ghost laws = { Prim.search (comparing, rules) };

    fn eq(&self, other: &Sorted<T>) -> bool {
        self.inner == other.inner
    }
}

impl<T: Exact> Eq for Sorted<T> {
    ghost laws = { Prim.search (comparing, rules) };
}

impl<T: Exact + Drop> Sorted<T> {
    /// The items, each once. Takes no memory.
    pub fn from_vec(items: Vec<T>) -> Sorted<T>
        ensures value { result ≡ set_of T.cmp items.items }
        ensures members { (x : T) → Contains result x ↔ Contains items.items x }
        ensures ascending { IsAscending T.cmp result }
    {
        let mut inner = items;
        inner.sort_unstable();
        inner.dedup();
        Sorted { inner }
    }

    /// Adds an item at its place, unless an equal one is there. After an error the set is as before, and
    /// the item is gone.
    pub fn put(&mut self, item: T) -> Result<(), OutOfMemory>
        ensures ok { OnOk result (self.new ≡ with_item T.cmp self.old item) }
        ensures members { OnOk result ((x : T) → Contains self.new x ↔ (Contains self.old x ⊎ (x ≡ item))) }
        ensures err { OnErr result (self.new ≡ self.old) }
    {
        if let Some(at) = gap(&self.inner, &item) {
            self.inner.insert(at, item)?;
        }
        Ok(())
    }
}

impl<T: Exact + Twin> Sorted<T> {
    /// An equal set of its own.
    pub fn copy(&self) -> Result<Sorted<T>, OutOfMemory>
        ensures { IfOk result (λ s. s ≡ self.now) }
    {
        let inner = copies(*self.inner.allocator(), self.inner.as_slice())?;
        Ok(Sorted { inner })
    }
}

/// Where an item goes among items that ascend, or None where an equal one is there.
fn gap<T: Exact>(items: &[T], item: &T) -> Option<usize>
    requires { IsAscending T.cmp items.now }
    ensures { MatchOption result (with_item T.cmp items.now item.now ≡ items.now) (IsGap T.cmp items.now item.now) }
{
    match items.binary_search(item) {
        Ok(_at) => None,
        Err(at) => Some(at),
    }
}
