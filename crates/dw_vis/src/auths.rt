ghost use Rattle.std.specs.Prelude.{◌≡◌, ◌⊎◌, ◌↔◌, ℕ, List, [], true, IfOk, OnOk, OnErr};
ghost use Rattle.dw_vis.specs.Names.{IsAscending, has, with_name, common_names};

use crate::OutOfMemory;
use dw_base::{Sorted, Text};
use std::alloc::Global;
use std::marker::Model;

/// A set of names of authorisations, seen as their UTF-8 bytes, ascending as lists of unsigned bytes.
#[derive(Debug, Drop)]
pub struct Auths {
    names: Sorted<Text>,
}

impl Model for Auths {
    ghost use Rattle.std.specs.Prelude.{List, ℕ};

    ghost Value = { List (List ℕ) };

    ghost view = { λ a. a.names };
}

impl Auths {
    /// No name. Takes no memory.
    pub fn new(alloc: Global) -> Auths
        ensures { result ≡ [] }
    {
        Auths {
            names: Sorted::new(alloc),
        }
    }

    /// After an error the names are as before.
    pub fn add(&mut self, name: &str) -> Result<(), OutOfMemory>
        ensures ok { OnOk result (self.new ≡ with_name name.now self.old) }
        ensures members { OnOk result ((other : List ℕ) → (has self.new other ≡ true) ↔ ((has self.old other ≡ true) ⊎ (other ≡ name.now))) }
        ensures err { OnErr result (self.new ≡ self.old) }
    {
        let name = Text::of(self.names.allocator(), name)?;
        self.names.put(name)?;
        Ok(())
    }

    /// The names that both have.
    pub fn meet(&self, alloc: Global, other: &Auths) -> Result<Auths, OutOfMemory>
        ensures names { IfOk result (λ both. both ≡ common_names self.now other.now) }
        ensures members { IfOk result (λ both. (name : List ℕ) → (has both name ≡ true) ↔ ((has self.now name ≡ true) × (has other.now name ≡ true))) }
    {
        let names = common(alloc, self.names.as_slice(), other)?;
        Ok(Auths {
            names: Sorted::from_ascending(names),
        })
    }

    /// An equal set of its own.
    pub fn copy(&self) -> Result<Auths, OutOfMemory>
        ensures { IfOk result (λ auths. auths ≡ self.now) }
    {
        let names = self.names.copy()?;
        Ok(Auths { names })
    }

    /// The names, in order.
    pub fn as_slice(&self) -> &[Text]
        ensures same { result.now ≡ self.now }
        ensures ascending { IsAscending self.now }
    {
        self.names.as_slice()
    }

    /// Whether the bytes are those of one of its names.
    pub fn has(&self, name: &[u8]) -> bool
        ensures value { result ≡ has self.now name.now }
        ensures ascending { IsAscending self.now }
    {
        let _names = self.names.as_slice();
        self.names.has_name(name)
    }
}

/// Those of some names that the others have.
fn common(alloc: Global, names: &[Text], others: &Auths) -> Result<Vec<Text>, OutOfMemory>
    ensures { IfOk result (λ v. v.items ≡ common_names names.now others.now) }
{
    let mut all = Vec::new(alloc);
    for name in names {
        if others.has(name.as_str().as_bytes()) {
            all.push(name.copy()?)?;
        }
    }
    Ok(all)
}
