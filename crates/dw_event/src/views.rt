ghost use Rattle.std.specs.Prelude.{◌≡◌, IfOk};

use crate::OutOfMemory;
use dw_base::{Exact, Sorted, Text, Twin};

/// A field and one raw value of it, whoever sees it, ordered by the bytes of the field and then of the
/// value.
#[derive(Debug, PartialEq, Eq, PartialOrd, Ord, Drop)]
pub struct Pair {
    pub field: Text,
    pub raw: Text,
}

impl Exact for Pair {
    ghost use Rattle.dw_event.specs.Views.{exact_pairs};

    ghost exact = { exact_pairs };
}

impl Twin for Pair {
    fn copy(&self) -> Result<Pair, OutOfMemory> {
        let field = self.field.copy()?;
        let raw = self.raw.copy()?;
        Ok(Pair { field, raw })
    }
}

/// What a reader sees of an event: a set of pairs, kept ascending.
pub type View = Sorted<Pair>;
