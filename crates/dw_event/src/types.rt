ghost use Rattle.std.specs.Prelude.{◌≡◌, IfOk};

use crate::OutOfMemory;
use dw_base::Listed;
use dw_key::DType;

/// The types of events that are asked for.
#[derive(Debug, Drop, PartialEq, Eq)]
pub enum Types {
    All,
    Only { types: Listed<DType> },
}

impl Types {
    ghost use Rattle.dw_event.specs.Wanted.{is_type_wanted};

    /// Whether an event of this type is asked for.
    pub fn want(&self, dtype: &DType) -> bool
        ensures { result ≡ is_type_wanted self.now dtype.now }
    {
        match self {
            Types::All => true,
            Types::Only { types } => types.as_slice().contains(dtype),
        }
    }

    /// An equal value of its own.
    pub fn copy(&self) -> Result<Types, OutOfMemory>
        ensures { IfOk result (λ t. t ≡ self.now) }
    {
        match self {
            Types::All => Ok(Types::All),
            Types::Only { types } => {
                let types = types.copy()?;
                Ok(Types::Only { types })
            }
        }
    }
}
