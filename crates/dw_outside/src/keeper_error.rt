ghost use Rattle.std.specs.Prelude.{◌≡◌};

use crate::OutOfMemory;

/// Why a device could not be had, or a keeper gave no answer.
#[derive(Clone, Copy, Debug, PartialEq, Eq)]
pub enum KeeperError {
    Failed,
    OutOfMemory,
}

impl From<OutOfMemory> for KeeperError {
    ghost use Rattle.dw_outside.specs.declared.keeper_error.KeeperError.{KeeperError};

    ghost from_gives = { λ _ e. e ≡ KeeperError.OutOfMemory };

    fn from(_error: OutOfMemory) -> KeeperError {
        KeeperError::OutOfMemory
    }
}
