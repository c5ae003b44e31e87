ghost use Rattle.std.specs.Prelude.{◌≡◌};

use dw_outside::{Failed, KeeperError, OutOfMemory};

/// Why a journal could not be opened.
#[derive(Clone, Copy, Debug, PartialEq, Eq)]
pub enum OpenError {
    Failed,
    /// The gate at this place is open, and what follows it is no frame.
    BadJournal { at: u64 },
    OutOfMemory,
}

impl From<KeeperError> for OpenError {
    ghost use Rattle.dw_journal.specs.OpenErrors.{IsOpenErrorOf};

    ghost from_gives = { IsOpenErrorOf };

    fn from(error: KeeperError) -> OpenError {
        match error {
            KeeperError::Failed => OpenError::Failed,
            KeeperError::OutOfMemory => OpenError::OutOfMemory,
        }
    }
}

impl From<OutOfMemory> for OpenError {
    ghost use Rattle.dw_journal.specs.declared.open_error.OpenError.{OpenError};

    ghost from_gives = { λ _ e. e ≡ OpenError.OutOfMemory };

    fn from(_error: OutOfMemory) -> OpenError {
        OpenError::OutOfMemory
    }
}

impl From<Failed> for OpenError {
    ghost use Rattle.dw_journal.specs.declared.open_error.OpenError.{OpenError};

    ghost from_gives = { λ _ e. e ≡ OpenError.Failed };

    fn from(_failed: Failed) -> OpenError {
        OpenError::Failed
    }
}
