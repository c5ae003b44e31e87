ghost use Rattle.std.specs.Prelude.{◌≡◌};
ghost use Rattle.dw_rows.specs.declared.error.RecordError.TheVariants.{OutOfMemory};

use dw_event::BadRecord;
use std::alloc::AllocError;

/// Why no record was read.
#[derive(Clone, Copy, Debug, PartialEq, Eq, Drop)]
pub enum RecordError {
    /// What was sent breaks this rule, and none before it.
    Bad(BadRecord),
    OutOfMemory,
}

impl From<AllocError> for RecordError {
    ghost from_gives = { λ _ e. e ≡ OutOfMemory };

    fn from(_e: AllocError) -> RecordError {
        RecordError::OutOfMemory
    }
}
