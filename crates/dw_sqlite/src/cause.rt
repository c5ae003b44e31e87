ghost use Rattle.std.specs.Prelude.{◌≡◌, ◌↔◌};

use dw_outside::KeeperError;
use sqlite::{Error, ErrorCode};

/// Want of memory stays, and each other refusal of the database is a failure.
pub fn cause_of(error: Error) -> KeeperError
    ensures { (result ≡ KeeperError.OutOfMemory) ↔ (error ≡ Error.SqliteFailure ErrorCode.OutOfMemory) }
{
    match error {
        Error::SqliteFailure(ErrorCode::OutOfMemory) => KeeperError::OutOfMemory,
        _ => KeeperError::Failed,
    }
}
