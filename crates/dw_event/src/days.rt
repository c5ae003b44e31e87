ghost use Rattle.std.specs.Prelude.{◌≡◌, IfOk, take};

use crate::OutOfMemory;
use dw_base::Text;

/// The days from `first` up to and with `last`, each of eight digits.
#[derive(Debug, Drop, PartialEq, Eq)]
pub struct Days {
    pub first: Text,
    pub last: Text,
}

impl Days {
    ghost use Rattle.dw_event.specs.Wanted.{is_in_range};

    /// Whether a shard, whose name begins with the eight digits of its day, is of one of the days.
    pub fn hold(&self, shard: &str) -> bool
        ensures { result ≡ is_in_range self.now shard.now }
    {
        let day = first_eight(shard.as_bytes());
        self.first.as_str().as_bytes().cmp(day).is_le()
            && day.cmp(self.last.as_str().as_bytes()).is_le()
    }

    pub fn copy(&self) -> Result<Days, OutOfMemory>
        ensures { IfOk result (λ d. d ≡ self.now) }
    {
        Ok(Days {
            first: self.first.copy()?,
            last: self.last.copy()?,
        })
    }
}

fn first_eight(bytes: &[u8]) -> &[u8]
    ensures { result.now ≡ take 8 bytes.now }
{
    if bytes.len() < 8 { bytes } else { &bytes[..8] }
}
