ghost use Rattle.std.specs.Prelude.{◌≡◌, ◌++◌, ◌∷◌, ◌<◌, ◌^◌, [], length, OnOk, OnErr};

use crate::OutOfMemory;
use dw_event::{BadRecord, Record};
use std::alloc::Global;
use std::marker::Model;

/// The most records that a list can hold.
const MAX_COUNT: usize = 4_294_967_295;

/// The records of an ingest, each read or the rule that it breaks: fewer than 2^32, so that they can be
/// counted.
#[derive(Debug, Drop)]
pub struct Records {
    inner: Vec<Result<Record, BadRecord>>,
}

impl Model for Records {
    ghost use Rattle.std.specs.Prelude.{List, Result, ◌<◌, ◌^◌, length};
    ghost use Rattle.dw_event.specs.declared.records.Record.{Record};
    ghost use Rattle.dw_event.specs.declared.reports.BadRecord.{BadRecord};

    ghost Value = { List (Result Record BadRecord) };

    ghost view = { λ r. r.inner.items };

    ghost invariant = { λ r. length r.inner.items < 2 ^ 32 };
}

impl Records {
    /// Takes no memory.
    pub fn new(alloc: Global) -> Records
        ensures { result ≡ [] }
    {
        Records {
            inner: Vec::new(alloc),
        }
    }

    /// Appends one. After an error, which comes too where no more can be counted, the list is as before.
    pub fn put(&mut self, item: Result<Record, BadRecord>) -> Result<(), OutOfMemory>
        ensures ok { OnOk result (self.new ≡ self.old ++ item ∷ []) }
        ensures err { OnErr result (self.new ≡ self.old) }
    {
        if self.inner.len() >= MAX_COUNT {
            return Err(OutOfMemory);
        }
        self.inner.push(item)?;
        Ok(())
    }

    pub fn as_slice(&self) -> &[Result<Record, BadRecord>]
        ensures same { result.now ≡ self.now }
        ensures counted { length self.now < 2 ^ 32 }
    {
        self.inner.as_slice()
    }
}
