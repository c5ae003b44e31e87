ghost use Rattle.std.specs.Prelude.{◌≡◌, ◌+◌, ◌-◌, ◌<◌, ◌^◌, ◌++◌, ◌∷◌, [], IfOk, OnOk};

use dw_base::{Listed, OutOfMemory};
use dw_event::{Bad, BadReason, Report};
use std::alloc::Global;

/// What has become of the records so far: how many there were, how many of them were added or repeats, and
/// those that were not taken.
#[derive(Debug, Drop)]
pub struct Tally {
    pub at: u32,
    pub added: u32,
    pub repeat: u32,
    pub bad: Listed<Bad>,
}

impl Tally {
    pub fn new(alloc: Global) -> Tally
        ensures { result ≡ record { at = 0; added = 0; repeat = 0; bad = [] } }
    {
        Tally {
            at: 0,
            added: 0,
            repeat: 0,
            bad: Listed::new(alloc),
        }
    }

    pub fn count_new(&mut self)
        requires at { self.old.at < 2 ^ 32 - 1 }
        requires added { self.old.added < 2 ^ 32 - 1 }
        ensures { self.new ≡ record self.old { at = self.old.at + 1; added = self.old.added + 1 } }
    {
        self.at += 1;
        self.added += 1;
    }

    pub fn count_repeat(&mut self)
        requires at { self.old.at < 2 ^ 32 - 1 }
        requires repeat { self.old.repeat < 2 ^ 32 - 1 }
        ensures { self.new ≡ record self.old { at = self.old.at + 1; repeat = self.old.repeat + 1 } }
    {
        self.at += 1;
        self.repeat += 1;
    }

    pub fn count_bad(&mut self, why: BadReason) -> Result<(), OutOfMemory>
        requires { self.old.at < 2 ^ 32 - 1 }
        ensures { OnOk result (self.new ≡ record self.old { at = self.old.at + 1; bad = self.old.bad ++ record { at = self.old.at; why = why } ∷ [] }) }
    {
        let at = self.at;
        self.bad.put(Bad { at, why })?;
        self.at += 1;
        Ok(())
    }

    /// The report, with the number of the last batch.
    pub fn report(self, last: u64) -> Report
        ensures { result ≡ record { new = self.added; repeat = self.repeat; bad = self.bad; last = last } }
    {
        Report {
            new: self.added,
            repeat: self.repeat,
            bad: self.bad,
            last,
        }
    }
}
