ghost use Rattle.std.specs.Prelude.{◌≡◌, ◌++◌, [], IfOk, OnOk};
ghost use Rattle.std.specs.Option.{ForSome};

use dw_base::{Bytes, Listed, OutOfMemory};
use dw_event::Shown;
use dw_scan::{Batch, Resume};
use dw_tablet::Tablet;
use std::alloc::Global;
use std::mem;

/// An open shard: how far it was searched, and what was found and not yet gathered. With no tablet the shard has ended;
/// a tablet that is held is one of its shard.
#[derive(Drop)]
pub struct Slot {
    pub resume: Resume,
    pub found: Listed<Shown>,
    pub tablet: Option<Tablet>,
    /// A place that the tablet does not cover, without which the search does not go on.
    pub missing: Option<Bytes>,
    pub ghost named: { ForSome tablet (λ t. resume.shard ≡ t.shard) },
}

/// Appends all events.
fn append(found: &mut Listed<Shown>, more: Listed<Shown>) -> Result<(), OutOfMemory>
    ensures { OnOk result (found.new ≡ found.old ++ more) }
{
    for event in more.into_vec() {
        found.put(event)?;
    }
    Ok(())
}

impl Slot {
    ghost use Rattle.dw_page.specs.Placed.{Accepts};

    /// Gives what was found. Takes no memory.
    pub fn give(&mut self, alloc: Global) -> Listed<Shown>
        ensures given { result ≡ self.old.found }
        ensures found { self.new.found ≡ [] }
        ensures resume { self.new.resume ≡ self.old.resume }
        ensures tablet { self.new.tablet ≡ self.old.tablet }
    {
        mem::replace(&mut self.found, Listed::new(alloc))
    }

    /// Takes what a search found, and goes on where it stands.
    pub fn accept(self, batch: Batch) -> Result<Slot, OutOfMemory>
        requires { batch.resume.shard ≡ self.resume.shard }
        ensures { IfOk result (λ slot. Accepts self batch slot) }
    {
        let Slot {
            resume: _,
            mut found,
            tablet,
            missing: _,
        } = self;
        let Batch {
            found: more,
            resume,
            ended,
            missing,
        } = batch;
        append(&mut found, more)?;
        let tablet = if ended { None } else { tablet };
        Ok(Slot {
            resume,
            found,
            tablet,
            missing,
        })
    }
}
