ghost use Rattle.std.specs.Prelude.{◌≡◌, ◌≤◌, ◌<◌, IsTrue, IfOk};
ghost use Rattle.dw_plan.specs.Anchored.{anchored};
ghost use Rattle.dw_plan.specs.PlanLaws.{is_ruled};
ghost use Rattle.dw_page.specs.Placed.{Scanned};

use dw_base::OutOfMemory;
use dw_scan::{Ask, Batch, Resume, scan_batch};
use dw_tablet::{Steps, Tablet};
use std::alloc::Global;
use std::marker::Brand;
use std::sync::ledger::{Blank, Ledger};

fn scan_counted<L: Ledger>(
    alloc: Global,
    tablet: &Tablet,
    ask: &Ask,
    resume: &Resume,
    budget: u32,
    want: u32,
    blank: Blank,
) -> Result<Batch, OutOfMemory>
    requires anchored { IsTrue (anchored ask.now.query) }
    requires ruled { IsTrue (is_ruled ask.now.dict ask.now.query) }
    requires shard { resume.now.shard ≡ tablet.now.shard }
    requires budget { 1 ≤ budget }
    requires want { 1 ≤ want }
    requires named { blank.name ≡ L.name }
    requires parts { blank.parts ≡ L.parts }
    requires some { 0 < blank.parts }
    ensures { IfOk result (λ b. Scanned ask.now tablet.now resume.now b) }
{
    let mut steps = Steps::<L>::new(blank);
    scan_batch(alloc, tablet, ask, resume, budget, want, &mut steps)
}

/// Searches the shard of a tablet from a resume on, for a caller that counts no steps: at most `budget` documents are
/// read and `want` events found.
pub fn scan_quietly(
    alloc: Global,
    tablet: &Tablet,
    ask: &Ask,
    resume: &Resume,
    budget: u32,
    want: u32,
) -> Result<Batch, OutOfMemory>
    requires anchored { IsTrue (anchored ask.now.query) }
    requires ruled { IsTrue (is_ruled ask.now.dict ask.now.query) }
    requires shard { resume.now.shard ≡ tablet.now.shard }
    requires budget { 1 ≤ budget }
    requires want { 1 ≤ want }
    ensures { IfOk result (λ b. Scanned ask.now tablet.now resume.now b) }
{
    scan_counted::<Brand>(alloc, tablet, ask, resume, budget, want, Blank::new(1))
}
