ghost use Rattle.std.specs.Prelude.{◌≡◌, ◌≤◌, IsTrue, IfOk};
ghost use Rattle.dw_plan.specs.Anchored.{anchored};
ghost use Rattle.dw_plan.specs.PlanLaws.{is_ruled};
ghost use Rattle.dw_page.specs.Placed.{Scanned};

use crate::scan::scan_quietly;
use dw_base::OutOfMemory;
use dw_pool::Job;
use dw_scan::{Ask, Batch, Resume};
use dw_tablet::Tablet;
use std::alloc::Global;

/// The search of one open shard as a job. What the search asks is a fact of the job.
#[derive(Drop)]
pub struct ScanJob<'a> {
    pub alloc: Global,
    pub tablet: &'a Tablet,
    pub ask: &'a Ask,
    pub resume: &'a Resume,
    /// How many documents it may read.
    pub budget: u32,
    /// How many events it is to find.
    pub want: u32,
    pub ghost anchor: { IsTrue (anchored ask.now.query) },
    pub ghost ruled: { IsTrue (is_ruled ask.now.dict ask.now.query) },
    pub ghost named: { resume.now.shard ≡ tablet.now.shard },
    pub ghost spends: { 1 ≤ budget },
    pub ghost wants: { 1 ≤ want },
}

impl Job for ScanJob<'_> {
    type Out = Result<Batch, OutOfMemory>;

    ghost gives = { λ job out. IfOk out (λ b. Scanned job.ask.now job.tablet.now job.resume.now b) };

    fn work(&self) -> Result<Batch, OutOfMemory> {
        scan_quietly(
            self.alloc,
            self.tablet,
            self.ask,
            self.resume,
            self.budget,
            self.want,
        )
    }
}
