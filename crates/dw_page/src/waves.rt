ghost use Rattle.std.specs.Prelude.{◌≡◌, ◌<◌, ◌≤◌, length, filter, IsTrue, IfOk};
ghost use Rattle.std.specs.List.{AllZip};
ghost use Rattle.dw_plan.specs.Anchored.{anchored};
ghost use Rattle.dw_plan.specs.PlanLaws.{is_ruled};
ghost use Rattle.dw_page.specs.Placed.{is_open, IsScanOf};
ghost use Rattle.dw_page.specs.Waves.{IsJobOf};

use crate::job::ScanJob;
use crate::slot::Slot;
use dw_base::OutOfMemory;
use dw_pool::{Gate, run_wave};
use dw_scan::{Ask, Batch};
use std::alloc::Global;
use std::thread::Threads;

/// A job for each open slot, in order.
fn jobs_of<'a>(
    alloc: Global,
    slots: &'a [Slot],
    ask: &'a Ask,
    budget: u32,
    want: u32,
) -> Result<Vec<ScanJob<'a>>, OutOfMemory>
    requires anchored { IsTrue (anchored ask.now.query) }
    requires ruled { IsTrue (is_ruled ask.now.dict ask.now.query) }
    requires budget { 1 ≤ budget }
    requires want { 1 ≤ want }
    ensures { IfOk result (λ jobs. AllZip (IsJobOf ask.now) (filter is_open slots.now) jobs.items) }
{
    let mut jobs = Vec::with_capacity(alloc, slots.len())?;
    for slot in slots {
        if let Some(tablet) = &slot.tablet {
            let resume = &slot.resume;
            jobs.push(ScanJob {
                alloc,
                tablet,
                ask,
                resume,
                budget,
                want,
            })?;
        }
    }
    Ok(jobs)
}

/// Searches the shard of each open slot, in order, on at most so many threads, each search through the gate.
pub fn run_batches<R: Threads + Sync, G: Gate>(
    rt: &R,
    alloc: Global,
    gate: &G,
    slots: &[Slot],
    ask: &Ask,
    workers: u32,
    budget: u32,
    want: u32,
) -> Result<Vec<Result<Batch, OutOfMemory>>, OutOfMemory>
    requires anchored { IsTrue (anchored ask.now.query) }
    requires ruled { IsTrue (is_ruled ask.now.dict ask.now.query) }
    requires few { length slots.now ≤ 16 }
    requires at_least { 0 < workers }
    requires at_most { workers ≤ 16 }
    requires budget { 1 ≤ budget }
    requires want { 1 ≤ want }
    ensures { IfOk result (λ outs. AllZip (IsScanOf ask.now) (filter is_open slots.now) outs.items) }
{
    let jobs = jobs_of(alloc, slots, ask, budget, want)?;
    run_wave(rt, alloc, jobs, workers, gate)
}
