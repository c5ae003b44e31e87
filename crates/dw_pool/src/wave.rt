// Waves of jobs, which threads claim from one counter.
ghost use Rattle.std.specs.Prelude.{◌≡◌, ◌<◌, ◌≤◌, ◌^◌, [], ◌∷◌, IfOk, length, vec_len, vec_capacity, map, replicate, Some, None, IsSome, slice_set};
ghost use Rattle.std.specs.List.{All, AllZip, flat_map};
ghost use Rattle.dw_pool.specs.Counter.{fresh};
ghost use Rattle.dw_pool.specs.Waves.{Works, HasWorked, HasRoom, placed};

use crate::{Claimed, Claims, OutOfMemory, Pass};
use std::alloc::Global;
use std::thread;
use std::thread::Threads;

/// Work whose output is related to it. Its jobs are shared among threads.
pub trait Job: Send + Sync + Drop {
    type Out: Send + Drop;

    /// The job may give this output.
    ghost gives: { Self → Self.Out → Type 0 };

    fn work(&self) -> Self::Out
        ensures { gives self.now result };
}

/// Called before each job, with its number from 0.
pub trait Gate: Sync {
    fn enter(&self, job: u32);
}

/// A gate that does nothing.
pub struct OpenGate;

impl Gate for OpenGate {
    fn enter(&self, _job: u32) {}
}

/// A pass, and an output for each number that was claimed with it.
#[derive(Drop)]
pub(crate) struct Worker<O> {
    pub(crate) pass: Pass,
    pub(crate) pairs: Vec<(u32, O)>,
}

// Claims jobs and runs them, until there is none.
fn work_through<J: Job, G: Gate>(claims: &Claims, jobs: &[J], gate: &G, worker: &mut Worker<J::Out>)
    requires jobs { claims.now.jobs ≡ length jobs.now }
    requires works { Works J.gives jobs.now claims.now worker.old }
    ensures { HasWorked J.gives jobs.now claims.now worker.new }
{
    while let Some(number) = claims.claim(&mut worker.pass) {
        gate.enter(number);
        let out = jobs[number as usize].work();
        worker.pairs.push_reserved((number, out));
    }
}

// A worker that has done nothing, with room for a pair for each job.
fn worker_of<J: Job>(
    alloc: Global,
    claims: &Claims,
    jobs: &[J],
    pass: Pass,
) -> Result<Worker<J::Out>, OutOfMemory>
    requires { pass ≡ fresh claims.now }
    ensures { IfOk result (Works J.gives jobs.now claims.now) }
{
    let pairs = Vec::with_capacity(alloc, jobs.len())?;
    Ok(Worker { pass, pairs })
}

// A worker for each pass.
fn team_of<J: Job>(
    alloc: Global,
    claims: &Claims,
    jobs: &[J],
    passes: Vec<Pass>,
) -> Result<Vec<Worker<J::Out>>, OutOfMemory>
    requires { All (λ p. p ≡ fresh claims.now) passes.items }
    ensures count { IfOk result (λ team. length team.items ≡ length passes.items) }
    ensures works { IfOk result (λ team. All (Works J.gives jobs.now claims.now) team.items) }
{
    let mut team = Vec::with_capacity(alloc, passes.len())?;
    for pass in passes {
        team.push(worker_of(alloc, claims, jobs, pass)?)?;
    }
    Ok(team)
}

// Each worker has a thread of its own, where one can be made.
fn work_side_by_side<R: Threads + Sync, J: Job, G: Gate>(
    rt: &R,
    claims: &Claims,
    jobs: &[J],
    gate: &G,
    workers: u32,
    team: &mut [Worker<J::Out>],
)
    requires some { 0 < workers }
    requires jobs { claims.now.jobs ≡ length jobs.now }
    requires works { All (Works J.gives jobs.now claims.now) team.old }
    ensures { All (HasWorked J.gives jobs.now claims.now) team.new }
{
    thread::for_each_mut(
        rt,
        team,
        workers as usize,
        &|_number: usize, worker: &mut Worker<J::Out>|
            requires { (claims.now.jobs ≡ length jobs.now) × Works J.gives jobs.now claims.now worker.now }
            ensures { HasWorked J.gives jobs.entry.now claims.entry.now worker.exit.now }
        { work_through(claims, jobs, gate, worker) },
    );
}

// No output yet at each of so many places.
fn vacant<O: Drop>(alloc: Global, count: usize) -> Result<Vec<Option<O>>, OutOfMemory>
    ensures { IfOk result (λ slots. slots.items ≡ replicate count None) }
{
    let mut slots = Vec::with_capacity(alloc, count)?;
    for _slot in 0..count {
        slots.push(None)?;
    }
    Ok(slots)
}

fn place_one<O: Drop>(slots: &mut Vec<Option<O>>, number: u32, out: O)
    requires { number < length slots.old.items }
    ensures { slots.new.items ≡ slice_set slots.old.items number (Some out) }
{
    slots[number as usize] = Some(out);
}

// Puts each output at the place of its number.
fn place<O: Drop>(slots: &mut Vec<Option<O>>, pairs: Vec<(u32, O)>)
    requires { All (λ p. p.0 < length slots.old.items) pairs.items }
    ensures places { slots.new.items ≡ placed slots.old.items pairs.items }
    ensures count { length slots.new.items ≡ length slots.old.items }
{
    for (number, out) in pairs {
        place_one(slots, number, out);
    }
}

// Takes the workers apart: their passes, and their outputs at the places of their numbers.
fn collect<O: Drop>(team: Vec<Worker<O>>, passes: &mut Vec<Pass>, slots: &mut Vec<Option<O>>)
    requires empty { passes.old.items ≡ [] }
    requires room { length team.items ≤ vec_capacity passes.old }
    requires inside { All (λ w. All (λ p. p.0 < length slots.old.items) w.pairs.items) team.items }
    ensures passes { passes.new.items ≡ map (λ w. w.pass) team.items }
    ensures slots { slots.new.items ≡ placed slots.old.items (flat_map (λ w. w.pairs.items) team.items) }
    ensures count { length slots.new.items ≡ length slots.old.items }
{
    for worker in team {
        let Worker { pass, pairs } = worker;
        place(slots, pairs);
        passes.push_reserved(pass);
    }
}

// The outputs, of which none is missing, in the room of `outs`.
fn filled<O: Drop>(slots: Vec<Option<O>>, outs: Vec<O>) -> Vec<O>
    requires some { All IsSome slots.items }
    requires empty { outs.items ≡ [] }
    requires room { length slots.items ≤ vec_capacity outs }
    ensures { map Some result.items ≡ slots.items }
{
    let mut outs = outs;
    for slot in slots {
        outs.push_reserved(slot.unwrap());
    }
    outs
}

// Room for all that a wave needs once its jobs have run.
#[derive(Drop)]
pub(crate) struct Room<O> {
    pub(crate) slots: Vec<Option<O>>,
    pub(crate) passes: Vec<Pass>,
    pub(crate) lists: Vec<Claimed>,
    pub(crate) outs: Vec<O>,
}

fn room_for<O: Drop>(alloc: Global, jobs: usize, passes: usize) -> Result<Room<O>, OutOfMemory>
    ensures { IfOk result (HasRoom jobs passes) }
{
    Ok(Room {
        slots: vacant(alloc, jobs)?,
        passes: Vec::with_capacity(alloc, passes)?,
        lists: Vec::with_capacity(alloc, passes)?,
        outs: Vec::with_capacity(alloc, jobs)?,
    })
}

// What the workers gave, in the order of the jobs. It takes no memory.
fn in_order<J: Job>(
    claims: Claims,
    jobs: &[J],
    team: Vec<Worker<J::Out>>,
    room: Room<J::Out>,
) -> Vec<J::Out>
    requires jobs { claims.jobs ≡ length jobs.now }
    requires all { length team.items ≡ claims.passes }
    requires worked { All (HasWorked J.gives jobs.now claims) team.items }
    requires room { HasRoom (length jobs.now) (length team.items) room }
    ensures { AllZip J.gives jobs.now result.items }
{
    let Room {
        mut slots,
        mut passes,
        lists,
        outs,
    } = room;
    collect(team, &mut passes, &mut slots);
    let _lists = claims.close_into(passes, lists);
    filled(slots, outs)
}

// Runs the jobs in their threads. It takes no memory.
fn run_team<R: Threads + Sync, J: Job, G: Gate>(
    rt: &R,
    claims: Claims,
    jobs: &[J],
    gate: &G,
    workers: u32,
    team: Vec<Worker<J::Out>>,
    room: Room<J::Out>,
) -> Vec<J::Out>
    requires some { 0 < workers }
    requires jobs { claims.jobs ≡ length jobs.now }
    requires all { length team.items ≡ claims.passes }
    requires works { All (Works J.gives jobs.now claims) team.items }
    requires room { HasRoom (length jobs.now) (length team.items) room }
    ensures { AllZip J.gives jobs.now result.items }
{
    let mut team = team;
    work_side_by_side(rt, &claims, jobs, gate, workers, team.as_mut_slice());
    in_order(claims, jobs, team, room)
}

/// Runs the jobs on at most so many workers, each in a thread of its own where one can be made, and no more workers
/// than jobs. Each worker claims the next job until there is none. Output i is what job i gives, one for each job. All
/// memory is taken before the first job runs: where there is none, no job has run.
pub fn run_wave<R: Threads + Sync, J: Job, G: Gate>(
    rt: &R,
    alloc: Global,
    jobs: Vec<J>,
    workers: u32,
    gate: &G,
) -> Result<Vec<J::Out>, OutOfMemory>
    requires some { 0 < workers }
    requires at_most { workers ≤ 16 }
    requires few { vec_len jobs < 2 ^ 32 }
    ensures { IfOk result (λ outs. AllZip J.gives jobs.items outs.items) }
{
    let workers = workers.min((jobs.len() as u32).max(1));
    let (claims, passes) = Claims::new(alloc, jobs.len() as u32, workers)?;
    let team = team_of(alloc, &claims, jobs.as_slice(), passes)?;
    let room = room_for(alloc, jobs.len(), team.len())?;
    Ok(run_team(rt, claims, jobs.as_slice(), gate, workers, team, room))
}
