ghost use Rattle.std.specs.Prelude.{◌≡◌, ◌*◌, length};

use crate::{Claims, Gate, Job, Numbers, OpenGate, run_wave};
use std::hint::spin_loop;
use std::sync::atomic::{AtomicU64, Ordering};
use std::test::Fail;

// How often a job at a gate looks for the others before it goes on.
const TURNS: u64 = 100_000_000;

fn value_of(counter: &AtomicU64) -> u64 {
    counter.load(Ordering::SeqCst)
}

fn add(counter: &AtomicU64) {
    counter.fetch_add(1, Ordering::SeqCst);
}

// Whether the counter came to `wanted` within the turns.
fn reaches(counter: &AtomicU64, wanted: u64) -> bool {
    for _ in 0..TURNS {
        if value_of(counter) == wanted {
            return true;
        }
        spin_loop();
    }
    false
}

#[derive(Drop)]
struct Double(u32);

impl Job for Double {
    type Out = u64;

    ghost gives = { λ job out. out ≡ 2 * job.0 };

    fn work(&self) -> u64 {
        2 * u64::from(self.0)
    }
}

#[derive(Drop)]
struct Count<'a> {
    items: &'a [u32],
}

impl<'a> Job for Count<'a> {
    type Out = usize;

    ghost gives = { λ job out. out ≡ length job.items.now };

    fn work(&self) -> usize {
        self.items.len()
    }
}

// Each of two jobs waits until the other entered.
#[derive(Drop)]
struct Meeting {
    first: AtomicU64,
    second: AtomicU64,
    first_saw: AtomicU64,
    second_saw: AtomicU64,
}

impl Gate for Meeting {
    fn enter(&self, job: u32) {
        let (mine, other, saw) = if job == 0 {
            (&self.first, &self.second, &self.first_saw)
        } else {
            (&self.second, &self.first, &self.second_saw)
        };
        add(mine);
        if reaches(other, 1) {
            add(saw);
        }
    }
}

// One job waits until two others entered.
#[derive(Drop)]
struct Holding {
    held: u32,
    others: AtomicU64,
    saw: AtomicU64,
}

impl Gate for Holding {
    fn enter(&self, job: u32) {
        if job != self.held {
            add(&self.others);
        } else if reaches(&self.others, 2) {
            add(&self.saw);
        }
    }
}

#[test]
fn numbers_are_a_list(rt: HostRuntime) -> Result<(), Fail> {
    let mut numbers = Numbers::new(rt.alloc());
    numbers.put(7)?;
    numbers.put(9)?;
    let copy = numbers.copy()?;
    assert_eq!(rt; copy.as_slice(), [7, 9].as_slice());
    let numbers = Numbers::from_vec(numbers.into_vec());
    assert_eq!(rt; numbers.as_slice(), [7, 9].as_slice());
    Ok(())
}

#[test]
fn two_passes_claim_three_jobs(rt: HostRuntime) -> Result<(), Fail> {
    let (claims, mut passes) = Claims::new(rt.alloc(), 3, 2)?;
    let mut second = passes.pop().unwrap();
    let mut first = passes.pop().unwrap();
    assert!(rt; claims.claim(&mut first) == Some(0));
    assert!(rt; claims.claim(&mut first) == Some(1));
    assert!(rt; claims.claim(&mut second) == Some(2));
    assert!(rt; claims.claim(&mut first).is_none());
    assert!(rt; claims.claim(&mut second).is_none());
    assert!(rt; claims.claim(&mut first).is_none());
    assert_eq!(rt; first.list(), [0, 1].as_slice());
    passes.push(first)?;
    passes.push(second)?;
    let Ok(lists) = claims.close(passes) else {
        panic!(rt; "no memory")
    };
    assert_eq!(rt; lists[0].numbers.as_slice(), [0, 1].as_slice());
    assert_eq!(rt; lists[1].numbers.as_slice(), [2].as_slice());
    Ok(())
}

#[test]
fn no_job_is_claimed_of_none(rt: HostRuntime) -> Result<(), Fail> {
    let (claims, mut passes) = Claims::new(rt.alloc(), 0, 1)?;
    let mut only = passes.pop().unwrap();
    assert!(rt; claims.claim(&mut only).is_none());
    Ok(())
}

#[test]
fn two_jobs_meet_on_two_workers_alone(rt: HostRuntime) -> Result<(), Fail> {
    for (workers, wanted) in [(2, [1, 1]), (1, [0, 1])] {
        let gate = Meeting {
            first: AtomicU64::new(0),
            second: AtomicU64::new(0),
            first_saw: AtomicU64::new(0),
            second_saw: AtomicU64::new(0),
        };
        let jobs = vec![in rt.alloc(); Double(1), Double(2)]?;
        let outs = run_wave(&rt, rt.alloc(), jobs, workers, &gate)?;
        assert_eq!(rt; outs.as_slice(), [2, 4].as_slice());
        assert_eq!(rt;
            [value_of(&gate.first_saw), value_of(&gate.second_saw)],
            wanted,
            "on {workers}"
        );
    }
    Ok(())
}

#[test]
fn no_worker_waits_behind_a_held_job(rt: HostRuntime) -> Result<(), Fail> {
    for held in 0..3u32 {
        let gate = Holding {
            held,
            others: AtomicU64::new(0),
            saw: AtomicU64::new(0),
        };
        let jobs = vec![in rt.alloc(); Double(1), Double(2), Double(3)]?;
        let outs = run_wave(&rt, rt.alloc(), jobs, 2, &gate)?;
        assert_eq!(rt; outs.as_slice(), [2, 4, 6].as_slice());
        assert_eq!(rt; value_of(&gate.saw), 1, "where job {held} is held");
    }
    Ok(())
}

#[test]
fn any_number_of_workers_gives_the_same_outputs(rt: HostRuntime) -> Result<(), Fail> {
    for workers in [1, 2, 4, 16] {
        let mut jobs = Vec::new(rt.alloc());
        let mut wanted = Vec::new(rt.alloc());
        for i in 0..1000u32 {
            jobs.push(Double(i))?;
            wanted.push(2 * u64::from(i))?;
        }
        assert!(rt; jobs.len() == 1000);
        let outs = run_wave(&rt, rt.alloc(), jobs, workers, &OpenGate)?;
        assert_eq!(rt; outs.as_slice(), wanted.as_slice(), "on {workers}");
    }
    Ok(())
}

#[test]
fn jobs_may_borrow(rt: HostRuntime) -> Result<(), Fail> {
    let numbers = [1u32, 2, 3];
    let jobs = vec![in rt.alloc();
        Count {
            items: &numbers[..1]
        },
        Count { items: &numbers },
    ]?;
    let outs = run_wave(&rt, rt.alloc(), jobs, 2, &OpenGate)?;
    assert_eq!(rt; outs.as_slice(), [1, 3].as_slice());
    Ok(())
}
