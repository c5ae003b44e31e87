ghost use Rattle.std.specs.Prelude.{◌≡◌, ◌↔◌, ◌≤◌, [], ◌∷◌, ◌++◌, Some, None, true, false, map, slice_get, IfOk, IsErr, OnErr};
ghost use Rattle.dw_outside.specs.Faults.{Rose};
ghost use Rattle.dw_outside.specs.Memory.{memory_meaning, FailsNext};
ghost use Rattle.dw_outside.specs.Doors.{admitted, lets_out, before_links, after_links, NoneToCome, door_after};

use crate::OutOfMemory;
use crate::door::Door;
use crate::mem_link::MemLink;
use crate::traits::Failed;
use std::alloc::Global;
use std::collections::VecDeque;
use std::marker::Model;

/// A door in memory, whose calls of `admit` that are named fail. Calls are numbered from 1.
#[derive(Debug, Drop)]
pub struct MemDoor {
    coming: VecDeque<MemLink>,
    past: Vec<MemLink>,
    out: bool,
    fail_calls: Vec<u64>,
    calls: u64,
    faults: u64,
}

impl Model for MemDoor {
    ghost use Rattle.std.specs.Prelude.{◌≤◌, ◌+◌, vec_len, vec_capacity};
    ghost use Rattle.std.specs.VecDeque.{deque_len};
    ghost use Rattle.dw_outside.specs.Doors.{MemoryDoor, out_count};

    ghost Value = { MemoryDoor };

    ghost view = { λ d. record {
      coming = d.coming.items;
      past = d.past.items;
      out = d.out;
      fail_calls = d.fail_calls.items;
      calls = d.calls;
      faults = d.faults;
    } };

    ghost invariant = { λ d. vec_len d.past + deque_len d.coming + out_count d.out ≤ vec_capacity d.past };
}

impl MemDoor {
    /// A door with these links to come. It takes its memory at once.
    pub fn new(
        alloc: Global,
        links: Vec<MemLink>,
        fail_calls: Vec<u64>,
    ) -> Result<MemDoor, OutOfMemory>
        ensures coming { IfOk result (λ d. d.coming ≡ links.items) }
        ensures past { IfOk result (λ d. d.past ≡ []) }
        ensures out { IfOk result (λ d. d.out ≡ false) }
        ensures fail_calls { IfOk result (λ d. d.fail_calls ≡ fail_calls.items) }
        ensures calls { IfOk result (λ d. d.calls ≡ 0) }
        ensures faults { IfOk result (λ d. d.faults ≡ 0) }
    {
        let past = Vec::with_capacity(alloc, links.len())?;
        let coming = VecDeque::from_vec(links);
        Ok(MemDoor {
            coming,
            past,
            out: false,
            fail_calls,
            calls: 0,
            faults: 0,
        })
    }

    /// The links handed back, in order.
    pub fn past(&self) -> &[MemLink]
        ensures { result.now ≡ self.now.past }
    {
        self.past.as_slice()
    }
}

impl Door for MemDoor {
    type L = MemLink;

    ghost coming = { λ d. Some (map memory_meaning d.coming) };

    ghost past = { λ d. Some (map memory_meaning d.past) };

    ghost is_out = { λ d. d.out };

    ghost faults = { λ d. d.faults };

    /// Fails at the named calls, and else gives the next link.
    fn admit(&mut self) -> Result<Option<MemLink>, Failed>
        requires { self.old.out ≡ false }
        ensures coming { Some (map memory_meaning self.old.coming) ≡ before_links (admitted memory_meaning result) (Some (map memory_meaning self.new.coming)) }
        ensures none { IfOk result (λ link. link ≡ None → NoneToCome (Some (map memory_meaning self.new.coming))) }
        ensures out { self.new.out ≡ lets_out result }
        ensures past { Some (map memory_meaning self.new.past) ≡ Some (map memory_meaning self.old.past) }
        ensures counted { self.old.faults ≤ self.new.faults }
        ensures failed { OnErr result (Rose self.old.faults self.new.faults) }

        // It fails at the named calls and at no others, and gives the first link as it is.
        ensures fails { IsErr result ↔ FailsNext self.old.fail_calls self.old.calls }
        ensures first { IfOk result (λ link. link ≡ slice_get self.old.coming 0) }
        ensures after { self.new ≡ door_after self.old result }
    {
        self.calls = self.calls.saturating_add(1);
        if self.fail_calls.contains(&self.calls) {
            self.faults = self.faults.saturating_add(1);
            return Err(Failed);
        }
        match self.coming.pop_front() {
            None => Ok(None),
            Some(link) => {
                self.out = true;
                Ok(Some(link))
            }
        }
    }

    /// Keeps the link behind those that were handed back before.
    fn dismiss(&mut self, link: MemLink)
        requires { self.old.out ≡ true }
        ensures past { Some (map memory_meaning self.new.past) ≡ after_links (Some (map memory_meaning self.old.past)) (memory_meaning link ∷ []) }
        ensures out { self.new.out ≡ false }
        ensures coming { Some (map memory_meaning self.new.coming) ≡ Some (map memory_meaning self.old.coming) }
        ensures counted { self.old.faults ≤ self.new.faults }

        // The link itself is handed back.
        ensures after { self.new ≡ record self.old { past = self.old.past ++ link ∷ []; out = false } }
    {
        self.past.push_reserved(link);
        self.out = false;
    }
}
