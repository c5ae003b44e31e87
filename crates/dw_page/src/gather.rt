ghost use Rattle.std.specs.Prelude.{◌≡◌, ◌↔◌, ◌⊎◌, ◌≤◌, ◌<◌, ◌++◌, ◌∷◌, [], ◌+◌, ◌-◌, ◌^◌, List, Bool, true, false, IsTrue, length, min, take, OnOk};
ghost use Rattle.dw_event.specs.declared.reports.Shown.{Shown};
ghost use Rattle.dw_page.specs.Joined.{Joined};

use dw_base::{Listed, OutOfMemory};
use dw_event::Shown;

/// A page while it is gathered: so many events are still passed over, so many are shown at most, and `more` says that
/// one event came besides, which is not kept.
#[derive(Debug, Drop)]
pub struct Gather {
    pub skip: u64,
    pub size: u32,
    pub kept: Listed<Shown>,
    pub more: bool,
}

impl Gather {
    /// The next event comes.
    #[tactic(auto, using(crate::proofs::JoinedLemmas::joined_full, crate::proofs::JoinedLemmas::joined_skip, crate::proofs::JoinedLemmas::joined_keep, crate::proofs::JoinedLemmas::joined_more))]
    pub fn take_in(&mut self, event: Shown) -> Result<(), OutOfMemory>
        ensures joined { OnOk result ((page rest : List Shown) → Joined page (event ∷ rest) self.old → Joined page rest self.new) }
        ensures size { self.new.size ≡ self.old.size }
    {
        if self.more {
            return Ok(());
        }
        if self.skip > 0 {
            self.skip -= 1;
            return Ok(());
        }
        if self.kept.as_slice().len() < self.size as usize {
            self.kept.put(event)?;
            return Ok(());
        }
        self.more = true;
        Ok(())
    }

    /// The next events come.
    #[tactic(auto, using(crate::proofs::JoinedLemmas::joined_next))]
    pub fn take_all(&mut self, events: Listed<Shown>) -> Result<(), OutOfMemory>
        ensures joined { OnOk result ((page rest : List Shown) → Joined page (events ++ rest) self.old → Joined page rest self.new) }
        ensures size { self.new.size ≡ self.old.size }
    {
        for event in events.into_vec() {
            self.take_in(event)?;
        }
        Ok(())
    }

    /// How many events the first shard is asked for: those to pass over, those that the page has room for, and one.
    pub fn want(&self) -> u32
        requires { self.now.more ≡ false }
        ensures { result ≡ min (self.now.skip + (self.now.size - length self.now.kept) + 1) (2 ^ 32 - 1) }
    {
        let room = (self.size as usize).saturating_sub(self.kept.as_slice().len());
        let most = (u32::MAX - 1) as u64;
        if self.skip > most || room as u64 > most - self.skip {
            return u32::MAX;
        }
        (self.skip + room as u64 + 1) as u32
    }

    /// The page, where nothing remains or more than the page has come.
    pub fn finish(self) -> (Listed<Shown>, bool)
        ensures shown { (page rest : List Shown) → Joined page rest self → (self.more ≡ true) ⊎ (rest ≡ []) → result.0 ≡ take self.size page }
        ensures more { (page rest : List Shown) → Joined page rest self → (self.more ≡ true) ⊎ (rest ≡ []) → (IsTrue result.1 ↔ self.size < length page) }
    {
        let Gather {
            skip: _,
            size: _,
            kept,
            more,
        } = self;
        (kept, more)
    }
}
