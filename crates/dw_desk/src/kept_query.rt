ghost use Rattle.std.specs.Prelude.{IsTrue};
ghost use Rattle.dw_plan.specs.Anchored.{anchored};
ghost use Rattle.dw_plan.specs.PlanLaws.{is_ruled};

use dw_event::Days;
use dw_page::Mark;
use dw_scan::Ask;

/// A query that is asked of shards: an index leads to its answers, and each of its leaves has the rule of its dictionary.
#[derive(Debug, Drop)]
pub struct AnchoredAsk {
    pub ask: Ask,
    pub ghost anchor: { IsTrue (anchored ask.query) },
    pub ghost ruled: { IsTrue (is_ruled ask.dict ask.query) },
}

/// An open query as the desk keeps it, ready to be asked of a shard.
#[derive(Debug, Drop)]
pub struct KeptQuery {
    pub asked: AnchoredAsk,
    pub days: Days,
    /// How many events a page has.
    pub size: u32,
    /// Where the page that was shown last ended, or None before the first.
    pub mark: Option<Mark>,
}

impl KeptQuery {
    ghost use Rattle.std.specs.Prelude.{◌≡◌};
    ghost use Rattle.dw_desk.specs.Accounts.{with_mark};

    /// Takes no memory.
    pub fn set_mark(&mut self, mark: Mark)
        ensures { self.new ≡ with_mark mark self.old }
    {
        self.mark = Some(mark);
    }
}
