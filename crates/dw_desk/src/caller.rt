ghost use Rattle.std.specs.Prelude.{◌≡◌, ◌≢◌, ◌+◌, ◌-◌, ◌^◌, ◌≤◌, Some, None, IfOk, OnErr, MatchOption, is_some};
ghost use Rattle.dw_ingest.specs.Ingested.{last_number};

use crate::OutOfMemory;
use crate::kept_query::KeptQuery;
use dw_page::Mark;
use std::alloc::Global;
use std::collections::BTreeMap;

/// The last number of a query.
const LAST_NUMBER: u64 = 9_223_372_036_854_775_807;

/// What is kept of one caller.
#[derive(Debug, Drop)]
pub struct Caller {
    /// The number that was given last; the first is 1.
    given: u64,
    queries: BTreeMap<u64, KeptQuery>,
    ghost within: { given ≤ 2 ^ 63 - 1 },
}

impl Caller {
    ghost use Rattle.dw_desk.specs.State.{nobody};
    ghost use Rattle.dw_desk.specs.Accounts.{entry_account, opened, closed, marked};

    pub fn new(alloc: Global) -> Caller
        ensures { entry_account result ≡ nobody }
    {
        Caller {
            given: 0,
            queries: BTreeMap::new(alloc),
        }
    }

    /// Opens a query under the next number, or gives None where no number is left.
    pub fn give(&mut self, query: KeptQuery) -> Result<Option<u64>, OutOfMemory>
        ensures given { IfOk result (λ number. MatchOption number ((self.old.given ≡ last_number) × (entry_account self.new ≡ entry_account self.old))
            (λ n. (self.old.given ≢ last_number) × (n ≡ self.old.given + 1) × (entry_account self.new ≡ opened query (entry_account self.old)))) }
        ensures err { OnErr result (entry_account self.new ≡ entry_account self.old) }
    {
        if self.given >= LAST_NUMBER {
            return Ok(None);
        }
        let number = self.given + 1;
        self.queries.insert(number, query)?;
        self.given = number;
        Ok(Some(number))
    }

    /// The open query of a number.
    pub fn query(&self, number: u64) -> Option<&KeptQuery>
        ensures { MatchOption result ((entry_account self.now).queries number ≡ None) (λ q. (entry_account self.now).queries number ≡ Some q.now) }
    {
        self.queries.get(&number)
    }

    /// Sets the mark of the query of a number, where there is one. Takes no memory.
    pub fn set_mark(&mut self, number: u64, mark: Mark)
        ensures { entry_account self.new ≡ marked number mark (entry_account self.old) }
    {
        match self.queries.get_mut(&number) {
            Some(query) => query.set_mark(mark),
            None => (),
        }
    }

    /// Drops the query of a number, and says whether there was one.
    pub fn close(&mut self, number: u64) -> bool
        ensures found { result ≡ is_some ((entry_account self.old).queries number) }
        ensures closed { entry_account self.new ≡ closed number (entry_account self.old) }
    {
        self.queries.remove(&number).is_some()
    }
}
