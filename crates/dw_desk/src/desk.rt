ghost use Rattle.std.specs.Prelude.{◌≡◌, ◌≢◌, ◌↔◌, ◌+◌, ◌-◌, ◌^◌, ◌<◌, ◌≤◌, ◌==◌, ◌||◌, not, true, false, IsTrue, ℕ, Bool, List, [], length, Some, None, Ok, Err, IfOk, OnOk, MatchOption};
ghost use Rattle.std.specs.Option.{option_copied};
ghost use Rattle.std.specs.FinMap as map;
ghost use Rattle.dw_outside.specs.Faults.{Rose};
ghost use Rattle.dw_outside.specs.Reads.{reading_of, with_read};
ghost use Rattle.dw_outside.specs.declared.keeper_error.KeeperError.{KeeperError};
ghost use Rattle.dw_derive.specs.World.{World};
ghost use Rattle.dw_derive.specs.Tables.{tables};
ghost use Rattle.dw_derive.specs.Lawful.{IsWorld};
ghost use Rattle.dw_event.specs.Take.{taken};
ghost use Rattle.dw_eval.specs.Bound.{bound};
ghost use Rattle.dw_dict.specs.Rules.{widens};
ghost use Rattle.dw_dict.specs.Dictionary.{rule_of};
ghost use Rattle.dw_plan.specs.Anchored.{anchored as is_anchored};
ghost use Rattle.dw_plan.specs.PlanLaws.{is_ruled};

use crate::OutOfMemory;
use crate::caller::Caller;
use crate::callers::{close, give, set_mark};
use crate::grants::{granted, may_be_granted, store_grant};
use crate::kept_query::{AnchoredAsk, KeptQuery};
use crate::loading::{Start, read_start};
use crate::storing::{refusal, store_rule};
use dw_base::Text;
use dw_derive::{grants_are_cells, grants_keep_worlds};
use dw_dict::{Dict, FieldRule};
use dw_eval::{BindError, NQuery, bind};
use dw_event::{Days, Types, UidMaker};
use dw_ingest::{IngestError, ingest};
use dw_jexl::Query;
use dw_outside::{Keeper, KeeperError};
use dw_page::{Settings, Turned, turn_page};
use dw_plan::{anchored, bound_are_ruled};
use dw_pool::Gate;
use dw_scan::Ask;
use dw_vis::Auths;
use dw_wire::{Records, Reply, Request, Why};
use std::alloc::Global;
use std::collections::BTreeMap;
use std::thread::Threads;

/// The state of the machine beside its tables: the number of the last batch, the rules of fields, the names that callers are
/// granted, and what is kept of each caller. It holds no event.
#[derive(Debug, Drop)]
pub struct Desk {
    last: u64,
    dict: Dict,
    grants: BTreeMap<Text, Auths>,
    callers: BTreeMap<Text, Caller>,
    ghost within: { last ≤ 2 ^ 63 - 1 },
}

impl Desk {
    ghost use Rattle.dw_desk.specs.State.{granted_to, start};
    ghost use Rattle.dw_desk.specs.Step.{allowed, asked_for, created, defined, dropped, ingested, paged, query_of, with_world};
    ghost use Rattle.dw_desk.specs.Stands.{AreMarked, HasRules, Holds, IsMarkedIn, Stands, account_of, grants_of, kept_of, state_of};
    ghost use Rattle.dw_desk.specs.Accounts.{query_kept};
    ghost use Rattle.dw_desk.specs.Reads.{PageReads, defines, page_asked, reads_nothing, with_definition, with_rule_reads};
    ghost use Rattle.dw_desk.specs.declared.kept_query.KeptQuery.{KeptQuery};
    ghost use Rattle.dw_event.specs.declared.reports.Shown.{Shown};
    ghost use Rattle.dw_desk.specs.Desk.{Answered, Does, IsFormed, IsOutcome, IsSame, KeepsRules, Meets, Replies, SameAccounts, is_done, is_accepted};
    ghost use Rattle.dw_base.specs.Callers.{is_caller};
    ghost use Rattle.dw_base.specs.FieldNames.{is_folded_name};
    ghost use Rattle.dw_derive.specs.MetaTables.{with_grant};
    ghost use Rattle.dw_ingest.specs.Going.{AreWellFormed};
    ghost use Rattle.dw_wire.specs.WellFormed.{IsAuthSet};
    ghost use Rattle.dw_wire.specs.declared.reply.Reply.TheVariants.{Granted};

    /// The desk that stands for the world of a keeper's tables, with no query open. Reads table 3 alone, and leaves the tables as
    /// they are.
    pub fn load<K: Keeper>(alloc: Global, keeper: &mut K) -> Result<Desk, KeeperError>
        ensures stands { (w : World) → IsWorld w → K.told keeper.old ≡ Some (tables w) → IfOk result (λ d. Stands (K.told keeper.new) d w × (state_of w d ≡ start w)) }
        ensures told { K.told keeper.new ≡ K.told keeper.old }
        ensures read { OnOk result (K.reads keeper.new ≡ with_read (K.reads keeper.old) (reading_of 3 [] [] 0)) }
        ensures counted { K.faults keeper.old ≤ K.faults keeper.new }
        ensures failed { result ≡ Err KeeperError.Failed → Rose (K.faults keeper.old) (K.faults keeper.new) }
    {
        let Start { dict, grants, last } = read_start(alloc, keeper)?;
        Ok(Desk {
            last,
            dict,
            grants,
            callers: BTreeMap::new(alloc),
        })
    }

    /// Answers one request. Want of memory and a fault of the store are replies, which change nothing.
    pub fn answer<R: Threads + Sync, K: Keeper, U: UidMaker, G: Gate>(
        &mut self,
        rt: &R,
        alloc: Global,
        keeper: &mut K,
        uids: &U,
        gate: &G,
        settings: &Settings,
        request: &Result<Request, Why>,
    ) -> Reply
        ensures answered { (w : World) → Stands (K.told keeper.old) self.old w → IsFormed request.now → Answered (K.told keeper.new) self.new (Replies U.digest (state_of w self.old) request.now result) }
        ensures refused { is_done result ≡ false → IsSame self.old self.new }
        ensures untold { is_done result ≡ false → K.told keeper.new ≡ K.told keeper.old }

        // Which reads it makes.
        ensures unread { reads_nothing (request.now) ≡ true → K.reads keeper.new ≡ K.reads keeper.old }
        ensures defined { defines (request.now) ≡ true → result ≡ Reply.Defined → K.reads keeper.new ≡ with_definition self.old (request.now) (K.reads keeper.old) }
        ensures undefined { defines (request.now) ≡ true → result ≡ Reply.NotEmpty → K.reads keeper.new ≡ K.reads keeper.old }
        ensures paged { (w : World) (p : KeptQuery × ℕ) (shown : List Shown) (more : Bool) → Stands (K.told keeper.old) self.old w → page_asked self.old.callers (request.now) ≡ Some p → 1 ≤ p.1 → result ≡ Reply.Paged shown more →
            PageReads w p settings.now.workers (K.reads keeper.old) (K.reads keeper.new) }

        ensures counted { K.faults keeper.old ≤ K.faults keeper.new }
        ensures failed { result ≡ Reply.StoreFault → Rose (K.faults keeper.old) (K.faults keeper.new) }
    {
        bound_are_ruled();
        match request {
            Err(why) => Reply::Malformed { why: *why },
            Ok(request) => self.carry_out(rt, alloc, keeper, uids, gate, settings, request),
        }
    }

    fn carry_out<R: Threads + Sync, K: Keeper, U: UidMaker, G: Gate>(
        &mut self,
        rt: &R,
        alloc: Global,
        keeper: &mut K,
        uids: &U,
        gate: &G,
        settings: &Settings,
        request: &Request,
    ) -> Reply
        ensures marks { (w : World) → Stands (K.told keeper.old) self.old w → AreMarked w self.new.callers }
        ensures does { (w : World) → Stands (K.told keeper.old) self.old w → IsFormed (Ok request.now) → Does (K.told keeper.new) self.new w (Replies U.digest (state_of w self.old) (Ok request.now) result) }
        ensures refused { is_done result ≡ false → IsSame self.old self.new }
        ensures untold { is_done result ≡ false → K.told keeper.new ≡ K.told keeper.old }
        ensures unread { reads_nothing (Ok request.now) ≡ true → K.reads keeper.new ≡ K.reads keeper.old }
        ensures defined { defines (Ok request.now) ≡ true → result ≡ Reply.Defined → K.reads keeper.new ≡ with_definition self.old (Ok request.now) (K.reads keeper.old) }
        ensures undefined { defines (Ok request.now) ≡ true → result ≡ Reply.NotEmpty → K.reads keeper.new ≡ K.reads keeper.old }
        ensures paged { (w : World) (p : KeptQuery × ℕ) (shown : List Shown) (more : Bool) → Stands (K.told keeper.old) self.old w → page_asked self.old.callers (Ok request.now) ≡ Some p → 1 ≤ p.1 → result ≡ Reply.Paged shown more →
            PageReads w p settings.now.workers (K.reads keeper.old) (K.reads keeper.new) }
        ensures counted { K.faults keeper.old ≤ K.faults keeper.new }
        ensures failed { result ≡ Reply.StoreFault → Rose (K.faults keeper.old) (K.faults keeper.new) }
    {
        match request {
            Request::Define { field, rule } => self.define(alloc, keeper, field, *rule),
            Request::Grant { caller, auths } => self.grant(alloc, keeper, caller, auths),
            Request::Ingest { records } => self.ingest(alloc, keeper, uids, records),
            Request::Create {
                caller,
                query,
                days,
                types,
                size,
                auths,
            } => self.create(alloc, caller, query, days, types, *size, auths.as_ref()),
            Request::Page {
                caller,
                number,
                page,
            } => self.page(rt, alloc, keeper, gate, settings, caller, *number, *page),
            Request::Close { caller, number } => self.close(caller, *number),
        }
    }

    /// Whether a field may have this rule now.
    fn may_define(&self, field: &Text, rule: &FieldRule) -> bool
        ensures { result ≡ ((self.now.last == 0) || widens rule.now (rule_of self.now.dict field.now)) }
    {
        self.last == 0 || rule.widens(&self.dict.look(field.as_str()))
    }

    /// The rules of fields with that of one more.
    fn with_rule(&self, field: &Text, rule: FieldRule) -> Result<Dict, OutOfMemory>
        ensures { IfOk result (λ dict. dict ≡ map.insert self.now.dict field.now rule) }
    {
        let mut dict = self.dict.copy()?;
        dict.define(field.as_str(), rule)?;
        Ok(dict)
    }

    fn define<K: Keeper>(
        &mut self,
        alloc: Global,
        keeper: &mut K,
        field: &Text,
        rule: FieldRule,
    ) -> Reply
        ensures does { (w : World) → Holds (K.told keeper.old) self.old w → IsTrue (is_folded_name field.now) →
            Does (K.told keeper.new) self.new w (Meets true (is_accepted (defined (state_of w self.old) field.now rule)) (defined (state_of w self.old) field.now rule) (state_of w self.old) result) }
        ensures accounts { SameAccounts self.old.callers self.new.callers }
        ensures refused { is_done result ≡ false → IsSame self.old self.new }
        ensures untold { is_done result ≡ false → K.told keeper.new ≡ K.told keeper.old }
        ensures defined { result ≡ Reply.Defined → K.reads keeper.new ≡ with_rule_reads self.old field.now rule (K.reads keeper.old) }
        ensures undefined { result ≡ Reply.NotEmpty → K.reads keeper.new ≡ K.reads keeper.old }
        ensures counted { K.faults keeper.old ≤ K.faults keeper.new }
        ensures failed { result ≡ Reply.StoreFault → Rose (K.faults keeper.old) (K.faults keeper.new) }
    {
        if !self.may_define(field, &rule) {
            return Reply::NotEmpty;
        }
        let Ok(dict) = self.with_rule(field, rule) else {
            return Reply::OutOfMemory;
        };
        match store_rule(alloc, keeper, &self.dict, self.last, field, rule) {
            Ok(()) => {
                self.dict = dict;
                Reply::Defined
            }
            Err(error) => refusal(error),
        }
    }

    fn grant<K: Keeper>(
        &mut self,
        alloc: Global,
        keeper: &mut K,
        caller: &Text,
        auths: &Auths,
    ) -> Reply
        ensures does { (w : World) → Holds (K.told keeper.old) self.old w → IsTrue (is_caller caller.now) → IsAuthSet auths.now →
            Does (K.told keeper.new) self.new w (Meets true true (record { reply = Granted; state = with_world (state_of w self.old) (with_grant w caller.now auths.now) }) (state_of w self.old) result) }
        ensures accounts { SameAccounts self.old.callers self.new.callers }
        ensures refused { is_done result ≡ false → IsSame self.old self.new }
        ensures untold { is_done result ≡ false → K.told keeper.new ≡ K.told keeper.old }
        ensures reads { K.reads keeper.new ≡ K.reads keeper.old }
        ensures counted { K.faults keeper.old ≤ K.faults keeper.new }
        ensures failed { result ≡ Reply.StoreFault → Rose (K.faults keeper.old) (K.faults keeper.new) }
    {
        grants_are_cells();
        grants_keep_worlds();
        if !may_be_granted(auths.as_slice()) {
            return Reply::Malformed { why: Why::Auths };
        }
        match store_grant(alloc, keeper, &mut self.grants, caller, auths) {
            Ok(()) => Reply::Granted,
            Err(error) => refusal(error),
        }
    }

    fn ingest<K: Keeper, U: UidMaker>(
        &mut self,
        alloc: Global,
        keeper: &mut K,
        uids: &U,
        records: &Records,
    ) -> Reply
        ensures does { (w : World) → Holds (K.told keeper.old) self.old w → AreWellFormed records.now →
            Does (K.told keeper.new) self.new w (Meets true (is_accepted (ingested (state_of w self.old) (taken U.digest w.events w.last records.now))) (ingested (state_of w self.old) (taken U.digest w.events w.last records.now)) (state_of w self.old) result) }
        ensures accounts { SameAccounts self.old.callers self.new.callers }
        ensures refused { is_done result ≡ false → IsSame self.old self.new }
        ensures untold { is_done result ≡ false → K.told keeper.new ≡ K.told keeper.old }
        ensures counted { K.faults keeper.old ≤ K.faults keeper.new }
        ensures failed { result ≡ Reply.StoreFault → Rose (K.faults keeper.old) (K.faults keeper.new) }
    {
        match ingest(
            alloc,
            keeper,
            uids,
            &self.dict,
            self.last,
            records.as_slice(),
        ) {
            Ok(report) => {
                if report.new > 0 {
                    self.last += 1;
                }
                Reply::Ingested { report }
            }
            Err(IngestError::Spent) => Reply::Spent,
            Err(IngestError::StoreFault) => Reply::StoreFault,
            Err(IngestError::OutOfMemory) => Reply::OutOfMemory,
        }
    }

    /// The names that a query of the caller is for.
    fn names_for(
        &self,
        alloc: Global,
        caller: &Text,
        asked: Option<&Auths>,
    ) -> Result<Auths, OutOfMemory>
        ensures { IfOk result (λ names. names ≡ allowed (granted_to (grants_of self.now.grants) caller.now) (option_copied asked.entry)) }
    {
        let Some(names) = granted(&self.grants, caller) else {
            return Ok(Auths::new(alloc));
        };
        match asked {
            None => names.copy(),
            Some(asked) => names.meet(alloc, asked),
        }
    }

    /// The query of what is held now.
    fn query_now(
        &self,
        alloc: Global,
        caller: &Text,
        query: NQuery,
        days: &Days,
        types: &Types,
        size: u32,
        asked: Option<&Auths>,
    ) -> Result<KeptQuery, OutOfMemory>
        requires anchor { IsTrue (is_anchored query) }
        requires ruled { IsTrue (is_ruled self.now.dict query) }
        ensures unmarked { IfOk result (λ kept. kept.mark ≡ None) }
        ensures query { IfOk result (λ kept. (w : World) → HasRules self.now w → query_kept kept ≡ query_of w caller.now query days.now types.now size (option_copied asked.entry)) }
    {
        let ask = Ask {
            query,
            dict: self.dict.copy()?,
            auths: self.names_for(alloc, caller, asked)?,
            snapshot: self.last,
            types: types.copy()?,
        };
        Ok(KeptQuery {
            asked: AnchoredAsk { ask },
            days: days.copy()?,
            size,
            mark: None,
        })
    }

    /// Opens a query under the caller's next number.
    fn open(&mut self, alloc: Global, caller: &Text, query: KeptQuery) -> Reply
        ensures does { (w : World) → Meets true false (created (state_of w self.old) caller.now (query_kept query)) (state_of w self.old) result (state_of w self.new) }
        ensures marks { (w : World) → IsMarkedIn w query → AreMarked w self.old.callers → AreMarked w self.new.callers }
        ensures rules { KeepsRules self.old self.new }
        ensures refused { is_done result ≡ false → SameAccounts self.old.callers self.new.callers }
        ensures store { result ≢ Reply.StoreFault }
    {
        match give(alloc, &mut self.callers, caller, query) {
            Ok(Some(number)) => Reply::Created { number },
            Ok(None) => Reply::Spent,
            Err(_) => Reply::OutOfMemory,
        }
    }

    fn create(
        &mut self,
        alloc: Global,
        caller: &Text,
        query: &Query,
        days: &Days,
        types: &Types,
        size: u32,
        asked: Option<&Auths>,
    ) -> Reply
        ensures does { (w : World) → HasRules self.old w → Meets true false (asked_for (state_of w self.old) caller.now days.now types.now size (option_copied asked.entry) (bound w.dict query.now)) (state_of w self.old) result (state_of w self.new) }
        ensures marks { (w : World) → HasRules self.old w → AreMarked w self.old.callers → AreMarked w self.new.callers }
        ensures rules { KeepsRules self.old self.new }
        ensures refused { is_done result ≡ false → SameAccounts self.old.callers self.new.callers }
        ensures store { result ≢ Reply.StoreFault }
    {
        bound_are_ruled();
        let bound = match bind(alloc, query, &self.dict) {
            Ok(bound) => bound,
            Err(BindError::Literal) => {
                return Reply::Malformed { why: Why::Literal };
            }
            Err(BindError::OutOfMemory) => return Reply::OutOfMemory,
        };
        if !anchored(&bound) {
            return Reply::Unanchored;
        }
        match self.query_now(alloc, caller, bound, days, types, size, asked) {
            Ok(query) => self.open(alloc, caller, query),
            Err(_) => Reply::OutOfMemory,
        }
    }

    /// The caller's open query of a number.
    fn open_query(&self, caller: &Text, number: u64) -> Option<&KeptQuery>
        ensures { MatchOption result ((kept_of self.now.callers caller.now).queries number ≡ None) (λ q. (kept_of self.now.callers caller.now).queries number ≡ Some q.now) }
    {
        self.callers.get(caller)?.query(number)
    }

    fn page<R: Threads + Sync, K: Keeper, G: Gate>(
        &mut self,
        rt: &R,
        alloc: Global,
        keeper: &mut K,
        gate: &G,
        settings: &Settings,
        caller: &Text,
        number: u64,
        page: u32,
    ) -> Reply
        ensures does { (w : World) → Stands (K.told keeper.old) self.old w →
            Meets (is_accepted (paged (state_of w self.old) page ((account_of self.old.callers caller.now).queries number))) (is_accepted (paged (state_of w self.old) page ((account_of self.old.callers caller.now).queries number)))
            (paged (state_of w self.old) page ((account_of self.old.callers caller.now).queries number)) (state_of w self.old) result (state_of w self.new) }
        ensures marks { (w : World) → Stands (K.told keeper.old) self.old w → AreMarked w self.new.callers }
        ensures rules { KeepsRules self.old self.new }
        ensures refused { is_done result ≡ false → SameAccounts self.old.callers self.new.callers }
        ensures paged { (w : World) (k : KeptQuery) (shown : List Shown) (more : Bool) → Stands (K.told keeper.old) self.old w → (kept_of self.old.callers caller.now).queries number ≡ Some k → 1 ≤ page → result ≡ Reply.Paged shown more →
            PageReads w (k, page) settings.now.workers (K.reads keeper.old) (K.reads keeper.new) }
        ensures told { K.told keeper.new ≡ K.told keeper.old }
        ensures counted { K.faults keeper.old ≤ K.faults keeper.new }
        ensures failed { result ≡ Reply.StoreFault → Rose (K.faults keeper.old) (K.faults keeper.new) }
    {
        let Some(query) = self.open_query(caller, number) else {
            return Reply::NotOwned;
        };
        let turned = turn_page(
            rt,
            alloc,
            keeper,
            gate,
            &query.asked.ask,
            &query.days,
            query.size,
            query.mark.as_ref(),
            page.max(1),
            settings,
        );
        match turned {
            Ok(turned) => {
                let Turned { shown, more, mark } = turned;
                set_mark(&mut self.callers, caller, number, mark);
                Reply::Paged { shown, more }
            }
            Err(error) => refusal(error),
        }
    }

    fn close(&mut self, caller: &Text, number: u64) -> Reply
        ensures does { (w : World) → IsOutcome (dropped (state_of w self.old) caller.now number ((account_of self.old.callers caller.now).queries number)) result (state_of w self.new) }
        ensures marks { (w : World) → AreMarked w self.old.callers → AreMarked w self.new.callers }
        ensures rules { KeepsRules self.old self.new }
        ensures refused { is_done result ≡ false → SameAccounts self.old.callers self.new.callers }
        ensures store { result ≢ Reply.StoreFault }
    {
        if close(&mut self.callers, caller, number) {
            Reply::Closed
        } else {
            Reply::NotOwned
        }
    }
}
