ghost use Rattle.std.specs.Prelude.{◌≡◌, [], ◌++◌, ◌∷◌, true, false, List, ℕ, ◌||◌, All, IfOk, OnOk, OnErr, IfSome, MatchOption, IsTrue, map as list_map};
ghost use Rattle.std.specs.Ordering.{nat_cmp};
ghost use Rattle.std.specs.Cmp.Lexicographic.{slice_cmp};
ghost use Rattle.std.specs.List.Sorted.{IsStrictlySortedBy};
ghost use Rattle.dw_outside.specs.Tables.{is_in_span};
ghost use Rattle.dw_tablet.specs.Places.{Ascends, IsApart, below, shard_start, shard_end, IsContent, IsGap, CoversAll, covers, in_span, with_span, with_run, run_end, run_span, at_most, onward};
ghost use Rattle.dw_tablet.specs.Held.{Agrees};

use crate::run::{keys_of, put_run, run_end};
use crate::span::{Span, covered_by, first_gap, is_below, with_span};
use crate::stored::Stored;
use dw_base::{Bytes, OutOfMemory, Text};
use dw_key::{Key, encode};
use dw_outside::Cell;
use std::alloc::Global;
use std::marker::Model;

/// The keys of one shard's cells in the table of cells, at the places that are covered.
#[derive(Drop)]
pub struct Tablet {
    shard: Text,
    start: Bytes,
    end: Bytes,
    spans: Vec<Span>,
    keys: Vec<Stored>,
}

impl Model for Tablet {
    ghost use Rattle.std.specs.Prelude.{◌≡◌};
    ghost use Rattle.dw_tablet.specs.Held.{Held, coded_held};
    ghost use Rattle.dw_tablet.specs.Places.{IsTablet, shard_start, shard_end};

    ghost Value = { Held };

    ghost coded = { coded_held };

    ghost view = { λ t. record { shard = t.shard; spans = t.spans.items; keys = t.keys.items } };

    ghost invariant = { λ t. (t.start ≡ shard_start t.shard) × (t.end ≡ shard_end t.shard) × IsTablet t.end t.spans.items t.keys.items };
}

/// The first place of a shard.
fn start_of(alloc: Global, shard: &Text) -> Result<Bytes, OutOfMemory>
    ensures { IfOk result (λ b. b ≡ shard_start shard.now) }
{
    let key = Key {
        row: Bytes::of(alloc, shard.as_str().as_bytes())?,
        family: Bytes::new(alloc),
        qualifier: Bytes::new(alloc),
        vis: Bytes::new(alloc),
        stamp: 0,
    };
    let mut code = encode(alloc, &key)?.into_vec();
    let len = code.len().saturating_sub(14);
    code.truncate(len);
    Ok(Bytes::from_vec(code))
}

/// The first place past a shard.
fn end_of(alloc: Global, start: &Bytes) -> Result<Bytes, OutOfMemory>
    ensures { (shard : List ℕ) → start.now ≡ shard_start shard → IfOk result (λ b. b ≡ shard_end shard) }
{
    let mut end = Vec::from_slice(alloc, start.as_slice())?;
    end.pop();
    end.push(1)?;
    Ok(Bytes::from_vec(end))
}

impl Tablet {
    /// Covers nothing.
    pub fn empty(alloc: Global, shard: &Text) -> Result<Tablet, OutOfMemory>
        ensures shard { IfOk result (λ t. t.shard ≡ shard.now) }
        ensures spans { IfOk result (λ t. t.spans ≡ []) }
        ensures keys { IfOk result (λ t. t.keys ≡ []) }
        ensures agrees { IfOk result (λ t. (content : List (List ℕ)) → IsContent shard.now content → Agrees t content) }
    {
        let start = start_of(alloc, shard)?;
        let end = end_of(alloc, &start)?;
        Ok(Tablet {
            shard: shard.copy()?,
            start,
            end,
            spans: Vec::new(alloc),
            keys: Vec::new(alloc),
        })
    }

    /// Covers its whole shard, of which these are the cells.
    pub fn of(alloc: Global, shard: &Text, cells: Vec<Cell>) -> Result<Tablet, OutOfMemory>
        requires ascends { IsStrictlySortedBy (slice_cmp nat_cmp) (list_map (λ c. c.key) cells.items) }
        requires bounds { All (λ c. IsTrue (is_in_span (shard_start shard.now) (shard_end shard.now) c.key)) cells.items }
        ensures shard { IfOk result (λ t. t.shard ≡ shard.now) }
        ensures covers { IfOk result (λ t. CoversAll t.spans (shard_start shard.now) (shard_end shard.now)) }
        ensures agrees { IfOk result (λ t. Agrees t (list_map (λ c. c.key) cells.items)) }
    {
        let mut tablet = Tablet::empty(alloc, shard)?;
        let start = tablet.start.copy()?;
        tablet.load(start.as_slice(), 0, cells)?;
        Ok(tablet)
    }

    /// The shard of its cells.
    pub fn shard(&self) -> &Text
        ensures { result.now ≡ self.now.shard }
    {
        &self.shard
    }

    /// The first place of its shard.
    pub fn start(&self) -> &[u8]
        ensures { result.now ≡ shard_start self.now.shard }
    {
        self.start.as_slice()
    }

    /// The first place past its shard.
    pub fn end(&self) -> &[u8]
        ensures { result.now ≡ shard_end self.now.shard }
    {
        self.end.as_slice()
    }

    /// The keys of its cells.
    pub(crate) fn keys(&self) -> &[Stored]
        ensures keys { result.now ≡ self.now.keys }
        ensures ascends { Ascends self.now.keys }
    {
        self.keys.as_slice()
    }

    /// The spans that are covered.
    pub(crate) fn spans(&self) -> &[Span]
        ensures spans { result.now ≡ self.now.spans }
        ensures apart { IsApart self.now.spans }
    {
        self.spans.as_slice()
    }

    /// Whether the place is covered.
    pub fn covers(&self, place: &[u8]) -> bool
        ensures { result ≡ covers self.now.spans place.now }
    {
        covered_by(self.spans.as_slice(), place)
    }

    /// The first place at or after this one that is not covered; None where there is none in the shard.
    pub fn gap_at<'t>(&'t self, place: &'t [u8]) -> Option<&'t [u8]>
        requires { below place.now (shard_end self.now.shard) ≡ true }
        ensures some { IfSome result (λ q. IsGap self.now.spans place.now q.now) }
        ensures inside { IfSome result (λ q. below q.now (shard_end self.now.shard) ≡ true) }
        ensures none { MatchOption result (CoversAll self.now.spans place.now (shard_end self.now.shard)) (λ _. Unit {0}) }
    {
        let first = first_gap(self.spans.as_slice(), place);
        if is_below(first, self.end.as_slice()) {
            return Some(first);
        }
        None
    }

    /// Takes a run of cells that begins at `from`: it ends after its last key where `limit` cells came
    /// and `limit` is not 0, and else with the shard. After an error the tablet is as before.
    pub fn load(&mut self, from: &[u8], limit: u32, cells: Vec<Cell>) -> Result<(), OutOfMemory>
        requires place { below from.now (shard_end self.old.shard) ≡ true }
        requires ascends { IsStrictlySortedBy (slice_cmp nat_cmp) (list_map (λ c. c.key) cells.items) }
        requires bounds { All (λ c. IsTrue (is_in_span from.now (shard_end self.old.shard) c.key)) cells.items }
        ensures shard { self.new.shard ≡ self.old.shard }
        ensures spans { OnOk result (self.new.spans ≡ with_span self.old.spans (run_span from.now (shard_end self.old.shard) limit (list_map (λ c. c.key) cells.items))) }
        ensures keys { OnOk result (self.new.keys ≡ with_run from.now (run_end (shard_end self.old.shard) limit (list_map (λ c. c.key) cells.items)) (list_map (λ c. c.key) cells.items) self.old.keys) }
        // What is covered now,
        ensures covers { OnOk result ((p : List ℕ) → covers self.new.spans p ≡ (in_span (run_span from.now (shard_end self.old.shard) limit (list_map (λ c. c.key) cells.items)) p || covers self.old.spans p)) }
        // and that it stays true to each content that the run was read from.
        ensures agrees { OnOk result ((content : List (List ℕ)) → Agrees self.old content → list_map (λ c. c.key) cells.items ≡ at_most limit (onward from.now content) → Agrees self.new content) }
        ensures err { OnErr result (self.new ≡ self.old) }
    {
        let alloc = *self.keys.allocator();
        let run = keys_of(alloc, cells)?;
        let upto = run_end(alloc, &self.end, limit, run.as_slice())?;
        let span = Span {
            from: Bytes::of(alloc, from)?,
            upto: upto.copy()?,
        };
        let spans = with_span(alloc, self.spans.as_slice(), span)?;
        put_run(&mut self.keys, from, upto.as_slice(), run)?;
        self.spans = spans;
        Ok(())
    }
}
