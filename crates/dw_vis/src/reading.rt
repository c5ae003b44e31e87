//! Reads a text from left to right, as whether it is seen.

ghost use Rattle.std.specs.Prelude.{◌≡◌, ◌+◌, ◌≤◌, ◌<◌, Some, None, [], length, false};
ghost use Rattle.dw_vis.specs.Grammar.{is_bare, needs_escape};
ghost use Rattle.dw_vis.specs.Depth.{is_deep};
ghost use Rattle.dw_vis.specs.Reading as spec;
ghost use Rattle.dw_vis.specs.Sight.{seen_both, seen_by, is_seen};

use crate::auths::Auths;
use arrayvec::ArrayVec;

/// What stands between two ones: `&` for all of them, or `|` for any.
#[derive(Clone, Copy, Debug, Drop)]
pub enum Sign {
    All,
    Any,
}

/// What was read of a level: its first sign, and whether it is seen, `None` where both signs stand in it.
#[derive(Clone, Copy, Debug, Drop)]
pub struct Level {
    sign: Option<Sign>,
    seen: Option<bool>,
}

/// What stands before a one at its level.
#[derive(Clone, Copy, Debug, Drop)]
pub enum Before {
    Start,
    Joined(Level, Sign),
}

impl Default for Before {
    ghost use Rattle.dw_vis.specs.declared.reading.Before.TheVariants.{Start};

    ghost is_default = { λ before. before ≡ Start };

    fn default() -> Before {
        Before::Start
    }
}

/// Where a reader stands.
#[derive(Clone, Copy, Debug, Drop)]
pub enum Place {
    AtOne(Before),
    InBare(Before),
    InQuotes(Before),
    /// In quotes, behind a `\`.
    InEscape(Before),
    Behind(Level),
}

/// Its place, what stands before each open parenthesis, the last at the end, and the name of the term that
/// it stands in.
#[derive(Drop)]
pub struct Reader {
    outside: ArrayVec<Before, 32>,
    place: Place,
    name: ArrayVec<u8, 512>,
}

/// What came of a byte.
#[derive(Clone, Copy, Debug, Drop)]
pub enum Step {
    On,
    Failed,
}

/// What came of a text.
#[derive(Clone, Copy, Debug, Drop)]
pub enum Outcome {
    /// It is not in the grammar, not even if signs may be mixed.
    Refused,
    /// It is in the grammar only if signs may be mixed.
    Mixes,
    /// Whether it is seen.
    Reads(bool),
}

#[tactic(auto, unfolding(crate::specs::Grammar::is_bare))]
fn is_bare(byte: u8) -> bool
    ensures { result ≡ is_bare byte }
{
    byte.is_ascii_alphanumeric() || matches!(byte, b'_' | b'-' | b':' | b'.' | b'/')
}

#[tactic(auto, unfolding(crate::specs::Grammar::needs_escape))]
fn needs_escape(byte: u8) -> bool
    ensures { result ≡ needs_escape byte }
{
    byte == b'"' || byte == b'\\'
}

fn seen_both(sign: Sign, a: bool, b: bool) -> bool
    ensures { result ≡ seen_both sign a b }
{
    match sign {
        Sign::All => a && b,
        Sign::Any => a || b,
    }
}

fn is_same_sign(a: Sign, b: Sign) -> bool
    ensures { result ≡ spec.is_same_sign a b }
{
    matches!((a, b), (Sign::All, Sign::All) | (Sign::Any, Sign::Any))
}

fn both(sign: Sign, a: Option<bool>, b: Option<bool>) -> Option<bool>
    ensures { result ≡ spec.both (seen_both sign) a b }
{
    match (a, b) {
        (Some(a), Some(b)) => Some(seen_both(sign, a, b)),
        _ => None,
    }
}

/// Whether a level is seen with one more behind a sign.
fn joined(level: Level, sign: Sign, seen: Option<bool>) -> Option<bool>
    ensures { result ≡ spec.joined_worth (seen_by []) level.sign sign level.seen seen }
{
    match level.sign {
        None => both(sign, level.seen, seen),
        Some(first) => {
            if is_same_sign(first, sign) {
                both(sign, level.seen, seen)
            } else {
                None
            }
        }
    }
}

impl Level {
    ghost use Rattle.dw_vis.specs.States.{level_of, before_of};

    /// A level up to the end of a one.
    fn of(before: Before, seen: Option<bool>) -> Level
        ensures { level_of result ≡ spec.level_with (seen_by []) (before_of before) seen }
    {
        match before {
            Before::Start => Level { sign: None, seen },
            Before::Joined(level, sign) => Level {
                sign: Some(sign),
                seen: joined(level, sign, seen),
            },
        }
    }
}

impl Reader {
    ghost use Rattle.dw_vis.specs.States.{level_of, before_of, outside_of, state_of, outcome_of, Leads, HasRoom};

    fn new() -> Reader
        ensures state { state_of result ≡ spec.first_state }
        ensures no_name { length result.name.items ≡ 0 }
    {
        Reader {
            outside: ArrayVec::new(),
            place: Place::AtOne(Before::Start),
            name: ArrayVec::new(),
        }
    }

    fn term_level(&self, auths: &Auths, before: Before) -> Level
        ensures { level_of result ≡ spec.term_level (seen_by auths.now) (before_of before) self.now.name.items }
    {
        Level::of(before, Some(auths.has(self.name.as_slice())))
    }

    #[tactic(auto, unfolding(crate::specs::Reading::one_step))]
    fn one_step(&mut self, before: Before, byte: u8) -> Step
        requires room { HasRoom self.old byte }
        requires place { self.old.place ≡ Place.AtOne before }
        ensures step { Leads (spec.one_step (outside_of self.old) (before_of before) byte) result (state_of self.new) }
        ensures name { length self.new.name.items ≤ length self.old.name.items + 1 }
    {
        if byte == b'(' {
            self.outside.push(before);
            self.place = Place::AtOne(Before::Start);
            return Step::On;
        }
        self.name.clear();
        if byte == b'"' {
            self.place = Place::InQuotes(before);
            return Step::On;
        }
        if is_bare(byte) {
            self.name.push(byte);
            self.place = Place::InBare(before);
            return Step::On;
        }
        Step::Failed
    }

    fn close(&mut self, level: Level) -> Step
        ensures step { Leads (spec.close_level (seen_by []) (outside_of self.old) level.seen) result (state_of self.new) }
        ensures name { self.new.name ≡ self.old.name }
    {
        match self.outside.pop() {
            None => Step::Failed,
            Some(before) => {
                self.place = Place::Behind(Level::of(before, level.seen));
                Step::On
            }
        }
    }

    fn behind_step(&mut self, level: Level, byte: u8) -> Step
        ensures step { Leads (spec.behind_step (seen_by []) (outside_of self.old) (level_of level) byte) result (state_of self.new) }
        ensures name { self.new.name ≡ self.old.name }
    {
        match byte {
            b'&' => {
                self.place = Place::AtOne(Before::Joined(level, Sign::All));
                Step::On
            }
            b'|' => {
                self.place = Place::AtOne(Before::Joined(level, Sign::Any));
                Step::On
            }
            b')' => self.close(level),
            _ => Step::Failed,
        }
    }

    #[tactic(auto, unfolding(crate::specs::Reading::bare_step))]
    fn bare_step(&mut self, auths: &Auths, before: Before, byte: u8) -> Step
        requires room { length self.old.name.items < 512 }
        requires place { self.old.place ≡ Place.InBare before }
        ensures step { Leads (spec.bare_step (seen_by auths.now) (outside_of self.old) (before_of before) self.old.name.items byte) result (state_of self.new) }
        ensures name { length self.new.name.items ≤ length self.old.name.items + 1 }
    {
        if is_bare(byte) {
            self.name.push(byte);
            return Step::On;
        }
        let level = self.term_level(auths, before);
        self.behind_step(level, byte)
    }

    #[tactic(auto, unfolding(crate::specs::Reading::quotes_step))]
    fn quotes_step(&mut self, auths: &Auths, before: Before, byte: u8) -> Step
        requires room { length self.old.name.items < 512 }
        requires place { self.old.place ≡ Place.InQuotes before }
        ensures step { Leads (spec.quotes_step (seen_by auths.now) (outside_of self.old) (before_of before) self.old.name.items byte) result (state_of self.new) }
        ensures name { length self.new.name.items ≤ length self.old.name.items + 1 }
    {
        if byte == b'\\' {
            self.place = Place::InEscape(before);
            return Step::On;
        }
        if byte != b'"' {
            self.name.push(byte);
            return Step::On;
        }
        if self.name.is_empty() {
            return Step::Failed;
        }
        self.place = Place::Behind(self.term_level(auths, before));
        Step::On
    }

    #[tactic(auto, unfolding(crate::specs::Reading::escape_step))]
    fn escape_step(&mut self, before: Before, byte: u8) -> Step
        requires { length self.old.name.items < 512 }
        ensures step { Leads (spec.escape_step (outside_of self.old) (before_of before) self.old.name.items byte) result (state_of self.new) }
        ensures name { length self.new.name.items ≤ length self.old.name.items + 1 }
    {
        if !needs_escape(byte) {
            return Step::Failed;
        }
        self.name.push(byte);
        self.place = Place::InQuotes(before);
        Step::On
    }

    fn step(&mut self, auths: &Auths, byte: u8) -> Step
        requires { HasRoom self.old byte }
        ensures step { Leads (spec.step (seen_by auths.now) (state_of self.old) byte) result (state_of self.new) }
        ensures name { length self.new.name.items ≤ length self.old.name.items + 1 }
    {
        match self.place {
            Place::AtOne(before) => self.one_step(before, byte),
            Place::InBare(before) => self.bare_step(auths, before, byte),
            Place::InQuotes(before) => self.quotes_step(auths, before, byte),
            Place::InEscape(before) => self.escape_step(before, byte),
            Place::Behind(level) => self.behind_step(level, byte),
        }
    }

    /// What the whole is read as.
    fn ended(&self, auths: &Auths) -> Outcome
        ensures { outcome_of result ≡ spec.ended (seen_by auths.now) (state_of self.now) }
    {
        if !self.outside.is_empty() {
            return Outcome::Refused;
        }
        match self.place {
            Place::InBare(before) => Outcome::of(self.term_level(auths, before).seen),
            Place::Behind(level) => Outcome::of(level.seen),
            _ => Outcome::Refused,
        }
    }
}

impl Outcome {
    ghost use Rattle.dw_vis.specs.States.{outcome_of};

    fn of(seen: Option<bool>) -> Outcome
        ensures { outcome_of result ≡ spec.outcome_of seen }
    {
        match seen {
            None => Outcome::Mixes,
            Some(seen) => Outcome::Reads(seen),
        }
    }

    pub fn is_seen(self) -> bool
        ensures { result ≡ is_seen (outcome_of self) }
    {
        match self {
            Outcome::Reads(seen) => seen,
            _ => false,
        }
    }

    /// What a text is read as, by whether one who has the names sees it.
    pub fn of_text(text: &[u8], auths: &Auths) -> Outcome
        requires short { length text.now ≤ 512 }
        requires shallow { is_deep text.now ≡ false }
        ensures { outcome_of result ≡ spec.read (seen_by auths.now) text.now }
    {
        if text.is_empty() {
            return Outcome::Reads(true);
        }
        let mut reader = Reader::new();
        for byte in text {
            match reader.step(auths, *byte) {
                Step::On => {}
                Step::Failed => return Outcome::Refused,
            }
        }
        reader.ended(auths)
    }
}
