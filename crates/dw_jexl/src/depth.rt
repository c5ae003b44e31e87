//! How deep parentheses and negations stand, found without recursion.

ghost use Rattle.std.specs.Prelude.{◌≡◌, ◌+◌, ◌≤◌, nat_lt, IfOk};
ghost use Rattle.dw_jexl.specs.Depth.{next, is_deep};

use crate::OutOfMemory;
use crate::token::Token;
use std::alloc::Global;

/// The most levels that may be open at one place.
const MAX_LEVELS: usize = 64;

/// The levels outside each open `(`, the last at the end, the levels that are open, and the present run of `!`.
#[derive(Drop)]
struct Walk {
    outside: Vec<usize>,
    open_levels: usize,
    run: usize,
}

/// Where a token leads a walk.
#[derive(Clone, Copy, Drop)]
enum Step {
    On,
    Ended,
}

impl Walk {
    ghost use Rattle.dw_jexl.specs.Walks.{place_of, Leads};

    #[tactic(auto, unfolding(crate::specs::Depth::next))]
    fn step(&mut self, token: &Token) -> Result<Step, OutOfMemory>
        requires { self.old.open_levels + self.old.run ≤ 64 }
        ensures { IfOk result (λ step. Leads (next (place_of self.old) token.now) step (place_of self.new)) }
    {
        match token {
            Token::Negate => {
                self.run += 1;
                Ok(Step::On)
            }
            Token::Open => self.open(),
            Token::Close => Ok(self.close()),
            _ => {
                self.run = 0;
                Ok(Step::On)
            }
        }
    }

    #[tactic(auto, unfolding(crate::specs::Depth::next))]
    fn open(&mut self) -> Result<Step, OutOfMemory>
        requires { self.old.open_levels + self.old.run ≤ 64 }
        ensures { IfOk result (λ step. Leads (next (place_of self.old) Token.Open) step (place_of self.new)) }
    {
        self.outside.push(self.open_levels)?;
        self.open_levels += self.run + 1;
        self.run = 0;
        Ok(Step::On)
    }

    #[tactic(auto, unfolding(crate::specs::Depth::next))]
    fn close(&mut self) -> Step
        ensures { Leads (next (place_of self.old) Token.Close) result (place_of self.new) }
    {
        match self.outside.pop() {
            None => Step::Ended,
            Some(before) => {
                self.open_levels = before;
                self.run = 0;
                Step::On
            }
        }
    }

    /// Whether more than 64 levels are open.
    fn is_over(&self) -> bool
        ensures { result ≡ nat_lt 64 (self.now.open_levels + self.now.run) }
    {
        self.open_levels > MAX_LEVELS || self.run > MAX_LEVELS - self.open_levels
    }
}

/// Whether more than 64 levels are open somewhere.
#[tactic(auto, using(crate::proofs::Walking::walk_at_end))]
pub fn is_deep(alloc: Global, tokens: &[Token]) -> Result<bool, OutOfMemory>
    ensures { IfOk result (λ deep. deep ≡ is_deep tokens.now) }
{
    let mut walk = Walk {
        outside: Vec::new(alloc),
        open_levels: 0,
        run: 0,
    };
    for token in tokens {
        match walk.step(token)? {
            Step::Ended => return Ok(false),
            Step::On => {}
        }
        if walk.is_over() {
            return Ok(true);
        }
    }
    Ok(false)
}
