//! How deep parentheses stand, found without recursion.

ghost use Rattle.std.specs.Prelude.{◌≡◌};
ghost use Rattle.dw_vis.specs.Depth.{next_outside, next_inside, next, is_deep};

/// The most parentheses that may be open at one place.
const MAX_LEVELS: usize = 32;

#[derive(Clone, Copy, Debug, Drop)]
pub enum Quotes {
    Outside,
    Inside,
    /// Inside, behind a `\`.
    Escaped,
}

/// Where a walk over a text stands, and how many parentheses are open there.
#[derive(Clone, Copy, Debug, Drop)]
pub struct Walk {
    pub quotes: Quotes,
    pub levels: usize,
}

/// Where a byte leads a walk.
#[derive(Clone, Copy, Debug, Drop)]
pub enum Step {
    On(Walk),
    /// More than 32 parentheses are open.
    Deep,
    /// A closing parenthesis where none is open.
    Ended,
}

fn on(quotes: Quotes, levels: usize) -> Step
    ensures { result ≡ Step.On (record { quotes = quotes; levels = levels }) }
{
    Step::On(Walk { quotes, levels })
}

#[tactic(auto, unfolding(crate::specs::Depth::next_outside))]
fn next_outside(levels: usize, byte: u8) -> Step
    ensures { result ≡ next_outside levels byte }
{
    match byte {
        b'"' => on(Quotes::Inside, levels),
        b'(' => {
            if levels < MAX_LEVELS {
                on(Quotes::Outside, levels + 1)
            } else {
                Step::Deep
            }
        }
        b')' => {
            if levels == 0 {
                Step::Ended
            } else {
                on(Quotes::Outside, levels - 1)
            }
        }
        _ => on(Quotes::Outside, levels),
    }
}

#[tactic(auto, unfolding(crate::specs::Depth::next_inside))]
fn next_inside(levels: usize, byte: u8) -> Step
    ensures { result ≡ next_inside levels byte }
{
    match byte {
        b'"' => on(Quotes::Outside, levels),
        b'\\' => on(Quotes::Escaped, levels),
        _ => on(Quotes::Inside, levels),
    }
}

fn next(walk: Walk, byte: u8) -> Step
    ensures { result ≡ next walk byte }
{
    match walk.quotes {
        Quotes::Outside => next_outside(walk.levels, byte),
        Quotes::Inside => next_inside(walk.levels, byte),
        Quotes::Escaped => on(Quotes::Inside, walk.levels),
    }
}

/// Whether more than 32 parentheses are open somewhere.
pub fn is_deep(text: &[u8]) -> bool
    ensures { result ≡ is_deep text.now }
{
    let mut walk = Walk {
        quotes: Quotes::Outside,
        levels: 0,
    };
    for byte in text {
        match next(walk, *byte) {
            Step::On(after) => walk = after,
            Step::Deep => return true,
            Step::Ended => return false,
        }
    }
    false
}
