ghost use Rattle.std.specs.Prelude.{◌≡◌};
ghost use Rattle.dw_eval.specs.Leaves.{is_above, is_below};

use std::cmp::Ordering;

/// What the value of a row has to be.
#[derive(Clone, Copy)]
pub(crate) enum Wanted<'a> {
    Equal {
        value: &'a str,
    },
    Between {
        low: &'a str,
        low_edge: bool,
        high: &'a str,
        high_edge: bool,
    },
    /// It begins with the text.
    Front {
        front: &'a str,
    },
}

impl Wanted<'_> {
    ghost use Rattle.dw_plan.specs.Spans.{is_wanted};

    pub(crate) fn holds(&self, row: &str) -> bool
        ensures { result ≡ is_wanted self.now row.now }
    {
        match self {
            Wanted::Equal { value } => row.as_bytes().cmp(value.as_bytes()).is_eq(),
            Wanted::Between {
                low,
                low_edge,
                high,
                high_edge,
            } => is_above(row, low, *low_edge) && is_below(row, high, *high_edge),
            Wanted::Front { front } => row.as_bytes().starts_with(front.as_bytes()),
        }
    }
}

fn is_above(row: &str, low: &str, edge: bool) -> bool
    ensures { result ≡ is_above row.now low.now edge }
{
    match row.as_bytes().cmp(low.as_bytes()) {
        Ordering::Less => false,
        Ordering::Equal => edge,
        Ordering::Greater => true,
    }
}

fn is_below(row: &str, high: &str, edge: bool) -> bool
    ensures { result ≡ is_below row.now high.now edge }
{
    match row.as_bytes().cmp(high.as_bytes()) {
        Ordering::Less => true,
        Ordering::Equal => edge,
        Ordering::Greater => false,
    }
}
