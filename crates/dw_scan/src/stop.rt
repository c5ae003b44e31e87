ghost use Rattle.std.specs.Prelude.{◌≡◌};
ghost use Rattle.dw_scan.specs.Stops.{is_end};

use dw_key::DocKey;

/// Why a walk over the candidates of a shard stopped.
#[derive(Debug, Drop)]
pub(crate) enum Stop {
    /// No candidate is left.
    Ended,
    /// A candidate is left, and enough was read or found.
    Full,
    /// An iterator does not know.
    Stuck,
    /// A place of the next candidate's document is not covered.
    Uncovered { key: DocKey },
}

impl Stop {
    pub(crate) fn is_end(&self) -> bool
        ensures { result ≡ is_end self.now }
    {
        matches!(self, Stop::Ended)
    }
}
