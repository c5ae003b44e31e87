ghost use Rattle.std.specs.Prelude.{◌⊎◌, List, ℕ, IfOk, OnErr};
ghost use Rattle.dw_http.specs.Messages.{Ask};
ghost use Rattle.dw_http.specs.Asks.{asked};

use crate::OutOfMemory;
use dw_key::Bytes;

/// Who asks: the values of the headers `x-caller`, without spaces and tabs at their ends.
#[derive(Clone, Copy, Debug)]
pub enum Caller<'a> {
    None,
    One(&'a [u8]),
    Many,
}

/// A message as a service sees it.
#[derive(Clone, Copy, Debug)]
pub struct HttpAsk<'a> {
    pub method: &'a [u8],
    pub target: &'a [u8],
    pub caller: Caller<'a>,
    /// The first content type is `text/csv`, whatever parameters it has.
    pub csv: bool,
    pub body: &'a [u8],
    /// The connection ends after the reply.
    pub close: bool,
}

/// What answers messages.
pub trait Service {
    /// In the first state the ask may be answered with these bytes, after which it is in the second.
    ghost answers: { Self → Ask → List ℕ → Self → Type 0 };

    /// The two states are one.
    ghost stays: { Self → Self → Type 0 };

    /// The whole response to an ask. Where there is no memory, the ask was not answered, or it was
    /// and its response is lost.
    fn reply(&mut self, ask: HttpAsk<'_>) -> Result<Bytes, OutOfMemory>
        ensures ok { IfOk result (λ bytes. answers self.old (asked ask.entry) bytes self.new) }
        ensures err { OnErr result (stays self.old self.new ⊎ ((bytes : List ℕ) × answers self.old (asked ask.entry) bytes self.new)) };
}
