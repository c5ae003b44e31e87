ghost use Rattle.std.specs.Prelude.{◌≡◌, ℕ, List, IfOk};
ghost use Rattle.datawave.specs.Lines.{kept};
ghost use Rattle.dw_wire.specs.ReadLine.{read_line as request_on};

use crate::exchange::Read;
use crate::line::Line;
use crate::lines::LineWork;
use dw_key::OutOfMemory;
use dw_wire::{Why, read_line};
use std::alloc::Global;

/// Lines that are requests.
#[derive(Drop)]
pub struct RequestLines;

/// The request that a line is. A line that is too long is none.
fn request_of(alloc: Global, line: &Line) -> Read
    ensures { IfOk result (λ r. (bytes : List ℕ) → line.now ≡ kept bytes → r ≡ request_on bytes) }
{
    match line.bytes() {
        Some(bytes) => read_line(alloc, bytes),
        None => Ok(Err(Why::Line)),
    }
}

impl LineWork for RequestLines {
    ghost use Rattle.std.proofs.Common.{refl};
    ghost use Rattle.datawave.specs.Readings.{requests};
    ghost use Rattle.datawave.specs.LineLaws.{requests_grow, requests_end};

    ghost whole = { requests };

    ghost all = { requests };

    ghost holds = { λ s ls. Unit {0} };

    ghost begins = { refl };

    ghost grows = { requests_grow };

    ghost ends = { requests_end };

    fn line(&mut self, alloc: Global, line: &Line) -> Result<Option<Read>, OutOfMemory> {
        Ok(Some(request_of(alloc, line)))
    }

    fn end(&mut self, _alloc: Global) -> Option<Read> {
        None
    }
}
