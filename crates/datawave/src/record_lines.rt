ghost use Rattle.std.specs.Prelude.{◌≡◌, ℕ, List, IfOk};
ghost use Rattle.dw_event.specs.Records.{IsWellFormed};
ghost use Rattle.datawave.specs.Lines.{kept};
ghost use Rattle.datawave.specs.Groups.{line_record};

use crate::exchange::Read;
use crate::gathering::{gather, gather_last};
use crate::line::Line;
use crate::lines::LineWork;
use dw_event::{BadRecord, Record};
use dw_groups::{Records, read_text};
use dw_key::OutOfMemory;
use std::alloc::Global;

/// Lines that are records of JSON, of which the present group is held.
#[derive(Drop)]
pub struct RecordLines {
    group: Records,
}

impl RecordLines {
    ghost use Rattle.std.specs.Prelude.{[]};
    ghost use Rattle.datawave.specs.Asking.{Gathered};

    pub fn new(alloc: Global) -> RecordLines
        ensures { Gathered [] result.group }
    {
        RecordLines {
            group: Records::new(alloc),
        }
    }
}

/// The record that a line is. A line that is too long is of another shape.
fn record_of(alloc: Global, line: &Line) -> Result<Result<Record, BadRecord>, OutOfMemory>
    ensures is { IfOk result (λ r. (bytes : List ℕ) → line.now ≡ kept bytes → r ≡ line_record bytes) }
    ensures well_formed { IfOk result (λ r. IfOk r IsWellFormed) }
{
    match line.bytes() {
        Some(bytes) => read_text(alloc, bytes),
        None => Ok(Err(BadRecord::Shape)),
    }
}

impl LineWork for RecordLines {
    ghost use Rattle.std.proofs.Common.{refl};
    ghost use Rattle.datawave.specs.Asking.{Gathered};
    ghost use Rattle.datawave.specs.Groups.{full_ingests, ingests, line_records};
    ghost use Rattle.datawave.specs.LineLaws.{groups_grow, groups_end};

    ghost whole = { λ ls. full_ingests (line_records ls) };

    ghost all = { λ ls. ingests (line_records ls) };

    ghost holds = { λ s ls. Gathered (line_records ls) s.group };

    ghost begins = { refl };

    ghost grows = { groups_grow };

    ghost ends = { groups_end };

    fn line(&mut self, alloc: Global, line: &Line) -> Result<Option<Read>, OutOfMemory> {
        let rec = record_of(alloc, line)?;
        gather(alloc, &mut self.group, rec)
    }

    fn end(&mut self, alloc: Global) -> Option<Read> {
        gather_last(alloc, &mut self.group)
    }
}
