ghost use Rattle.std.specs.Prelude.{◌≡◌, ◌++◌, ◌≤◌, ◌^◌, [], ℕ, List, Err, OnOk, OnErr};
ghost use Rattle.dw_outside.specs.Faults.{Rose};
ghost use Rattle.dw_derive.specs.World.{World};
ghost use Rattle.datawave.specs.Session.{Reading};
ghost use Rattle.datawave.specs.Outside.{Outside, seen};
ghost use Rattle.datawave.specs.Exchange.{RequestsLack, RequestsPut};

use crate::by_lines::ByLines;
use crate::command::{Command, Form};
use crate::exchange::Broken;
use crate::record_lines::RecordLines;
use crate::record_table::RecordTable;
use crate::request_lines::RequestLines;
use crate::tools::Tools;
use dw_desk::Desk;
use dw_event::UidMaker;
use dw_outside::{Keeper, Sink};
use dw_pool::Gate;
use std::alloc::Global;
use std::thread::Threads;

/// The most bytes of input that are taken line by line.
const MAX_INPUT: u64 = 1_099_511_627_776;

/// The most bytes of a text of CSV.
const MAX_TABLE: u64 = 67_108_864;

/// What is done with the bytes of an input, as they come.
#[derive(Drop)]
pub enum Work {
    Requests(ByLines<RequestLines>),
    Records(ByLines<RecordLines>),
    Table(RecordTable),
}

impl Work {
    ghost use Rattle.datawave.specs.Working.{Held, IsFresh, most_of};
    ghost use Rattle.datawave.specs.Readings.{reading_of};

    /// The work of a command, before the first byte.
    pub fn of(alloc: Global, command: Command) -> Work
        ensures { IsFresh (reading_of command) result }
    {
        match command {
            Command::Exec => Work::Requests(ByLines::new(alloc, RequestLines)),
            Command::Ingest { form: Form::Json } => {
                Work::Records(ByLines::new(alloc, RecordLines::new(alloc)))
            }
            Command::Ingest { form: Form::Csv } => Work::Table(RecordTable::new(alloc)),
        }
    }

    /// The most bytes of input that are taken.
    pub fn most(&self) -> u64
        ensures is { result ≡ most_of self.now }
        ensures small { result ≤ 2 ^ 40 }
    {
        match self {
            Work::Table(_) => MAX_TABLE,
            _ => MAX_INPUT,
        }
    }

    /// Takes the next piece, and answers what is whole with it.
    pub fn take<R: Threads + Sync, K: Keeper, U: UidMaker, G: Gate, O: Sink>(
        &mut self,
        tools: &Tools<'_, R, U, G>,
        desk: &mut Desk,
        keeper: &mut K,
        piece: &[u8],
        output: &mut O,
    ) -> Result<(), Broken>
        ensures put { OnOk result ((reading : Reading) (w : World) (before : Outside) (front : List ℕ) → Held reading self.old front →
            RequestsPut U.digest w before (reading.whole front) desk.old (seen (K.told keeper.old) (K.faults keeper.old) (O.taken output.old)) →
            Held reading self.new (front ++ piece.now) × RequestsPut U.digest w before (reading.whole (front ++ piece.now)) desk.new (seen (K.told keeper.new) (K.faults keeper.new) (O.taken output.new))) }
        ensures lacks { OnErr result ((reading : Reading) (w : World) (before : Outside) (front : List ℕ) → Held reading self.old front →
            RequestsPut U.digest w before (reading.whole front) desk.old (seen (K.told keeper.old) (K.faults keeper.old) (O.taken output.old)) →
            RequestsLack U.digest w before (reading.whole (front ++ piece.now)) desk.new (seen (K.told keeper.new) (K.faults keeper.new) (O.taken output.new))) }
        ensures counted { O.faults output.old ≤ O.faults output.new }
        ensures failed { result ≡ Err Broken.WriteFault → Rose (O.faults output.old) (O.faults output.new) }
    {
        match self {
            Work::Requests(lines) => lines.take(tools, desk, keeper, piece, output),
            Work::Records(lines) => lines.take(tools, desk, keeper, piece, output),
            Work::Table(table) => Ok(table.take(piece)?),
        }
    }

    /// Answers what is left at the end of the input.
    pub fn finish<R: Threads + Sync, K: Keeper, U: UidMaker, G: Gate, O: Sink>(
        &mut self,
        tools: &Tools<'_, R, U, G>,
        desk: &mut Desk,
        keeper: &mut K,
        output: &mut O,
    ) -> Result<(), Broken>
        ensures put { OnOk result ((reading : Reading) (w : World) (before : Outside) (front : List ℕ) → Held reading self.old front →
            RequestsPut U.digest w before (reading.whole front) desk.old (seen (K.told keeper.old) (K.faults keeper.old) (O.taken output.old)) →
            RequestsPut U.digest w before (reading.all front) desk.new (seen (K.told keeper.new) (K.faults keeper.new) (O.taken output.new))) }
        ensures lacks { OnErr result ((reading : Reading) (w : World) (before : Outside) (front : List ℕ) → Held reading self.old front →
            RequestsPut U.digest w before (reading.whole front) desk.old (seen (K.told keeper.old) (K.faults keeper.old) (O.taken output.old)) →
            RequestsLack U.digest w before (reading.all front) desk.new (seen (K.told keeper.new) (K.faults keeper.new) (O.taken output.new))) }
        ensures counted { O.faults output.old ≤ O.faults output.new }
        ensures failed { result ≡ Err Broken.WriteFault → Rose (O.faults output.old) (O.faults output.new) }
    {
        match self {
            Work::Requests(lines) => lines.finish(tools, desk, keeper, output),
            Work::Records(lines) => lines.finish(tools, desk, keeper, output),
            Work::Table(table) => table.finish(tools, desk, keeper, output),
        }
    }
}
