ghost use Rattle.std.specs.Prelude.{◌≡◌, ◌++◌, ◌∷◌, ◌≤◌, [], ℕ, List, Err, IfOk, OnOk, OnErr};
ghost use Rattle.csv.specs.Records.{fields_of};
ghost use Rattle.dw_event.specs.Records.{IsWellFormed};
ghost use Rattle.dw_rows.specs.CsvRecords.{csv_record};
ghost use Rattle.dw_outside.specs.Faults.{Rose};
ghost use Rattle.dw_groups.specs.Batches.{rows_of, rows_records};
ghost use Rattle.dw_derive.specs.World.{World};
ghost use Rattle.datawave.specs.Groups.{csv_groups, full_ingests};
ghost use Rattle.datawave.specs.Outside.{Outside, seen};
ghost use Rattle.datawave.specs.Asking.{Asks};
ghost use Rattle.datawave.specs.Exchange.{RequestsLack, RequestsPut, Tabled};

use crate::exchange::{Broken, Read, exchange_next};
use crate::gathering::{gather, gather_last};
use crate::tools::Tools;
use csv::{ByteRecord, ReaderBuilder};
use dw_desk::Desk;
use dw_event::{BadRecord, Record, UidMaker};
use dw_groups::{Records, read_row};
use dw_key::OutOfMemory;
use dw_outside::{Keeper, Sink};
use dw_pool::Gate;
use std::alloc::Global;
use std::thread::Threads;

/// The record that a row is under its header, or the rule that it breaks.
fn record_under(
    alloc: Global,
    header: &ByteRecord,
    row: &ByteRecord,
) -> Result<Result<Record, BadRecord>, OutOfMemory>
    ensures is { IfOk result (λ r. r ≡ csv_record (fields_of header.now) (fields_of row.now)) }
    ensures well_formed { IfOk result (λ r. IfOk r IsWellFormed) }
{
    read_row(alloc, header, row)
}

/// Rows of a table: its header, once that came, and the present group of records.
#[derive(Drop)]
struct Table {
    header: Option<ByteRecord>,
    group: Records,
}

impl Table {
    /// Takes the next row, which is the header or a record, and gives the request that is whole with it, where one is.
    fn row(&mut self, alloc: Global, row: ByteRecord) -> Result<Option<Read>, OutOfMemory>
        ensures { IfOk result (λ request. (rows : List (List (List ℕ))) → Tabled rows self.old.header self.old.group →
            Tabled (rows ++ fields_of row ∷ []) self.new.header self.new.group
            × Asks request (full_ingests (rows_records rows)) (full_ingests (rows_records (rows ++ fields_of row ∷ [])))) }
    {
        let Some(header) = &self.header else {
            self.header = Some(row);
            return Ok(None);
        };
        let rec = record_under(alloc, header, &row)?;
        gather(alloc, &mut self.group, rec)
    }
}

/// Takes the next row, and answers what is whole with it.
fn take_row<R: Threads + Sync, K: Keeper, U: UidMaker, G: Gate, O: Sink>(
    tools: &Tools<'_, R, U, G>,
    desk: &mut Desk,
    keeper: &mut K,
    table: &mut Table,
    row: ByteRecord,
    output: &mut O,
) -> Result<(), Broken>
    ensures put { OnOk result ((w : World) (before : Outside) (rows : List (List (List ℕ))) → Tabled rows table.old.header table.old.group →
        RequestsPut U.digest w before (full_ingests (rows_records rows)) desk.old (seen (K.told keeper.old) (K.faults keeper.old) (O.taken output.old)) →
        Tabled (rows ++ fields_of row ∷ []) table.new.header table.new.group
        × RequestsPut U.digest w before (full_ingests (rows_records (rows ++ fields_of row ∷ []))) desk.new (seen (K.told keeper.new) (K.faults keeper.new) (O.taken output.new))) }
    ensures lacks { OnErr result ((w : World) (before : Outside) (rows : List (List (List ℕ))) → Tabled rows table.old.header table.old.group →
        RequestsPut U.digest w before (full_ingests (rows_records rows)) desk.old (seen (K.told keeper.old) (K.faults keeper.old) (O.taken output.old)) →
        RequestsLack U.digest w before (full_ingests (rows_records (rows ++ fields_of row ∷ []))) desk.new (seen (K.told keeper.new) (K.faults keeper.new) (O.taken output.new))) }
    ensures counted { O.faults output.old ≤ O.faults output.new }
    ensures failed { result ≡ Err Broken.WriteFault → Rose (O.faults output.old) (O.faults output.new) }
{
    let request = table.row(tools.alloc, row)?;
    exchange_next(tools, desk, keeper, &request, output)
}

/// Has the records of a text of CSV taken in, group by group.
fn take_table<R: Threads + Sync, K: Keeper, U: UidMaker, G: Gate, O: Sink>(
    tools: &Tools<'_, R, U, G>,
    desk: &mut Desk,
    keeper: &mut K,
    text: &[u8],
    output: &mut O,
) -> Result<(), Broken>
    ensures put { OnOk result ((w : World) (before : Outside) →
        RequestsPut U.digest w before [] desk.old (seen (K.told keeper.old) (K.faults keeper.old) (O.taken output.old)) →
        RequestsPut U.digest w before (csv_groups text.now) desk.new (seen (K.told keeper.new) (K.faults keeper.new) (O.taken output.new))) }
    ensures lacks { OnErr result ((w : World) (before : Outside) →
        RequestsPut U.digest w before [] desk.old (seen (K.told keeper.old) (K.faults keeper.old) (O.taken output.old)) →
        RequestsLack U.digest w before (csv_groups text.now) desk.new (seen (K.told keeper.new) (K.faults keeper.new) (O.taken output.new))) }
    ensures counted { O.faults output.old ≤ O.faults output.new }
    ensures failed { result ≡ Err Broken.WriteFault → Rose (O.faults output.old) (O.faults output.new) }
{
    let rdr = ReaderBuilder::new()
        .has_headers(false)
        .flexible(true)
        .from_reader(tools.alloc, text);
    let mut table = Table {
        header: None,
        group: Records::new(tools.alloc),
    };
    for row in rdr.into_byte_records() {
        match row {
            Ok(row) => take_row(tools, desk, keeper, &mut table, row, output)?,
            // Of rows of any length in memory, no other error comes.
            Err(_) => return Err(Broken::OutOfMemory),
        }
    }
    let request = gather_last(tools.alloc, &mut table.group);
    exchange_next(tools, desk, keeper, &request, output)
}

/// A text of CSV, which is held until the input is at its end.
#[derive(Drop)]
pub struct RecordTable {
    text: Vec<u8>,
}

impl RecordTable {
    pub fn new(alloc: Global) -> RecordTable
        ensures { result.text.items ≡ [] }
    {
        RecordTable {
            text: Vec::new(alloc),
        }
    }

    /// Holds the next piece of the input. After an error what is held is as before.
    pub fn take(&mut self, piece: &[u8]) -> Result<(), OutOfMemory>
        ensures { OnOk result (self.new.text.items ≡ self.old.text.items ++ piece.now) }
    {
        self.text.extend_from_slice(piece)?;
        Ok(())
    }

    /// Answers what the text asks for.
    pub fn finish<R: Threads + Sync, K: Keeper, U: UidMaker, G: Gate, O: Sink>(
        &mut self,
        tools: &Tools<'_, R, U, G>,
        desk: &mut Desk,
        keeper: &mut K,
        output: &mut O,
    ) -> Result<(), Broken>
        ensures put { OnOk result ((w : World) (before : Outside) →
            RequestsPut U.digest w before [] desk.old (seen (K.told keeper.old) (K.faults keeper.old) (O.taken output.old)) →
            RequestsPut U.digest w before (csv_groups self.old.text.items) desk.new (seen (K.told keeper.new) (K.faults keeper.new) (O.taken output.new))) }
        ensures lacks { OnErr result ((w : World) (before : Outside) →
            RequestsPut U.digest w before [] desk.old (seen (K.told keeper.old) (K.faults keeper.old) (O.taken output.old)) →
            RequestsLack U.digest w before (csv_groups self.old.text.items) desk.new (seen (K.told keeper.new) (K.faults keeper.new) (O.taken output.new))) }
        ensures counted { O.faults output.old ≤ O.faults output.new }
        ensures failed { result ≡ Err Broken.WriteFault → Rose (O.faults output.old) (O.faults output.new) }
    {
        take_table(tools, desk, keeper, self.text.as_slice(), output)
    }
}
