//! An event store that answers request lines: events with many values per field are taken in, and
//! found by queries.
#![tactic(auto)]

ghost use Rattle.std.specs.Prelude.{◌≡◌, ◌≢◌, ◌↔◌, None, Some, IfErr};
ghost use Rattle.dw_outside.specs.Faults.{Rose};
ghost use Rattle.dw_derive.specs.World.{World};
ghost use Rattle.dw_derive.specs.Tables.{tables};
ghost use Rattle.dw_derive.specs.Lawful.{IsWorld};
ghost use Rattle.datawave.specs.Outside.{Outside, seen};
ghost use Rattle.datawave.specs.Exchange.{Begun};
ghost use Rattle.datawave.specs.Statuses.{status_at_start};
ghost use Rattle.datawave.specs.Session.{Runs};
ghost use Rattle.datawave.specs.Readings.{reading_of};
ghost use Rattle.datawave.specs.declared.command.Command.{Command};
ghost use Rattle.datawave.specs.Words.{command};

mod by_lines;
mod command;
mod exchange;
mod feeds;
mod gathering;
mod intake;
mod line;
mod lines;
mod record_lines;
mod record_table;
mod request_lines;
mod status;
mod tools;
mod work;

use command::{Command, are_command, read_command};
use dw_base::Listed;
use dw_desk::{Desk, Settings};
use dw_event::{ShaUid, UidMaker};
use dw_key::{OutOfMemory, Text};
use dw_outside::{Keeper, KeeperError, MemKeeper, Sink, Source, StdInput, StdOutput};
use dw_pool::{Gate, OpenGate};
use intake::work_through;
use status::Status;
use std::alloc::Global;
use std::env;
use std::io::ErrorKind;
use std::process::ExitCode;
use std::thread::Threads;
use tools::Tools;
use work::Work;

/// Reads what the command asks for from the input, over a desk that was just loaded, and writes a reply line for each request to the
/// output before the next one is answered.
fn carry_out<R: Threads + Sync, K: Keeper, U: UidMaker, G: Gate, S: Source, O: Sink>(
    tools: &Tools<'_, R, U, G>,
    desk: Desk,
    command: Command,
    input: &mut S,
    output: &mut O,
    keeper: &mut K,
) -> Status
    ensures runs { (w : World) (before : Outside) → Begun w before desk (seen (K.told keeper.old) (K.faults keeper.old) (O.taken output.old)) →
        Runs U.digest (reading_of command) result w (S.left input.old) (S.left input.new) before (seen (K.told keeper.new) (K.faults keeper.new) (O.taken output.new)) }
    ensures begun { (result ≢ Status.BadWords) × (result ≢ Status.StoreFault) }
    ensures read_fault { result ≡ Status.ReadFault → Rose (S.faults input.old) (S.faults input.new) }
    ensures write_fault { result ≡ Status.WriteFault → Rose (O.faults output.old) (O.faults output.new) }
{
    let work = Work::of(tools.alloc, command);
    work_through(tools, desk, keeper, work, input, output)
}

/// How a run ends that got no desk.
fn end_at_start(error: KeeperError) -> Status
    ensures { result ≡ status_at_start error }
{
    match error {
        KeeperError::Failed => Status::StoreFault,
        KeeperError::OutOfMemory => Status::OutOfMemory,
    }
}

/// Loads the desk, and carries out a command.
fn begin<R: Threads + Sync, K: Keeper, U: UidMaker, G: Gate, S: Source, O: Sink>(
    tools: &Tools<'_, R, U, G>,
    command: Command,
    input: &mut S,
    output: &mut O,
    keeper: &mut K,
) -> Status
    ensures runs { (w : World) → IsWorld w → K.told keeper.old ≡ Some (tables w) →
        Runs U.digest (reading_of command) result w (S.left input.old) (S.left input.new) (seen (K.told keeper.old) (K.faults keeper.old) (O.taken output.old)) (seen (K.told keeper.new) (K.faults keeper.new) (O.taken output.new)) }
    ensures words { result ≢ Status.BadWords }
    ensures read_fault { result ≡ Status.ReadFault → Rose (S.faults input.old) (S.faults input.new) }
    ensures write_fault { result ≡ Status.WriteFault → Rose (O.faults output.old) (O.faults output.new) }
    ensures store_fault { result ≡ Status.StoreFault → Rose (K.faults keeper.old) (K.faults keeper.new) }
    ensures untouched { result ≡ Status.StoreFault → (input.new ≡ input.old) × (output.new ≡ output.old) × (K.told keeper.new ≡ K.told keeper.old) }
{
    match Desk::load(tools.alloc, keeper) {
        Ok(desk) => carry_out(tools, desk, command, input, output, keeper),
        Err(error) => end_at_start(error),
    }
}

/// How pages are walked: by four workers, with 1,000 documents of each shard at a time.
fn usual_settings(alloc: Global) -> Result<Settings, OutOfMemory> {
    let mut batches = Listed::new(alloc);
    batches.put(1_000)?;
    match Settings::of(4, batches) {
        Some(settings) => Ok(settings),
        None => unreachable!(),
    }
}

/// Does all that the program does: reads request lines, or records in groups, from the input and writes a reply line for each
/// request to the output. The tables are a keeper's.
pub fn run<R: Threads + Sync, S: Source, O: Sink, K: Keeper, U: UidMaker, G: Gate>(
    rt: &R,
    alloc: Global,
    words: &[Text],
    input: &mut S,
    output: &mut O,
    keeper: &mut K,
    uids: &U,
    gate: &G,
) -> Status
    // What was read, what was answered and written, and what the tables are, at each end of each command, from the tables of any world.
    ensures runs { (c : Command) (w : World) → command words.now ≡ Some c → IsWorld w → K.told keeper.old ≡ Some (tables w) →
        Runs U.digest (reading_of c) result w (S.left input.old) (S.left input.new) (seen (K.told keeper.old) (K.faults keeper.old) (O.taken output.old)) (seen (K.told keeper.new) (K.faults keeper.new) (O.taken output.new)) }

    // When each status comes.
    ensures bad_words { (result ≡ Status.BadWords) ↔ (command words.now ≡ None) }
    ensures uncalled { result ≡ Status.BadWords → (input.new ≡ input.old) × (output.new ≡ output.old) × (keeper.new ≡ keeper.old) }
    ensures read_fault { result ≡ Status.ReadFault → Rose (S.faults input.old) (S.faults input.new) }
    ensures write_fault { result ≡ Status.WriteFault → Rose (O.faults output.old) (O.faults output.new) }
    ensures store_fault { result ≡ Status.StoreFault → Rose (K.faults keeper.old) (K.faults keeper.new) }
    ensures untouched { result ≡ Status.StoreFault → (input.new ≡ input.old) × (output.new ≡ output.old) × (K.told keeper.new ≡ K.told keeper.old) }
{
    if !are_command(words) {
        return Status::BadWords;
    }
    let command = match read_command(alloc, words) {
        Ok(Some(command)) => command,
        Ok(None) => return Status::BadWords,
        Err(_) => return Status::OutOfMemory,
    };
    let Ok(settings) = usual_settings(alloc) else {
        return Status::OutOfMemory;
    };
    let tools = Tools {
        rt,
        alloc,
        uids,
        gate,
        settings,
    };
    begin(&tools, command, input, output, keeper)
}

/// The words after the program's name, or how the run ends where there are none to be had. A word that
/// is not UTF-8 is no word of a command.
fn words_of(rt: &HostRuntime) -> Result<Vec<Text>, Status>
    ensures { IfErr result (λ status. status ≢ Status.Done) }
{
    let args = match env::args(rt) {
        Ok(args) => args,
        Err(error) => return Err(fault_of(error.kind())),
    };
    let mut words = Vec::new(rt.alloc());
    for word in args.skip(1) {
        if words.push(Text::from_string(word)).is_err() {
            return Err(Status::OutOfMemory);
        }
    }
    Ok(words)
}

/// How the run ends where the words are not to be had.
fn fault_of(kind: ErrorKind) -> Status
    ensures { result ≢ Status.Done }
{
    match kind {
        ErrorKind::OutOfMemory => Status::OutOfMemory,
        _ => Status::BadWords,
    }
}

fn main(rt: HostRuntime) -> ExitCode {
    let status = match words_of(&rt) {
        Ok(words) => run(
            &rt,
            rt.alloc(),
            words.as_slice(),
            &mut StdInput::new(rt.stdin()),
            &mut StdOutput::new(rt.stdout()),
            &mut MemKeeper::without_reads(rt.alloc()),
            &ShaUid,
            &OpenGate,
        ),
        Err(status) => status,
    };
    if status != Status::Done {
        let _ = eprintln!(rt; "datawave: {}", status.text());
    }
    ExitCode::from(status.code())
}

#[cfg(test)]
mod tests;
