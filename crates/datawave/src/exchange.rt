ghost use Rattle.std.specs.Prelude.{◌≡◌, ◌≤◌, Err, drop, length, IfOk, OnOk, OnErr, List, ℕ};
ghost use Rattle.std.specs.Io.KnownBytes.{append_known};
ghost use Rattle.dw_outside.specs.Faults.{Rose};
ghost use Rattle.dw_derive.specs.World.{World};
ghost use Rattle.dw_wire.specs.ReplyText.{reply_text};
ghost use Rattle.dw_desk.specs.Stands.{Stands};
ghost use Rattle.dw_desk.specs.Desk.{IsFormed};
ghost use Rattle.dw_desk.specs.Session.{Asked};
ghost use Rattle.datawave.specs.Outside.{Outside, seen};
ghost use Rattle.datawave.specs.Asking.{Asks};
ghost use Rattle.datawave.specs.Exchange.{PartPut, RequestAnswered, RequestLacks, RequestPut, RequestsLack, RequestsPut};
ghost use Rattle.datawave.specs.Texts.{text_of};

use crate::tools::Tools;
use dw_desk::Desk;
use dw_event::UidMaker;
use dw_key::{Bytes, OutOfMemory};
use dw_outside::{Failed, Keeper, Sink};
use dw_pool::Gate;
use dw_wire::{Reply, Request, Why, memory_line, write_reply};
use std::alloc::Global;
use std::thread::Threads;

/// A request or why what was read is none, or that there was no memory to read it.
pub type Read = Result<Result<Request, Why>, OutOfMemory>;

/// Why an exchange broke off.
#[derive(Clone, Copy, Debug, PartialEq, Eq)]
pub enum Broken {
    WriteFault,
    OutOfMemory,
}

impl From<OutOfMemory> for Broken {
    ghost use Rattle.datawave.specs.declared.exchange.Broken.TheVariants as broken;

    ghost from_gives = { λ _ e. e ≡ broken.OutOfMemory };

    fn from(_e: OutOfMemory) -> Broken {
        Broken::OutOfMemory
    }
}

/// The text of an answer.
#[derive(Debug, Drop)]
enum Text {
    Written { bytes: Bytes },
    /// The text that says that memory was wanting, which needs none.
    Memory,
}

impl Text {
    fn as_slice(&self) -> &[u8]
        ensures { result.now ≡ text_of self.now }
    {
        match self {
            Text::Written { bytes } => bytes.as_slice(),
            Text::Memory => memory_line(),
        }
    }
}

/// The text of a reply.
fn text_for(alloc: Global, reply: &Reply) -> Result<Text, OutOfMemory>
    ensures { IfOk result (λ text. text_of text ≡ reply_text reply.now) }
{
    match reply {
        Reply::OutOfMemory => Ok(Text::Memory),
        _ => {
            let bytes = write_reply(alloc, reply)?;
            Ok(Text::Written { bytes })
        }
    }
}

/// The desk's reply to a request.
fn answer_request<R: Threads + Sync, K: Keeper, U: UidMaker, G: Gate>(
    tools: &Tools<'_, R, U, G>,
    desk: &mut Desk,
    keeper: &mut K,
    request: &Result<Request, Why>,
) -> Reply
    ensures { (w : World) → Stands (K.told keeper.old) desk.old w → IsFormed request.now →
        RequestAnswered U.digest w desk.old (K.faults keeper.old) request.now (reply_text result) desk.new (K.told keeper.new) (K.faults keeper.new) }
{
    desk.answer(
        tools.rt,
        tools.alloc,
        keeper,
        tools.uids,
        tools.gate,
        &tools.settings,
        request,
    )
}

/// Answers a request, and gives the text of the answer. An error means that the request was answered, and that its text found no
/// memory.
fn answer_read<R: Threads + Sync, K: Keeper, U: UidMaker, G: Gate>(
    tools: &Tools<'_, R, U, G>,
    desk: &mut Desk,
    keeper: &mut K,
    request: &Result<Request, Why>,
) -> Result<Text, OutOfMemory>
    ensures text { IfOk result (λ text. (w : World) → Stands (K.told keeper.old) desk.old w → IsFormed request.now →
        RequestAnswered U.digest w desk.old (K.faults keeper.old) request.now (text_of text) desk.new (K.told keeper.new) (K.faults keeper.new)) }
    ensures err { OnErr result ((w : World) → Stands (K.told keeper.old) desk.old w → IsFormed request.now →
        (text : List ℕ) × RequestAnswered U.digest w desk.old (K.faults keeper.old) request.now text desk.new (K.told keeper.new) (K.faults keeper.new)) }
{
    let reply = answer_request(tools, desk, keeper, request);
    text_for(tools.alloc, &reply)
}

/// Answers a request, where it was read, and gives the text of the answer. An error means that the request was answered, and that
/// its text found no memory.
fn answer<R: Threads + Sync, K: Keeper, U: UidMaker, G: Gate>(
    tools: &Tools<'_, R, U, G>,
    desk: &mut Desk,
    keeper: &mut K,
    request: &Read,
) -> Result<Text, OutOfMemory>
    ensures text { IfOk result (λ text. (w : World) (asked : Asked) → Stands (K.told keeper.old) desk.old w → IfOk request.now (λ r. r ≡ asked) → IsFormed asked →
        RequestAnswered U.digest w desk.old (K.faults keeper.old) asked (text_of text) desk.new (K.told keeper.new) (K.faults keeper.new)) }
    ensures err { OnErr result ((w : World) (asked : Asked) → Stands (K.told keeper.old) desk.old w → IfOk request.now (λ r. r ≡ asked) → IsFormed asked →
        (text : List ℕ) × RequestAnswered U.digest w desk.old (K.faults keeper.old) asked text desk.new (K.told keeper.new) (K.faults keeper.new)) }
{
    match request {
        Ok(request) => answer_read(tools, desk, keeper, request),
        Err(_) => Ok(Text::Memory),
    }
}

/// The bytes after the first `count`.
pub fn after(bytes: &[u8], count: usize) -> &[u8]
    requires { count ≤ length bytes.now }
    ensures { result.now ≡ drop count bytes.now }
{
    &bytes[count..]
}

/// Puts all of a text. After an error a front of it was taken.
fn put_all<O: Sink>(output: &mut O, text: &[u8]) -> Result<(), Failed>
    ensures all { OnOk result (O.taken output.new ≡ append_known (O.taken output.old) text.now) }
    ensures part { OnErr result (PartPut (O.taken output.old) text.now (O.taken output.new)) }
    ensures counted { O.faults output.old ≤ O.faults output.new }
    ensures failed { OnErr result (Rose (O.faults output.old) (O.faults output.new)) }
{
    let mut rest = text;
    while !rest.is_empty() {
        let count = output.put(rest)?;
        rest = after(rest, count);
    }
    Ok(())
}

/// Answers a request, and puts the text of the answer before it returns. Where there was no memory to read the request, the text says
/// that.
fn exchange<R: Threads + Sync, K: Keeper, U: UidMaker, G: Gate, O: Sink>(
    tools: &Tools<'_, R, U, G>,
    desk: &mut Desk,
    keeper: &mut K,
    request: &Read,
    output: &mut O,
) -> Result<(), Broken>
    ensures put { OnOk result ((w : World) (asked : Asked) → Stands (K.told keeper.old) desk.old w → IfOk request.now (λ r. r ≡ asked) → IsFormed asked →
        RequestPut U.digest w desk.old (seen (K.told keeper.old) (K.faults keeper.old) (O.taken output.old)) asked desk.new (seen (K.told keeper.new) (K.faults keeper.new) (O.taken output.new))) }
    ensures lacks { OnErr result ((w : World) (asked : Asked) → Stands (K.told keeper.old) desk.old w → IfOk request.now (λ r. r ≡ asked) → IsFormed asked →
        RequestLacks U.digest w desk.old (seen (K.told keeper.old) (K.faults keeper.old) (O.taken output.old)) asked desk.new (seen (K.told keeper.new) (K.faults keeper.new) (O.taken output.new))) }
    ensures counted { O.faults output.old ≤ O.faults output.new }
    ensures failed { result ≡ Err Broken.WriteFault → Rose (O.faults output.old) (O.faults output.new) }
{
    let text = match answer(tools, desk, keeper, request) {
        Ok(text) => text,
        Err(_) => return Err(Broken::OutOfMemory),
    };
    match put_all(output, text.as_slice()) {
        Ok(()) => Ok(()),
        Err(_) => Err(Broken::WriteFault),
    }
}

/// Answers a request, where there is one.
pub fn exchange_next<R: Threads + Sync, K: Keeper, U: UidMaker, G: Gate, O: Sink>(
    tools: &Tools<'_, R, U, G>,
    desk: &mut Desk,
    keeper: &mut K,
    request: &Option<Read>,
    output: &mut O,
) -> Result<(), Broken>
    ensures put { OnOk result ((w : World) (before : Outside) (rs more : List Asked) → Asks request.now rs more →
        RequestsPut U.digest w before rs desk.old (seen (K.told keeper.old) (K.faults keeper.old) (O.taken output.old)) →
        RequestsPut U.digest w before more desk.new (seen (K.told keeper.new) (K.faults keeper.new) (O.taken output.new))) }
    ensures lacks { OnErr result ((w : World) (before : Outside) (rs more : List Asked) → Asks request.now rs more →
        RequestsPut U.digest w before rs desk.old (seen (K.told keeper.old) (K.faults keeper.old) (O.taken output.old)) →
        RequestsLack U.digest w before more desk.new (seen (K.told keeper.new) (K.faults keeper.new) (O.taken output.new))) }
    ensures counted { O.faults output.old ≤ O.faults output.new }
    ensures failed { result ≡ Err Broken.WriteFault → Rose (O.faults output.old) (O.faults output.new) }
{
    match request {
        None => Ok(()),
        Some(request) => exchange(tools, desk, keeper, request, output),
    }
}
