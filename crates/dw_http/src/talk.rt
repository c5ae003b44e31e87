ghost use Rattle.std.specs.Prelude.{◌≡◌, ◌<◌, ◌≤◌, ◌+◌, ◌⊎◌, true, Ok, None, Some, length, IfOk, OnOk, IsSome};
ghost use Rattle.dw_http.specs.Looks.{LooksAt, HasHead};
ghost use Rattle.dw_http.specs.Heads.{NoneStands};
ghost use Rattle.dw_http.specs.Lines.{is_large};
ghost use Rattle.dw_http.specs.Turns.{Goes, Refuses, Turns, Ends};
ghost use Rattle.dw_http.specs.Talks.{Conversed};

use crate::OutOfMemory;
use crate::answering::answer;
use crate::intake::{Intake, Stop};
use crate::lines::too_large;
use crate::looking::{Look, look_at};
use crate::response::write_last;
use crate::scan::Scan;
use crate::service::Service;
use crate::why::HttpWhy;
use dw_outside::Link;
use std::alloc::Global;

/// How a conversation ended.
#[derive(Clone, Copy, Debug, PartialEq, Eq)]
pub enum Ended {
    /// The input ended between messages, or a message asked that the connection end.
    Done,
    /// The link failed in reading.
    ReadFault,
    /// The link failed in writing.
    WriteFault,
    /// The bytes are no message, and the last reply says so.
    BadHttp(HttpWhy),
    /// 2^40 bytes were taken, one more is there, and nothing in them ended the connection.
    TooMuch,
    OutOfMemory,
}

/// Takes bytes until what stands at their front is known.
fn find<L: Link>(alloc: Global, link: &mut L, intake: &mut Intake) -> Result<Look, OutOfMemory>
    ensures goes { OnOk result (Goes (L.meaning link.old) intake.old intake.new (L.meaning link.new)) }
    ensures looks { IfOk result (LooksAt intake.new.bytes) }
    ensures waited { result ≡ Ok Look.NotYet → IsSome intake.new.stop ⊎ (is_large intake.new.bytes ≡ true) }
    ensures writing { (L.meaning link.new).writing ≡ (L.meaning link.old).writing }
{
    let mut scan = Scan::new();
    while intake.stop().is_none() {
        if scan.is_due(intake.as_slice()) {
            let look = look_at(alloc, intake.as_slice())?;
            if !matches!(look, Look::NotYet) || too_large(intake.as_slice()) {
                return Ok(look);
            }
        }
        intake.fill(link)?;
    }
    look_at(alloc, intake.as_slice())
}

/// Takes bytes until so many are held, or no more come.
fn gather<L: Link>(link: &mut L, intake: &mut Intake, need: usize) -> Result<(), OutOfMemory>
    ensures goes { OnOk result (Goes (L.meaning link.old) intake.old intake.new (L.meaning link.new)) }
    ensures enough { OnOk result (IsSome intake.new.stop ⊎ (need ≤ length intake.new.bytes)) }
    ensures writing { (L.meaning link.new).writing ≡ (L.meaning link.old).writing }
{
    while intake.stop().is_none() {
        if intake.as_slice().len() >= need {
            return Ok(());
        }
        intake.fill(link)?;
    }
    Ok(())
}

/// Writes the last reply.
fn refuse<L: Link>(alloc: Global, link: &mut L, why: HttpWhy) -> Ended
    ensures reading { (L.meaning link.new).reading ≡ (L.meaning link.old).reading }
    ensures refuses { Refuses (L.meaning link.old) why result (L.meaning link.new) }
{
    let Ok(reply) = write_last(alloc, why) else {
        return Ended::OutOfMemory;
    };
    match link.send(reply.as_slice()) {
        Ok(()) => Ended::BadHttp(why),
        Err(_) => Ended::WriteFault,
    }
}

/// Ends where the input is at its end and no head stands.
fn end_of_input<L: Link, H: Service>(
    alloc: Global,
    link: &mut L,
    intake: &Intake,
    service: &H,
) -> Ended
    requires none { NoneStands intake.now.bytes }
    requires ended { intake.now.stop ≡ Some Stop.Ended }
    ensures { Ends H.answers H.stays (L.meaning link.old) intake.now service.now result (L.meaning link.new) service.now }
{
    let bytes = intake.as_slice();
    if bytes.is_empty() {
        return Ended::Done;
    }
    if too_large(bytes) {
        return refuse(alloc, link, HttpWhy::Large);
    }
    refuse(alloc, link, HttpWhy::Cut)
}

/// Ends where no head stands and none will come.
fn end_in_head<L: Link, H: Service>(
    alloc: Global,
    link: &mut L,
    intake: &Intake,
    service: &H,
) -> Ended
    requires none { NoneStands intake.now.bytes }
    requires waited { IsSome intake.now.stop ⊎ (is_large intake.now.bytes ≡ true) }
    ensures { Ends H.answers H.stays (L.meaning link.old) intake.now service.now result (L.meaning link.new) service.now }
{
    match intake.stop() {
        Some(Stop::Ended) => end_of_input(alloc, link, intake, service),
        Some(Stop::ReadFault) => Ended::ReadFault,
        Some(Stop::TooMuch) => {
            if too_large(intake.as_slice()) {
                return refuse(alloc, link, HttpWhy::Large);
            }
            Ended::TooMuch
        }
        None => refuse(alloc, link, HttpWhy::Large),
    }
}

/// Ends where a head stands and its body is not whole.
fn end_in_body<L: Link, H: Service>(
    alloc: Global,
    link: &mut L,
    intake: &Intake,
    head: usize,
    body: usize,
    service: &H,
) -> Ended
    requires head { HasHead intake.now.bytes head body }
    requires short { length intake.now.bytes < head + body }
    requires stopped { IsSome intake.now.stop }
    ensures { Ends H.answers H.stays (L.meaning link.old) intake.now service.now result (L.meaning link.new) service.now }
{
    match intake.stop() {
        Some(Stop::Ended) => refuse(alloc, link, HttpWhy::Cut),
        Some(Stop::ReadFault) => Ended::ReadFault,
        Some(Stop::TooMuch) => Ended::TooMuch,
        None => unreachable!(),
    }
}

/// Answers the message whose head stands at the front, if it is whole. None where the connection goes on.
fn answer_message<L: Link, H: Service>(
    alloc: Global,
    link: &mut L,
    intake: &mut Intake,
    head: usize,
    body: usize,
    service: &mut H,
) -> Option<Ended>
    requires head { HasHead intake.old.bytes head body }
    requires enough { IsSome intake.old.stop ⊎ (head + body ≤ length intake.old.bytes) }
    ensures { Turns H.answers H.stays (L.meaning link.old) intake.old service.old result intake.new (L.meaning link.new) service.new }
{
    if intake.as_slice().len() < head + body {
        return Some(end_in_body(alloc, link, intake, head, body, service));
    }
    match answer(alloc, intake.as_slice(), head, body, service) {
        Err(_) => Some(Ended::OutOfMemory),
        Ok(answered) => match link.send(answered.response.as_slice()) {
            Err(_) => Some(Ended::WriteFault),
            Ok(()) => {
                if answered.close {
                    return Some(Ended::Done);
                }
                intake.pass(head + body);
                None
            }
        },
    }
}

/// Takes the message whose head stands at the front, and answers it.
fn take_message<L: Link, H: Service>(
    alloc: Global,
    link: &mut L,
    intake: &mut Intake,
    head: usize,
    body: usize,
    service: &mut H,
) -> Option<Ended>
    requires { HasHead intake.old.bytes head body }
    ensures { Turns H.answers H.stays (L.meaning link.old) intake.old service.old result intake.new (L.meaning link.new) service.new }
{
    match gather(link, intake, head + body) {
        Err(_) => Some(Ended::OutOfMemory),
        Ok(()) => answer_message(alloc, link, intake, head, body, service),
    }
}

/// Answers the next message. None where the connection goes on.
fn turn<L: Link, H: Service>(
    alloc: Global,
    link: &mut L,
    intake: &mut Intake,
    service: &mut H,
) -> Option<Ended>
    ensures { Turns H.answers H.stays (L.meaning link.old) intake.old service.old result intake.new (L.meaning link.new) service.new }
{
    match find(alloc, link, intake) {
        Err(_) => Some(Ended::OutOfMemory),
        Ok(Look::Whole { head, body }) => take_message(alloc, link, intake, head, body, service),
        Ok(Look::Refused(why)) => Some(refuse(alloc, link, why)),
        Ok(Look::Never) => Some(refuse(alloc, link, HttpWhy::Head)),
        Ok(Look::NotYet) => Some(end_in_head(alloc, link, intake, service)),
    }
}

/// Answers the messages of a link in turn, until the connection ends. It takes at most 2^40 bytes, and
/// one more to see whether more is there, and holds one message and what came with it.
pub fn converse<L: Link, H: Service>(alloc: Global, link: &mut L, service: &mut H) -> Ended
    ensures { Conversed H.answers H.stays (L.meaning link.old) service.old result (L.meaning link.new) service.new }
{
    let mut intake = Intake::new(alloc);
    loop {
        match turn(alloc, link, &mut intake, service) {
            None => {}
            Some(ended) => return ended,
        }
    }
}
