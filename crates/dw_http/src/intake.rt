ghost use Rattle.std.specs.Prelude.{◌≡◌, ◌<◌, ◌≤◌, ◌-◌, ◌^◌, ◌++◌, [], Some, None, length, drop, max, IfNone, OnOk};
ghost use Rattle.dw_http.specs.Held.{Gathered};

use crate::OutOfMemory;
use dw_outside::Link;
use std::alloc::Global;
use std::marker::Model;

/// The most bytes that a conversation takes.
const MOST: u64 = 1 << 40;

/// How many bytes are taken at once.
const PIECE: usize = 16_384;

/// Why no more bytes are taken.
#[derive(Clone, Copy, Debug, PartialEq, Eq)]
pub(crate) enum Stop {
    /// The input is at its end.
    Ended,
    /// As many bytes were taken as may be, and one more is there.
    TooMuch,
    /// The link failed.
    ReadFault,
}

/// The bytes that were taken from a link and not yet answered.
#[derive(Drop)]
pub(crate) struct Intake {
    bytes: Vec<u8>,
    at: usize,
    budget: u64,
    stop: Option<Stop>,
    alloc: Global,
}

impl Model for Intake {
    ghost use Rattle.std.specs.Prelude.{◌≤◌, length, drop};
    ghost use Rattle.dw_http.specs.Held.{Held};

    ghost Value = { Held };

    ghost view = { λ i. record { bytes = drop i.at i.bytes.items; budget = i.budget; stop = i.stop } };

    ghost invariant = { λ i. i.at ≤ length i.bytes.items };
}

impl Intake {
    pub(crate) fn new(alloc: Global) -> Intake
        ensures bytes { result.bytes ≡ [] }
        ensures budget { result.budget ≡ 2 ^ 40 }
        ensures stop { result.stop ≡ None }
    {
        Intake {
            bytes: Vec::new(alloc),
            at: 0,
            budget: MOST,
            stop: None,
            alloc,
        }
    }

    pub(crate) fn as_slice(&self) -> &[u8]
        ensures { result.now ≡ self.now.bytes }
    {
        &self.bytes.as_slice()[self.at..]
    }

    pub(crate) fn stop(&self) -> Option<Stop>
        ensures { result ≡ self.now.stop }
    {
        self.stop
    }

    /// Lets go of the first bytes.
    pub(crate) fn pass(&mut self, count: usize)
        requires { count ≤ length self.old.bytes }
        ensures { self.new ≡ record self.old { bytes = drop count self.old.bytes } }
    {
        self.at += count;
    }

    /// Room for more bytes. Those that were let go give theirs back.
    fn make_room(&mut self, more: usize) -> Result<(), OutOfMemory>
        ensures same { self.new ≡ self.old }
    {
        if self.at > 0 {
            let mut rest = Vec::new(self.alloc);
            rest.extend_from_slice(&self.bytes.as_slice()[self.at..])?;
            self.bytes = rest;
            self.at = 0;
        }
        self.bytes.reserve(more)?;
        Ok(())
    }

    fn halt(&mut self, stop: Stop)
        ensures { self.new ≡ record self.old { stop = Some stop } }
    {
        self.stop = Some(stop);
    }

    fn keep(&mut self, piece: &[u8]) -> Result<(), OutOfMemory>
        requires { length piece.now ≤ self.old.budget }
        ensures { OnOk result (self.new ≡ record self.old { bytes = self.old.bytes ++ piece.now; budget = self.old.budget - length piece.now }) }
    {
        self.bytes.extend_from_slice(piece)?;
        self.budget -= piece.len() as u64;
        Ok(())
    }

    /// Takes more bytes, as many as the buffer has room for, or finds why there are none.
    fn take_with<L: Link>(&mut self, link: &mut L, buf: &mut [u8]) -> Result<(), OutOfMemory>
        requires open { self.old.stop ≡ None }
        requires some { 0 < length buf.old }
        requires fits { length buf.old ≤ max self.old.budget 1 }
        ensures ok { OnOk result (Gathered (L.meaning link.old) self.old self.new (L.meaning link.new)) }
        ensures progress { OnOk result (IfNone self.new.stop (self.new.budget < self.old.budget)) }
        ensures writing { (L.meaning link.new).writing ≡ (L.meaning link.old).writing }
    {
        match link.receive(buf) {
            Err(_) => {
                self.halt(Stop::ReadFault);
                Ok(())
            }
            Ok(0) => {
                self.halt(Stop::Ended);
                Ok(())
            }
            Ok(_) if self.budget == 0 => {
                self.halt(Stop::TooMuch);
                Ok(())
            }
            Ok(count) => self.keep(&buf[..count]),
        }
    }

    /// Takes a piece more, or finds why there is none. Near the last byte that may be taken it goes byte by byte.
    pub(crate) fn fill<L: Link>(&mut self, link: &mut L) -> Result<(), OutOfMemory>
        requires open { self.old.stop ≡ None }
        ensures ok { OnOk result (Gathered (L.meaning link.old) self.old self.new (L.meaning link.new)) }
        ensures progress { OnOk result (IfNone self.new.stop (self.new.budget < self.old.budget)) }
        ensures writing { (L.meaning link.new).writing ≡ (L.meaning link.old).writing }
    {
        self.make_room(PIECE)?;
        if self.budget < PIECE as u64 {
            let mut byte = [0u8; 1];
            self.take_with(link, &mut byte)
        } else {
            let mut piece = [0u8; PIECE];
            self.take_with(link, &mut piece)
        }
    }
}
