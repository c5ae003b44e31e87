ghost use Rattle.std.specs.Prelude.{◌≡◌, ◌↔◌, ◌++◌, [], Some, None, IsTrue, MatchOption, OnOk, OnErr};
ghost use Rattle.datawave.specs.Lines.{kept};

use dw_key::OutOfMemory;
use dw_wire::MAX_LINE;
use std::alloc::Global;
use std::marker::Model;

/// What was read of a line so far: its bytes, or only that they are more than a line may have.
#[derive(Drop)]
pub struct Line {
    bytes: Vec<u8>,
    long: bool,
}

impl Model for Line {
    ghost use Rattle.std.specs.Prelude.{List, ℕ, ◌≤◌, Some, None, Option, if◌then◌else◌, length};
    ghost use Rattle.dw_wire.specs.ReadLine.{max_line};

    ghost Value = { Option (List ℕ) };

    ghost view = { λ l. if l.long then None else Some l.bytes.items };

    ghost invariant = { λ l. length l.bytes.items ≤ max_line };
}

impl Line {
    pub fn new(alloc: Global) -> Line
        ensures { result ≡ Some [] }
    {
        Line {
            bytes: Vec::new(alloc),
            long: false,
        }
    }

    /// Adds the next bytes. After an error what is kept is as before.
    pub fn add(&mut self, piece: &[u8]) -> Result<(), OutOfMemory>
        ensures ok { OnOk result ((front : _) → self.old ≡ kept front → self.new ≡ kept (front ++ piece.now)) }
        ensures err { OnErr result (self.new ≡ self.old) }
    {
        if self.long {
            return Ok(());
        }
        if piece.len() > MAX_LINE - self.bytes.len() {
            self.bytes.clear();
            self.long = true;
            return Ok(());
        }
        self.bytes.extend_from_slice(piece)?;
        Ok(())
    }

    /// Begins the next line.
    pub fn clear(&mut self)
        ensures { self.new ≡ Some [] }
    {
        self.bytes.clear();
        self.long = false;
    }

    /// The bytes, or None where they are too many.
    pub fn bytes(&self) -> Option<&[u8]>
        ensures { MatchOption result (self.now ≡ None) (λ bytes. self.now ≡ Some bytes.now) }
    {
        if self.long {
            return None;
        }
        Some(self.bytes.as_slice())
    }

    pub fn is_empty(&self) -> bool
        ensures { IsTrue result ↔ (self.now ≡ Some []) }
    {
        !self.long && self.bytes.is_empty()
    }
}
