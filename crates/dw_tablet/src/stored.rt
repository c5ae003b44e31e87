ghost use Rattle.std.specs.Prelude.{◌≡◌, IfOk, OnOk};
ghost use Rattle.dw_vis.specs.Test.{is_vis};
ghost use Rattle.dw_derive.specs.Readers.{only_if, event_reading};
ghost use Rattle.dw_derive.specs.KeyFields.{event_said as event_fields_said};
ghost use Rattle.dw_tablet.specs.Said.{said_of, visible_said, key_said};

use crate::said::{EventSaid, IndexSaid, Said};
use dw_base::{Bytes, OutOfMemory, Text};
use dw_derive::{event_fields, index_fields, key_of};
use dw_event::EventCell;
use dw_key::Key;
use dw_vis::{Vis, VisError, visibilities_are_tested};
use std::alloc::Global;
use std::marker::Model;

/// The key of a cell, and what it says, which is read once.
#[derive(Debug, Drop)]
pub(crate) struct Stored {
    code: Bytes,
    said: Said,
}

impl Model for Stored {
    ghost use Rattle.std.specs.Prelude.{◌≡◌, List, ℕ};
    ghost use Rattle.dw_tablet.specs.Said.{said_of};

    ghost Value = { List ℕ };

    ghost view = { λ s. s.code };

    ghost invariant = { λ s. s.said ≡ said_of s.code };
}

impl Stored {
    pub(crate) fn code(&self) -> &[u8]
        ensures { result.now ≡ self.now }
    {
        self.code.as_slice()
    }

    pub(crate) fn said(&self) -> &Said
        ensures { result.now ≡ said_of self.now }
    {
        &self.said
    }
}

/// Reads keys one after another, and no visibility twice in a row.
#[derive(Drop)]
pub(crate) struct KeyReader {
    alloc: Global,
    last: Option<Vis>,
}

impl KeyReader {
    pub(crate) fn new(alloc: Global) -> KeyReader {
        KeyReader { alloc, last: None }
    }

    /// The key and what it says.
    pub(crate) fn read(&mut self, code: Bytes) -> Result<Stored, OutOfMemory>
        ensures { IfOk result (λ s. s ≡ code) }
    {
        let said = self.said(code.as_slice())?;
        Ok(Stored { code, said })
    }

    #[tactic(auto, using(crate::proofs::Reading::no_key_says, crate::proofs::Reading::key_says))]
    fn said(&mut self, code: &[u8]) -> Result<Said, OutOfMemory>
        ensures { IfOk result (λ s. s ≡ said_of code.now) }
    {
        match key_of(self.alloc, code)? {
            None => Ok(Said::Nothing),
            Some(key) => self.key_said(&key),
        }
    }

    fn key_said(&mut self, key: &Key) -> Result<Said, OutOfMemory>
        ensures { IfOk result (λ s. s ≡ visible_said key.now) }
    {
        match self.vis_of(key.vis.as_slice())? {
            None => Ok(Said::Nothing),
            Some(vis) => said_to(self.alloc, key, vis),
        }
    }

    /// The visibility of a text, or None where it breaks a rule.
    fn vis_of(&mut self, text: &[u8]) -> Result<Option<Vis>, OutOfMemory>
        ensures { IfOk result (λ o. o ≡ only_if (is_vis text.now) text.now) }
    {
        visibilities_are_tested();
        if let Some(last) = &self.last {
            if last.text() == text {
                return Ok(Some(last.copy()?));
            }
        }
        let vis = parsed(self.alloc, text)?;
        self.last = match &vis {
            None => None,
            Some(vis) => Some(vis.copy()?),
        };
        Ok(vis)
    }
}

fn parsed(alloc: Global, text: &[u8]) -> Result<Option<Vis>, OutOfMemory>
    ensures { IfOk result (λ o. o ≡ only_if (is_vis text.now) text.now) }
{
    match Vis::parse(alloc, text) {
        Ok(vis) => Ok(Some(vis)),
        Err(VisError::OutOfMemory) => Err(OutOfMemory),
        Err(_) => Ok(None),
    }
}

/// What a key says to those who see it.
fn said_to(alloc: Global, key: &Key, vis: Vis) -> Result<Said, OutOfMemory>
    requires { vis ≡ key.now.vis }
    ensures { IfOk result (λ s. s ≡ key_said key.now) }
{
    if let Some(fields) = event_fields(key) {
        let field = Text::of(alloc, fields.field)?;
        let raw = Text::of(alloc, fields.raw)?;
        let cell = EventCell { field, raw, vis };
        return Ok(Said::OfEvent(EventSaid {
            doc: fields.doc,
            cell,
            batch: key.stamp,
        }));
    }
    if let Some(fields) = index_fields(key) {
        let field = Text::of(alloc, fields.field)?;
        let value = Text::of(alloc, fields.value)?;
        return Ok(Said::OfIndex(IndexSaid {
            doc: fields.doc,
            field,
            value,
            vis,
            batch: key.stamp,
        }));
    }
    Ok(Said::Nothing)
}
