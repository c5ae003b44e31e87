use crate::OutOfMemory;
use dw_base::Bytes;
use dw_vis::{Auths, Vis, VisError, visibilities_are_tested};
use std::alloc::Global;

/// What a reader sees. The last visibility is kept with the answer, so that equal ones in a row are parsed
/// once.
#[derive(Drop)]
pub(crate) struct Sight<'a> {
    auths: &'a Auths,
    last: Bytes,
    seen: bool,
    ghost known: { seen ≡ is_open auths.now last },
}

ghost use Rattle.std.specs.Prelude.{◌≡◌, IfOk};
ghost use Rattle.dw_plan.specs.Cells.{is_open};

impl<'a> Sight<'a> {
    pub(crate) fn new(alloc: Global, auths: &'a Auths) -> Sight<'a>
        ensures { result.auths.now ≡ auths.now }
    {
        visibilities_are_tested();
        let seen = Vis::everyone(alloc).sees(auths);
        Sight {
            auths,
            last: Bytes::new(alloc),
            seen,
        }
    }

    /// Whether the bytes are a visibility that the reader sees.
    pub(crate) fn sees(&mut self, alloc: Global, vis: &[u8]) -> Result<bool, OutOfMemory>
        ensures value { IfOk result (λ b. b ≡ is_open self.old.auths.now vis.now) }
        ensures same { self.new.auths.now ≡ self.old.auths.now }
    {
        if self.last.as_slice() == vis {
            return Ok(self.seen);
        }
        let seen = is_open(alloc, vis, self.auths)?;
        let last = Bytes::of(alloc, vis)?;
        *self = Sight {
            auths: self.auths,
            last,
            seen,
        };
        Ok(seen)
    }
}

fn is_open(alloc: Global, vis: &[u8], auths: &Auths) -> Result<bool, OutOfMemory>
    ensures { IfOk result (λ b. b ≡ is_open auths.now vis.now) }
{
    match Vis::parse(alloc, vis) {
        Ok(vis) => Ok(vis.sees(auths)),
        Err(VisError::OutOfMemory) => Err(OutOfMemory),
        Err(_) => Ok(false),
    }
}
