ghost use Rattle.std.specs.Prelude.{◌≡◌, ◌++◌, ◌∷◌, ◌≤◌, [], ℕ, List, Err, OnOk, OnErr};
ghost use Rattle.dw_outside.specs.Faults.{Rose};
ghost use Rattle.dw_derive.specs.World.{World};
ghost use Rattle.datawave.specs.Lines.{kept, lines, rest_after, whole_lines};
ghost use Rattle.datawave.specs.Outside.{Outside, seen};
ghost use Rattle.datawave.specs.Exchange.{RequestsLack, RequestsPut};

use crate::exchange::{Broken, exchange_next};
use crate::feeds::split_feed;
use crate::line::Line;
use crate::lines::LineWork;
use crate::tools::Tools;
use dw_desk::Desk;
use dw_event::UidMaker;
use dw_outside::{Keeper, Sink};
use dw_pool::Gate;
use std::alloc::Global;
use std::thread::Threads;

/// Work on the lines of an input: what was read of the line that is not at its end yet, and the work on those before it.
#[derive(Drop)]
pub struct ByLines<T> {
    line: Line,
    work: T,
}

impl<T: LineWork> ByLines<T> {
    pub fn new(alloc: Global, work: T) -> ByLines<T>
        ensures line { result.line ≡ kept [] }
        ensures work { result.work ≡ work }
    {
        ByLines {
            line: Line::new(alloc),
            work,
        }
    }

    /// Takes the line that was read, and answers what is whole with it.
    fn take_line<R: Threads + Sync, K: Keeper, U: UidMaker, G: Gate, O: Sink>(
        &mut self,
        tools: &Tools<'_, R, U, G>,
        desk: &mut Desk,
        keeper: &mut K,
        output: &mut O,
    ) -> Result<(), Broken>
        ensures put { OnOk result ((w : World) (before : Outside) (ls : List (List ℕ)) (bytes : List ℕ) → self.old.line ≡ kept bytes → T.holds self.old.work ls →
            RequestsPut U.digest w before (T.whole ls) desk.old (seen (K.told keeper.old) (K.faults keeper.old) (O.taken output.old)) →
            T.holds self.new.work (ls ++ bytes ∷ []) × RequestsPut U.digest w before (T.whole (ls ++ bytes ∷ [])) desk.new (seen (K.told keeper.new) (K.faults keeper.new) (O.taken output.new))) }
        ensures lacks { OnErr result ((w : World) (before : Outside) (ls : List (List ℕ)) (bytes : List ℕ) → self.old.line ≡ kept bytes → T.holds self.old.work ls →
            RequestsPut U.digest w before (T.whole ls) desk.old (seen (K.told keeper.old) (K.faults keeper.old) (O.taken output.old)) →
            RequestsLack U.digest w before (T.whole (ls ++ bytes ∷ [])) desk.new (seen (K.told keeper.new) (K.faults keeper.new) (O.taken output.new))) }
        ensures counted { O.faults output.old ≤ O.faults output.new }
        ensures failed { result ≡ Err Broken.WriteFault → Rose (O.faults output.old) (O.faults output.new) }
    {
        let request = self.work.line(tools.alloc, &self.line)?;
        exchange_next(tools, desk, keeper, &request, output)
    }

    /// Takes the last line, which no line feed ends, where there is one.
    fn last_line<R: Threads + Sync, K: Keeper, U: UidMaker, G: Gate, O: Sink>(
        &mut self,
        tools: &Tools<'_, R, U, G>,
        desk: &mut Desk,
        keeper: &mut K,
        output: &mut O,
    ) -> Result<(), Broken>
        ensures put { OnOk result ((w : World) (before : Outside) (front : List ℕ) → self.old.line ≡ kept (rest_after [] front) → T.holds self.old.work (whole_lines front) →
            RequestsPut U.digest w before (T.whole (whole_lines front)) desk.old (seen (K.told keeper.old) (K.faults keeper.old) (O.taken output.old)) →
            T.holds self.new.work (lines front) × RequestsPut U.digest w before (T.whole (lines front)) desk.new (seen (K.told keeper.new) (K.faults keeper.new) (O.taken output.new))) }
        ensures lacks { OnErr result ((w : World) (before : Outside) (front : List ℕ) → self.old.line ≡ kept (rest_after [] front) → T.holds self.old.work (whole_lines front) →
            RequestsPut U.digest w before (T.whole (whole_lines front)) desk.old (seen (K.told keeper.old) (K.faults keeper.old) (O.taken output.old)) →
            RequestsLack U.digest w before (T.whole (lines front)) desk.new (seen (K.told keeper.new) (K.faults keeper.new) (O.taken output.new))) }
        ensures counted { O.faults output.old ≤ O.faults output.new }
        ensures failed { result ≡ Err Broken.WriteFault → Rose (O.faults output.old) (O.faults output.new) }
    {
        if self.line.is_empty() {
            return Ok(());
        }
        self.take_line(tools, desk, keeper, output)
    }

    /// Takes the next piece of the input, and answers what is whole with it.
    pub fn take<R: Threads + Sync, K: Keeper, U: UidMaker, G: Gate, O: Sink>(
        &mut self,
        tools: &Tools<'_, R, U, G>,
        desk: &mut Desk,
        keeper: &mut K,
        piece: &[u8],
        output: &mut O,
    ) -> Result<(), Broken>
        ensures put { OnOk result ((w : World) (before : Outside) (front : List ℕ) → (self.old.line ≡ kept (rest_after [] front)) × T.holds self.old.work (whole_lines front) →
            RequestsPut U.digest w before (T.whole (whole_lines front)) desk.old (seen (K.told keeper.old) (K.faults keeper.old) (O.taken output.old)) →
            ((self.new.line ≡ kept (rest_after [] (front ++ piece.now))) × T.holds self.new.work (whole_lines (front ++ piece.now)))
            × RequestsPut U.digest w before (T.whole (whole_lines (front ++ piece.now))) desk.new (seen (K.told keeper.new) (K.faults keeper.new) (O.taken output.new))) }
        ensures lacks { OnErr result ((w : World) (before : Outside) (front : List ℕ) → (self.old.line ≡ kept (rest_after [] front)) × T.holds self.old.work (whole_lines front) →
            RequestsPut U.digest w before (T.whole (whole_lines front)) desk.old (seen (K.told keeper.old) (K.faults keeper.old) (O.taken output.old)) →
            RequestsLack U.digest w before (T.whole (whole_lines (front ++ piece.now))) desk.new (seen (K.told keeper.new) (K.faults keeper.new) (O.taken output.new))) }
        ensures counted { O.faults output.old ≤ O.faults output.new }
        ensures failed { result ≡ Err Broken.WriteFault → Rose (O.faults output.old) (O.faults output.new) }
    {
        let mut rest = piece;
        while let Some((text, more)) = split_feed(rest) {
            self.line.add(text)?;
            self.take_line(tools, desk, keeper, output)?;
            self.line.clear();
            rest = more;
        }
        self.line.add(rest)?;
        Ok(())
    }

    /// Answers what is left at the end of the input.
    pub fn finish<R: Threads + Sync, K: Keeper, U: UidMaker, G: Gate, O: Sink>(
        &mut self,
        tools: &Tools<'_, R, U, G>,
        desk: &mut Desk,
        keeper: &mut K,
        output: &mut O,
    ) -> Result<(), Broken>
        ensures put { OnOk result ((w : World) (before : Outside) (front : List ℕ) → (self.old.line ≡ kept (rest_after [] front)) × T.holds self.old.work (whole_lines front) →
            RequestsPut U.digest w before (T.whole (whole_lines front)) desk.old (seen (K.told keeper.old) (K.faults keeper.old) (O.taken output.old)) →
            RequestsPut U.digest w before (T.all (lines front)) desk.new (seen (K.told keeper.new) (K.faults keeper.new) (O.taken output.new))) }
        ensures lacks { OnErr result ((w : World) (before : Outside) (front : List ℕ) → (self.old.line ≡ kept (rest_after [] front)) × T.holds self.old.work (whole_lines front) →
            RequestsPut U.digest w before (T.whole (whole_lines front)) desk.old (seen (K.told keeper.old) (K.faults keeper.old) (O.taken output.old)) →
            RequestsLack U.digest w before (T.all (lines front)) desk.new (seen (K.told keeper.new) (K.faults keeper.new) (O.taken output.new))) }
        ensures counted { O.faults output.old ≤ O.faults output.new }
        ensures failed { result ≡ Err Broken.WriteFault → Rose (O.faults output.old) (O.faults output.new) }
    {
        self.last_line(tools, desk, keeper, output)?;
        let request = self.work.end(tools.alloc);
        exchange_next(tools, desk, keeper, &request, output)
    }
}
