//! The desk with its history.

ghost use Rattle.std.specs.Prelude.{◌≡◌, ◌≢◌, true, Err, IfOk, OnErr};
ghost use Rattle.lx_io.specs.Causes.{HasCause, HasCauseOf};
ghost use Rattle.lx_spec.specs.ValidEdit.{ValidCommand, ValidEdit};
ghost use Rattle.lx_spec.specs.WantedMemory.{takes_memory, may_lack_memory};
ghost use Rattle.lx_spec.specs.Undo.{UndoState, opened_with, with_show, replaced, undo_step, record_step, undo, redo};
ghost use Rattle.lx_edit.specs.PlanMeaning.{IsReady, planned};
ghost use Rattle.lx_undo.specs.UndoDeskMeaning.{UndoStands, UndoSteps, TakesUndoStep};

use crate::history::UndoPlans;
use lx_base::CueNo;
use lx_console::Console;
use lx_edit::Plan;
use lx_edit::planning::plan;
use lx_io::{Heap, SystemHeap};
use lx_record::plan_record_in;
use lx_show::{Command, Edit, Refusal, Show};
use lx_spec::UndoFault;
use std::alloc::{AllocError, Global};
use std::marker::Model;

/// A desk whose edits and records can be undone and redone, as many as the depth that it was opened with. Each hands
/// back the plan that takes it back, into which what it replaced is moved, so that no show is copied and an undo costs
/// what an edit does. Undo, redo, keys and ticks take no memory.
#[derive(Drop)]
pub struct UndoDesk {
    console: Console,
    history: UndoPlans,
}

impl Model for UndoDesk {
    ghost use Rattle.lx_undo.specs.UndoDeskMeaning.{UndoKept, seen};
    ghost use Rattle.lx_undo.specs.Shows.{AllReady};

    ghost Value = { UndoKept };

    ghost view = { λ u. seen u.console u.history };

    ghost invariant = { λ u. AllReady u.console.show u.history };
}

impl UndoDesk {
    /// A desk over the show, as at the opening, that keeps the last `depth` shows which edits and records replace. It
    /// takes the memory that keys, ticks, undo and redo need; where it runs out the show is lost.
    pub fn open(alloc: Global, show: Show, depth: usize) -> Result<UndoDesk, AllocError>
        ensures { IfOk result (UndoStands (opened_with show depth)) }
    {
        UndoDesk::open_in(&mut SystemHeap::new(alloc), show, depth)
    }

    /// The same, by a heap. An error comes where the heap refuses memory.
    pub fn open_in<H: Heap>(heap: &mut H, show: Show, depth: usize) -> Result<UndoDesk, AllocError>
        ensures stands { IfOk result (UndoStands (opened_with show depth)) }
        ensures cause { HasCause (H.refusals heap.old) (H.refusals heap.new) result }
    {
        Ok(UndoDesk {
            console: Console::open_in(heap, show)?,
            history: UndoPlans::open_in(heap, depth)?,
        })
    }

    /// The desk: its show, levels and frames as they are now.
    pub fn console(&self) -> &Console
        ensures { result.now ≡ self.now.console }
    {
        &self.console
    }

    /// An edit of the show, which can then be undone; or a key or a tick, as by the desk alone.
    ///
    /// Refused as by the desk; an edit with `Memory` only where memory runs out and nothing else refuses it. An edit
    /// that is refused stays out of the history. A refusal changes nothing.
    pub fn command(&mut self, command: &Command) -> Result<(), Refusal>
        requires { ValidCommand command.now }
        ensures steps { (s : UndoState) → UndoStands s self.old
            → TakesUndoStep (may_lack_memory command.now) (undo_step s command.now) result self.new }
        ensures unchanged { OnErr result (self.new ≡ self.old) }
        ensures memory { result ≡ Err Refusal.Memory → may_lack_memory command.now ≡ true }
    {
        let mut heap = SystemHeap::new(self.console().allocator());
        self.command_in(&mut heap, command)
    }

    /// The same, by a heap. An edit is refused with `Memory` only where the heap refused memory in this call. Keys and ticks take none, nor
    /// does a new cue or a row of the patch.
    pub fn command_in<H: Heap>(&mut self, heap: &mut H, command: &Command) -> Result<(), Refusal>
        requires { ValidCommand command.now }
        ensures steps { (s : UndoState) → UndoStands s self.old
            → TakesUndoStep (may_lack_memory command.now) (undo_step s command.now) result self.new }
        ensures unchanged { OnErr result (self.new ≡ self.old) }
        ensures memory { result ≡ Err Refusal.Memory → may_lack_memory command.now ≡ true }
        ensures cause { HasCauseOf Refusal.Memory (H.refusals heap.old) (H.refusals heap.new) result }
    {
        match command {
            Command::Edit(edit) => self.edit(heap, edit),
            _ => self.console.command_in(heap, command),
        }
    }

    /// An edit, planned whole and applied whole.
    fn edit<H: Heap>(&mut self, heap: &mut H, edit: &Edit) -> Result<(), Refusal>
        requires { ValidEdit edit.now }
        ensures steps { (s : UndoState) → UndoStands s self.old
            → TakesUndoStep (takes_memory edit.now) (undo_step s (Command.Edit edit.now)) result self.new }
        ensures unchanged { OnErr result (self.new ≡ self.old) }
        ensures memory { result ≡ Err Refusal.Memory → takes_memory edit.now ≡ true }
        ensures cause { HasCauseOf Refusal.Memory (H.refusals heap.old) (H.refusals heap.new) result }
    {
        let plan = plan(heap, self.console.show(), edit)?;
        self.apply(plan);
        Ok(())
    }

    /// Applies a plan that was made for the show, and keeps the one that takes it back.
    fn apply(&mut self, plan: Plan)
        requires { IsReady self.old.console.show plan }
        ensures { (s : UndoState) → UndoStands s self.old
            → UndoStands (replaced s (with_show s.desk (planned self.old.console.show plan))) self.new }
    {
        let undo = self.console.apply(plan);
        self.history.keep(undo);
    }

    /// Records the stage as cue `n`, as `recorded` does; this can then be undone. With `only` the next cue keeps the
    /// levels that it had.
    ///
    /// Refused with `CueLimit` exactly where the cue is absent and the show has as many cues as it may have; with
    /// `Memory` only where memory runs out and the record isn't refused. A refusal changes nothing.
    pub fn record(&mut self, n: CueNo, only: bool) -> Result<(), Refusal>
        requires { n ≢ 0 }
        ensures steps { (s : UndoState) → UndoStands s self.old → TakesUndoStep true (record_step s n only) result self.new }
        ensures unchanged { OnErr result (self.new ≡ self.old) }
    {
        let mut heap = SystemHeap::new(self.console().allocator());
        self.record_in(&mut heap, n, only)
    }

    /// The same, by a heap. `Memory` comes only where the heap refused some in this call and the record isn't refused.
    pub fn record_in<H: Heap>(&mut self, heap: &mut H, n: CueNo, only: bool) -> Result<(), Refusal>
        requires { n ≢ 0 }
        ensures steps { (s : UndoState) → UndoStands s self.old → TakesUndoStep true (record_step s n only) result self.new }
        ensures unchanged { OnErr result (self.new ≡ self.old) }
        ensures cause { HasCauseOf Refusal.Memory (H.refusals heap.old) (H.refusals heap.new) result }
    {
        let plan = plan_record_in(heap, &self.console, n, only)?;
        self.apply(plan);
        Ok(())
    }

    /// Brings back the show before the last edit or record that wasn't undone. The playback, the faders and the master
    /// go on as they are, over that show. It takes no memory.
    ///
    /// Refused with `NothingToUndo`, and nothing changes, exactly where no show is kept before the present one.
    pub fn undo(&mut self) -> Result<(), UndoFault>
        ensures steps { (s : UndoState) → UndoStands s self.old → UndoSteps (undo s) result self.new }
        ensures unchanged { OnErr result (self.new ≡ self.old) }
    {
        match self.history.take_back() {
            Some(plan) => {
                let again = self.console.apply(plan);
                self.history.put_forth(again);
                Ok(())
            }
            None => Err(UndoFault::NothingToUndo),
        }
    }

    /// Brings back the show that the last undo replaced. The playback, the faders and the master go on as they are,
    /// over that show. It takes no memory.
    ///
    /// Refused with `NothingToRedo`, and nothing changes, exactly where none was undone since the last edit or record.
    pub fn redo(&mut self) -> Result<(), UndoFault>
        ensures steps { (s : UndoState) → UndoStands s self.old → UndoSteps (redo s) result self.new }
        ensures unchanged { OnErr result (self.new ≡ self.old) }
    {
        match self.history.take_forth() {
            Some(plan) => {
                let undo = self.console.apply(plan);
                self.history.put_back(undo);
                Ok(())
            }
            None => Err(UndoFault::NothingToRedo),
        }
    }
}
