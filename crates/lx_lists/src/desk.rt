//! Two cue lists beside each other.

ghost use Rattle.std.specs.Prelude.{◌≡◌, ◌≢◌, ℕ, ◌≤◌, true, false, Err, IfOk, IsTrue, OnErr};
ghost use Rattle.lx_io.specs.Causes.{HasCause, HasCauseOf};
ghost use Rattle.lx_spec.specs.ValidEdit.{ValidCommand};
ghost use Rattle.lx_spec.specs.WantedMemory.{may_lack_memory};
ghost use Rattle.lx_spec.specs.Desk.{Desk, opened};
ghost use Rattle.lx_spec.specs.Output.{dimmer_value};
ghost use Rattle.lx_spec.specs.TwoLists.{TwoDesks, opened_two, second_show, first_step, second_step, tick_step, is_tick, commands_second};
ghost use Rattle.lx_spec.specs.TwoLists.{frame_of_two};
ghost use Rattle.lx_mixer.specs.Table.{IsTable};
ghost use Rattle.lx_console.specs.Slots.{universe};
ghost use Rattle.lx_console.specs.ConsoleMeaning.{StandsFor, Obeys};
ghost use Rattle.lx_lists.specs.TwoListsMeaning.{TwoStand, Steps, TakesStep, list_of, out_of_both};
ghost use Rattle.lx_base.specs.declared.TheConstants.{SLOTS, UNIVERSES};

use crate::output::Output;
use crate::split::{leave_first, second_of};
use lx_base::{Level, Moment};
use lx_console::Player;
use lx_io::{Heap, SystemHeap};
use lx_show::{Command, Refusal, Show};
use std::alloc::{AllocError, Global};
use std::marker::Model;

/// Two cue lists that play beside each other, each by a player of its own: the first has the cues below
/// `SECOND_LIST`, the second those from it on. A channel puts out the greatest of both playbacks and of the first
/// list's submasters, under the first list's master, and its patch says which dimmers follow. Ticks are of both, so
/// that both are always at the same moment.
#[derive(Drop)]
pub struct TwoLists {
    first: Player,
    second: Player,
    output: Output,
}

impl Model for TwoLists {
    ghost use Rattle.lx_lists.specs.TwoListsMeaning.{TwoKept};
    ghost use Rattle.lx_lists.specs.KeptLists.{AreKept};

    ghost Value = { TwoKept };

    ghost view = { λ t. record { first = t.first; second = t.second } };

    ghost invariant = { λ t. AreKept (record { first = t.first; second = t.second }) t.output };
}

impl TwoLists {
    /// Both lists as at the opening: the cues of the show are in one of them, and all else of the show is in both. It
    /// takes the memory that keys and ticks need; where it runs out the show is lost.
    pub fn open(alloc: Global, show: Show) -> Result<TwoLists, AllocError>
        ensures { IfOk result (TwoStand (opened_two show)) }
    {
        TwoLists::open_in(&mut SystemHeap::new(alloc), show)
    }

    /// The same, by a heap. An error comes where the heap refuses memory.
    pub fn open_in<H: Heap>(heap: &mut H, show: Show) -> Result<TwoLists, AllocError>
        ensures stand { IfOk result (TwoStand (opened_two show)) }
        ensures cause { HasCause (H.refusals heap.old) (H.refusals heap.new) result }
    {
        let second = open_second(heap, &show)?;
        let mut show = show;
        leave_first(&mut show);
        let mut output = Output::open_in(heap, &show)?;
        let first = Player::open_in(heap, show)?;
        output.fill(&first, &second);
        Ok(TwoLists {
            first,
            second,
            output,
        })
    }

    /// The first list, or the second.
    pub fn list(&self, second: bool) -> &Player
        ensures { result.now ≡ list_of self.now second }
    {
        if second { &self.second } else { &self.first }
    }

    /// Where edits take their memory, where they aren't given a heap.
    pub fn allocator(&self) -> Global {
        self.first.allocator()
    }

    /// The present moment of both, in hundredths of a second since the opening.
    pub fn moment(&self) -> Moment
        ensures first { result ≡ self.now.first.playback.moment }
        ensures second { result ≡ self.now.second.playback.moment }
    {
        self.first.moment()
    }

    /// The slots of all dimmers at the present moment, 512 for each universe: the greatest of both lists goes out.
    pub fn frames(&self) -> &[Level]
        ensures slots { IsTable SLOTS (dimmer_value self.now.first.show.patch (out_of_both self.now)) result.now }
        ensures frames { (s : TwoDesks) (u : ℕ) → TwoStand s self.now → 1 ≤ u → u ≤ UNIVERSES
            → universe u result.now ≡ frame_of_two s u }
    {
        self.output.kept.slots()
    }
}

impl TwoLists {
    /// A command of the first list that is no tick: the other list stays as it was.
    ///
    /// Refused as by a desk; an edit with `Memory` only where memory runs out and nothing else refuses it. A refusal
    /// changes nothing.
    pub fn first(&mut self, command: &Command) -> Result<(), Refusal>
        requires valid { ValidCommand command.now }
        requires taken { is_tick command.now ≡ false }
        ensures steps { (s : TwoDesks) → TwoStand s self.old
            → TakesStep (may_lack_memory command.now) (first_step s command.now) result self.new }
        ensures unchanged { OnErr result (self.new ≡ self.old) }
        ensures other { self.new.second ≡ self.old.second }
        ensures memory { result ≡ Err Refusal.Memory → may_lack_memory command.now ≡ true }
    {
        let mut heap = SystemHeap::new(self.allocator());
        self.first_in(&mut heap, command)
    }

    /// The same, by a heap. An edit is refused with `Memory` only where the heap refused memory in this call. Keys take none, nor does a new
    /// cue or a row of the patch.
    pub fn first_in<H: Heap>(&mut self, heap: &mut H, command: &Command) -> Result<(), Refusal>
        requires valid { ValidCommand command.now }
        requires taken { is_tick command.now ≡ false }
        ensures steps { (s : TwoDesks) → TwoStand s self.old
            → TakesStep (may_lack_memory command.now) (first_step s command.now) result self.new }
        ensures unchanged { OnErr result (self.new ≡ self.old) }
        ensures other { self.new.second ≡ self.old.second }
        ensures memory { result ≡ Err Refusal.Memory → may_lack_memory command.now ≡ true }
        ensures cause { HasCauseOf Refusal.Memory (H.refusals heap.old) (H.refusals heap.new) result }
    {
        let change = self.first.command_in(heap, command)?;
        self.output.follow(change, &self.first, &self.second);
        Ok(())
    }

    /// A command of the second list: a key of the playback, or an edit, but for those of submasters and the patch. The
    /// other list stays as it was.
    ///
    /// Refused as by a desk; an edit with `Memory` only where memory runs out and nothing else refuses it. A refusal
    /// changes nothing.
    pub fn second(&mut self, command: &Command) -> Result<(), Refusal>
        requires valid { ValidCommand command.now }
        requires taken { IsTrue (commands_second command.now) }
        ensures steps { (s : TwoDesks) → TwoStand s self.old
            → TakesStep (may_lack_memory command.now) (second_step s command.now) result self.new }
        ensures unchanged { OnErr result (self.new ≡ self.old) }
        ensures other { self.new.first ≡ self.old.first }
        ensures memory { result ≡ Err Refusal.Memory → may_lack_memory command.now ≡ true }
    {
        let mut heap = SystemHeap::new(self.allocator());
        self.second_in(&mut heap, command)
    }

    /// The same, by a heap. An edit is refused with `Memory` only where the heap refused memory in this call. Keys take none, nor does a new
    /// cue or a row of the patch.
    pub fn second_in<H: Heap>(&mut self, heap: &mut H, command: &Command) -> Result<(), Refusal>
        requires valid { ValidCommand command.now }
        requires taken { IsTrue (commands_second command.now) }
        ensures steps { (s : TwoDesks) → TwoStand s self.old
            → TakesStep (may_lack_memory command.now) (second_step s command.now) result self.new }
        ensures unchanged { OnErr result (self.new ≡ self.old) }
        ensures other { self.new.first ≡ self.old.first }
        ensures memory { result ≡ Err Refusal.Memory → may_lack_memory command.now ≡ true }
        ensures cause { HasCauseOf Refusal.Memory (H.refusals heap.old) (H.refusals heap.new) result }
    {
        let change = self.second.command_in(heap, command)?;
        if !change.is_nothing() {
            self.output.refill(&self.first, &self.second);
        }
        Ok(())
    }

    /// A tick of both lists, as it is of each.
    ///
    /// Refused with `TickLimit`, and neither list changes, exactly where the moment is `TICK_END`.
    pub fn tick(&mut self) -> Result<(), Refusal>
        ensures steps { (s : TwoDesks) → TwoStand s self.old → Steps (tick_step s) result self.new }
        ensures first { (d : Desk) → StandsFor d self.old.first → Obeys d Command.Tick result self.new.first }
        ensures second { (d : Desk) → StandsFor d self.old.second → Obeys d Command.Tick result self.new.second }
        ensures unchanged { OnErr result (self.new ≡ self.old) }
        ensures memory { result ≢ Err Refusal.Memory }
    {
        let first = self.first.tick()?;
        let Ok(second) = self.second.tick() else {
            unreachable!()
        };
        if !first.is_nothing() || !second.is_nothing() {
            self.output.refill(&self.first, &self.second);
        }
        Ok(())
    }
}

/// The player of the second list, over a copy of the show with the cues of that list. An error comes where the heap refuses memory.
fn open_second<H: Heap>(heap: &mut H, show: &Show) -> Result<Player, AllocError>
    ensures stands { IfOk result (StandsFor (opened (second_show show.now))) }
    ensures cause { HasCause (H.refusals heap.old) (H.refusals heap.new) result }
{
    let second = second_of(heap, show)?;
    Player::open_in(heap, second)
}
