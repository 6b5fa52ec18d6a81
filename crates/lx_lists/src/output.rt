//! What both lists put out together.

ghost use Rattle.std.specs.Prelude.{◌≡◌, max, length, slice_index, EachIndex, IfOk};
ghost use Rattle.lx_lists.specs.Imports.{HasCause, StandsForPatch, IsPatchedBut, SlotsStand, HasRoomForFrames, IsFilled, WasFilled};

use lx_base::{Dimmer, Level};
use lx_console::{Change, KeptOutput, Player};
use lx_io::{Heap, filled};
use lx_mixer::mix_into;
use lx_show::Show;
use std::alloc::AllocError;

/// The outputs of the channels and the slots of the dimmers, from both lists.
#[derive(Drop)]
pub(crate) struct Output {
    /// The greater of both lists' levels of each channel.
    pub(crate) greatest: Vec<Level>,
    pub(crate) kept: KeptOutput,
}

impl Output {
    /// An output for the show, whose patch alone is filled in yet. An error comes where the heap refuses memory.
    pub(crate) fn open_in<H: Heap>(heap: &mut H, show: &Show) -> Result<Output, AllocError>
        ensures cause { HasCause (H.refusals heap.old) (H.refusals heap.new) result }
        ensures room { IfOk result (HasRoomForFrames show.now) }
        ensures patch { IfOk result (λ output. StandsForPatch show.now.patch output.kept.table) }
    {
        let channels = show.channels() as usize;
        Ok(Output {
            greatest: filled(heap, 0, channels)?,
            kept: KeptOutput::open_in(heap, show)?,
        })
    }

    /// Fills in the outputs and the slots.
    pub(crate) fn fill(&mut self, first: &Player, second: &Player)
        requires channels { second.now.show.channels ≡ first.now.show.channels }
        requires room { HasRoomForFrames first.now.show self.old }
        requires patch { StandsForPatch first.now.show.patch self.old.kept.table }
        ensures { IsFilled (record { first = first.now; second = second.now }) self.new }
    {
        take_greatest(first.levels(), second.levels(), &mut self.greatest);
        self.kept.fill(&self.greatest, first);
    }

    /// Fills in the outputs, and the slots of those that changed: the slots were those of the outputs before.
    pub(crate) fn refill(&mut self, first: &Player, second: &Player)
        requires channels { second.now.show.channels ≡ first.now.show.channels }
        requires room { HasRoomForFrames first.now.show self.old }
        requires patch { StandsForPatch first.now.show.patch self.old.kept.table }
        requires slots { SlotsStand first.now.show.patch self.old.kept }
        ensures { IsFilled (record { first = first.now; second = second.now }) self.new }
    {
        take_greatest(first.levels(), second.levels(), &mut self.greatest);
        self.kept.refill(&self.greatest, first);
    }

    /// Takes up the dimmer's row of the first list's patch, then fills in the outputs and the slots.
    fn repatch(&mut self, first: &Player, second: &Player, dimmer: Dimmer)
        requires channels { second.now.show.channels ≡ first.now.show.channels }
        requires room { HasRoomForFrames first.now.show self.old }
        requires patch { IsPatchedBut first.now.show.patch dimmer self.old.kept.table }
        ensures { IsFilled (record { first = first.now; second = second.now }) self.new }
    {
        take_greatest(first.levels(), second.levels(), &mut self.greatest);
        self.kept.repatch(&self.greatest, first, dimmer);
    }

    /// Shows both lists after a change of the first; before it both were shown as they were.
    pub(crate) fn follow(&mut self, change: Change, first: &Player, second: &Player)
        requires { WasFilled change (record { first = first.now; second = second.now }) self.old }
        ensures { IsFilled (record { first = first.now; second = second.now }) self.new }
    {
        match change {
            Change::Nothing => {}
            Change::Levels => self.refill(first, second),
            Change::Row(dimmer) => self.repatch(first, second, dimmer),
        }
    }
}

/// The greater of the two levels of each channel.
fn take_greatest(first: &[Level], second: &[Level], greatest: &mut [Level])
    requires first { length first.now ≡ length greatest.old }
    requires second { length second.now ≡ length greatest.old }
    ensures { EachIndex greatest.new (λ k. slice_index greatest.new k ≡ max (slice_index first.now k) (slice_index second.now k)) }
{
    mix_into(first, second, Level::MAX, greatest);
}
