//! A table of the patch.

ghost use Rattle.std.specs.Prelude.{◌≡◌, ◌-◌, ◌≤◌, List, length, slice_index, IfOk};
ghost use Rattle.lx_io.specs.Causes.{HasCause};
ghost use Rattle.lx_spec.specs.SortedList.{placed, taken_out};
ghost use Rattle.lx_spec.specs.Output.{dimmer_value};
ghost use Rattle.lx_mixer.specs.Table.{IsTable};
ghost use Rattle.lx_patch.specs.DimmerTable.{StandsForPatch, ReachTable};
ghost use Rattle.lx_patch.specs.Slots.{AreSlots};
ghost use Rattle.lx_base.specs.declared.TheConstants.{CHANNELS, SLOTS};
ghost use Rattle.lx_spec.specs.declared.PatchRow.{PatchRow as Row};

use crate::followers::Followers;
use crate::slots::fill;
use crate::wiring::Wiring;
use lx_base::{Dimmer, LANES, Level, SLOTS, next_change};
use lx_io::{Heap, SystemHeap};
use lx_show::{PatchRow, Show};
use std::alloc::{AllocError, Global};
use std::marker::Model;
use std::simd::prelude::*;

/// This many dimmers are filled by lanes in the time in which those of one channel are found.
const LANES_A_CHANGE: usize = 16;

/// The patch by dimmer. It stands for patch rows, as a show has them. For each dimmer it has the row's
/// channel and proportional level at hand, so that all slots are filled in by one pass over them. For
/// each channel it has the dimmers that follow it, so that those of a few channels are.
#[derive(Drop)]
pub struct PatchTable {
    wiring: Wiring,
    followers: Followers,
}

impl Model for PatchTable {
    ghost use Rattle.lx_patch.specs.DimmerTable.{DimmerTable};
    ghost use Rattle.lx_patch.specs.FollowerChains.{IsLinked};

    ghost Value = { DimmerTable };

    ghost view = { λ t. t.wiring };

    ghost invariant = { λ t. IsLinked t.wiring.places t.wiring.levels t.followers };
}

impl PatchTable {
    /// A table of the show's patch. It takes all the memory that it needs; an error comes where it runs
    /// out.
    pub fn open(alloc: Global, show: &Show) -> Result<PatchTable, AllocError>
        ensures { IfOk result (StandsForPatch show.now.patch) }
    {
        PatchTable::open_in(&mut SystemHeap::new(alloc), show)
    }

    /// The same, by a heap. An error comes where the heap refuses memory.
    pub fn open_in<H: Heap>(heap: &mut H, show: &Show) -> Result<PatchTable, AllocError>
        ensures stands { IfOk result (StandsForPatch show.now.patch) }
        ensures cause { HasCause (H.refusals heap.old) (H.refusals heap.new) result }
    {
        let mut wiring = Wiring::open(heap)?;
        wiring.refresh(show);
        let mut followers = Followers::open(heap)?;
        followers.link(wiring.places(), wiring.levels());
        Ok(PatchTable { wiring, followers })
    }

    /// Takes up the show's patch again.
    pub fn refresh(&mut self, show: &Show)
        ensures { StandsForPatch show.now.patch self.new }
    {
        self.wiring.refresh(show);
        self.followers
            .link(self.wiring.places(), self.wiring.levels());
    }

    /// Patches the row's dimmer, in place of what it followed before.
    pub fn set(&mut self, row: PatchRow)
        ensures { (rows : List Row) → StandsForPatch rows self.old → StandsForPatch (placed (λ x. x.dimmer) row rows) self.new }
    {
        self.wiring.set(row);
        self.followers
            .link(self.wiring.places(), self.wiring.levels());
    }

    /// Takes the dimmer's row out.
    pub fn clear(&mut self, dimmer: Dimmer)
        ensures { (rows : List Row) → StandsForPatch rows self.old → StandsForPatch (taken_out (λ x. x.dimmer) dimmer rows) self.new }
    {
        self.wiring.clear(dimmer);
        self.followers
            .link(self.wiring.places(), self.wiring.levels());
    }

    /// Fills in the slots of all dimmers: the output of the dimmer's channel, channel c at place c - 1, in
    /// proportion to the dimmer's level, and 0 where the dimmer isn't patched. There is an output for each
    /// patched channel.
    pub fn frame_into(&self, out_levels: &[Level], slots: &mut [Level])
        requires slots { length slots.old ≡ SLOTS }
        requires reach { ReachTable (length out_levels.now) self.now }
        ensures { (rows : List Row) → StandsForPatch rows self.now
            → IsTable SLOTS (dimmer_value rows (λ c. slice_index out_levels.now (c - 1))) slots.new }
    {
        let places = self.wiring.places();
        let levels = self.wiring.levels();
        if out_levels.is_empty() {
            slots.fill(0);
        } else {
            fill(places, levels, out_levels, slots, SLOTS);
        }
    }

    /// Fills in the slots of the dimmers whose channels have another output than before: the slots were
    /// those of the outputs before. There is an output for each patched channel.
    pub fn follow(&self, before: &[Level], out_levels: &[Level], slots: &mut [Level])
        requires slots { length slots.old ≡ SLOTS }
        requires same { length before.now ≡ length out_levels.now }
        requires few { length out_levels.now ≤ CHANNELS }
        requires reach { ReachTable (length out_levels.now) self.now }
        ensures { (rows : List Row) → StandsForPatch rows self.now
            → IsTable SLOTS (dimmer_value rows (λ c. slice_index before.now (c - 1))) slots.old
            → IsTable SLOTS (dimmer_value rows (λ c. slice_index out_levels.now (c - 1))) slots.new }
    {
        let places = self.wiring.places();
        let levels = self.wiring.levels();
        let many = count_changes(before, out_levels) > self.followers.top / LANES_A_CHANGE;
        let mut from = 0;
        while let Some(k) = next_change(before, out_levels, from) {
            if many {
                fill(places, levels, out_levels, slots, self.followers.top);
                return;
            }
            self.followers.fill(places, levels, k, out_levels[k], slots);
            from = k + 1;
        }
    }
}

/// How many outputs differ from those before, but for the last few that fill no 32 lanes. It only chooses between two ways to the same
/// slots.
fn count_changes(before: &[Level], out_levels: &[Level]) -> usize
    requires { length before.now ≡ length out_levels.now }
{
    let mut count = 0usize;
    for i in 0..before.len() / LANES {
        let was = u8x32::from_slice(&before[LANES * i..]);
        let is = u8x32::from_slice(&out_levels[LANES * i..]);
        count = count.wrapping_add(was.simd_ne(is).to_bitmask().count_ones() as usize);
    }
    count
}
