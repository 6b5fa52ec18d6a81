//! The channel and the level of each dimmer.

ghost use Rattle.std.specs.Prelude.{◌≡◌, ◌<◌, ℕ, List, length, slice_index};
ghost use Rattle.lx_io.specs.Causes.{HasCause};
ghost use Rattle.lx_spec.specs.SortedList.{placed, taken_out};
ghost use Rattle.lx_patch.specs.DimmerTable.{StandsForPatch};
ghost use Rattle.lx_base.specs.declared.TheConstants.{CHANNELS, SLOTS};
ghost use Rattle.lx_spec.specs.declared.PatchRow.{PatchRow as Row};

use lx_base::{Dimmer, Level, SLOTS};
use lx_io::{Heap, filled};
use lx_show::{PatchRow, Show};
use std::alloc::AllocError;
use std::marker::Model;

/// What each dimmer follows, and in which proportion.
#[derive(Drop)]
pub(crate) struct Wiring {
    /// The place of each dimmer's channel, which is below its number: the first where it isn't patched.
    places: Vec<u16>,
    /// The proportional level of each dimmer: 0 where it isn't patched.
    levels: Vec<Level>,
}

impl Model for Wiring {
    ghost use Rattle.lx_patch.specs.DimmerTable.{DimmerTable, IsWired};

    ghost Value = { DimmerTable };

    ghost view = { λ t. record { places = t.places.items; levels = t.levels.items } };

    ghost invariant = { λ t. IsWired t.places.items t.levels.items };
}

impl Wiring {
    /// No dimmer follows a channel. An error comes where the heap refuses memory.
    pub(crate) fn open<H: Heap>(heap: &mut H) -> Result<Wiring, AllocError>
        ensures cause { HasCause (H.refusals heap.old) (H.refusals heap.new) result }
    {
        Ok(Wiring {
            places: filled(heap, 0, SLOTS)?,
            levels: filled(heap, 0, SLOTS)?,
        })
    }

    /// The place of each dimmer's channel.
    pub(crate) fn places(&self) -> &[u16]
        ensures places { result.now ≡ self.now.places }
        ensures reach { length result.now ≡ SLOTS }
        ensures each { (e : ℕ) → e < SLOTS → slice_index result.now e < CHANNELS }
    {
        self.places.as_slice()
    }

    /// The level of each dimmer.
    pub(crate) fn levels(&self) -> &[Level]
        ensures levels { result.now ≡ self.now.levels }
        ensures reach { length result.now ≡ SLOTS }
    {
        self.levels.as_slice()
    }

    /// Takes up the show's patch again.
    pub(crate) fn refresh(&mut self, show: &Show)
        ensures { StandsForPatch show.now.patch self.new }
    {
        self.places.fill(0);
        self.levels.fill(0);
        let rows = show.patch();
        for i in (0..rows.len()).rev() {
            self.set(rows[i]);
        }
    }

    /// Patches the row's dimmer, in place of what it followed before.
    pub(crate) fn set(&mut self, row: PatchRow)
        ensures { (rows : List Row) → StandsForPatch rows self.old → StandsForPatch (placed (λ x. x.dimmer) row rows) self.new }
    {
        let at = row.dimmer.get() as usize - 1;
        self.places[at] = row.chan.get() as u16 - 1;
        self.levels[at] = row.level;
    }

    /// Takes the dimmer's row out.
    pub(crate) fn clear(&mut self, dimmer: Dimmer)
        ensures { (rows : List Row) → StandsForPatch rows self.old → StandsForPatch (taken_out (λ x. x.dimmer) dimmer rows) self.new }
    {
        let at = dimmer.get() as usize - 1;
        self.places[at] = 0;
        self.levels[at] = 0;
    }
}
