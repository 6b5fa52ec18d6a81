//! What goes out: the outputs of the channels, and the slots of the dimmers.

ghost use Rattle.std.specs.Prelude.{◌≡◌, length, IfOk};
ghost use Rattle.lx_console.specs.Imports.{HasCause, StandsForPatch, Reaches, SlotsStand, IsMixedOutput, ShowsPlayer, ShowedPlayer};
ghost use Rattle.lx_console.specs.Imports.{IsPatchedBut};

use crate::change::Change;
use crate::player::Player;
use lx_base::{Dimmer, Level, SLOTS};
use lx_io::{Heap, SystemHeap, filled};
use lx_mixer::mix_into;
use lx_patch::PatchTable;
use lx_show::Show;
use std::alloc::{AllocError, Global};

/// What goes out of levels: the outputs of the channels, mixed with a player's submasters under its master, and the
/// slots of the dimmers, by the player's patch.
#[derive(Drop)]
pub struct KeptOutput {
    /// What each channel puts out.
    pub(crate) outs: Vec<Level>,
    /// Where outputs are mixed, to be compared with those before.
    pub(crate) mixed: Vec<Level>,
    /// The patch of each dimmer.
    pub(crate) table: PatchTable,
    /// The slot of each dimmer.
    pub(crate) slots: Vec<Level>,
}

impl KeptOutput {
    /// An output for the show, whose patch alone is filled in yet. An error comes where memory runs out.
    pub fn open(alloc: Global, show: &Show) -> Result<KeptOutput, AllocError>
        ensures reaches { IfOk result (Reaches show.now.channels) }
        ensures patch { IfOk result (λ output. StandsForPatch show.now.patch output.table) }
    {
        KeptOutput::open_in(&mut SystemHeap::new(alloc), show)
    }

    /// The same, by a heap. An error comes where the heap refuses memory.
    pub fn open_in<H: Heap>(heap: &mut H, show: &Show) -> Result<KeptOutput, AllocError>
        ensures reaches { IfOk result (Reaches show.now.channels) }
        ensures patch { IfOk result (λ output. StandsForPatch show.now.patch output.table) }
        ensures cause { HasCause (H.refusals heap.old) (H.refusals heap.new) result }
    {
        let channels = show.channels() as usize;
        Ok(KeptOutput {
            outs: filled(heap, 0, channels)?,
            mixed: filled(heap, 0, channels)?,
            table: PatchTable::open_in(heap, show)?,
            slots: filled(heap, 0, SLOTS)?,
        })
    }

    /// Fills in the outputs and the slots, from the levels and from what the player's submasters and master make of
    /// them.
    pub fn fill(&mut self, levels: &[Level], player: &Player)
        requires levels { length levels.now ≡ player.now.show.channels }
        requires reaches { Reaches player.now.show.channels self.old }
        requires patch { StandsForPatch player.now.show.patch self.old.table }
        ensures { IsMixedOutput levels.now player.now self.new }
    {
        mix_into(
            levels,
            player.contribution(),
            player.master(),
            &mut self.outs,
        );
        self.table.frame_into(&self.outs, &mut self.slots);
    }

    /// Fills in the outputs, and the slots of those that changed: the slots were those of the outputs before.
    pub fn refill(&mut self, levels: &[Level], player: &Player)
        requires levels { length levels.now ≡ player.now.show.channels }
        requires reaches { Reaches player.now.show.channels self.old }
        requires patch { StandsForPatch player.now.show.patch self.old.table }
        requires slots { SlotsStand player.now.show.patch self.old }
        ensures { IsMixedOutput levels.now player.now self.new }
    {
        mix_into(
            levels,
            player.contribution(),
            player.master(),
            &mut self.mixed,
        );
        self.table.follow(&self.outs, &self.mixed, &mut self.slots);
        std::mem::swap(&mut self.outs, &mut self.mixed);
    }

    /// Takes up the dimmer's row of the patch, then fills in the outputs and the slots.
    pub fn repatch(&mut self, levels: &[Level], player: &Player, dimmer: Dimmer)
        requires levels { length levels.now ≡ player.now.show.channels }
        requires reaches { Reaches player.now.show.channels self.old }
        requires patch { IsPatchedBut player.now.show.patch dimmer self.old.table }
        ensures { IsMixedOutput levels.now player.now self.new }
    {
        mend_row(&mut self.table, player.show(), dimmer);
        self.fill(levels, player);
    }

    /// Takes up the player's whole patch, as for another show of the same channels, then fills in the outputs and the
    /// slots.
    pub fn retake(&mut self, levels: &[Level], player: &Player)
        requires levels { length levels.now ≡ player.now.show.channels }
        requires reaches { Reaches player.now.show.channels self.old }
        ensures { IsMixedOutput levels.now player.now self.new }
    {
        self.table.refresh(player.show());
        self.fill(levels, player);
    }

    /// Shows the player after a change; before it the output showed the player as it was.
    pub(crate) fn follow(&mut self, change: Change, player: &Player)
        requires { ShowedPlayer change player.now self.old }
        ensures { ShowsPlayer player.now self.new }
    {
        match change {
            Change::Nothing => {}
            Change::Levels => self.refill(player.levels(), player),
            Change::Row(dimmer) => self.repatch(player.levels(), player, dimmer),
        }
    }

    /// The slots of all dimmers, 512 for each universe.
    pub fn slots(&self) -> &[Level]
        ensures { result.now ≡ self.now.slots.items }
    {
        self.slots.as_slice()
    }
}

/// Takes up the row of the dimmer.
fn mend_row(table: &mut PatchTable, show: &Show, dimmer: Dimmer)
    requires { IsPatchedBut show.now.patch dimmer table.old }
    ensures { StandsForPatch show.now.patch table.new }
{
    match show.patch_of(dimmer) {
        Some(row) => table.set(row),
        None => table.clear(dimmer),
    }
}
