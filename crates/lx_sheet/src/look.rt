//! The levels of one cue, made from those of the cue before.

ghost use Rattle.std.specs.Prelude.{◌≡◌, ℕ, length};
ghost use Rattle.lx_sheet.specs.Imports.{AllByRecursion, option_map_or, IsStrictlySorted, entry_at, InRange, ValidCue, level_in_look};
ghost use Rattle.lx_sheet.specs.Imports.{tracked_on};

use lx_base::Level;
use lx_show::{Cue, Move};

/// The levels of the cue before become those of the cue: a block cue starts from 0, and each move sets
/// its channel's level.
pub(crate) fn track(look: &mut [Level], cue: &Cue)
    requires { ValidCue (length look.old) cue.now }
    ensures { (c : ℕ) → level_in_look look.new c ≡ tracked_on cue.now c (level_in_look look.old c) }
{
    if cue.block {
        look.fill(0);
    }
    place_moves(look, cue.moves.as_slice());
}

/// Each move sets its channel's level.
fn place_moves(look: &mut [Level], moves: &[Move])
    requires within { AllByRecursion (λ m. InRange (length look.old) m.chan) moves.now }
    requires sorted { IsStrictlySorted (λ m. m.chan) moves.now }
    ensures { (c : ℕ) → level_in_look look.new c
        ≡ option_map_or (λ m. m.level) (entry_at (λ m. m.chan) c moves.now) (level_in_look look.old c) }
{
    if moves.len() == look.len() {
        return place_whole(look, moves);
    }
    for i in 0..moves.len() {
        let entry = moves[i];
        look[entry.chan.get() as usize - 1] = entry.level;
    }
}

/// The same where there are as many moves as channels: they stand one behind the other as the channels do, so no place is looked up.
fn place_whole(look: &mut [Level], moves: &[Move])
    requires within { AllByRecursion (λ m. InRange (length look.old) m.chan) moves.now }
    requires sorted { IsStrictlySorted (λ m. m.chan) moves.now }
    requires whole { length moves.now ≡ length look.old }
    ensures { (c : ℕ) → level_in_look look.new c
        ≡ option_map_or (λ m. m.level) (entry_at (λ m. m.chan) c moves.now) (level_in_look look.old c) }
{
    for i in 0..moves.len() {
        let entry = moves[i];
        look[i] = entry.level;
    }
}
