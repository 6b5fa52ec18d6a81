//! Whole looks, as a text of the form States has them, become moves.

ghost use Rattle.std.specs.Prelude.{◌≡◌, ◌==◌, ◌≤◌, ◌<◌, ◌∷◌, ◌++◌, ℕ, List, length, not, IfOk, OnOk, if◌then◌else◌};
ghost use Rattle.lx_reader.specs.Imports.{HasCause, by_form, placed, Cue, Valid, level_in, last_look, look_move, moves_up_to, with_look};
ghost use Rattle.lx_base.specs.declared.TheConstants.{CHANNELS};
ghost use Rattle.lx_spec.specs.declared.Form.TheVariants.{States};

use lx_base::{Chan, Level, PartNo};
use lx_io::Heap;
use lx_show::{Cue, MoveList, Show};
use lx_spec::Move;
use std::alloc::AllocError;

/// Each cue's moves, which name its whole look, become the moves from the look of the cue before it. Memory is
/// taken for the new moves.
pub(crate) fn looks_to_moves<H: Heap>(heap: &mut H, show: &mut Show) -> Result<(), AllocError>
    ensures moves { OnOk result (show.new ≡ by_form States show.old) }
    ensures valid { OnOk result (Valid show.new) }
    ensures cause { HasCause (H.refusals heap.old) (H.refusals heap.new) result }
{
    let mut left = show.cues().len();
    while left > 0 {
        left -= 1;
        change_cue(heap, show, left)?;
    }
    // For its proof alone: the show is valid.
    let _ = show.channels();
    Ok(())
}

/// The same for the cue at a place. The cues before it are looks.
fn change_cue<H: Heap>(heap: &mut H, show: &mut Show, at: usize) -> Result<(), AllocError>
    requires { at < length show.old.cues }
    ensures moves { (front : List Cue) (cue : Cue) (back : List Cue) → length front ≡ at → show.old.cues ≡ front ++ cue ∷ back
        → OnOk result (show.new ≡ record show.old { cues = front ++ with_look show.old front cue ∷ back }) }
    ensures cause { HasCause (H.refusals heap.old) (H.refusals heap.new) result }
{
    let channels = show.channels();
    let cues = show.cues();
    let cue = &cues[at];
    let moves = look_moves(heap, channels, &cues[..at], cue)?;
    let number = cue.number;
    let _ = show.replace_moves(number, moves);
    Ok(())
}

/// The moves of a look, from the look of the last cue before it.
fn look_moves<H: Heap>(
    heap: &mut H,
    channels: u32,
    front: &[Cue],
    cue: &Cue,
) -> Result<MoveList, AllocError>
    requires { channels ≤ CHANNELS }
    ensures moves { IfOk result (λ moves. moves ≡ moves_up_to (last_look front.now) cue.now channels) }
    ensures cause { HasCause (H.refusals heap.old) (H.refusals heap.new) result }
{
    let mut moves = MoveList::new(heap.allocator());
    for n in 0..channels {
        let chan = Chan::at(n as usize);
        put_move(heap, &mut moves, last_look(front, chan), cue, chan)?;
    }
    Ok(moves)
}

/// The channel's level in the look of the last cue, or 0.
fn last_look(front: &[Cue], chan: Chan) -> Level
    ensures { result ≡ last_look front.now chan }
{
    match front {
        [.., last] => last.level_of(chan),
        [] => 0,
    }
}

/// Puts the channel's move in the look, where its level isn't the one before, or in a block cue 0.
fn put_move<H: Heap>(
    heap: &mut H,
    moves: &mut MoveList,
    before: Level,
    cue: &Cue,
    chan: Chan,
) -> Result<(), AllocError>
    ensures moves { OnOk result (moves.new ≡ (if not (level_in cue.now chan == (if cue.now.block then 0 else before))
        then placed (λ m. m.chan) (look_move cue.now chan) moves.old else moves.old)) }
    ensures cause { HasCause (H.refusals heap.old) (H.refusals heap.new) result }
{
    let tracked = if cue.block { 0 } else { before };
    if cue.level_of(chan) == tracked {
        return Ok(());
    }
    moves.put(heap, look_move(cue, chan))
}

/// The channel's move in the look: in part 1 where it isn't named.
fn look_move(cue: &Cue, chan: Chan) -> Move
    ensures { result ≡ look_move cue.now chan }
{
    let part = match cue.move_of(chan) {
        Some(entry) => entry.part,
        None => PartNo::BASE,
    };
    Move {
        chan,
        part,
        level: cue.level_of(chan),
    }
}
