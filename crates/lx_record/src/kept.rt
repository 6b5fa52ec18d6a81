//! A record of one cue alone: the cue above it keeps the levels that it had.

ghost use Rattle.std.specs.Prelude.{◌≡◌, ◌≤◌, ◌==◌, ◌&&◌, ℕ, not, Some, None, IfOk, IfSome, option_map, if◌then◌else◌};
ghost use Rattle.lx_record.specs.Imports.{HasCause, ValidCue, tracked, decides, cue_above, with_moves, moves_for, level_now};
ghost use Rattle.lx_record.specs.Imports.{comes_out_changed, kept_cue};

use crate::staged::level_on_stage;
use lx_base::{Chan, CueNo, Level};
use lx_console::Console;
use lx_edit::{add, channel, with_moves};
use lx_io::Heap;
use lx_show::{Cue, Move};
use std::alloc::AllocError;

/// Where the record is of one cue alone, the cue above the number with the moves that keep its levels; none where
/// no cue is above it. An error comes where the heap refuses memory.
pub(crate) fn kept_above<H: Heap>(
    heap: &mut H,
    console: &Console,
    n: CueNo,
    only: bool,
) -> Result<Option<Cue>, AllocError>
    ensures above { IfOk result (λ above. above ≡ (if only then option_map (kept_cue (level_now console.now) console.now.show)
        (cue_above console.now.show n) else None)) }
    ensures valid { IfOk result (λ above. IfSome above (ValidCue console.now.show.channels)) }
    ensures cause { HasCause (H.refusals heap.old) (H.refusals heap.new) result }
{
    if !only {
        return Ok(None);
    }
    match console.show().cue_above(n) {
        Some(above) => Ok(Some(keeping(heap, console, above)?)),
        None => Ok(None),
    }
}

/// The cue above, with the moves that keep its levels where the stage's now track into it. An error comes where
/// the heap refuses memory.
fn keeping<H: Heap>(heap: &mut H, console: &Console, above: &Cue) -> Result<Cue, AllocError>
    requires { ValidCue console.now.show.channels above.now }
    ensures kept { IfOk result (λ kept. kept ≡ kept_cue (level_now console.now) console.now.show above.now) }
    ensures valid { IfOk result (ValidCue console.now.show.channels) }
    ensures cause { HasCause (H.refusals heap.old) (H.refusals heap.new) result }
{
    let moves = kept_moves(heap, console, above)?;
    with_moves(heap, console.show().channels(), above, moves.as_slice())
}

/// Those moves.
fn kept_moves<H: Heap>(
    heap: &mut H,
    console: &Console,
    above: &Cue,
) -> Result<Vec<Move>, AllocError>
    ensures moves { IfOk result (λ moves. moves.items ≡ moves_for console.now.show (comes_out_changed (level_now console.now) console.now.show above.now)
        (tracked console.now.show above.now.number)) }
    ensures cause { HasCause (H.refusals heap.old) (H.refusals heap.new) result }
{
    let mut moves = Vec::new(heap.allocator());
    for k in 1..console.show().channels() + 1 {
        let c = channel(k);
        let level = kept_level(console, above, c);
        add(heap, &mut moves, c, level)?;
    }
    Ok(moves)
}

/// The level that the channel keeps at the cue above, where the stage's level would track into it in its place.
fn kept_level(console: &Console, above: &Cue, c: Chan) -> Option<Level>
    requires { c ≤ console.now.show.channels }
    ensures { result ≡ (if comes_out_changed (level_now console.now) console.now.show above.now c then Some
        (tracked console.now.show above.now.number c) else None) }
{
    let level = console.tracked(above.number, c);
    if above.decides(c) || level_on_stage(console, c) == level {
        None
    } else {
        Some(level)
    }
}
