//! Block cues: a block cue takes over what tracks into it, and one that is no block cue any more still keeps
//! its look.

ghost use Rattle.std.specs.Prelude.{◌≡◌, ◌-◌, ◌==◌, ◌&&◌, ℕ, not, is_none, IfOk, if◌then◌else◌, Some, None};
ghost use Rattle.lx_edit.specs.Imports.{HasCause, HasCauseOf, move_in, tracked, missing_moves, Plans};

use crate::absent::{channel, the_cue};
use crate::moves::{add, with_moves};
use crate::plans::Plan;
use lx_base::{Chan, CueNo, Level};
use lx_io::Heap;
use lx_show::{Cue, Edit, Move, Refusal, Show};
use std::alloc::AllocError;

/// The cue becomes a block cue, with moves to the levels that track into it; nothing where it is one.
pub(crate) fn block<H: Heap>(heap: &mut H, show: &Show, n: CueNo) -> Result<Plan, Refusal>
    ensures plan { Plans show.now (Edit.Block n) result }
    ensures cause { HasCauseOf Refusal.Memory (H.refusals heap.old) (H.refusals heap.new) result }
{
    let old = the_cue(show, n)?;
    if old.block {
        return Ok(Plan::Nothing);
    }
    let moves = missing_moves(heap, show, old, true)?;
    let mut cue = with_moves(heap, show.channels(), old, moves.as_slice())?;
    cue.block = true;
    Ok(Plan::Cue {
        number: n,
        to: Some(cue),
        above: None,
        keeps: false,
    })
}

/// The cue is no block cue any more, with moves to 0 for what would track into it; nothing where it is none.
pub(crate) fn unblock<H: Heap>(heap: &mut H, show: &Show, n: CueNo) -> Result<Plan, Refusal>
    ensures plan { Plans show.now (Edit.Unblock n) result }
    ensures cause { HasCauseOf Refusal.Memory (H.refusals heap.old) (H.refusals heap.new) result }
{
    let old = the_cue(show, n)?;
    if !old.block {
        return Ok(Plan::Nothing);
    }
    let moves = missing_moves(heap, show, old, false)?;
    let mut cue = with_moves(heap, show.channels(), old, moves.as_slice())?;
    cue.block = false;
    Ok(Plan::Cue {
        number: n,
        to: Some(cue),
        above: None,
        keeps: false,
    })
}

/// The moves of the channels that have none in the cue, and whose tracked level isn't 0: to the level at the cue, or to 0 where it is
/// the one below the cue.
fn missing_moves<H: Heap>(
    heap: &mut H,
    show: &Show,
    cue: &Cue,
    here: bool,
) -> Result<Vec<Move>, AllocError>
    ensures items { IfOk result (λ moves. moves.items
        ≡ missing_moves show.now cue.now (tracked show.now (if here then cue.now.number else cue.now.number - 1))
        (λ c. if here then tracked show.now cue.now.number c else 0)) }
    ensures cause { HasCause (H.refusals heap.old) (H.refusals heap.new) result }
{
    let mut moves = Vec::new(heap.allocator());
    for k in 1..show.channels() + 1 {
        let c = channel(k);
        let level = missing_level(show, cue, here, c);
        add(heap, &mut moves, c, level)?;
    }
    Ok(moves)
}

/// The level of such a move of the channel.
fn missing_level(show: &Show, cue: &Cue, here: bool, c: Chan) -> Option<Level>
    ensures { result ≡ (if is_none (move_in cue.now c) && not
        (tracked show.now (if here then cue.now.number else cue.now.number - 1) c == 0) then Some
        (if here then tracked show.now cue.now.number c else 0) else None) }
{
    if cue.move_of(c).is_some() {
        return None;
    }
    if here {
        let level = show.tracked(cue.number, c);
        return if level == 0 { None } else { Some(level) };
    }
    let level = show.tracked(below(cue.number), c);
    if level == 0 { None } else { Some(0) }
}

/// The number one step below, or 0.
pub(crate) fn below(n: CueNo) -> CueNo
    ensures { result ≡ n - 1 }
{
    match CueNo::new(n.get().saturating_sub(1)) {
        Some(below) => below,
        None => unreachable!(),
    }
}
