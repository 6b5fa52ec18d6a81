//! Cue only: the cue above the edited one keeps each level that it had. And cues deleted.

ghost use Rattle.std.specs.Prelude.{◌≡◌, ℕ, ◌-◌, true, false, ◌==◌, not, IfOk, IfSome, Some, None, if◌then◌else◌, unwrap_or};
ghost use Rattle.lx_edit.specs.Imports.{option_copied, HasCause, HasCauseOf, ValidCue, tracked, cue_above, cue_only, with_cue, with_moves};
ghost use Rattle.lx_edit.specs.Imports.{moves_for, FoundCue, changed_show, Plans, PlansCues, CanPlace, IsAbove, KeepsAbove, SameOutside};
ghost use Rattle.lx_edit.specs.Imports.{covers, with_above, DecidesOutside, decided, decided_by};

use crate::absent::{all_channels, channel, the_cue};
use crate::blocks::below;
use crate::moves::{add, with_moves};
use crate::plans::Plan;
use lx_base::{Chan, ChanRange, CueNo, Level};
use lx_io::Heap;
use lx_show::{Cue, Edit, Move, MoveList, Refusal, Show};
use std::alloc::AllocError;

/// The cue goes.
pub(crate) fn delete_cue<H: Heap>(
    heap: &mut H,
    show: &Show,
    n: CueNo,
    only: bool,
) -> Result<Plan, Refusal>
    ensures plan { Plans show.now (Edit.DeleteCue n only) result }
    ensures cause { HasCauseOf Refusal.Memory (H.refusals heap.old) (H.refusals heap.new) result }
{
    let old = the_cue(show, n)?;
    let above = kept_above(heap, show, n, old, None, all_channels(), only)?;
    Ok(Plan::Cue {
        number: n,
        to: None,
        above,
        keeps: false,
    })
}

/// The plan that gives the cue the moves of the changed one or, where the one above it gets moves that keep its levels, places
/// both. Outside the range the moves are those of the old one. An error comes where memory runs out.
pub(crate) fn place<H: Heap>(
    heap: &mut H,
    show: &Show,
    n: CueNo,
    old: &Cue,
    cue: Cue,
    within: ChanRange,
    only: bool,
) -> Result<Plan, AllocError>
    requires there { FoundCue show.now n old.now }
    requires number { cue.number ≡ n }
    requires valid { ValidCue show.now.channels cue }
    requires moves { cue ≡ record old.now { moves = cue.moves } }
    requires within { SameOutside within old.now.moves cue.moves }
    ensures plan { IfOk result (PlansCues show.now (cue_only only show.now n (with_cue show.now cue))) }
    ensures cause { HasCause (H.refusals heap.old) (H.refusals heap.new) result }
{
    match kept_above(heap, show, n, old, Some(&cue), within, only)? {
        Some(above) => Ok(Plan::Cue {
            number: n,
            to: Some(cue),
            above: Some(above),
            keeps: true,
        }),
        None => Ok(Plan::Moves {
            cue: n,
            to: into_moves(cue),
            within,
        }),
    }
}

/// The moves of the cue, which goes.
fn into_moves(cue: Cue) -> MoveList
    ensures { result ≡ cue.moves }
{
    cue.moves
}

/// Cue only, the cue above the edited one, with the moves that keep its levels; none where no cue is above it, or it
/// keeps them as it is. An error comes where memory runs out.
fn kept_above<H: Heap>(
    heap: &mut H,
    show: &Show,
    n: CueNo,
    old: &Cue,
    new: Option<&Cue>,
    within: ChanRange,
    only: bool,
) -> Result<Option<Cue>, AllocError>
    requires there { FoundCue show.now n old.now }
    requires number { IfSome (option_copied new) (λ cue. cue.number ≡ n) }
    requires within { DecidesOutside within show.now.channels old.now (option_copied new) }
    ensures above { IfOk result (λ above. with_above above (changed_show show.now n (option_copied new.entry))
        ≡ cue_only only show.now n (changed_show show.now n (option_copied new.entry))) }
    ensures valid { IfOk result (λ above. IfSome above (CanPlace (changed_show show.now n (option_copied new.entry)))) }
    ensures higher { IfOk result (λ above. IfSome above (IsAbove show.now n)) }
    ensures keeps { IfOk result (λ above. IfSome above (KeepsAbove show.now (changed_show show.now n (option_copied new.entry)) n)) }
    ensures cause { HasCause (H.refusals heap.old) (H.refusals heap.new) result }
{
    if !only {
        return Ok(None);
    }
    let Some(above) = show.cue_above(n) else {
        return Ok(None);
    };
    let moves = kept_moves(heap, show, n, old, new, above, within)?;
    let moves = moves.as_slice();
    if moves.is_empty() {
        return Ok(None);
    }
    Ok(Some(with_moves(heap, show.channels(), above, moves)?))
}

/// The moves that keep the levels of the cue above. They are of channels of the range.
fn kept_moves<H: Heap>(
    heap: &mut H,
    show: &Show,
    n: CueNo,
    old: &Cue,
    new: Option<&Cue>,
    above: &Cue,
    within: ChanRange,
) -> Result<Vec<Move>, AllocError>
    requires there { FoundCue show.now n old.now }
    requires number { IfSome (option_copied new) (λ cue. cue.number ≡ n) }
    requires within { DecidesOutside within show.now.channels old.now (option_copied new) }
    requires above { cue_above show.now n ≡ Some above.now }
    ensures items { IfOk result (λ moves. moves.items
        ≡ moves_for show.now (λ c. not
        (tracked show.now above.now.number c == tracked (changed_show show.now n (option_copied new.entry)) above.now.number c))
        (λ c. tracked show.now above.now.number c)) }
    ensures cause { HasCause (H.refusals heap.old) (H.refusals heap.new) result }
{
    let channels = show.channels();
    let first = within.first().get().min(channels + 1);
    let last = within.last().get().min(channels);
    let mut moves = Vec::new(heap.allocator());
    let mut near = 0;
    for k in first..last + 1 {
        let c = channel(k);
        let level = kept_level(show, n, old, new, above, c, &mut near);
        add(heap, &mut moves, c, level)?;
    }
    Ok(moves)
}

/// The level that the channel keeps at the cue above, where the edit would change it. The channel's move there is looked for
/// at `near` first.
fn kept_level(
    show: &Show,
    n: CueNo,
    old: &Cue,
    new: Option<&Cue>,
    above: &Cue,
    c: Chan,
    near: &mut usize,
) -> Option<Level>
    requires there { FoundCue show.now n old.now }
    requires number { IfSome (option_copied new) (λ cue. cue.number ≡ n) }
    requires above { cue_above show.now n ≡ Some above.now }
    ensures { result ≡ (if not (tracked show.now above.now.number c == tracked
        (changed_show show.now n (option_copied new.entry)) above.now.number c) then Some
        (tracked show.now above.now.number c) else None) }
{
    if differs(show, n, old, new, above, c, near) {
        Some(show.tracked(above.number, c))
    } else {
        None
    }
}

/// The channel's level at the cue above is changed.
fn differs(
    show: &Show,
    n: CueNo,
    old: &Cue,
    new: Option<&Cue>,
    above: &Cue,
    c: Chan,
    near: &mut usize,
) -> bool
    requires there { FoundCue show.now n old.now }
    requires number { IfSome (option_copied new) (λ cue. cue.number ≡ n) }
    requires above { cue_above show.now n ≡ Some above.now }
    ensures { result ≡ not (tracked show.now above.now.number c == tracked
        (changed_show show.now n (option_copied new.entry)) above.now.number c) }
{
    if above.decides_near(c, near) {
        return false;
    }
    is_other(show, n, c, decided_by(Some(old), c), decided_by(new, c))
}

/// What was decided for the channel at the number, or else tracked into it, is another level than what is decided now, or else
/// tracks into it.
fn is_other(show: &Show, n: CueNo, c: Chan, was: Option<Level>, is: Option<Level>) -> bool
    ensures { result ≡ not (unwrap_or was (tracked show.now (n - 1) c) == unwrap_or is (tracked show.now (n - 1) c)) }
{
    match (was, is) {
        (None, None) => false,
        (Some(was), Some(is)) => was != is,
        (Some(was), None) => was != show.tracked(below(n), c),
        (None, Some(is)) => show.tracked(below(n), c) != is,
    }
}

/// The level that the cue, which may be absent, decides for the channel, if it does.
fn decided_by(cue: Option<&Cue>, c: Chan) -> Option<Level>
    ensures { result ≡ decided_by (option_copied cue.entry) c }
{
    match cue {
        Some(cue) if cue.decides(c) => Some(cue.level_of(c)),
        _ => None,
    }
}
