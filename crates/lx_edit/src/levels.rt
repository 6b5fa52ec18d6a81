//! Edits of a cue's levels: channels set to a level, a group set, and channels released.

ghost use Rattle.std.specs.Prelude.{◌≡◌, ℕ, IfOk, IfSome, IsTrue, true};
ghost use Rattle.lx_edit.specs.Imports.{HasCause, HasCauseOf, cue_above, decides, has_entry, InRange, IsLevel, part_for, without_moves};
ghost use Rattle.lx_edit.specs.Imports.{Plans};
ghost use Rattle.lx_base.specs.declared.TheConstants.{CHANNELS};

use crate::absent::{all_channels, the_channels, the_cue, the_given_part, the_group, the_moves};
use crate::kept::place;
use crate::moves::{all_at, in_proportion, with_levels};
use crate::plans::Plan;
use lx_base::{Chan, ChanRange, CueNo, GroupNo, Level, PartNo};
use lx_io::Heap;
use lx_show::{Cue, Edit, Move, Refusal, Show};
use std::alloc::AllocError;

/// The channels of the range move to the level in the cue.
pub(crate) fn set<H: Heap>(
    heap: &mut H,
    show: &Show,
    n: CueNo,
    part: Option<PartNo>,
    range: ChanRange,
    level: Level,
    only: bool,
) -> Result<Plan, Refusal>
    ensures plan { Plans show.now (Edit.Set n part range level only) result }
    ensures cause { HasCauseOf Refusal.Memory (H.refusals heap.old) (H.refusals heap.new) result }
{
    let old = the_cue(show, n)?;
    let part = the_given_part(old, part)?;
    the_channels(show, range)?;
    if let Some(entry) = move_alone(show, n, old, part, range, level, only) {
        return Ok(Plan::Move { cue: n, to: entry });
    }
    let members = all_at(heap, range, level)?;
    let cue = with_levels(heap, show.channels(), old, part, members.as_slice())?;
    Ok(place(heap, show, n, old, cue, range, only)?)
}

/// The move that is all that the edit changes: that of the range's one channel, of which the cue has one; and cue only, where
/// nothing of it is seen at the cue above.
fn move_alone(
    show: &Show,
    n: CueNo,
    cue: &Cue,
    part: Option<PartNo>,
    range: ChanRange,
    level: Level,
    only: bool,
) -> Option<Move>
    ensures one { IfSome result (λ _. range.first ≡ range.last) }
    ensures entry { IfSome result (λ entry. entry
        ≡ record { chan = range.first; part = part_for part cue.now range.first; level = level }) }
    ensures chan { IfSome result (λ entry. InRange CHANNELS entry.chan) }
    ensures level { IfSome result (λ entry. IsLevel entry.level) }
    ensures there { IfSome result (λ entry. IsTrue (has_entry (λ m. m.chan) entry.chan cue.now.moves)) }
    ensures apart { IfSome result (λ _. only ≡ true → IfSome (cue_above show.now n) (λ above. decides above range.first ≡ true)) }
{
    if only && !ends_above(show, n, range.first()) {
        return None;
    }
    let chan = range.first();
    if chan.get() != range.last().get() {
        return None;
    }
    let old = cue.move_of(chan)?;
    Some(Move {
        chan,
        part: part.unwrap_or(old.part),
        level,
    })
}

/// The cue above, where there is one, decides the channel: whatever the cue moves it to ends there.
fn ends_above(show: &Show, n: CueNo, c: Chan) -> bool
    ensures { result ≡ true → IfSome (cue_above show.now n) (λ above. decides above c ≡ true) }
{
    match show.cue_above(n) {
        Some(above) => above.decides(c),
        None => true,
    }
}

/// The members of the group move to their levels in proportion to this one.
pub(crate) fn set_group<H: Heap>(
    heap: &mut H,
    show: &Show,
    n: CueNo,
    part: Option<PartNo>,
    g: GroupNo,
    level: Level,
    only: bool,
) -> Result<Plan, Refusal>
    ensures plan { Plans show.now (Edit.SetGroup n part g level only) result }
    ensures cause { HasCauseOf Refusal.Memory (H.refusals heap.old) (H.refusals heap.new) result }
{
    let old = the_cue(show, n)?;
    let given = the_given_part(old, part)?;
    the_group(show, g)?;
    let members = in_proportion(heap, show, g, level)?;
    let cue = with_levels(heap, show.channels(), old, given, members.as_slice())?;
    Ok(place(heap, show, n, old, cue, all_channels(), only)?)
}

/// The channels of the range have no move in the cue any more.
pub(crate) fn release<H: Heap>(
    heap: &mut H,
    show: &Show,
    n: CueNo,
    range: ChanRange,
    only: bool,
) -> Result<Plan, Refusal>
    ensures plan { Plans show.now (Edit.Release n range only) result }
    ensures cause { HasCauseOf Refusal.Memory (H.refusals heap.old) (H.refusals heap.new) result }
{
    let old = the_cue(show, n)?;
    the_channels(show, range)?;
    the_moves(old, range)?;
    let cue = without_moves(heap, old, range)?;
    Ok(place(heap, show, n, old, cue, range, only)?)
}

/// The cue without moves for the channels of the range. An error comes where memory runs out.
fn without_moves<H: Heap>(heap: &mut H, cue: &Cue, range: ChanRange) -> Result<Cue, AllocError>
    ensures cue { IfOk result (λ changed. changed ≡ without_moves cue.now range) }
    ensures cause { HasCause (H.refusals heap.old) (H.refusals heap.new) result }
{
    let moves = cue
        .moves
        .copy_without(heap, range.first().get(), range.last().get())?;
    Ok(cue.with(moves))
}
