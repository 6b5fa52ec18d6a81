//! Moves placed into a cue, and the members from which they come.

ghost use Rattle.std.specs.Prelude.{◌≡◌, ℕ, ◌≤◌, IfOk, IfSome, IsTrue, OnOk, map, ◌++◌};
ghost use Rattle.lx_edit.specs.Imports.{AllByRecursion, IsSomeAnd, HasCause, entry_at, has_entry, ValidCue, all_at, channels_in};
ghost use Rattle.lx_edit.specs.Imports.{in_proportion, part_for, with_moves, with_levels, Fits, base_moves};

use crate::absent::channel;
use lx_base::{Chan, ChanRange, GroupNo, Level, PartNo};
use lx_groups::members;
use lx_io::Heap;
use lx_show::{Cue, Member, Move, Show, facts};
use std::alloc::AllocError;

/// The channels of the range at the level.
pub(crate) fn all_at<H: Heap>(
    heap: &mut H,
    range: ChanRange,
    level: Level,
) -> Result<Vec<Member>, AllocError>
    ensures items { IfOk result (λ members. members.items ≡ all_at level (channels_in range)) }
    ensures cause { HasCause (H.refusals heap.old) (H.refusals heap.new) result }
{
    let first = range.first().get();
    let last = range.last().get();
    let mut members = heap.room((last + 1 - first) as usize)?;
    for n in first..last + 1 {
        members.push_reserved(Member {
            chan: channel(n),
            level,
        });
    }
    Ok(members)
}

/// The members of the group, each at its own level in proportion to this one.
pub(crate) fn in_proportion<H: Heap>(
    heap: &mut H,
    show: &Show,
    g: GroupNo,
    level: Level,
) -> Result<Vec<Member>, AllocError>
    requires { IsTrue (has_entry (λ x. x.number) g show.now.groups) }
    ensures items { IfOk result (λ scaled. IsSomeAnd (entry_at (λ x. x.number) g show.now.groups)
        (λ group. scaled.items ≡ map (in_proportion level) group.members)) }
    ensures cause { HasCause (H.refusals heap.old) (H.refusals heap.new) result }
{
    let mut rest = members(show, g, level);
    let mut scaled = heap.room(rest.len())?;
    while let Some(member) = rest.next() {
        scaled.push_reserved(member);
    }
    Ok(scaled)
}

/// The cue with the channels at the levels, each in the part that is given, or else in that of the move
/// which it had, or else in part 1. An error comes where memory runs out.
pub fn with_levels<H: Heap>(
    heap: &mut H,
    channels: u32,
    cue: &Cue,
    part: Option<PartNo>,
    members: &[Member],
) -> Result<Cue, AllocError>
    requires valid { ValidCue channels cue.now }
    requires part { IfSome part (λ p. IsTrue (has_entry (λ x. x.number) p cue.now.parts)) }
    requires channels { AllByRecursion (λ m. m.chan ≤ channels) members.now }
    ensures cue { IfOk result (λ changed. changed ≡ with_levels part cue.now members.now) }
    ensures valid { IfOk result (ValidCue channels) }
    ensures cause { HasCause (H.refusals heap.old) (H.refusals heap.new) result }
{
    let moves = moves_to(heap, cue, part, members)?;
    with_moves(heap, channels, cue, moves.as_slice())
}

/// The moves of the channels to their levels.
fn moves_to<H: Heap>(
    heap: &mut H,
    cue: &Cue,
    part: Option<PartNo>,
    members: &[Member],
) -> Result<Vec<Move>, AllocError>
    ensures items { IfOk result (λ moves. moves.items
        ≡ map (λ m. record { chan = m.chan; part = part_for part cue.now m.chan; level = m.level }) members.now) }
    ensures cause { HasCause (H.refusals heap.old) (H.refusals heap.new) result }
{
    let mut moves = heap.room(members.len())?;
    for member in members {
        moves.push_reserved(move_to(cue, &part, member));
    }
    Ok(moves)
}

/// The move of the channel to its level.
fn move_to(cue: &Cue, part: &Option<PartNo>, member: &Member) -> Move
    ensures { result ≡ record { chan = member.now.chan; part = part_for part.now cue.now member.now.chan; level = member.now.level } }
{
    let part = match part {
        Some(part) => *part,
        None => match cue.move_of(member.chan) {
            Some(entry) => entry.part,
            None => PartNo::BASE,
        },
    };
    Move {
        chan: member.chan,
        part,
        level: member.level,
    }
}

/// A copy of the cue with these moves, each in the place of the one of its channel. Its memory is taken at once; an error comes
/// where it runs out.
pub fn with_moves<H: Heap>(
    heap: &mut H,
    channels: u32,
    cue: &Cue,
    moves: &[Move],
) -> Result<Cue, AllocError>
    requires valid { ValidCue channels cue.now }
    requires fits { AllByRecursion (Fits channels cue.now.parts) moves.now }
    ensures cue { IfOk result (λ changed. changed ≡ with_moves cue.now moves.now) }
    ensures valid { IfOk result (ValidCue channels) }
    ensures cause { HasCause (H.refusals heap.old) (H.refusals heap.new) result }
{
    facts::of_moves(moves);
    Ok(cue.with(cue.moves.copy_with(heap, moves)?))
}

/// Adds a move of the channel in part 1, where there is a level for it.
pub fn add<H: Heap>(
    heap: &mut H,
    moves: &mut Vec<Move>,
    chan: Chan,
    level: Option<Level>,
) -> Result<(), AllocError>
    ensures items { OnOk result (moves.new.items ≡ moves.old.items ++ base_moves chan level) }
    ensures cause { HasCause (H.refusals heap.old) (H.refusals heap.new) result }
{
    if let Some(level) = level {
        heap.push(
            moves,
            Move {
                chan,
                part: PartNo::BASE,
                level,
            },
        )?;
    }
    Ok(())
}
