//! The cue that takes the stage's levels.

ghost use Rattle.std.specs.Prelude.{◌≡◌, ◌≢◌, ◌≤◌, ◌==◌, ◌∷◌, ◌++◌, [], ℕ, not, None, IfOk, OnOk, if◌then◌else◌};
ghost use Rattle.lx_record.specs.Imports.{HasCause, ValidCue, tracked, with_levels, untracked, level_now, cue_or_new};

use lx_base::{Chan, CueNo, Level};
use lx_console::Console;
use lx_edit::{channel, with_levels};
use lx_io::Heap;
use lx_show::{Cue, Member};
use std::alloc::AllocError;

/// The cue of the number, or a new one, in which each channel whose level on stage isn't the tracked one moves
/// to it, in the part of the move that it had, or in part 1. An error comes where the heap refuses memory.
pub(crate) fn staged<H: Heap>(heap: &mut H, console: &Console, n: CueNo) -> Result<Cue, AllocError>
    requires { n ≢ 0 }
    ensures cue { IfOk result (λ cue. cue
        ≡ with_levels None (cue_or_new console.now.show n) (untracked (level_now console.now) console.now.show n)) }
    ensures valid { IfOk result (ValidCue console.now.show.channels) }
    ensures cause { HasCause (H.refusals heap.old) (H.refusals heap.new) result }
{
    let show = console.show();
    let members = untracked(heap, console, n)?;
    match show.cue(n) {
        Some(cue) => with_levels(heap, show.channels(), cue, None, members.as_slice()),
        None => {
            let cue = Cue::new(heap.allocator(), n);
            with_levels(heap, show.channels(), &cue, None, members.as_slice())
        }
    }
}

/// The channels whose level on stage isn't the tracked one at the number, with their levels. An error comes
/// where the heap refuses memory.
fn untracked<H: Heap>(heap: &mut H, console: &Console, n: CueNo) -> Result<Vec<Member>, AllocError>
    ensures members { IfOk result (λ members. members.items ≡ untracked (level_now console.now) console.now.show n) }
    ensures cause { HasCause (H.refusals heap.old) (H.refusals heap.new) result }
{
    let mut members = Vec::new(heap.allocator());
    for k in 1..console.show().channels() + 1 {
        let c = channel(k);
        add_untracked(heap, &mut members, console, n, c)?;
    }
    Ok(members)
}

/// Adds the channel with its level on stage, unless that is the tracked one at the number. An error comes where
/// the heap refuses memory.
fn add_untracked<H: Heap>(
    heap: &mut H,
    members: &mut Vec<Member>,
    console: &Console,
    n: CueNo,
    c: Chan,
) -> Result<(), AllocError>
    requires { c ≤ console.now.show.channels }
    ensures members { OnOk result (members.new.items ≡ members.old.items ++ (if not
        (level_now console.now c == tracked console.now.show n c) then record { chan = c; level = level_now console.now c } ∷ [] else [])) }
    ensures cause { HasCause (H.refusals heap.old) (H.refusals heap.new) result }
{
    let level = level_on_stage(console, c);
    if level != console.tracked(n, c) {
        heap.push(members, Member { chan: c, level })?;
    }
    Ok(())
}

/// The channel's level on stage, before submasters and master.
pub(crate) fn level_on_stage(console: &Console, c: Chan) -> Level
    requires { c ≤ console.now.show.channels }
    ensures { result ≡ level_now console.now c }
{
    let place = c.get() as usize - 1;
    console.levels()[place]
}
