//! With which times a run acts on a channel.

ghost use Rattle.std.specs.Prelude.{◌≡◌, ◌==◌, option_and_then, if◌then◌else◌};
ghost use Rattle.lx_levels.specs.Imports.{option_copied, entry_at, IsTime, move_of, entry_for, first_entry, ValidTimes};

use lx_base::{Chan, Cs, PartNo};
use lx_playback::{PartTimes, Run};
use lx_show::Show;

/// The entry whose times the run takes for the channel: the one that it captured of the part of its
/// cue's move, or else its first. Of a run of one part no move is looked up.
#[inline(always)]
pub(crate) fn entry_for(show: &Show, run: &Run, c: Chan) -> PartTimes
    ensures { result ≡ entry_for show.now run.now c }
{
    let entries = run.parts.as_slice();
    if entries.len() < 2 {
        return first_entry(entries);
    }
    match captured_for(show, run, c) {
        Some(entry) => entry,
        None => first_entry(entries),
    }
}

/// The entry that the run captured of the part in which its cue now moves the channel.
fn captured_for(show: &Show, run: &Run, c: Chan) -> Option<PartTimes>
    ensures { result ≡ option_and_then (λ m. entry_at (λ entry. entry.part) m.part run.now.parts) (move_of show.now run.now.cue c) }
{
    let entry = show.move_of(run.cue, c)?;
    entry_of(run.parts.as_slice(), entry.part).copied()
}

/// The entry of the part.
fn entry_of(entries: &[PartTimes], part: PartNo) -> Option<&PartTimes>
    ensures { option_copied result ≡ entry_at (λ entry. entry.part) part entries.now }
{
    entries.iter().find(|entry| is_of(entry, part))
}

/// The entry is of the part.
fn is_of(entry: &PartTimes, part: PartNo) -> bool
    ensures { result ≡ (entry.now.part == part) }
{
    entry.part.get() == part.get()
}

/// The first entry: each run has one.
fn first_entry(entries: &[PartTimes]) -> PartTimes
    ensures { result ≡ first_entry entries.now }
{
    match entries.first() {
        Some(entry) => *entry,
        None => NO_TIMES,
    }
}

const NO_TIMES: PartTimes = PartTimes {
    part: PartNo::BASE,
    up: 0,
    up_delay: 0,
    down: 0,
    down_delay: 0,
};

/// The time that a rising channel takes, or a falling one.
pub(crate) fn time_of(entry: &PartTimes, rising: bool) -> Cs
    requires { ValidTimes entry.now }
    ensures time { result ≡ (if rising then entry.now.up else entry.now.down) }
    ensures most { IsTime result }
{
    if rising { entry.up } else { entry.down }
}

/// How long a rising channel waits before, or a falling one.
pub(crate) fn delay_of(entry: &PartTimes, rising: bool) -> Cs
    requires { ValidTimes entry.now }
    ensures delay { result ≡ (if rising then entry.now.up_delay else entry.now.down_delay) }
    ensures most { IsTime result }
{
    if rising {
        entry.up_delay
    } else {
        entry.down_delay
    }
}
