//! The fades of one channel over runs.

ghost use Rattle.std.specs.Prelude.{◌≡◌, ℕ, ◌+◌, ◌<◌, ◌≤◌, length, reverse, slice_index_or, slice_set};
ghost use Rattle.lx_levels.specs.Imports.{tracked, entry_for, last_cue, RowsStandFor, ValidRun, ValidTimes, stack_level, no_stack, IsValid};
ghost use Rattle.lx_levels.specs.Imports.{act_over};
ghost use Rattle.lx_base.specs.declared.TheConstants.{RUNS, TICK_END};

use crate::hints::Hint;
use crate::racks::Racks;
use crate::replay::Act;
use crate::runs::{delay_of, entry_for, time_of};
use lx_base::{Chan, CueNo, Level};
use lx_fade::Fade;
use lx_playback::{PartTimes, Run};
use lx_sheet::Sheet;
use lx_show::Show;

/// The channel's tracked level at the cue of the newest run, or at the base.
#[inline(always)]
pub(crate) fn level_there(
    show: &Show,
    sheet: &Sheet,
    base: CueNo,
    live: &[Run],
    c: Chan,
    hints: &mut [Hint],
) -> Level
    requires rows { RowsStandFor show.now sheet.now }
    requires few { length live.now ≤ RUNS }
    requires hints { length hints.old ≡ RUNS }
    ensures { result ≡ tracked show.now (last_cue base (reverse live.now)) c }
{
    match live.last() {
        Some(run) => sheet.level_near(run.cue, c, &mut hints[live.len() - 1].cue),
        None => sheet.level_at(base, c),
    }
}

/// The entry whose times the run takes for the channel.
#[inline(always)]
pub(crate) fn times_for(show: &Show, run: &Run, c: Chan) -> PartTimes
    requires run { ValidRun TICK_END run.now }
    ensures entry { result ≡ entry_for show.now run.now c }
    ensures times { ValidTimes result }
{
    entry_for(show, run, c)
}

/// Pushes the fade of a run that acts on the channel, whose stack stands at a place. It begins when the delay is over, at
/// the level that the channel has then over the older fades; of those nothing is kept where it begins at once. The levels
/// are right from the start on.
#[inline(always)]
pub(crate) fn push_act(stacks: &mut Racks, k: usize, act: &Act)
    requires within { k < length stacks.old }
    requires room { length (slice_index_or stacks.old k no_stack).fades < RUNS }
    requires valid { IsValid act.now }
    ensures level { (m : ℕ) → act.now.start ≤ m → stack_level (slice_index_or stacks.new k no_stack) m
        ≡ act_over act.now (stack_level (slice_index_or stacks.old k no_stack)) m }
    ensures few { length (slice_index_or stacks.new k no_stack).fades ≤ length (slice_index_or stacks.old k no_stack).fades + 1 }
    ensures others { stacks.new ≡ slice_set stacks.old k (slice_index_or stacks.new k no_stack) }
{
    let before = stacks.value(k, act.start);
    let rising = before <= act.target;
    let delay = delay_of(&act.entry, rising);
    let time = time_of(&act.entry, rising);
    if delay == 0 {
        let fade = Fade {
            start: act.start,
            time,
            from: before,
            target: act.target,
        };
        stacks.put(k, 0, fade);
    } else {
        stacks.push(k, act.start + delay, time, act.target);
    }
}
