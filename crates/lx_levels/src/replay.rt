//! The fades of one channel over runs that started one after another.

ghost use Rattle.std.specs.Prelude.{◌≡◌, ℕ, ◌+◌, ◌<◌, ◌≤◌, true, length, reverse, slice_index_or, slice_set, IfSome, None};
ghost use Rattle.lx_levels.specs.Imports.{option_map_or, All, tracked, level, RowsStandFor, OldestFirst, ValidRun, stack_level, no_stack};
ghost use Rattle.lx_levels.specs.Imports.{IsKnown, IsOver, IsValid, EachAct, IsGround};
ghost use Rattle.lx_base.specs.declared.TheConstants.{RUNS, TICK_END};
ghost use Rattle.lx_spec.specs.Show.{Show as ShowData};

use crate::channel::{level_there, push_act, times_for};
use crate::hints::{Hint, acts};
use crate::racks::Racks;
use lx_base::{Chan, CueNo, Level, Moment};
use lx_playback::{PartTimes, Run, entry_extent};
use lx_sheet::Sheet;
use lx_show::Show;

/// What a run does to a channel on which it acts: from its start on it brings it to the target, with the times of an
/// entry.
#[derive(Clone, Copy)]
pub(crate) struct Act {
    pub(crate) start: Moment,
    pub(crate) target: Level,
    pub(crate) entry: PartTimes,
}

/// What the oldest runs leave on a channel: its level from some moment on, whatever was before.
#[derive(Clone, Copy)]
pub(crate) struct Ground {
    /// How many of the oldest runs.
    pub(crate) first: usize,
    pub(crate) level: Level,
}

/// The newest runs over which the channel's level has to be followed, for the moments from the one given on, and
/// what the others leave. They end with a run whose fade is over by then, or before the next one that acts begins. What
/// each of the newest does is kept: `None` where it doesn't act.
pub(crate) fn ground_of(
    show: &Show,
    sheet: &Sheet,
    base: CueNo,
    live: &[Run],
    from: Moment,
    c: Chan,
    hints: &mut [Hint],
    acts_of: &mut [Option<Act>],
) -> Ground
    requires rows { RowsStandFor show.now sheet.now }
    requires few { length live.now ≤ RUNS }
    requires runs { All (ValidRun from) live.now }
    requires order { OldestFirst live.now }
    requires end { from ≤ TICK_END }
    requires hints { length hints.old ≡ RUNS }
    requires acts { length acts_of.old ≡ RUNS }
    ensures within { result.first ≤ length live.now }
    ensures ground { IsGround show.now base live.now c from result.first result.level acts_of.new }
    ensures valid { EachAct IsValid live.now result.first acts_of.new }
{
    let mut since = from;
    let mut target = level_there(show, sheet, base, live, c, hints);
    let mut left = live.len();
    while left > 0 {
        let i = left - 1;
        let looks = level_there(show, sheet, base, &live[..i], c, hints);
        let act = act_of(show, &live[i], c, looks, target, &mut hints[i]);
        let Some(earlier) = since_before(&act, since) else {
            return Ground {
                first: left,
                level: target,
            };
        };
        since = earlier;
        acts_of[i] = act;
        target = looks;
        left = i;
    }
    Ground {
        first: 0,
        level: target,
    }
}

/// Since when a channel has to be followed over the runs older than one that does this to it: `None` where the run has brought it to its
/// target by then, whichever way it goes.
#[inline(always)]
fn since_before(act: &Option<Act>, since: Moment) -> Option<Moment>
    requires { IfSome act.now IsValid }
    ensures over { result ≡ None → IsOver since act.now }
    ensures since { IfSome result (λ s. s ≡ option_map_or (λ a. a.start) act.now since) }
{
    match act {
        Some(act) if act.start + entry_extent(&act.entry) <= since => None,
        Some(act) => Some(act.start),
        None => Some(since),
    }
}

/// What a run does to the channel, which is to come from one level to another by it: `None` where it doesn't act.
#[inline(always)]
pub(crate) fn act_of(
    show: &Show,
    run: &Run,
    c: Chan,
    looks: Level,
    target: Level,
    hint: &mut Hint,
) -> Option<Act>
    requires target { target ≡ tracked show.now run.now.cue c }
    requires run { ValidRun TICK_END run.now }
    ensures valid { IfSome result IsValid }
    ensures start { IfSome result (λ a. a.start ≡ run.now.start) }
    ensures known { (before : ℕ) → looks ≡ tracked show.now before c → IsKnown show.now before run.now c result }
{
    if !acts(show, run, c, looks, target, hint) {
        return None;
    }
    Some(Act {
        start: run.start,
        target,
        entry: times_for(show, run, c),
    })
}

/// Makes the stack at a place again: the fades of the runs that are left, over what the oldest ones leave, by what each of
/// them does.
pub(crate) fn replay(
    stacks: &mut Racks,
    k: usize,
    live: &[Run],
    acts_of: &[Option<Act>],
    oldest: Ground,
)
    requires place { k < length stacks.old }
    requires few { length live.now ≤ RUNS }
    requires order { OldestFirst live.now }
    requires acts { length acts_of.now ≡ RUNS }
    requires within { oldest.first ≤ length live.now }
    requires valid { EachAct IsValid live.now oldest.first acts_of.now }
    ensures level { (show : ShowData) (base c from : ℕ)
        → IsGround show base live.now c from oldest.first oldest.level acts_of.now
        → (m : ℕ) → from ≤ m → stack_level (slice_index_or stacks.new k no_stack) m ≡ level show base (reverse live.now) c m }
    ensures few { length (slice_index_or stacks.new k no_stack).fades ≤ length live.now }
    ensures others { stacks.new ≡ slice_set stacks.old k (slice_index_or stacks.new k no_stack) }
{
    stacks.restart(k, oldest.level);
    for i in oldest.first..live.len() {
        if let Some(act) = &acts_of[i] {
            push_act(stacks, k, act);
        }
    }
}
