//! Stacks of fades in a lent row, the newest last.

ghost use Rattle.std.specs.Prelude.{◌≡◌, ℕ, ◌+◌, ◌-◌, ◌*◌, ◌<◌, ◌≤◌, ◌∷◌, length, slice_index_or};
ghost use Rattle.lx_base.specs.declared.TheConstants.{TIME_MAX};
ghost use Rattle.lx_spec.specs.Level.{fade_over};
ghost use Rattle.lx_fade.specs.Fades.{stack_at, begun_by, pushed, StartsFall};
ghost use Rattle.lx_fade.specs.Row.{stack_column, no_fade, stack_in};

use crate::fade::{Fade, value_at};
use lx_base::{Cs, Level, Moment};

/// Where a stack stands in a row: this many fades, the oldest at the place `first` and each `step` places behind the one
/// before.
#[derive(Clone, Copy)]
pub struct Column {
    pub step: usize,
    pub first: usize,
    pub used: usize,
}

/// A fade to push on a stack, and on how many of its oldest fades.
#[derive(Clone, Copy)]
pub struct Push {
    pub kept: usize,
    pub fade: Fade,
}

/// The level at a moment over the stack of the first `used` entries: that of its newest fade that has begun, or `bottom`
/// where none has.
pub fn value(row: &[Fade], used: usize, bottom: Level, m: Moment) -> Level
    requires { used ≤ length row.now }
    ensures { result ≡ stack_at bottom (stack_in row.now used) m }
{
    let at = Column {
        step: 1,
        first: 0,
        used,
    };
    value_in(row, at, bottom, m)
}

/// Pushes a fade to the target that begins at `start` from the level there. The fades that would
/// begin later are dropped, those that begin at the same moment stay below it. Answers the new
/// count of entries; the row's entries after these are free.
pub fn push_fade(
    row: &mut [Fade],
    used: usize,
    bottom: Level,
    start: Moment,
    time: Cs,
    target: Level,
) -> usize
    requires room { used < length row.old }
    requires time { time ≤ TIME_MAX }
    ensures stack { stack_in row.new result ≡ pushed bottom (stack_in row.old used) start time target }
    ensures count { result ≤ used + 1 }
    ensures level { (m : ℕ) → stack_at bottom (stack_in row.new result) m
        ≡ fade_over (stack_at bottom (stack_in row.old used)) start time target m }
    ensures order { StartsFall (stack_in row.old used) → StartsFall (stack_in row.new result) }
{
    let at = Column {
        step: 1,
        first: 0,
        used,
    };
    let push = push_in(row, at, bottom, start, time, target);
    row[push.kept] = push.fade;
    push.kept + 1
}

/// The level at a moment over the stack that stands there, as by `value`.
#[inline]
pub fn value_in(row: &[Fade], at: Column, bottom: Level, m: Moment) -> Level
    requires within { at.first < at.step }
    requires reach { at.used * at.step ≤ length row.now }
    ensures { result ≡ stack_at bottom (stack_column row.now at.step at.first at.used) m }
{
    let kept = begun_in(row, at, m);
    newest_at(row, at, kept, bottom, m)
}

/// What to push on the stack that stands there, as by `push_fade`: the fade to the target that begins at `start` from the
/// level there, on the fades that wouldn't begin later.
#[inline]
pub fn push_in(
    row: &[Fade],
    at: Column,
    bottom: Level,
    start: Moment,
    time: Cs,
    target: Level,
) -> Push
    requires within { at.first < at.step }
    requires reach { at.used * at.step ≤ length row.now }
    requires time { time ≤ TIME_MAX }
    ensures kept { result.kept ≤ at.used }
    ensures start { result.fade.start ≡ start }
    ensures stack { result.fade ∷ stack_column row.now at.step at.first result.kept
        ≡ pushed bottom (stack_column row.now at.step at.first at.used) start time target }
{
    let kept = begun_in(row, at, start);
    let from = newest_at(row, at, kept, bottom, start);
    Push {
        kept,
        fade: Fade {
            start,
            time,
            from,
            target,
        },
    }
}

/// How many of the oldest fades there are up to the newest that has begun by the moment.
#[inline(always)]
fn begun_in(row: &[Fade], at: Column, m: Moment) -> usize
    requires within { at.first < at.step }
    requires reach { at.used * at.step ≤ length row.now }
    ensures count { result ≤ at.used }
    ensures stack { stack_column row.now at.step at.first result ≡ begun_by m (stack_column row.now at.step at.first at.used) }
    ensures begun { 0 < result → (slice_index_or row.now ((result - 1) * at.step + at.first) no_fade).start ≤ m }
{
    let mut kept = at.used;
    while kept > 0 {
        let fade = row[(kept - 1) * at.step + at.first];
        if fade.has_begun(m) {
            return kept;
        }
        kept -= 1;
    }
    kept
}

/// The level of the newest of this many of the oldest fades, which has begun, or `bottom` where there is none.
#[inline(always)]
fn newest_at(row: &[Fade], at: Column, kept: usize, bottom: Level, m: Moment) -> Level
    requires within { at.first < at.step }
    requires kept { kept ≤ at.used }
    requires reach { at.used * at.step ≤ length row.now }
    requires begun { 0 < kept → (slice_index_or row.now ((kept - 1) * at.step + at.first) no_fade).start ≤ m }
    ensures { result ≡ stack_at bottom (stack_column row.now at.step at.first kept) m }
{
    if kept == 0 {
        return bottom;
    }
    let fade = row[(kept - 1) * at.step + at.first];
    value_at(&fade, m)
}
