//! One fade, and its level at a moment.

ghost use Rattle.std.specs.Prelude.{◌≡◌, ◌≤◌, nat_le};
ghost use Rattle.lx_base.specs.declared.TheConstants.{TIME_MAX};
ghost use Rattle.lx_spec.specs.Level.{faded};
ghost use Rattle.lx_fade.specs.Fades.{fade_at};

use lx_base::{Cs, Level, Moment};
use std::marker::Model;

/// A fade of a channel from one level to another: it begins at `start` and takes `time`
/// hundredths of a second, at most `TIME_MAX`.
#[derive(Clone, Copy, PartialEq, Eq, Debug)]
pub struct Fade {
    pub start: Moment,
    pub time: Cs,
    pub from: Level,
    pub target: Level,
}

impl Model for Fade {
    ghost use Rattle.std.specs.Prelude.{◌≤◌};
    ghost use Rattle.lx_base.specs.declared.TheConstants.{TIME_MAX};
    ghost use Rattle.lx_fade.specs.Fades.{Fade as FadeData};

    ghost Value = { FadeData };

    ghost view = { λ f. record { start = f.start; time = f.time; from = f.from; target = f.target } };

    ghost invariant = { λ f. f.time ≤ TIME_MAX };

    ghost inverse = { λ f. record { start = f.start; time = f.time; from = f.from; target = f.target } };
}

impl Fade {
    /// The fade begins by the moment.
    pub(crate) fn has_begun(&self, m: Moment) -> bool
        ensures { result ≡ nat_le self.now.start m }
    {
        self.start <= m
    }
}

/// The level of the fade at a moment from its start on: `from`, moved towards the target by the
/// difference times the part of the time that has gone by, rounded down; from the fade's end on
/// the target. The rule is our own.
pub fn value_at(fade: &Fade, m: Moment) -> Level
    requires { fade.now.start ≤ m }
    ensures { result ≡ fade_at fade.now m }
{
    faded(fade.from, fade.target, m - fade.start, fade.time)
}

/// From a level to the target, when `gone` of `time` has gone by.
fn faded(from: Level, target: Level, gone: Cs, time: Cs) -> Level
    requires { time ≤ TIME_MAX }
    ensures { result ≡ faded from target gone time }
{
    if gone >= time {
        target
    } else if target <= from {
        from - ((from - target) as u32 * gone / time) as u8
    } else {
        from + ((target - from) as u32 * gone / time) as u8
    }
}
