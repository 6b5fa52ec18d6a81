//! How long the level of a fade stays as it is.

ghost use Rattle.std.specs.Prelude.{◌≡◌, ◌⊎◌, ℕ, ◌+◌, ◌≤◌, ◌<◌, ◌*◌, ◌/◌};
ghost use Rattle.lx_base.specs.declared.TheConstants.{TIME_MAX};
ghost use Rattle.lx_fade.specs.Fades.{fade_at};

use crate::fade::Fade;
use lx_base::{Cs, Level, Moment};

/// Later than each moment at which a fade begins or moves on.
pub const NEVER: Moment = u32::MAX;

/// A level, and the moment up to which it stays: `NEVER` where it changes no more.
#[derive(Clone, Copy, PartialEq, Eq, Debug)]
pub struct Held {
    pub level: Level,
    pub until: Moment,
}

/// The level of the fade at a moment from its start on, as by `value_at`, and how long it stays.
#[inline(always)]
pub fn held_at(fade: &Fade, m: Moment) -> Held
    requires begun { fade.now.start ≤ m }
    requires end { m + 1 < NEVER }
    ensures later { m < result.until }
    ensures stays { (x : ℕ) → m ≤ x → (x < result.until) ⊎ (result.until ≡ NEVER) → fade_at fade.now x ≡ result.level }
{
    let gone = m - fade.start;
    if gone >= fade.time || fade.from == fade.target {
        return Held {
            level: fade.target,
            until: NEVER,
        };
    }
    if fade.target < fade.from {
        let step = step_of(fade.from - fade.target, gone, fade.time);
        Held {
            level: fade.from - step.moved,
            until: moment_of(fade.start, step.next),
        }
    } else {
        let step = step_of(fade.target - fade.from, gone, fade.time);
        Held {
            level: fade.from + step.moved,
            until: moment_of(fade.start, step.next),
        }
    }
}

/// How far a level has moved, and when it has moved by one more.
#[derive(Clone, Copy)]
struct Progress {
    moved: Level,
    next: Cs,
}

/// Of a distance that a fade goes in its time, when so much of that has gone by.
#[inline(always)]
fn step_of(distance: Level, gone: Cs, time: Cs) -> Progress
    requires some { 1 ≤ distance }
    requires gone { gone < time }
    requires time { time ≤ TIME_MAX }
    ensures part { result.moved ≤ distance }
    ensures later { gone < result.next }
    ensures end { result.next ≤ time }
    ensures stays { (part : ℕ) → gone ≤ part → part < result.next → distance * part / time ≡ result.moved }
{
    let distance = distance as u32;
    let moved = distance * gone / time;
    Progress {
        moved: moved as u8,
        next: ((moved + 1) * time - 1) / distance + 1,
    }
}

/// So long after a moment, and before `NEVER`.
#[inline(always)]
fn moment_of(start: Moment, gone: Cs) -> Moment
    ensures most { result ≤ start + gone }
    ensures least { (m : ℕ) → m < start + gone → m + 1 < NEVER → m < result }
    ensures end { result < NEVER }
{
    start.saturating_add(gone).min(NEVER - 1)
}
