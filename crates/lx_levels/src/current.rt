//! The fade that governs a channel.

ghost use Rattle.std.specs.Prelude.{◌≡◌, ◌+◌, ◌<◌, ◌≤◌, ℕ};
ghost use Rattle.lx_levels.specs.Imports.{fade_at, Governs, StaysUntil};
ghost use Rattle.lx_fade.specs.declared.held.TheConstants.{NEVER};
ghost use Rattle.lx_levels.specs.Stacks.{Stack as StackData};

use lx_base::{Level, Moment};
use lx_fade::{Fade, Held, held_at};

/// The fade that gives a channel's level, and when the next one begins: `NEVER` where none waits.
#[derive(Clone, Copy)]
pub(crate) struct Current {
    pub(crate) fade: Fade,
    pub(crate) wake: Moment,
}

impl Current {
    /// A level that stays until a fade begins.
    pub(crate) fn still(level: Level, wake: Moment) -> Current
        ensures begun { result.fade.start ≡ 0 }
        ensures wake { result.wake ≡ wake }
        ensures level { (x : ℕ) → fade_at result.fade x ≡ level }
    {
        let fade = Fade {
            start: 0,
            time: 0,
            from: level,
            target: level,
        };
        Current { fade, wake }
    }

    /// The level at a moment before the next fade's beginning, and how long it stays.
    #[inline(always)]
    pub(crate) fn held(&self, m: Moment) -> Held
        requires begun { self.now.fade.start ≤ m }
        requires waits { m < self.now.wake }
        requires end { m + 1 < NEVER }
        ensures later { m < result.until }
        ensures stays { (stack : StackData) → Governs m stack self.now → StaysUntil m stack result.level result.until }
    {
        let held = held_at(&self.fade, m);
        Held {
            level: held.level,
            until: held.until.min(self.wake),
        }
    }
}
