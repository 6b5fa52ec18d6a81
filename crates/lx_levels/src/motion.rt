//! Levels brought to another moment, each looked at where it may change.

ghost use Rattle.std.specs.Prelude.{◌≡◌, ℕ, ◌+◌, ◌<◌, ◌≤◌, false, List, length, slice_index, slice_index_or};
ghost use Rattle.lx_levels.specs.Imports.{no_stack, Governs, LevelsReach, IsHeld, IsTold, IsRightAt, IsRightBut, IsWritten, place_of};
ghost use Rattle.lx_fade.specs.declared.held.TheConstants.{NEVER};

use crate::current::Current;
use crate::racks::Racks;
use lx_base::{Level, Moment};
use lx_fade::NEVER;

/// Each channel's level, and how it moves.
#[derive(Drop)]
pub(crate) struct Motion {
    /// The fade that governs each channel, where its level changes yet.
    pub(crate) currents: Vec<Current>,
    pub(crate) levels: Vec<Level>,
    /// The moment up to which each level stays: `NEVER` where it changes no more.
    pub(crate) holds: Vec<Moment>,
    /// No level changes before this moment.
    pub(crate) due: Moment,
}

impl Motion {
    /// Brings the channels to the moment; answers whether a level changed. Those that are held until later are there already.
    pub(crate) fn advance(&mut self, m: Moment, stacks: &Racks) -> bool
        requires moment { m + 1 < NEVER }
        requires reaches { LevelsReach (length stacks.now) self.old }
        requires held { (k : ℕ) → k < length stacks.now → IsHeld m (slice_index_or stacks.now k no_stack) (place_of self.old k) }
        ensures right { IsRightAt m stacks.now self.new }
        ensures unchanged { result ≡ false → (k : ℕ) → k < length stacks.now
            → slice_index self.new.levels.items k ≡ slice_index self.old.levels.items k }
    {
        let mut changed = false;
        let mut due = NEVER;
        for k in 0..self.holds.len() {
            changed |= self.bring(k, m, stacks);
            due = due.min(self.holds[k]);
        }
        self.due = due;
        changed
    }

    /// Brings a channel to the moment; answers whether its level changed. One that is held until later is there already.
    #[inline(always)]
    fn bring(&mut self, k: usize, m: Moment, stacks: &Racks) -> bool
        requires moment { m + 1 < NEVER }
        requires within { k < length stacks.now }
        requires reaches { LevelsReach (length stacks.now) self.old }
        requires held { IsHeld m (slice_index_or stacks.now k no_stack) (place_of self.old k) }
        ensures told { IsTold m (slice_index_or stacks.now k no_stack) (place_of self.new k) }
        ensures others { IsWritten k self.old self.new }
        ensures unchanged { result ≡ false → slice_index self.new.levels.items k ≡ slice_index self.old.levels.items k }
    {
        if m < self.holds[k] {
            return false;
        }
        self.bring_on(k, m, stacks)
    }

    /// The same at the moment up to which it was held, or a later one.
    fn bring_on(&mut self, k: usize, m: Moment, stacks: &Racks) -> bool
        requires moment { m + 1 < NEVER }
        requires within { k < length stacks.now }
        requires reaches { LevelsReach (length stacks.now) self.old }
        requires due { slice_index self.old.holds.items k ≤ m }
        requires held { IsHeld m (slice_index_or stacks.now k no_stack) (place_of self.old k) }
        ensures told { IsTold m (slice_index_or stacks.now k no_stack) (place_of self.new k) }
        ensures others { IsWritten k self.old self.new }
        ensures unchanged { result ≡ false → slice_index self.new.levels.items k ≡ slice_index self.old.levels.items k }
    {
        let current = &mut self.currents[k];
        wake(current, stacks, k, m);
        let held = current.held(m);
        let changed = self.levels[k] != held.level;
        self.levels[k] = held.level;
        self.holds[k] = held.until;
        changed
    }

    /// Takes up the stack of the channel at a place.
    pub(crate) fn refresh(&mut self, k: usize, m: Moment, stacks: &Racks)
        requires { IsRightBut m k stacks.now self.old }
        ensures { IsRightAt m stacks.now self.new }
    {
        let current = stacks.governing(k, m);
        let held = current.held(m);
        self.currents[k] = current;
        self.levels[k] = held.level;
        self.holds[k] = held.until;
        self.due = self.due.min(held.until);
    }
}

/// Takes up the fade that governs at the moment, where the one before did so up to there.
#[inline(always)]
fn wake(current: &mut Current, stacks: &Racks, k: usize, m: Moment)
    requires moment { m + 1 < NEVER }
    requires within { k < length stacks.now }
    requires governs { Governs m (slice_index_or stacks.now k no_stack) current.old }
    ensures governs { Governs m (slice_index_or stacks.now k no_stack) current.new }
    ensures waits { m < current.new.wake }
{
    if current.wake <= m {
        *current = stacks.governing(k, m);
    }
}
