//! The slots of one universe.

ghost use Rattle.std.specs.Prelude.{◌≡◌, ◌≤◌, length};
ghost use Rattle.lx_base.specs.declared.TheConstants.{SLOTS, UNIVERSES, UNIVERSE_SLOTS};
ghost use Rattle.lx_console.specs.Slots.{universe as universe_in};

use lx_base::{Level, UNIVERSE_SLOTS};

/// The slots of a universe, of those of all dimmers.
pub fn slots_of(universe: u8, slots: &[Level]) -> &[Level]
    requires least { 1 ≤ universe }
    requires most { universe ≤ UNIVERSES }
    requires all { length slots.now ≡ SLOTS }
    ensures slots { result.now ≡ universe_in universe slots.now }
    ensures full { length result.now ≡ UNIVERSE_SLOTS }
{
    let start = UNIVERSE_SLOTS * (universe as usize - 1);
    &slots[start..start + UNIVERSE_SLOTS]
}
