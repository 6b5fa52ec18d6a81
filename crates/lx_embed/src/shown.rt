//! What a host is shown of a console.

ghost use Rattle.std.specs.Prelude.{◌≡◌, ◌≤◌, ◌↔◌, true, length};
ghost use Rattle.lx_embed.specs.Imports.{Desk, frame, StandsFor};
ghost use Rattle.lx_base.specs.declared.TheConstants.{UNIVERSES, UNIVERSE_SLOTS};

use lx_base::{Level, UNIVERSES};
use lx_console::{Console, slots_of};

/// Whether there is a universe of the number.
pub(crate) fn is_universe(universe: u32) -> bool
    ensures { (result ≡ true) ↔ ((1 ≤ universe) × (universe ≤ UNIVERSES)) }
{
    1 <= universe && universe <= UNIVERSES as u32
}

/// The slots of a universe.
pub(crate) fn frame_of(console: &Console, universe: u32) -> &[Level]
    requires least { 1 ≤ universe }
    requires most { universe ≤ UNIVERSES }
    ensures frame { (d : Desk) → StandsFor d console.now → result.now ≡ frame d universe }
    ensures room { length result.now ≡ UNIVERSE_SLOTS }
{
    slots_of(universe as u8, console.frames())
}
