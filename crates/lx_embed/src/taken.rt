//! What a host took last of each universe.

ghost use Rattle.std.specs.Prelude.{◌≡◌, ◌≢◌, ◌≤◌, ℕ, None, Some, length, IsTrue, ◌↔◌};
ghost use Rattle.lx_base.specs.declared.TheConstants.{UNIVERSES, UNIVERSE_SLOTS};
ghost use Rattle.lx_embed.specs.TakenSlots.{taken_of};

use lx_base::{Level, UNIVERSE_SLOTS, UNIVERSES, next_change};

/// How many universes there are.
const COUNT: usize = UNIVERSES as usize;

/// The slots that were taken last of one universe.
#[derive(Clone, Copy)]
pub struct TakenSlots {
    /// They were taken once.
    pub is_taken: bool,
    pub slots: [Level; UNIVERSE_SLOTS],
}

/// The slots that were taken last of each universe.
#[derive(Drop)]
pub struct Taken {
    pub universes: [TakenSlots; COUNT],
}

impl Taken {
    /// Nothing was taken yet.
    pub(crate) fn nothing() -> Taken
        ensures { (u : ℕ) → 1 ≤ u → u ≤ UNIVERSES → taken_of result u ≡ None }
    {
        let none = TakenSlots {
            is_taken: false,
            slots: [0; UNIVERSE_SLOTS],
        };
        Taken {
            universes: [none; COUNT],
        }
    }

    /// The slots of the universe were taken.
    pub(crate) fn take(&mut self, universe: u32, slots: &[Level])
        requires least { 1 ≤ universe }
        requires most { universe ≤ UNIVERSES }
        requires slots { length slots.now ≡ UNIVERSE_SLOTS }
        ensures taken { taken_of self.new universe ≡ Some slots.now }
        ensures others { (u : ℕ) → 1 ≤ u → u ≢ universe → taken_of self.new u ≡ taken_of self.old u }
    {
        let it = &mut self.universes[universe as usize - 1];
        it.is_taken = true;
        it.slots.copy_from_slice(slots);
    }

    /// Whether these are the slots that were taken last of the universe.
    pub(crate) fn are(&self, universe: u32, slots: &[Level]) -> bool
        requires least { 1 ≤ universe }
        requires most { universe ≤ UNIVERSES }
        requires slots { length slots.now ≡ UNIVERSE_SLOTS }
        ensures { IsTrue result ↔ (taken_of self.now universe ≡ Some slots.now) }
    {
        let it = &self.universes[universe as usize - 1];
        it.is_taken && next_change(&it.slots, slots, 0).is_none()
    }
}
