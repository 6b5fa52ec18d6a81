//! Which dimmers follow each channel.

ghost use Rattle.std.specs.Prelude.{◌≡◌, ◌≢◌, ℕ, ◌<◌, ◌≤◌, ◌+◌, length, slice_index, IfOk};
ghost use Rattle.lx_io.specs.Causes.{HasCause};
ghost use Rattle.lx_base.specs.Numbers.{scaled};
ghost use Rattle.lx_patch.specs.FollowerChains.{FollowsChannel, IsLinked, AreDarkFrom};
ghost use Rattle.lx_base.specs.declared.TheConstants.{CHANNELS, SLOTS};

use lx_base::{CHANNELS, LANES, Level, SLOTS, scale};
use lx_io::{Heap, filled};
use std::alloc::AllocError;

/// The dimmers that follow each channel at more than 0, as chains: the first one of each channel, and after
/// each dimmer the next one of its channel. A chain ends at `SLOTS`.
#[derive(Drop)]
pub(crate) struct Followers {
    /// The first dimmer of each channel.
    pub(crate) first: Vec<u16>,
    /// The next dimmer of the same channel.
    pub(crate) next: Vec<u16>,
    /// Every dimmer from here on is dark.
    pub(crate) top: usize,
}

impl Followers {
    /// Chains without a dimmer. An error comes where the heap refuses memory.
    pub(crate) fn open<H: Heap>(heap: &mut H) -> Result<Followers, AllocError>
        ensures first { IfOk result (λ followers. length followers.first.items ≡ CHANNELS) }
        ensures next { IfOk result (λ followers. length followers.next.items ≡ SLOTS) }
        ensures cause { HasCause (H.refusals heap.old) (H.refusals heap.new) result }
    {
        Ok(Followers {
            first: filled(heap, 0, CHANNELS as usize)?,
            next: filled(heap, 0, SLOTS)?,
            top: 0,
        })
    }

    /// Takes up the places of the dimmers' channels, and their levels.
    pub(crate) fn link(&mut self, places: &[u16], levels: &[Level])
        requires first { length self.old.first.items ≡ CHANNELS }
        requires next { length self.old.next.items ≡ SLOTS }
        requires places { length places.now ≡ SLOTS }
        requires levels { length levels.now ≡ SLOTS }
        requires reach { (e : ℕ) → e < SLOTS → slice_index places.now e < CHANNELS }
        ensures { IsLinked places.now levels.now self.new }
    {
        self.top = top_of(levels);
        self.first.fill(SLOTS as u16);
        let mut e = SLOTS;
        while e > 0 {
            e -= 1;
            if levels[e] > 0 {
                let k = places[e] as usize;
                self.next[e] = self.first[k];
                self.first[k] = e as u16;
            }
        }
    }

    /// Fills in the slots of the dimmers that follow the channel at the place.
    pub(crate) fn fill(
        &self,
        places: &[u16],
        levels: &[Level],
        k: usize,
        out: Level,
        slots: &mut [Level],
    )
        requires linked { IsLinked places.now levels.now self.now }
        requires place { k < CHANNELS }
        requires levels { length levels.now ≡ SLOTS }
        requires slots { length slots.old ≡ SLOTS }
        ensures here { (e : ℕ) → e < SLOTS → FollowsChannel places.now levels.now k e
            → slice_index slots.new e ≡ scaled out (slice_index levels.now e) }
        ensures others { (e : ℕ) → e < SLOTS → slice_index places.now e ≢ k → slice_index slots.new e ≡ slice_index slots.old e }
        ensures dark { (e : ℕ) → e < SLOTS → slice_index levels.now e ≡ 0 → slice_index slots.new e ≡ slice_index slots.old e }
    {
        let mut e = self.first[k] as usize;
        while e < SLOTS {
            slots[e] = scale(out, levels[e]);
            e = self.next[e] as usize;
        }
    }
}

/// Every dimmer from here on is dark. It is a whole number of lanes.
fn top_of(levels: &[Level]) -> usize
    requires { length levels.now ≡ SLOTS }
    ensures most { result ≤ SLOTS }
    ensures dark { AreDarkFrom levels.now result }
{
    let mut top = SLOTS;
    while top > 0 && levels[top - 1] == 0 {
        top -= 1;
    }
    (top + LANES - 1) / LANES * LANES
}
