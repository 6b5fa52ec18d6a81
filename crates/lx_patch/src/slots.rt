//! Slots, each from the output at its place.

ghost use Rattle.std.specs.Prelude.{◌≡◌, ◌≤◌, ◌<◌, ◌+◌, ℕ, IsTrue, length, slice_index, EachIndex};
ghost use Rattle.lx_base.specs.Numbers.{scaled};
ghost use Rattle.lx_base.specs.Rows.{HasLanes};
ghost use Rattle.lx_patch.specs.Slots.{AreSlots, AreInARow};

use lx_base::{LANES, Level, scale, scale_lanes};
use std::simd::prelude::*;

/// How far each of 32 neighbours is from the first.
const STEPS: [u16; LANES] = [
    0, 1, 2, 3, 4, 5, 6, 7, 8, 9, 10, 11, 12, 13, 14, 15, 16, 17, 18, 19, 20, 21, 22, 23, 24, 25,
    26, 27, 28, 29, 30, 31,
];

/// The last place from which 32 can follow one another as numbers of 16 bits.
const LAST_START: u16 = u16::MAX - 31;

/// Fills in each of this many slots: the output at its place, in proportion to its level.
pub(crate) fn fill(
    places: &[u16],
    levels: &[Level],
    outs: &[Level],
    slots: &mut [Level],
    count: usize,
)
    requires places { length places.now ≡ length slots.old }
    requires levels { length levels.now ≡ length slots.old }
    requires count { count ≤ length slots.old }
    requires reach { EachIndex places.now (λ k. slice_index places.now k < length outs.now) }
    ensures filled { AreSlots places.now levels.now outs.now slots.new 0 count }
    ensures others { (k : ℕ) → count ≤ k → slice_index slots.new k ≡ slice_index slots.old k }
{
    let blocks = count / LANES;
    for i in 0..blocks {
        fill_block(places, levels, outs, slots, LANES * i);
    }
    for i in LANES * blocks..count {
        slots[i] = scale(outs[places[i] as usize], levels[i]);
    }
}

/// Fills in the 32 slots from a place on.
fn fill_block(places: &[u16], levels: &[Level], outs: &[Level], slots: &mut [Level], at: usize)
    requires places { at + LANES ≤ length places.now }
    requires levels { at + LANES ≤ length levels.now }
    requires slots { at + LANES ≤ length slots.old }
    requires reach { EachIndex places.now (λ k. slice_index places.now k < length outs.now) }
    ensures before { (k : ℕ) → k < at → slice_index slots.new k ≡ slice_index slots.old k }
    ensures block { AreSlots places.now levels.now outs.now slots.new at (at + LANES) }
    ensures after { (k : ℕ) → at + LANES ≤ k → slice_index slots.new k ≡ slice_index slots.old k }
{
    let outs = gather(places, outs, at);
    scale_lanes(outs, u8x32::from_slice(&levels[at..])).copy_to_slice(&mut slots[at..]);
}

/// The outputs at the 32 places from a place on.
#[inline(always)]
fn gather(places: &[u16], outs: &[Level], at: usize) -> u8x32
    requires places { at + LANES ≤ length places.now }
    requires reach { EachIndex places.now (λ k. slice_index places.now k < length outs.now) }
    ensures { HasLanes result (λ k. slice_index outs.now (slice_index places.now (at + k))) }
{
    let first = places[at] as usize;
    if first + LANES <= outs.len() && is_run(places, at) {
        u8x32::from_slice(&outs[first..])
    } else {
        let gathered = gather_by_one(places, outs, at);
        u8x32::from_slice(&gathered)
    }
}

/// Whether the 32 places from a place on follow one another, as those of dimmers that were patched in one go.
#[inline(always)]
fn is_run(places: &[u16], at: usize) -> bool
    requires { at + LANES ≤ length places.now }
    ensures { IsTrue result → AreInARow places.now at (at + LANES) }
{
    let first = places[at];
    if first > LAST_START {
        return false;
    }
    let row = u16x32::splat(first) + u16x32::from_array(STEPS);
    u16x32::from_slice(&places[at..]).simd_ne(row).to_bitmask() == 0
}

/// The outputs at the 32 places from a place on, one by one.
#[inline(always)]
fn gather_by_one(places: &[u16], outs: &[Level], at: usize) -> [Level; LANES]
    requires places { at + LANES ≤ length places.now }
    requires reach { EachIndex places.now (λ k. slice_index places.now k < length outs.now) }
    ensures { (k : ℕ) → k < LANES → slice_index result k ≡ slice_index outs.now (slice_index places.now (at + k)) }
{
    let mut gathered = [0; LANES];
    for k in 0..LANES {
        gathered[k] = outs[places[at + k] as usize];
    }
    gathered
}
