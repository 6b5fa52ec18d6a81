//! Rows of levels in the proportions of another row.

ghost use Rattle.std.specs.Prelude.{◌≡◌, ℕ, ◌≤◌, ◌<◌, ◌+◌, length, slice_index, EachIndex};
ghost use Rattle.lx_base.specs.Numbers.{scaled};
ghost use Rattle.lx_base.specs.Rows.{HasLanes, IsScaled};

use crate::{LANES, Level, scale};
use std::simd::prelude::*;

/// Scales each level by the one at its place: each entry of `out` is `scale` of the two entries at its place.
/// The rows have one length.
pub fn scale_into(levels: &[Level], by: &[Level], out: &mut [Level])
    requires levels { length levels.now ≡ length out.old }
    requires by { length by.now ≡ length out.old }
    ensures { EachIndex out.new (λ k. slice_index out.new k ≡ scaled (slice_index levels.now k) (slice_index by.now k)) }
{
    let blocks = out.len() / LANES;
    for i in 0..blocks {
        scale_block(levels, by, out, LANES * i);
    }
    scale_rest(levels, by, out, LANES * blocks);
}

/// Scales the levels from a place on, one by one.
fn scale_rest(levels: &[Level], by: &[Level], out: &mut [Level], from: usize)
    requires levels { length levels.now ≡ length out.old }
    requires by { length by.now ≡ length out.old }
    ensures before { (k : ℕ) → k < from → slice_index out.new k ≡ slice_index out.old k }
    ensures rest { IsScaled levels.now by.now out.new from (length out.new) }
{
    for i in from..out.len() {
        out[i] = scale(levels[i], by[i]);
    }
}

/// Scales the 32 levels from the place on.
fn scale_block(levels: &[Level], by: &[Level], out: &mut [Level], at: usize)
    requires levels { at + LANES ≤ length levels.now }
    requires by { at + LANES ≤ length by.now }
    requires out { at + LANES ≤ length out.old }
    ensures before { (k : ℕ) → k < at → slice_index out.new k ≡ slice_index out.old k }
    ensures block { IsScaled levels.now by.now out.new at (at + LANES) }
{
    let levels = u8x32::from_slice(&levels[at..]);
    let by = u8x32::from_slice(&by[at..]);
    scale_lanes(levels, by).copy_to_slice(&mut out[at..]);
}

/// `scale` of the two levels in each lane.
#[inline(always)]
pub fn scale_lanes(levels: u8x32, by: u8x32) -> u8x32
    ensures { HasLanes result (λ k. scaled (slice_index levels k) (slice_index by k)) }
{
    let products = levels.cast::<u16>() * by.cast::<u16>();
    (products / u16x32::splat(255)).cast::<u8>()
}
