//! The greatest of two rows of levels, under a master.

ghost use Rattle.std.specs.Prelude.{◌≡◌, ◌≤◌, ◌<◌, ◌+◌, ◌*◌, ◌/◌, ◌^◌, ℕ, max, length, slice_index, EachIndex};
ghost use Rattle.lx_base.specs.Numbers.{scaled};
ghost use Rattle.lx_base.specs.Rows.{HasLanes};
ghost use Rattle.lx_mixer.specs.Mix.{IsMixed, HasWords};

use lx_base::{LANES, Level, scale};
use std::simd::prelude::*;

/// This many channels are mixed in one turn of the loop.
const STRETCH: usize = 4 * LANES;

/// Highest takes precedence (HTP): each channel's output is the greater of the level that the
/// playback gives it and the one that the submasters do, in proportion to the master. The channels
/// stand at the same places in all three.
pub fn mix_into(playback: &[Level], subs: &[Level], master: Level, out: &mut [Level])
    requires playback { length playback.now ≡ length out.old }
    requires subs { length subs.now ≡ length out.old }
    ensures { EachIndex out.new (λ k. slice_index out.new k ≡ scaled (max (slice_index playback.now k) (slice_index subs.now k)) master) }
{
    let stretches = out.len() / STRETCH;
    for i in 0..stretches {
        mix_stretch(playback, subs, master, out, STRETCH * i);
    }
    mix_blocks(playback, subs, master, out, STRETCH * stretches);
}

/// Mixes the 128 channels from a place on.
fn mix_stretch(playback: &[Level], subs: &[Level], master: Level, out: &mut [Level], at: usize)
    requires playback { at + STRETCH ≤ length playback.now }
    requires subs { at + STRETCH ≤ length subs.now }
    requires out { at + STRETCH ≤ length out.old }
    ensures before { (k : ℕ) → k < at → slice_index out.new k ≡ slice_index out.old k }
    ensures stretch { IsMixed playback.now subs.now master out.new at (at + STRETCH) }
{
    mix_block(playback, subs, master, out, at);
    mix_block(playback, subs, master, out, at + LANES);
    mix_block(playback, subs, master, out, at + 2 * LANES);
    mix_block(playback, subs, master, out, at + 3 * LANES);
}

/// Mixes the channels from a place on: 32 at once, and the last ones one by one.
fn mix_blocks(playback: &[Level], subs: &[Level], master: Level, out: &mut [Level], from: usize)
    requires from { from ≤ length out.old }
    requires playback { length playback.now ≡ length out.old }
    requires subs { length subs.now ≡ length out.old }
    ensures before { (k : ℕ) → k < from → slice_index out.new k ≡ slice_index out.old k }
    ensures rest { IsMixed playback.now subs.now master out.new from (length out.new) }
{
    let blocks = (out.len() - from) / LANES;
    for i in 0..blocks {
        mix_block(playback, subs, master, out, from + LANES * i);
    }
    mix_rest(playback, subs, master, out, from + LANES * blocks);
}

/// Mixes the 32 channels from a place on.
fn mix_block(playback: &[Level], subs: &[Level], master: Level, out: &mut [Level], at: usize)
    requires playback { at + LANES ≤ length playback.now }
    requires subs { at + LANES ≤ length subs.now }
    requires out { at + LANES ≤ length out.old }
    ensures before { (k : ℕ) → k < at → slice_index out.new k ≡ slice_index out.old k }
    ensures block { IsMixed playback.now subs.now master out.new at (at + LANES) }
{
    let playback = u8x32::from_slice(&playback[at..]);
    let subs = u8x32::from_slice(&subs[at..]);
    under(greater(playback, subs), master).copy_to_slice(&mut out[at..]);
}

/// Each level in proportion to the master. A level times 257 and the master, and once more, has its 255th
/// part in the upper half of 32 bits, whose lower byte goes out.
#[inline(always)]
fn under(levels: u8x32, master: Level) -> u8x32
    ensures { HasLanes result (λ k. scaled (slice_index levels k) master) }
{
    if master == Level::MAX {
        return levels;
    }
    let by = 257 * master as u16 + 1;
    let low = upper_halves(levels.extract::<0, 16>(), by);
    let high = upper_halves(levels.extract::<16, 16>(), by);
    let (lower_bytes, _) = low.to_le_bytes().deinterleave(high.to_le_bytes());
    lower_bytes
}

/// The upper half of each level's product.
#[inline(always)]
fn upper_halves(levels: u8x16, by: u16) -> u16x16
    ensures { HasWords result (λ k. slice_index levels k * by / 2 ^ 16) }
{
    let products = levels.cast::<u32>() * u16x16::splat(by).cast::<u32>();
    (products >> u32x16::splat(16)).cast::<u16>()
}

/// The greater of the two levels in each lane.
#[inline(always)]
fn greater(playback: u8x32, subs: u8x32) -> u8x32
    ensures { HasLanes result (λ k. max (slice_index playback k) (slice_index subs k)) }
{
    playback.simd_max(subs)
}

/// Mixes the channels from a place on, one by one.
fn mix_rest(playback: &[Level], subs: &[Level], master: Level, out: &mut [Level], from: usize)
    requires playback { length playback.now ≡ length out.old }
    requires subs { length subs.now ≡ length out.old }
    ensures before { (k : ℕ) → k < from → slice_index out.new k ≡ slice_index out.old k }
    ensures rest { IsMixed playback.now subs.now master out.new from (length out.new) }
{
    for i in from..out.len() {
        out[i] = scale(playback[i].max(subs[i]), master);
    }
}
