//! Where the next LF stands.
ghost use Rattle.std.specs.Prelude.{◌≡◌, ◌<◌, ◌≤◌, ◌+◌, length};
ghost use Rattle.memchr.specs.Find.{Nowhere, Passes, is_byte};

use std::simd::prelude::*;

/// How many bytes are looked at at once.
const LANES: usize = 32;

/// Where the first LF from `start` up to `end` stands, or `end` where none does. This many bytes are looked at at once, also those behind
/// `end`, if there are any.
#[inline(always)]
pub(crate) fn next_lf(bytes: &[u8], start: usize, end: usize) -> usize
    requires ordered { start ≤ end }
    requires within { end ≤ length bytes.now }
    ensures from { start ≤ result }
    ensures within { result ≤ end }
    ensures none { Nowhere (Passes (is_byte 10) bytes.now) start result }
    ensures found { result < end → Passes (is_byte 10) bytes.now result }
{
    let mut at = start;
    while at < end && bytes.len() - at >= LANES {
        let run = feed_run(bytes, at);
        if run < LANES {
            return (at + run).min(end);
        }
        at += LANES;
    }
    last_feed(bytes, at, end)
}

/// The same, byte by byte, or `end` where that was passed already.
#[inline(always)]
fn last_feed(bytes: &[u8], start: usize, end: usize) -> usize
    requires within { end ≤ length bytes.now }
    ensures within { result ≤ end }
    ensures none { Nowhere (Passes (is_byte 10) bytes.now) start result }
    ensures found { result < end → Passes (is_byte 10) bytes.now result }
    ensures from { start ≤ end → start ≤ result }
    ensures past { end < start → result ≡ end }
{
    for place in start..end {
        if bytes[place] == b'\n' {
            return place;
        }
    }
    end
}

/// How many of the 32 bytes from a place on stand before the first LF among them: 32 where there is none.
#[inline(always)]
fn feed_run(bytes: &[u8], at: usize) -> usize
    requires { at + LANES ≤ length bytes.now }
    ensures most { result ≤ LANES }
    ensures none { Nowhere (Passes (is_byte 10) bytes.now) at (at + result) }
    ensures found { result < LANES → Passes (is_byte 10) bytes.now (at + result) }
{
    let feeds = u8x32::from_slice(&bytes[at..])
        .simd_eq(u8x32::splat(b'\n'))
        .to_bitmask();
    if feeds == 0 {
        LANES
    } else {
        feeds.trailing_zeros() as usize
    }
}
