//! The places where two rows of levels differ.

ghost use Rattle.std.specs.Prelude.{◌≡◌, ◌≤◌, ◌+◌, None, IfSome, length};
ghost use Rattle.lx_base.specs.Rows.{Agree, IsNextChange, IsRun};

use crate::{LANES, Level};
use std::simd::prelude::*;

/// The least place from `from` on where the two rows differ. `None` exactly where they agree from there to
/// their end. The rows have one length, and `from` is at most that.
pub fn next_change(old: &[Level], new: &[Level], from: usize) -> Option<usize>
    requires lengths { length new.now ≡ length old.now }
    requires from { from ≤ length old.now }
    ensures some { IfSome result (IsNextChange old.now new.now from) }
    ensures none { result ≡ None → Agree old.now new.now from (length old.now) }
{
    let blocks = (old.len() - from) / LANES;
    for i in 0..blocks {
        let at = from + LANES * i;
        let run = run_of_lanes(old, new, at);
        if run < LANES {
            return Some(at + run);
        }
    }
    next_by_one(old, new, from + LANES * blocks)
}

/// The same, level by level.
fn next_by_one(old: &[Level], new: &[Level], from: usize) -> Option<usize>
    requires lengths { length new.now ≡ length old.now }
    requires from { from ≤ length old.now }
    ensures some { IfSome result (IsNextChange old.now new.now from) }
    ensures none { result ≡ None → Agree old.now new.now from (length old.now) }
{
    for at in from..old.len() {
        if old[at] != new[at] {
            return Some(at);
        }
    }
    None
}

/// How many of the 32 levels from the place on agree, up to the first that differs.
fn run_of_lanes(old: &[Level], new: &[Level], at: usize) -> usize
    requires old { at + LANES ≤ length old.now }
    requires new { at + LANES ≤ length new.now }
    ensures { IsRun old.now new.now at LANES result }
{
    let was = u8x32::from_slice(&old[at..]);
    let is = u8x32::from_slice(&new[at..]);
    let changed = was.simd_ne(is).to_bitmask();
    if changed == 0 {
        LANES
    } else {
        changed.trailing_zeros() as usize
    }
}
