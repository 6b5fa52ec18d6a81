//! What the types of a show's plain data keep, as facts. These calls do nothing, and stand for proofs alone:
//! a proof about a value that was handed in begins with the facts of its type.

ghost use Rattle.lx_show.specs.Imports.{AllByRecursion, InRange, IsLabel, IsLevel};

use lx_base::CHANNELS;
use lx_spec::{Label, Member, Move};

/// A move's channel is at least 1, and its level at most 255.
fn of_move(entry: &Move)
    ensures chan { InRange CHANNELS entry.now.chan }
    ensures level { IsLevel entry.now.level }
{
    let _ = entry.chan.get();
    let _level = entry.level;
}

/// So it is with each of these moves.
pub fn of_moves(entries: &[Move])
    ensures { AllByRecursion (λ m. InRange CHANNELS m.chan × IsLevel m.level) entries.now }
{
    for entry in entries {
        of_move(entry);
    }
}

/// A member's channel is at least 1, and its level at most 255.
pub fn of_member(entry: &Member)
    ensures chan { InRange CHANNELS entry.now.chan }
    ensures level { IsLevel entry.now.level }
{
    let _ = entry.chan.get();
    let _level = entry.level;
}

/// A label is made as labels are.
pub fn of_label(label: &Label)
    ensures { IsLabel label.now }
{
    let _ = label.as_slice();
}
