//! The parts of a cue, and their times.

ghost use Rattle.std.specs.Prelude.{◌≡◌, Some, IsTrue};
ghost use Rattle.lx_reader.specs.Imports.{AllByRecursion, IsStrictlySorted, has_entry, entry_at, InRange, ValidPart, changed, HasParts};
ghost use Rattle.lx_reader.specs.Imports.{with_down, part_with_entry, with_up};
ghost use Rattle.lx_base.specs.declared.TheConstants.{PARTS};

use lx_base::{Cs, PartNo};
use lx_show::sorted::entry_of;
use lx_show::{Cue, new_part};
use lx_spec::Part;

/// The part of the number, which is there.
fn part_in(parts: &[Part], number: PartNo) -> Part
    requires sorted { IsStrictlySorted (λ p. p.number) parts.now }
    requires there { IsTrue (has_entry (λ p. p.number) number parts.now) }
    ensures found { entry_at (λ p. p.number) number parts.now ≡ Some result }
{
    match entry_of(parts, number.get()) {
        Some(part) => *part,
        None => unreachable!(),
    }
}

/// The cue has the part.
pub(crate) fn ensure_part(cue: &mut Cue, part: PartNo)
    requires sorted { IsStrictlySorted (λ p. p.number) cue.old.parts }
    requires valid { AllByRecursion ValidPart cue.old.parts }
    ensures parts { cue.new ≡ record cue.old { parts = part_with_entry part cue.old.parts } }
    ensures range { InRange PARTS part }
{
    if entry_of(cue.parts.as_slice(), part.get()).is_none() {
        cue.put_part(new_part(part));
    }
}

/// Sets the times of the rising channels in a part of the cue.
pub(crate) fn set_up(cue: &mut Cue, part: PartNo, time: Cs, delay: Cs)
    requires { HasParts cue.old part }
    ensures { cue.new ≡ record cue.old { parts = changed (λ p. p.number) part (with_up time delay) cue.old.parts } }
{
    let times = part_in(cue.parts.as_slice(), part);
    cue.put_part(Part {
        up: time,
        up_delay: delay,
        ..times
    });
}

/// Sets the times of the falling channels in a part of the cue.
pub(crate) fn set_down(cue: &mut Cue, part: PartNo, time: Cs, delay: Cs)
    requires { HasParts cue.old part }
    ensures { cue.new ≡ record cue.old { parts = changed (λ p. p.number) part (with_down time delay) cue.old.parts } }
{
    let times = part_in(cue.parts.as_slice(), part);
    cue.put_part(Part {
        down: time,
        down_delay: delay,
        ..times
    });
}
