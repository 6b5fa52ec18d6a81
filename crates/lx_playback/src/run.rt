//! A run of a cue.

ghost use Rattle.std.specs.Prelude.{◌≡◌, ◌+◌, ◌*◌, ◌≤◌, map, IsTrue};
ghost use Rattle.std.specs.List.{AllByRecursion};
ghost use Rattle.lx_spec.specs.Show.{IsTime};
ghost use Rattle.lx_spec.specs.Run.{captured, extent, entry_extent};
ghost use Rattle.lx_spec.specs.Playback.{one_entry};
ghost use Rattle.lx_playback.specs.Valid.{ValidTimes};
ghost use Rattle.lx_base.specs.declared.TheConstants.{TIME_MAX};

use arrayvec::ArrayVec;
use lx_base::{Cs, CueNo, Moment, PartNo};
use lx_show::Part;
use lx_spec::PartTimes;
use std::marker::Model;

/// A run of a cue: it began at `start` and captured the times of the cue's parts. A `whole` run
/// acts on every channel, another on those that the cue brings to another level or moves.
#[derive(Drop)]
pub struct Run {
    pub start: Moment,
    pub cue: CueNo,
    pub parts: ArrayVec<PartTimes, 9>,
    pub whole: bool,
}

impl Model for Run {
    ghost use Rattle.lx_spec.specs.Run.{Run as RunData};

    ghost Value = { RunData };

    ghost view = { λ r. record { start = r.start; cue = r.cue; parts = r.parts.items; whole = r.whole } };
}

impl Run {
    /// A run equal to this one.
    pub fn copy(&self) -> Run
        ensures { result ≡ self.now }
    {
        Run {
            start: self.start,
            cue: self.cue,
            parts: copied(&self.parts),
            whole: self.whole,
        }
    }

    /// How long the run takes: the greatest sum of delay and time over its entries and both
    /// directions, at most 1,199,998 hundredths of a second.
    pub fn extent(&self) -> Cs
        requires { AllByRecursion ValidTimes self.now.parts }
        ensures extent { result ≡ extent self.now }
        ensures most { result ≤ 2 * TIME_MAX }
    {
        let mut most = 0;
        for entry in self.parts.as_slice() {
            most = most.max(entry_extent(entry));
        }
        most
    }
}

/// The times of all parts, as a run captures them.
pub(crate) fn captured_all(parts: &ArrayVec<Part, 9>) -> ArrayVec<PartTimes, 9>
    ensures { result.items ≡ map captured parts.now.items }
{
    let mut entries = ArrayVec::new();
    for part in parts.as_slice() {
        entries.push(captured(part));
    }
    entries
}

/// One entry that takes this time both ways.
pub(crate) fn one_entry(time: Cs) -> ArrayVec<PartTimes, 9>
    ensures { result.items ≡ one_entry time }
{
    let mut entries = ArrayVec::new();
    entries.push(PartTimes {
        part: PartNo::BASE,
        up: time,
        up_delay: 0,
        down: time,
        down_delay: 0,
    });
    entries
}

/// The times of a part, as a run captures them.
fn captured(part: &Part) -> PartTimes
    ensures { result ≡ captured part.now }
{
    PartTimes {
        part: part.number,
        up: part.up,
        up_delay: part.up_delay,
        down: part.down,
        down_delay: part.down_delay,
    }
}

/// The same entries.
fn copied(entries: &ArrayVec<PartTimes, 9>) -> ArrayVec<PartTimes, 9>
    ensures { result.items ≡ entries.now.items }
{
    let mut copies = ArrayVec::new();
    for entry in entries.as_slice() {
        copies.push(*entry);
    }
    copies
}

/// How long an entry takes, in the slower direction: by then a channel has come to its target, whichever way it goes.
#[inline(always)]
pub fn entry_extent(entry: &PartTimes) -> Cs
    requires { ValidTimes entry.now }
    ensures extent { result ≡ entry_extent entry.now }
    ensures most { result ≤ 2 * TIME_MAX }
{
    let up = entry.up_delay + entry.up;
    let down = entry.down_delay + entry.down;
    up.max(down)
}
