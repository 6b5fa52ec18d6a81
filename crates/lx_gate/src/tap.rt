//! A tap: the slots of one universe, of a version that is never older than what it had.
ghost use Rattle.std.specs.Prelude.{◌≡◌, ◌≤◌, ◌-◌, ◌*◌, ◌⊎◌, List, [], replicate, slice_range};
ghost use mathlib.Core.List.{IsPrefix};
ghost use Rattle.lx_gate.specs.CommandLists.{IsChained};
ghost use Rattle.lx_gate.specs.Frames.{IsFrame};
ghost use Rattle.lx_gate.specs.Notes.{IsNoteOf, commands_of_note, KeepsLater};
ghost use Rattle.lx_gate.specs.Readings.{Told, newest, HasReadOn, HasMissed, HasLearnt};
ghost use Rattle.lx_base.specs.declared.TheConstants.{UNIVERSES, UNIVERSE_SLOTS};

use crate::{Note, Port, Stamp};
use lx_base::UNIVERSE_SLOTS;
use std::marker::Model;
use std::sync::Wait;

/// One universe's output. It keeps the version that it took or learnt last. Contracts see its universe and what its port was told.
#[derive(Drop)]
pub struct Tap<P: Port> {
    port: P,
    universe: u8,
    slots: [u8; UNIVERSE_SLOTS],
    stamp: Stamp,
}

impl<P: Port> Model for Tap<P> {
    ghost use Rattle.std.specs.Prelude.{◌≤◌};
    ghost use Rattle.lx_base.specs.declared.TheConstants.{UNIVERSES};
    ghost use Rattle.lx_gate.specs.Frames.{IsFrame};
    ghost use Rattle.lx_gate.specs.Readings.{Tapped, newest};

    ghost Value = { Tapped };

    ghost view = { λ t. record { universe = t.universe; told = P.told t.port } };

    ghost invariant = { λ t. (1 ≤ t.universe) × (t.universe ≤ UNIVERSES)
        × IsFrame P.show (newest (P.told t.port)) t.universe t.slots t.stamp };
}

impl<P: Port> Tap<P> {
    /// A tap that has taken and learnt nothing.
    pub fn new(port: P, universe: u8) -> Tap<P>
        requires low { 1 ≤ universe }
        requires high { universe ≤ UNIVERSES }
        requires told { P.told port ≡ record { seen = []; learnt = []; reads = 0; misses = 0 } }
        requires opening { IsFrame P.show [] universe (replicate UNIVERSE_SLOTS 0) (record { count = 0; moment = 0 }) }
        ensures { result ≡ record { universe = universe; told = P.told port } }
    {
        Tap {
            port,
            universe,
            slots: [0; UNIVERSE_SLOTS],
            stamp: Stamp {
                count: 0,
                moment: 0,
            },
        }
    }

    /// The universe, from 1 to `UNIVERSES`.
    pub fn universe(&self) -> u8
        ensures value { result ≡ self.now.universe }
        ensures low { 1 ≤ result }
        ensures high { result ≤ UNIVERSES }
    {
        self.universe
    }

    /// Learns what a note of its gate has. Later takes have at least that; it keeps the note's slots where they are newer.
    pub fn learn(&mut self, note: Note)
        requires gate { IsNoteOf P.show P.book note }
        ensures learnt { HasLearnt self.old.told self.new.told (commands_of_note note) }
        ensures chained { IsChained self.new.told.seen self.new.told.learnt }
        ensures universe { self.new.universe ≡ self.old.universe }
    {
        self.stamp = keep_later(&note, self.universe, self.stamp, &mut self.slots);
        self.port.learn(note);
    }

    /// Gives the slots of the universe after a list of published commands, and how many these are. It waits for nobody. Where it
    /// has no reading, it gives what it kept.
    pub fn take(&mut self, out: &mut [u8; UNIVERSE_SLOTS]) -> Stamp
        ensures version { IsFrame P.show (newest self.new.told) self.old.universe out.new result }
        ensures seen { IsPrefix self.old.told.seen (newest self.new.told) }
        ensures heard { IsPrefix self.old.told.learnt (newest self.new.told) }
        ensures reading { HasReadOn self.old.told self.new.told ⊎ HasMissed self.old.told self.new.told }
        ensures universe { self.new.universe ≡ self.old.universe }
    {
        match self.port.read(self.universe, out) {
            Some(stamp) => {
                self.slots = *out;
                self.stamp = stamp;
                stamp
            }
            None => self.kept(out),
        }
    }

    /// Learns the last note of its gate, behind which nothing was published. What it keeps is then the version of that note's list.
    ///
    /// A rule of the logbook can't say that nothing was published behind the note. So this waits for ever where the tap has a newer
    /// version.
    pub fn learn_last<R: Wait>(&mut self, rt: &R, note: Note)
        requires gate { IsNoteOf P.show P.book note }
        ensures all { newest self.new.told ≡ commands_of_note note }
        ensures learnt { HasLearnt self.old.told self.new.told (commands_of_note note) }
        ensures chained { IsChained self.new.told.seen self.new.told.learnt }
        ensures universe { self.new.universe ≡ self.old.universe }
    {
        let last = note.count();
        self.learn(note);
        wait_while_newer(rt, self.stamp.count, last);
    }

    /// Gives the slots of the universe in the version that it keeps, and which it is. It asks nobody.
    pub fn kept(&self, out: &mut [u8; UNIVERSE_SLOTS]) -> Stamp
        ensures { IsFrame P.show (newest self.now.told) self.now.universe out.new result }
    {
        *out = self.slots;
        self.stamp
    }
}

/// Returns where no more commands led to a version than to the last one, and else never.
fn wait_while_newer<R: Wait>(rt: &R, count: u64, last: u64)
    ensures { count ≤ last }
{
    for _ in rt.forever() {
        if count <= last {
            return;
        }
    }
    unreachable!()
}

/// The slots and the stamp of a note, where its list is longer than that of the slots and the stamp that are kept.
fn keep_later(note: &Note, universe: u8, stamp: Stamp, slots: &mut [u8; UNIVERSE_SLOTS]) -> Stamp
    requires low { 1 ≤ universe }
    requires high { universe ≤ UNIVERSES }
    ensures { KeepsLater note.now universe slots.old stamp slots.new result }
{
    if stamp.count < note.count {
        let end = UNIVERSE_SLOTS * universe as usize;
        slots.copy_from_slice(&note.slots[end - UNIVERSE_SLOTS..end]);
        return Stamp {
            count: note.count,
            moment: note.moment,
        };
    }
    stamp
}
