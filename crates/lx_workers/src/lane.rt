//! What a worker owns while it runs, and how it ended.
ghost use Rattle.std.specs.Prelude.{◌≡◌, IsSome};
ghost use mathlib.Core.List.{IsPrefix};
ghost use Rattle.lx_gate.specs.Notes.{IsNoteOf, commands_of_note};
ghost use Rattle.lx_gate.specs.Readings.{Tapped};
ghost use Rattle.lx_workers.specs.Works.{HasServed, HasEnded, Delivered};

use crate::worker::put_newest;
use crate::{Served, Stop, serve};
use lx_base::UNIVERSE_SLOTS;
use lx_gate::{Note, Port, Tap};
use lx_io::{Pace, Sink};
use lx_work::Work;
use std::sync::Wait;

/// One outlet's worker: its tap and its sink, the pace that it keeps, and the stop that it watches.
#[derive(Drop)]
pub struct Lane<'a, P: Port, K, C> {
    pub tap: Tap<P>,
    pub sink: K,
    pub served: Served,
    pub stop: &'a Stop,
    pub pace: &'a C,
}

impl<P: Port, K: Sink, C: Pace> Work for Lane<'_, P, K, C> {
    ghost ready = { λ x. Unit {0} };

    ghost done = { λ x y. HasServed K.Sink P.show x.tap y.tap x.sink y.sink y.served × HasEnded x.tap.told y.tap.told y.served };

    fn run<R: Wait>(&mut self, rt: &R) {
        self.served = serve(
            rt,
            &mut self.tap,
            &mut self.sink,
            self.pace,
            &mut self.stop.watch(),
        );
    }
}

impl<P: Port, K: Sink, C: Pace> Lane<'_, P, K, C> {
    /// Learns what is published at the end, and writes its line unless the outlet has it or its sink had a fault. All lines are then
    /// of prefixes of the published list, the last of all of it, and the sink keeps nothing back.
    pub fn finish<R: Wait>(&mut self, rt: &R, note: Note)
        requires gate { IsNoteOf P.show P.book note }
        ensures delivered { (start : Tapped) (from : K)
            → HasServed K.Sink P.show start self.old.tap from self.old.sink self.old.served
            → Delivered K.Sink P.show start.universe from self.new.sink (commands_of_note note) self.new.served.fault }
        ensures seen { IsPrefix self.old.tap.told.seen self.new.tap.told.seen }
        ensures unwritten { IsSome self.old.served.fault → self.new.sink ≡ self.old.sink }
    {
        self.tap.learn_last(rt, note);
        if self.served.fault.is_some() {
            return;
        }
        let mut slots = [0; UNIVERSE_SLOTS];
        let stamp = self.tap.kept(&mut slots);
        put_newest(
            &self.tap,
            &slots,
            stamp,
            &mut self.sink,
            self.pace,
            &mut self.served,
        );
    }
}
