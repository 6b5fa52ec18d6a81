//! One output worker.
ghost use Rattle.std.specs.Prelude.{◌≡◌, ◌<◌, ◌≤◌, [], IsTrue, true, false, IfSome, IsSomeAnd, OnOk, Some, None, length};
ghost use Rattle.lx_workers.specs.Imports.{IsPrefix, Rose, Puts, IsFrame, newest, stamped_line, HasServed, HasStepped, HasPutNewest};
ghost use Rattle.lx_workers.specs.Imports.{HasLooked};

use crate::Halt;
use lx_base::UNIVERSE_SLOTS;
use lx_gate::{Port, Stamp, Tap};
use lx_io::{Pace, Sink, SinkFault};
use lx_script::put_frame;
use std::sync::Wait;

/// How a worker ended: how often it took, how many lines it wrote, how many commands led to the last, and its sink's fault.
#[derive(Clone, Copy, Debug, PartialEq, Eq)]
pub struct Served {
    pub takes: u64,
    pub taken: u64,
    pub last: Option<u64>,
    pub fault: Option<SinkFault>,
}

impl Served {
    /// Nothing was written.
    pub fn none() -> Served
        ensures { result ≡ record { takes = 0; taken = 0; last = None; fault = None } }
    {
        Served {
            takes: 0,
            taken: 0,
            last: None,
            fault: None,
        }
    }
}

/// Takes whenever there is news, until a stop was known before a take, or the sink had a fault. It writes the line of the
/// first take and of each that is newer than the last line, and has its sink hand each on.
pub fn serve<R: Wait, P: Port, K: Sink, C: Pace, H: Halt>(
    rt: &R,
    tap: &mut Tap<P>,
    sink: &mut K,
    pace: &C,
    halt: &mut H,
) -> Served
    ensures served { HasServed K.Sink P.show tap.old tap.new sink.old sink.new result }
    ensures seen { IsPrefix tap.old.told.seen tap.new.told.seen }
    ensures learnt { tap.new.told.learnt ≡ tap.old.told.learnt }
    ensures last { result.fault ≡ None → result.last ≡ Some (length (newest tap.new.told)) }
    ensures looked { result.fault ≡ None → HasLooked tap.old.told tap.new.told }
    ensures halted { result.fault ≡ None → H.known halt.new ≡ true }
    ensures after_stop { result.fault ≡ None → Rose (H.asked halt.new) result.takes }
    ensures handed_on { result.fault ≡ None → K.back sink.new ≡ [] }
{
    let mut served = Served::none();
    for _ in rt.forever() {
        if halt.is_set(served.takes) {
            step(tap, sink, pace, &mut served);
            return served;
        }
        if !halt.has_news() {
            halt.rest(rt);
            continue;
        }
        step(tap, sink, pace, &mut served);
        if served.fault.is_some() {
            return served;
        }
    }
    unreachable!()
}

/// One take, and its line where it is the first or newer than the last.
fn step<P: Port, K: Sink, C: Pace>(tap: &mut Tap<P>, sink: &mut K, pace: &C, served: &mut Served)
    requires { served.old.fault ≡ None }
    ensures stepped { HasStepped K.Sink P.show tap.old tap.new sink.old sink.new served.old served.new }
    ensures looked { HasLooked tap.old.told tap.new.told }
{
    let mut slots = [0; UNIVERSE_SLOTS];
    let stamp = tap.take(&mut slots);
    served.takes = served.takes.saturating_add(1);
    put_newest(tap, &slots, stamp, sink, pace, served);
}

/// The line of what a tap keeps, where it is the first or newer than the last.
pub(crate) fn put_newest<P: Port, K: Sink, C: Pace>(
    tap: &Tap<P>,
    slots: &[u8; UNIVERSE_SLOTS],
    stamp: Stamp,
    sink: &mut K,
    pace: &C,
    served: &mut Served,
)
    requires none { served.old.fault ≡ None }
    requires version { IsFrame P.show (newest tap.now.told) tap.now.universe slots.now stamp }
    ensures { HasPutNewest K.Sink P.show tap.now sink.old sink.new served.old served.new }
{
    if !is_newer(stamp.count, served.last) {
        return;
    }
    match put_line(tap.universe(), slots, stamp, sink) {
        Ok(()) => {
            served.taken = served.taken.saturating_add(1);
            served.last = Some(stamp.count);
            pace.taken(tap.universe(), stamp.count);
        }
        Err(fault) => served.fault = Some(fault),
    }
}

/// Appends the line of a version, and has the sink hand on what it keeps back.
#[tactic(auto, using(lx_io::proofs::Chain::puts), unfolding(crate::specs::Lines::stamped_line))]
fn put_line<K: Sink>(
    universe: u8,
    slots: &[u8; UNIVERSE_SLOTS],
    stamp: Stamp,
    sink: &mut K,
) -> Result<(), SinkFault>
    ensures puts { Puts K.Sink sink.old sink.new result (stamped_line universe slots.now stamp) }
    ensures handed_on { OnOk result (K.back sink.new ≡ []) }
{
    put_frame(Some(stamp.count), stamp.moment, universe, slots, sink)?;
    sink.flush()
}

/// Whether there was no line yet, or the last was of fewer commands.
fn is_newer(count: u64, last: Option<u64>) -> bool
    ensures newer { IsTrue result → IfSome last (λ n. n < count) }
    ensures known { result ≡ false → IsSomeAnd last (λ n. count ≤ n) }
{
    match last {
        None => true,
        Some(n) => n < count,
    }
}
