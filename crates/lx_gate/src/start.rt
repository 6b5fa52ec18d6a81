//! The start of a gate.
ghost use Rattle.std.specs.Prelude.{◌≡◌, ◌+◌, ◌≤◌, ◌⊎◌, [], replicate, IfOk, OnErr, vec_len, vec_capacity};
ghost use Rattle.lx_io.specs.Causes.{Rose};
ghost use Rattle.lx_spec.specs.Show.{Valid};
ghost use Rattle.lx_gate.specs.Gates.{Published};
ghost use Rattle.lx_base.specs.Places.{EachAt};
ghost use Rattle.lx_gate.specs.Readings.{IsNewTap};
ghost use Rattle.lx_base.specs.declared.TheConstants.{SLOTS, UNIVERSES};

use crate::{
    EmptyHistory, Gate, GatePort, GateWriter, LrPort, Origin, Prefix, Tap, Version, WriterHeap,
};
use lx_base::SLOTS;
use lx_io::{Heap, SystemHeap};
use lx_show::Show;
use std::alloc::{AllocError, Global};

impl<G: Origin> Gate<G, GateWriter<G>> {
    /// A gate over a show that has published nothing, and a tap for each universe, at place u - 1 that of universe u, which has
    /// taken and learnt nothing. An error means out of memory.
    pub fn open(
        alloc: Global,
        show: &Show,
        universes: u8,
        history: EmptyHistory,
    ) -> Result<(Gate<G, GateWriter<G>>, Vec<Tap<GatePort<G>>>), AllocError>
        requires low { 1 ≤ universes }
        requires high { universes ≤ UNIVERSES }
        requires show { show.now ≡ G.show }
        requires book { history.seen.book ≡ G.book }
        ensures gate { IfOk result (λ r. r.0 ≡ record { published = []; entered = [] }) }
        ensures universes { IfOk result (λ r. vec_len r.1 ≡ universes) }
        ensures taps { IfOk result (λ r. EachAt IsNewTap r.1.items) }
    {
        let mut heap = SystemHeap::new(alloc);
        let mut writers = WriterHeap::new(alloc);
        Gate::open_in(&mut heap, &mut writers, show, universes, history)
    }

    /// As `open`, by a heap for the taps and one for the gate's writer. An error comes only where one of the two refused.
    pub fn open_in<H: Heap>(
        heap: &mut H,
        writers: &mut WriterHeap,
        show: &Show,
        universes: u8,
        history: EmptyHistory,
    ) -> Result<(Gate<G, GateWriter<G>>, Vec<Tap<GatePort<G>>>), AllocError>
        requires low { 1 ≤ universes }
        requires high { universes ≤ UNIVERSES }
        requires show { show.now ≡ G.show }
        requires book { history.seen.book ≡ G.book }
        ensures gate { IfOk result (λ r. r.0 ≡ record { published = []; entered = [] }) }
        ensures universes { IfOk result (λ r. vec_len r.1 ≡ universes) }
        ensures taps { IfOk result (λ r. EachAt IsNewTap r.1.items) }
        ensures cause { OnErr result (Rose (H.refusals heap.old) (H.refusals heap.new) ⊎ Rose writers.old writers.new) }
        ensures later { H.refusals heap.old ≤ H.refusals heap.new }
        ensures writers_later { writers.old ≤ writers.new }
    {
        let _channels = show.channels();
        let (history, none) = history.named::<G>();
        let mut taps = heap.room(universes as usize)?;
        let writer = writers.writer(
            first_version(none.again()),
            first_version(none.again()),
            universes as usize,
        )?;
        fill(&writer, &none, &mut taps, universes);
        let gate = Gate {
            writer: Some(writer),
            history,
            entered: none.again(),
            published: none,
        };
        Ok((gate, taps))
    }
}

/// The version of the empty list.
fn first_version<G: Origin>(list: Prefix<G>) -> Version<G>
    ensures { result ≡ record { slots = replicate SLOTS 0; list = list; count = 0; moment = 0 } }
{
    Version {
        slots: [0; SLOTS],
        list,
        count: 0,
        moment: 0,
    }
}

/// Makes the taps. A tap for which no reader can be had reads nothing.
fn fill<G: Origin>(
    writer: &GateWriter<G>,
    none: &Prefix<G>,
    taps: &mut Vec<Tap<GatePort<G>>>,
    universes: u8,
)
    requires high { universes ≤ UNIVERSES }
    requires valid { Valid G.show }
    requires none { none.now ≡ [] }
    requires empty { taps.old.items ≡ [] }
    requires len { vec_len taps.old ≡ 0 }
    requires room { universes ≤ vec_capacity taps.old }
    ensures universes { vec_len taps.new ≡ universes }
    ensures taps { EachAt IsNewTap taps.new.items }
{
    for place in 0..universes {
        let reader = writer.factory().reader().ok();
        let port = LrPort::new(reader, none.again(), none.again());
        taps.push_reserved(Tap::new(port, place + 1));
    }
}
