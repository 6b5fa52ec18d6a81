//! A live run: the engine, and a worker for each outlet beside it.
ghost use Rattle.std.specs.Prelude.{◌≡◌, ◌+◌, ◌-◌, ◌<◌, ◌≤◌, ◌⊎◌, [], length, IsSome, IsSomeAnd, IfOk, IfSome, OnErr, vec_len};
ghost use Rattle.std.specs.Prelude.{vec_capacity, ℕ, Some, None, slice_get, slice_set, List};
ghost use Rattle.lx_workers.specs.Imports.{AllZip, CanAdvance, SameSource, bytes_taken, unread, opened, StandsFor, HasSessionCause};
ghost use Rattle.lx_workers.specs.Imports.{KeepsLimit, ByRefusals, HasStood, HandsOnReplies, Published, IsInStep, EachAt, IsNewTap, Rose, HasRunFrom};
ghost use Rattle.lx_workers.specs.Imports.{HasServed, HasEnded, IsFull, IsTaken, IsGiven, HasPlayedScript};
ghost use Rattle.lx_base.specs.declared.TheConstants.{INPUT_BYTES};
ghost use Rattle.lx_workers.specs.declared.playing.TheConstants.{OUTLETS};
ghost use Rattle.lx_io.specs.declared.sink.SinkFault.{SinkFault};

use crate::script::LiveEngine;
use crate::{Lane, Served, Stop};
use lx_base::UNIVERSES;
use lx_console::Console;
use lx_gate::{EmptyHistory, Gate, GatePort, GateWriter, Origin, Tap, Unsent, WriterHeap};
use lx_io::{Heap, Pace, Sink, SinkFault, Source, SystemHeap};
use lx_lex::Lines;
use lx_session::{SessionFault, Tally};
use lx_work::run_before;
use std::alloc::{AllocError, Global};
use std::marker::Brand;
use std::sync::Wait;
use std::thread::Threads;

/// The most outlets of a live run: one a universe.
pub const OUTLETS: usize = UNIVERSES as usize;

/// How a live run ended.
#[derive(Drop)]
pub struct LiveOutcome {
    /// How the session ended.
    pub session: Result<Tally, SessionFault>,
    /// The fault of the outlet of universe u, at place u - 1, where it had one.
    pub outlets: [Option<SinkFault>; OUTLETS],
    /// How many accepted commands, the last ones, weren't published, as the writer was out of memory.
    pub unsent: u64,
}

/// Plays the script lines that are left, up to `quit` or the end, over a console as it is at its opening: each is answered
/// on the output as in a session, and each accepted command is published at once. Beside it a worker for each outlet, of
/// universe 1 at place 0 and so on, writes the lines of newer and newer versions of its universe's frame. Each is that of commands
/// that are published by the end, and the last one of an outlet that had no fault is that of all of them. Each line is handed on at
/// once, and all replies are where the session ended Ok or a read failed. A fault of the input is told only where the output had none.
///
/// As long as fewer than 2^62 commands were accepted each command is admitted, so that `Memory` refuses only an edit that may take
/// memory and that the desk accepts. A fault of an outlet ends that outlet alone: it isn't written again. `AllocError` comes only before
/// the first line, and then nothing was read or written.
pub fn play<
    R: Threads + Wait + Sync,
    S: Source + Send,
    O: Sink + Send,
    K: Sink + Send + Drop,
    C: Pace + Sync,
>(
    rt: &R,
    alloc: Global,
    console: &mut Console,
    lines: &mut Lines<S>,
    output: &mut O,
    outlets: &mut [Option<K>],
    pace: &C,
) -> Result<LiveOutcome, AllocError>
    requires opened { StandsFor (opened console.old.show) console.old }
    requires going { CanAdvance lines.old }
    requires within { bytes_taken lines.old ≤ INPUT_BYTES }
    requires some { 1 ≤ length outlets.old }
    requires most { length outlets.old ≤ OUTLETS }
    requires full { IsFull outlets.old }
    ensures err { OnErr result ((console.new ≡ console.old)
        × ((lines.new ≡ lines.old) × ((output.new ≡ output.old) × (outlets.new ≡ outlets.old)))) }
    ensures same_source { SameSource lines.old lines.new }
    ensures played { IfOk result (λ p. HasPlayedScript None S.Source O.Sink K.Sink console.old.show lines.old lines.new output.old
        output.new outlets.old outlets.new console.new p.session p.outlets p.unsent) }
    ensures limit { IfOk result (λ p. IfSome (unread S.Source lines.old) (λ bytes. KeepsLimit (bytes_taken lines.old) bytes p.session)) }
    ensures cause { IfOk result (λ p. HasSessionCause S.Source O.Sink lines.old lines.new output.old output.new p.session) }
    ensures handed_on { IfOk result (λ p. HandsOnReplies p.session (O.back output.new)) }
{
    let mut heap = SystemHeap::new(alloc);
    let mut writers = WriterHeap::new(alloc);
    play_in(
        rt,
        &mut heap,
        &mut writers,
        console,
        lines,
        output,
        outlets,
        pace,
    )
}

/// As `play`, by a heap for the session and what the run keeps, and one for the gate's writer. `AllocError` comes only where one of the two
/// refused. As long as each command was admitted, at most as many lines as the heap refused calls in this call failed as out of memory; and
/// where the writer's heap refused nothing, all accepted commands were published.
pub fn play_in<
    R: Threads + Wait + Sync,
    H: Heap + Send,
    S: Source + Send,
    O: Sink + Send,
    K: Sink + Send + Drop,
    C: Pace + Sync,
>(
    rt: &R,
    heap: &mut H,
    writers: &mut WriterHeap,
    console: &mut Console,
    lines: &mut Lines<S>,
    output: &mut O,
    outlets: &mut [Option<K>],
    pace: &C,
) -> Result<LiveOutcome, AllocError>
    requires opened { StandsFor (opened console.old.show) console.old }
    requires going { CanAdvance lines.old }
    requires within { bytes_taken lines.old ≤ INPUT_BYTES }
    requires some { 1 ≤ length outlets.old }
    requires most { length outlets.old ≤ OUTLETS }
    requires full { IsFull outlets.old }
    ensures err { OnErr result ((console.new ≡ console.old)
        × ((lines.new ≡ lines.old) × ((output.new ≡ output.old) × (outlets.new ≡ outlets.old)))) }
    ensures memory { OnErr result (Rose (H.refusals heap.old) (H.refusals heap.new) ⊎ Rose writers.old writers.new) }
    ensures same_source { SameSource lines.old lines.new }
    ensures played { ByRefusals (H.refusals heap.old) (H.refusals heap.new) (λ most.
        IfOk result (λ p. HasPlayedScript most S.Source O.Sink K.Sink console.old.show lines.old lines.new output.old
        output.new outlets.old outlets.new console.new p.session p.outlets p.unsent)) }
    ensures sent { HasStood writers.old writers.new → IfOk result (λ p. p.unsent ≡ 0) }
    ensures limit { IfOk result (λ p. IfSome (unread S.Source lines.old) (λ bytes. KeepsLimit (bytes_taken lines.old) bytes p.session)) }
    ensures cause { IfOk result (λ p. HasSessionCause S.Source O.Sink lines.old lines.new output.old output.new p.session) }
    ensures handed_on { IfOk result (λ p. HandsOnReplies p.session (O.back output.new)) }
    ensures later { H.refusals heap.old ≤ H.refusals heap.new }
    ensures writers_later { writers.old ≤ writers.new }
{
    play_over::<Brand, R, H, S, O, K, C>(
        rt,
        heap,
        writers,
        console,
        lines,
        output,
        outlets,
        pace,
        EmptyHistory::new(),
    )
}

/// Plays the lines over a gate with this history.
fn play_over<
    G: Origin + Send + Sync,
    R: Threads + Wait + Sync,
    H: Heap + Send,
    S: Source + Send,
    O: Sink + Send,
    K: Sink + Send + Drop,
    C: Pace + Sync,
>(
    rt: &R,
    heap: &mut H,
    writers: &mut WriterHeap,
    console: &mut Console,
    lines: &mut Lines<S>,
    output: &mut O,
    outlets: &mut [Option<K>],
    pace: &C,
    history: EmptyHistory,
) -> Result<LiveOutcome, AllocError>
    requires show { console.old.show ≡ G.show }
    requires opened { StandsFor (opened G.show) console.old }
    requires book { history.seen.book ≡ G.book }
    requires going { CanAdvance lines.old }
    requires within { bytes_taken lines.old ≤ INPUT_BYTES }
    requires some { 1 ≤ length outlets.old }
    requires most { length outlets.old ≤ OUTLETS }
    requires full { IsFull outlets.old }
    ensures err { OnErr result ((console.new ≡ console.old)
        × ((lines.new ≡ lines.old) × ((output.new ≡ output.old) × (outlets.new ≡ outlets.old)))) }
    ensures memory { OnErr result (Rose (H.refusals heap.old) (H.refusals heap.new) ⊎ Rose writers.old writers.new) }
    ensures same_source { SameSource lines.old lines.new }
    ensures played { ByRefusals (H.refusals heap.old) (H.refusals heap.new) (λ most.
        IfOk result (λ p. HasPlayedScript most S.Source O.Sink K.Sink G.show lines.old lines.new output.old
        output.new outlets.old outlets.new console.new p.session p.outlets p.unsent)) }
    ensures sent { HasStood writers.old writers.new → IfOk result (λ p. p.unsent ≡ 0) }
    ensures limit { IfOk result (λ p. IfSome (unread S.Source lines.old) (λ bytes. KeepsLimit (bytes_taken lines.old) bytes p.session)) }
    ensures cause { IfOk result (λ p. HasSessionCause S.Source O.Sink lines.old lines.new output.old output.new p.session) }
    ensures handed_on { IfOk result (λ p. HandsOnReplies p.session (O.back output.new)) }
    ensures later { H.refusals heap.old ≤ H.refusals heap.new }
    ensures writers_later { writers.old ≤ writers.new }
{
    let stop = Stop::new(outlets.len() as u64);
    let lanes = heap.room(outlets.len())?;
    let (gate, taps) = Gate::<G, GateWriter<G>>::open_in(
        heap,
        writers,
        console.show(),
        outlets.len() as u8,
        history,
    )?;
    let lanes = fill_lanes(&stop, pace, taps, outlets, lanes);
    let mut gate = Some(gate);
    let mut unsent = Unsent::new();
    let (lanes, session) = perform(
        rt,
        heap,
        writers,
        console,
        lines,
        output,
        &mut gate,
        &mut unsent,
        &stop,
        pace,
        lanes,
    );
    let Some(gate) = gate else { unreachable!() };
    let faults = give_back(rt, &gate, lanes, outlets);
    gate.close(rt);
    Ok(LiveOutcome {
        session,
        outlets: faults,
        unsent: unsent.len(),
    })
}

/// Runs the engine and the workers at the same time.
fn perform<
    'a,
    G: Origin + Send + Sync,
    R: Threads + Wait + Sync,
    H: Heap + Send,
    S: Source + Send,
    O: Sink + Send,
    K: Sink + Send + Drop,
    C: Pace + Sync,
>(
    rt: &R,
    heap: &mut H,
    writers: &mut WriterHeap,
    console: &mut Console,
    lines: &mut Lines<S>,
    output: &mut O,
    gate: &mut Option<Gate<G, GateWriter<G>>>,
    unsent: &mut Unsent,
    stop: &Stop,
    pace: &C,
    mut lanes: Vec<Lane<'a, GatePort<G>, K, C>>,
) -> (
    Vec<Lane<'a, GatePort<G>, K, C>>,
    Result<Tally, SessionFault>,
)
    requires in_step { IsSomeAnd gate.old (λ held. IsInStep G.show held [] console.old) }
    requires going { CanAdvance lines.old }
    requires within { bytes_taken lines.old ≤ INPUT_BYTES }
    ensures engine { HasRunFrom S.Source O.Sink G.show (H.refusals heap.old) writers.old gate.old console.old lines.old output.old
        (H.refusals heap.new) writers.new gate.new unsent.new console.new lines.new output.new result.1 }
    ensures count { vec_len result.0 ≡ vec_len lanes.entry }
    ensures lanes { AllZip (λ x y. HasServed K.Sink G.show x.tap y.tap x.sink y.sink y.served × HasEnded x.tap.told y.tap.told y.served)
        lanes.entry.items result.0.items }
{
    let mut engine = LiveEngine {
        heap: &mut *heap,
        writers: &mut *writers,
        console: &mut *console,
        lines: &mut *lines,
        output: &mut *output,
        gate: &mut *gate,
        unsent: &mut *unsent,
        stop,
        pace,
        session: Ok(Tally::new()),
    };
    run_before(rt, &mut engine, lanes.as_mut_slice());
    let session = engine.session;
    (lanes, session)
}

/// Moves each sink out of its place into a lane, beside its tap, from the last place on.
fn fill_lanes<'a, G: Origin, K: Sink + Drop, C: Pace>(
    stop: &'a Stop,
    pace: &'a C,
    mut taps: Vec<Tap<GatePort<G>>>,
    outlets: &mut [Option<K>],
    mut lanes: Vec<Lane<'a, GatePort<G>, K, C>>,
) -> Vec<Lane<'a, GatePort<G>, K, C>>
    requires full { (place : ℕ) → place < length outlets.old → IsSomeAnd (slice_get outlets.old place) IsSome }
    requires most { length outlets.old ≤ OUTLETS }
    requires taps { EachAt IsNewTap taps.items }
    requires count { vec_len taps ≡ length outlets.old }
    requires none { lanes.items ≡ [] }
    requires len { vec_len lanes ≡ 0 }
    requires room { length outlets.old ≤ vec_capacity lanes }
    ensures same { length outlets.new ≡ length outlets.old }
    ensures count { vec_len result ≡ length outlets.old }
    ensures lanes { EachAt (λ k x. IsTaken outlets.old (length outlets.old) k x.tap x.sink) result.items }
{
    while let Some(tap) = taps.pop() {
        let sink = take_sink(outlets, taps.len());
        lanes.push_reserved(Lane {
            tap,
            sink,
            served: Served::none(),
            stop,
            pace,
        });
    }
    lanes
}

/// Each lane learns what is published and writes its line, and its sink goes back to its place.
fn give_back<G: Origin, R: Wait, K: Sink + Drop, C: Pace>(
    rt: &R,
    gate: &Gate<G, GateWriter<G>>,
    mut lanes: Vec<Lane<'_, GatePort<G>, K, C>>,
    outlets: &mut [Option<K>],
) -> [Option<SinkFault>; OUTLETS]
    requires count { vec_len lanes ≡ length outlets.old }
    requires most { length outlets.old ≤ OUTLETS }
    ensures same { length outlets.new ≡ length outlets.old }
    ensures back { EachAt (λ k x. IsGiven K.Sink G.show outlets.new result gate.now.published
        (length outlets.old - 1 - k) x.tap x.sink x.served) lanes.entry.items }
    ensures others { (place : ℕ) (fault : SinkFault) → slice_get result place ≡ Some (Some fault) → place < length outlets.old }
{
    let count = outlets.len();
    let mut faults = [None; OUTLETS];
    while let Some(mut lane) = lanes.pop() {
        lane.finish(rt, gate.note());
        let Lane {
            tap: _tap,
            sink,
            served,
            stop: _,
            pace: _,
        } = lane;
        let place = count - 1 - lanes.len();
        put_sink(outlets, place, sink);
        faults[place] = served.fault;
    }
    faults
}

/// The sink of a place, which is then empty.
fn take_sink<K>(outlets: &mut [Option<K>], place: usize) -> K
    requires within { place < length outlets.old }
    requires full { IsSomeAnd (slice_get outlets.old place) IsSome }
    ensures sink { slice_get outlets.old place ≡ Some (Some result) }
    ensures after { outlets.new ≡ slice_set outlets.old place None }
{
    match outlets[place].take() {
        Some(sink) => sink,
        None => unreachable!(),
    }
}

/// Puts a sink into a place.
fn put_sink<K: Drop>(outlets: &mut [Option<K>], place: usize, sink: K)
    requires within { place < length outlets.old }
    ensures after { outlets.new ≡ slice_set outlets.old place (Some sink) }
{
    outlets[place] = Some(sink);
}
