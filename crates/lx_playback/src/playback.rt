//! The playback's state: the moment, the base, the live runs and the pending follow.

ghost use Rattle.std.specs.Prelude.{◌≡◌, ℕ, ◌+◌, ◌-◌, ◌/◌, ◌<◌, ◌≤◌, ◌==◌, [], ◌∷◌, None, min, not, reverse, length, nat_le, IfOk, IsTrue};
ghost use Rattle.std.specs.Prelude.{IsFalse};
ghost use Rattle.std.specs.List.{All, list_all};
ghost use Rattle.lx_io.specs.Causes.{HasCause};
ghost use Rattle.lx_spec.specs.Run.{extent};
ghost use Rattle.lx_spec.specs.Playback.{at_opening, position_of, has_room, is_over, is_due, at_rest};
ghost use Rattle.lx_playback.specs.QuietTicks.{moments_later, TicksPass, IsStillAt};
ghost use Rattle.lx_playback.specs.Valid.{OldestFirst, ValidPlayback, ValidRun};
ghost use Rattle.lx_base.specs.declared.TheConstants.{TICK_END, TICK_STEP};

use crate::run::Run;
use lx_base::{CueNo, Moment, RUNS, TICK_END, TICK_STEP};
use lx_io::{Heap, SystemHeap};
use std::alloc::{AllocError, Global};
use std::marker::Model;

/// The playback of a show: runs are live from their start until all of them are over, and then
/// the position becomes the base. Moments are hundredths of a second since the opening, and a tick
/// is 2 of them.
#[derive(Drop)]
pub struct Playback {
    moment: Moment,
    base: CueNo,
    live: Vec<Run>,
    pending: Option<Moment>,
    /// From this moment on every live run is over.
    over_at: Moment,
}

impl Model for Playback {
    ghost use Rattle.std.specs.Prelude.{reverse, vec_capacity};
    ghost use Rattle.lx_spec.specs.Playback.{Playback as PlaybackData};
    ghost use Rattle.lx_playback.specs.Valid.{IsStoredPlayback};

    ghost Value = { PlaybackData };

    ghost view = { λ p. record { moment = p.moment; base = p.base; live = reverse p.live.items; pending = p.pending } };

    ghost invariant = { λ p. IsStoredPlayback (record { moment = p.moment; base = p.base; live = reverse p.live.items; pending = p.pending })
        (vec_capacity p.live) p.over_at };
}

impl Playback {
    /// The playback at the opening: moment 0, no cue, nothing live and no follow pending. Takes
    /// all the memory that it will need; an error comes only where that is refused.
    pub fn open(alloc: Global) -> Result<Playback, AllocError>
        ensures { IfOk result (λ playback. playback ≡ at_opening) }
    {
        Playback::open_in(&mut SystemHeap::new(alloc))
    }

    /// The same, by a heap. An error comes where the heap refuses memory.
    pub fn open_in<H: Heap>(heap: &mut H) -> Result<Playback, AllocError>
        ensures playback { IfOk result (λ playback. playback ≡ at_opening) }
        ensures cause { HasCause (H.refusals heap.old) (H.refusals heap.new) result }
    {
        Ok(Playback {
            moment: 0,
            base: before_first(),
            live: heap.room(RUNS)?,
            pending: None,
            over_at: 0,
        })
    }

    /// The present moment, an even number of at most `TICK_END`.
    pub fn moment(&self) -> Moment
        ensures moment { result ≡ self.now.moment }
        ensures valid { ValidPlayback self.now }
    {
        self.moment
    }

    /// The cue of the newest live run, or the base where none is live; 0 is before the first cue.
    pub fn position(&self) -> CueNo
        ensures { result ≡ position_of self.now }
    {
        match self.live.last() {
            Some(run) => run.cue,
            None => self.base,
        }
    }

    /// The position at the last rest or settle, 0 if there was none.
    pub fn base(&self) -> CueNo
        ensures { result ≡ self.now.base }
    {
        self.base
    }

    /// The live runs, at most 512, the newest last: none started before one that stands before it.
    pub fn live(&self) -> &[Run]
        ensures live { reverse result.now ≡ self.now.live }
        ensures each { All (ValidRun self.now.moment) result.now }
        ensures order { OldestFirst result.now }
        ensures valid { ValidPlayback self.now }
    {
        self.live.as_slice()
    }

    /// The moment at which the pending follow is due, if one is pending.
    pub fn pending(&self) -> Option<Moment>
        ensures { result ≡ self.now.pending }
    {
        self.pending
    }

    /// The moment from which on every live run is over; 0 where none is live.
    pub fn over_at(&self) -> Moment
        ensures { (m : ℕ) → list_all (λ run. nat_le (run.start + extent run) m) self.now.live ≡ nat_le result m }
    {
        self.over_at
    }

    /// One more run may be live.
    pub(crate) fn has_room(&self) -> bool
        ensures { result ≡ has_room self.now }
    {
        self.live.len() < RUNS
    }

    /// The pending follow is due.
    pub(crate) fn is_due(&self) -> bool
        ensures { result ≡ is_due self.now }
    {
        match self.pending {
            Some(m) => m <= self.moment,
            None => false,
        }
    }

    /// Some run is live, every live run is over, and no follow is pending.
    pub(crate) fn is_over(&self) -> bool
        ensures { result ≡ is_over self.now }
    {
        !self.live.is_empty() && self.pending.is_none() && self.over_at <= self.moment
    }

    /// Appends a run that starts now to the live ones, and sets the pending follow.
    pub(crate) fn append(&mut self, run: Run, pending: Option<Moment>)
        requires room { length self.old.live < RUNS }
        requires run { ValidRun self.old.moment run }
        requires now { run.start ≡ self.old.moment }
        ensures { self.new ≡ record self.old { live = run ∷ self.old.live; pending = pending } }
    {
        self.over_at = self.over_at.max(run.start + run.extent());
        match self.live.push(run) {
            Ok(()) => {}
            Err(_) => unreachable!(),
        }
        self.pending = pending;
    }

    /// No follow is pending any more.
    pub(crate) fn clear_pending(&mut self)
        ensures { self.new ≡ record self.old { pending = None } }
    {
        self.pending = None;
    }

    /// The position becomes the base, and no run is live.
    pub(crate) fn come_to_rest(&mut self)
        ensures { self.new ≡ at_rest self.old }
    {
        self.base = self.position();
        self.live.clear();
        self.over_at = 0;
    }

    /// The moment grows by a tick, unless it is the last one.
    pub(crate) fn grow(&mut self) -> bool
        ensures last { result ≡ not (self.old.moment == TICK_END) }
        ensures grown { IsTrue result → self.new ≡ record self.old { moment = self.old.moment + TICK_STEP } }
        ensures same { IsFalse result → self.new ≡ self.old }
    {
        if self.moment == TICK_END {
            return false;
        }
        self.moment += TICK_STEP;
        true
    }

    /// Lets ticks pass that change nothing but the moment: no follow is due at them, and the playback doesn't
    /// come to rest. It answers how many there were, at most this many; at rest all up to the last moment.
    pub fn pass(&mut self, most: u32) -> u32
        ensures most { result ≤ most }
        ensures state { self.new ≡ moments_later self.old result }
        ensures ticks { TicksPass self.old result }
        ensures rest { self.old.live ≡ [] → self.old.pending ≡ None
            → result ≡ min most ((TICK_END - self.old.moment) / TICK_STEP) }
    {
        let left = self.still_until().saturating_sub(self.moment) / TICK_STEP;
        let ticks = most.min(left);
        self.moment += ticks * TICK_STEP;
        ticks
    }

    /// A moment up to which, after the present one, no follow is due and the playback doesn't come to rest.
    fn still_until(&self) -> Moment
        ensures end { result ≤ TICK_END }
        ensures still { (m : ℕ) → self.now.moment < m → m ≤ result → IsStillAt self.now m }
        ensures rest { self.now.live ≡ [] → self.now.pending ≡ None → result ≡ TICK_END }
    {
        match self.pending {
            Some(due) => before(due),
            None if self.live.is_empty() => TICK_END,
            None => before(self.over_at),
        }
    }
}

/// The moment before this one, or the last moment if that is before it.
fn before(moment: Moment) -> Moment
    ensures { result ≡ min (moment - 1) TICK_END }
{
    moment.saturating_sub(1).min(TICK_END)
}

/// The cue number before the first cue.
fn before_first() -> CueNo
    ensures { result ≡ 0 }
{
    match CueNo::new(0) {
        Some(n) => n,
        None => unreachable!(),
    }
}
