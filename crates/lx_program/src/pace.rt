//! The pace of the program's live runs: beats of 20 milliseconds by the machine's steady clock.

use lx_io::Pace;
use std::rt::Clock;
use std::sync::atomic::AtomicU64;
use std::sync::atomic::Ordering::SeqCst;
use std::time::Duration;
use std::{io, thread};

/// Nanoseconds of a beat.
const BEAT: u64 = 20_000_000;

/// Nanoseconds between two beats after which the pace starts again.
const LONG_PAUSE: u64 = 1_000_000_000;

/// The pace of the desk's clock. The n-th beat ends n times 20 milliseconds after the start, by the machine's steady clock, or at
/// once where that is past: so beats don't drift, and an engine that is late catches up. Where more than a second went by since
/// the last beat ended, the pace starts again.
#[derive(Drop)]
pub struct DeskPace<'r, R> {
    rt: &'r R,
    /// When the last beat was due to end, in nanoseconds of the clock. The engine alone beats.
    due: AtomicU64,
    /// When it did end, or 0 before the first.
    ended: AtomicU64,
}

impl<'r, R: Clock> DeskPace<'r, R> {
    pub fn new(rt: &'r R) -> DeskPace<'r, R> {
        DeskPace {
            rt,
            due: AtomicU64::new(0),
            ended: AtomicU64::new(0),
        }
    }

    /// What the clock reads, in nanoseconds.
    fn now(&self) -> io::Result<u64> {
        let read = self.rt.monotonic()?;
        let seconds = read.as_secs().saturating_mul(1_000_000_000);
        Ok(seconds.saturating_add(read.subsec_nanos() as u64))
    }

    /// Sleeps until the next beat is due.
    fn keep_time(&self) -> io::Result<()> {
        let now = self.now()?;
        let due = next_due(self.due.load(SeqCst), self.ended.load(SeqCst), now);
        if now < due {
            thread::sleep(self.rt, Duration::from_nanos(due - now));
        }
        self.due.store(due, SeqCst);
        self.ended.store(self.now()?, SeqCst);
        Ok(())
    }
}

/// When a beat that begins now is due to end: a beat after the last one was, or after now where the pace starts again.
fn next_due(last_due: u64, last_ended: u64, now: u64) -> u64 {
    let starts = last_ended == 0 || now.saturating_sub(last_ended) > LONG_PAUSE;
    let from = if starts { now } else { last_due };
    from.saturating_add(BEAT)
}

impl<R: Clock> Pace for DeskPace<'_, R> {
    fn beat(&self) {
        if self.keep_time().is_err() {
            thread::sleep(self.rt, Duration::from_nanos(BEAT));
        }
    }

    fn taken(&self, _universe: u8, _count: u64) {}
}
