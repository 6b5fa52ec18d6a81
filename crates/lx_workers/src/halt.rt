//! The stop of a live run, which is set once, and the news of it; each worker sees both.
ghost use Rattle.std.specs.Prelude.{◌≡◌, Bool, ℕ, true, false};

use std::sync::Wait;
use std::sync::atomic::Ordering::SeqCst;
use std::sync::atomic::{AtomicBool, AtomicU64};
use std::time::Duration;

/// The milliseconds after which a worker that rests looks again by itself.
const REST: u64 = 20;

/// What a worker asks whether to end.
pub trait Halt {
    /// Whether it knows the stop.
    ghost known: { Self → Bool };

    /// How often the worker had taken when it asked last.
    ghost asked: { Self → ℕ };

    /// Whether the worker, which has taken so often, is to end. Once it is, it stays so.
    fn is_set(&mut self, takes: u64) -> bool
        ensures answer { result ≡ known self.new }
        ensures asked { asked self.new ≡ takes }
        ensures stays { known self.old ≡ true → known self.new ≡ true };

    /// Whether there may be something new to take since it was asked last. It is a hint, of which nothing is claimed.
    fn has_news(&mut self) -> bool
        ensures known { known self.new ≡ known self.old }
        ensures asked { asked self.new ≡ asked self.old };

    /// Waits until there may be news, or a while has gone by. Of it too nothing is claimed.
    fn rest<R: Wait>(&self, rt: &R);
}

/// A word that is set once, and how often there was news, on which workers rest.
///
/// A worker rests only while the count is the one that it has seen, so no news come unheard between its look and its rest. Who
/// tells of news wakes one worker, and each that hears of them two more, so that the engine isn't held up by the number of workers.
#[derive(Drop)]
pub struct Stop {
    word: AtomicBool,
    news: AtomicU64,
    /// How often one was to be woken since the newest news.
    calls: AtomicU64,
    /// How many workers there are.
    workers: u64,
}

impl Stop {
    /// A stop that isn't set, for this many workers.
    pub fn new(workers: u64) -> Stop {
        Stop {
            word: AtomicBool::new(false),
            news: AtomicU64::new(1),
            calls: AtomicU64::new(workers),
            workers,
        }
    }

    /// Sets the stop for all that watch it, and wakes them.
    pub fn set(&self) {
        self.word.store(true, SeqCst);
        self.news.fetch_add(1, SeqCst);
        self.news.wake_all();
    }

    /// Tells all that watch it that something was published.
    pub fn tell_news(&self) {
        self.calls.store(0, SeqCst);
        self.news.fetch_add(1, SeqCst);
        self.wake_one();
    }

    /// Wakes a worker that rests, the one that has rested longest, unless all were called since the newest news.
    fn wake_one(&self) {
        if self.calls.fetch_add(1, SeqCst) < self.workers {
            self.news.wake_one();
        }
    }

    /// A view of the stop for one worker, which knows nothing yet, and to which all is news.
    pub fn watch(&self) -> Watch<'_>
        ensures { result.known ≡ false }
    {
        Watch {
            stop: self,
            known: false,
            asked: 0,
            heard: 0,
        }
    }
}

/// One worker's view of a stop.
#[derive(Drop)]
pub struct Watch<'a> {
    stop: &'a Stop,
    pub known: bool,
    asked: u64,
    heard: u64,
}

impl Halt for Watch<'_> {
    ghost known = { λ w. w.known };

    ghost asked = { λ w. w.asked };

    fn is_set(&mut self, takes: u64) -> bool {
        self.asked = takes;
        if !self.known {
            self.known = self.stop.word.load(SeqCst);
        }
        self.known
    }

    fn has_news(&mut self) -> bool {
        let news = self.stop.news.load(SeqCst);
        let is_new = news != self.heard;
        self.heard = news;
        if is_new {
            self.stop.wake_one();
            self.stop.wake_one();
        }
        is_new
    }

    fn rest<R: Wait>(&self, rt: &R) {
        let seen = (self.heard & 0xFFFF_FFFF) as u32;
        self.stop
            .news
            .park_timeout(rt, seen, Duration::from_millis(REST));
    }
}
