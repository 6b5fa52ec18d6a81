//! Where the memory of a crew's queue comes from.

ghost use Rattle.std.specs.Prelude.{◌≡◌, [], IfOk};
ghost use Rattle.crossbeam_queue.specs.Passes.{view, IsPassOf};
ghost use Rattle.lx_io.specs.Causes.{HasCause};
ghost use Rattle.lx_crew.specs.Rule.{engine_view};

use crate::entry::Message;
use crate::rule::{Queue, View};
use crossbeam_queue::Pass;
use crossbeam_utils::sync::{Parker, Unparker};
use std::alloc::{AllocError, Global};
use std::marker::Model;

/// How many entries the queue has room for.
const QUEUE_PLACES: usize = 64;

/// The memory that a crew's queue takes, and what its engine waits by. Both ask the allocator themselves, so what they are refused is
/// counted here. Contracts see the count of refusals. It never falls, and stops at 18,446,744,073,709,551,615.
#[derive(Drop)]
pub struct QueueHeap {
    alloc: Global,
    refusals: u64,
}

impl Model for QueueHeap {
    ghost use Rattle.std.specs.Prelude.{ℕ};

    ghost Value = { ℕ };

    ghost view = { λ heap. heap.refusals };
}

impl QueueHeap {
    /// The memory of this allocator. It has refused nothing yet.
    pub fn new(alloc: Global) -> QueueHeap
        ensures { result ≡ 0 }
    {
        QueueHeap { alloc, refusals: 0 }
    }

    /// How often memory was refused.
    pub fn refusals(&self) -> u64
        ensures { result ≡ self.now }
    {
        self.refusals
    }

    /// What an engine waits by and what wakes it, a queue without entries, and the engine's pass of it. An error comes where memory is
    /// refused.
    pub(crate) fn open(
        &mut self,
    ) -> Result<(Parker, Unparker, Queue, Pass<Message, View>), AllocError>
        ensures made { IfOk result (λ made. IsPassOf made.2 made.3 × (view made.3 ≡ engine_view 0 [] [])) }
        ensures cause { HasCause self.old self.new result }
    {
        let made = made(self.alloc);
        self.count(&made);
        made
    }

    /// Counts a refusal, if this is one.
    fn count<T>(&mut self, asked: &Result<T, AllocError>)
        ensures cause { HasCause self.old self.new asked.now }
    {
        if asked.is_err() {
            self.refusals = self.refusals.saturating_add(1);
        }
    }
}

/// As `open`, where nothing counts a refusal.
fn made(alloc: Global) -> Result<(Parker, Unparker, Queue, Pass<Message, View>), AllocError>
    ensures { IfOk result (λ made. IsPassOf made.2 made.3 × (view made.3 ≡ engine_view 0 [] [])) }
{
    let parker = Parker::new(alloc)?;
    let waker = parker.unparker().clone()?;
    let (queue, pass) = Queue::ruled(alloc, QUEUE_PLACES)?;
    Ok((parker, waker, queue, pass))
}
