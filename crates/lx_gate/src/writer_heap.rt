//! Where the memory of a gate's writer comes from.
ghost use Rattle.std.specs.Prelude.{◌≡◌, ◌≤◌, ◌<◌, ◌^◌, [], ◌∷◌, ◌++◌, IfOk, MatchResult, drop};
ghost use Rattle.lx_io.specs.Causes.{HasCause, one_more};
ghost use Rattle.lx_gate.specs.Frames.{IsVersion};

use crate::{Commit, GateWriter, Origin, Version};
use left_right::writer::Writer;
use std::alloc::{AllocError, Global};
use std::marker::Model;

/// The memory that a gate's writer takes: for its two copies and its readers' places, and for the commits that it holds until both copies
/// have them. The writer asks the allocator itself, so what it is refused is counted here. Contracts see the count of refusals. It never
/// falls, and stops at 18,446,744,073,709,551,615.
#[derive(Drop)]
pub struct WriterHeap {
    alloc: Global,
    refusals: u64,
}

impl Model for WriterHeap {
    ghost use Rattle.std.specs.Prelude.{ℕ};

    ghost Value = { ℕ };

    ghost view = { λ heap. heap.refusals };
}

impl WriterHeap {
    /// The memory of this allocator. It has refused nothing yet.
    pub fn new(alloc: Global) -> WriterHeap
        ensures { result ≡ 0 }
    {
        WriterHeap { alloc, refusals: 0 }
    }

    /// How often memory was refused.
    pub fn refusals(&self) -> u64
        ensures { result ≡ self.now }
    {
        self.refusals
    }

    /// Memory was refused.
    fn refuse(&mut self)
        ensures counted { self.new ≡ one_more self.old }
        ensures later { self.old ≤ self.new }
    {
        self.refusals = self.refusals.saturating_add(1);
    }

    /// A writer whose two copies are these versions, which are the same, with places for so many readers. An error comes where memory
    /// was refused.
    pub(crate) fn writer<G: Origin>(
        &mut self,
        first: Version<G>,
        second: Version<G>,
        readers: usize,
    ) -> Result<GateWriter<G>, AllocError>
        requires readers { (0 < readers) × (readers < 2 ^ 32) }
        requires alike { second ≡ first }
        requires version { IsVersion G.show first.list first.slots first.count first.moment }
        ensures writer { IfOk result (λ w. (w.desk.shown.value ≡ first) × (drop w.behind w.log.items ≡ [])) }
        ensures cause { HasCause self.old self.new result }
    {
        let made = Writer::new(self.alloc, first, second, readers);
        if made.is_err() {
            self.refuse();
        }
        made
    }

    /// Gives the writer a commit, which waits to be published. An error comes where memory was refused, and then it doesn't wait.
    pub(crate) fn append<G: Origin>(
        &mut self,
        writer: GateWriter<G>,
        commit: Commit<G>,
    ) -> (GateWriter<G>, Result<(), AllocError>)
        ensures desk { result.0.desk ≡ writer.desk }
        ensures pending { MatchResult result.1
            (λ _. drop result.0.behind result.0.log.items ≡ drop writer.behind writer.log.items ++ commit ∷ [])
            (λ _. drop result.0.behind result.0.log.items ≡ drop writer.behind writer.log.items) }
        ensures cause { HasCause self.old self.new result.1 }
    {
        let mut open = writer;
        match open.append(commit) {
            Ok(()) => (open, Ok(())),
            Err(_commit) => {
                self.refuse();
                (open, Err(AllocError))
            }
        }
    }
}
