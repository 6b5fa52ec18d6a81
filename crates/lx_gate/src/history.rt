//! The history: all commands that were entered, in order. It exists in proofs alone, and only grows.
ghost use Rattle.std.specs.Prelude.{◌≡◌, ◌+◌, ◌-◌, ◌<◌, ◌≤◌, ◌^◌, ◌++◌, ◌↔◌, ◌⊎◌, [], length, drop, IsTrue, MatchBool};
ghost use mathlib.Core.List.{IsPrefix};
ghost use Rattle.lx_gate.specs.Histories.{head_of};
ghost use Rattle.lx_gate.specs.CommandLists.{longest, IsChained, IsLonger, flat};

use crate::{Origin, Unsent};
use logbook::{Gain, Offer, Plain, Play, Rule, Seen, Start, Word};
use std::marker::{Model, PhantomData};

/// A command of the history. Contracts see the command; it is there in proofs alone, and nobody makes one.
#[derive(Drop)]
pub struct Entered {}

impl Model for Entered {
    ghost use Rattle.lx_spec.specs.declared.Command.{Command};
    ghost use Rattle.lx_spec.specs.declared.Command.TheVariants.{Tick};

    ghost Value = { Command };

    ghost view = { λ _. Tick };
}

/// The commands of one step. Clauses see an array as a list of any length.
pub type Batch = [Entered; 0];

/// The rule of the history.
pub struct Law;

impl Rule<Batch, u64> for Law {
    ghost use Rattle.std.specs.Prelude.{[]};
    ghost use base.Fml.{ftrue};
    ghost use Rattle.lx_gate.specs.Histories.{IsCounted};

    ghost holds = { λ cells log. IsCounted cells log };

    ghost first = { [] };

    ghost hinted = { λ n log. Unit {0} };

    ghost shows = { λ log. [] };

    ghost keeps = { λ names log. ftrue };

    ghost moves = { λ asked before after answer. Unit {0} };
}

/// Callers trade nothing.
pub struct Nothing;

impl Gain<Batch, u64> for Nothing {
    ghost use base.Fml.{ftrue};

    ghost after = { λ names about answer. ftrue };
}

/// The step that adds a batch.
pub struct Add;

impl Play<Batch, u64> for Add {
    ghost use Rattle.lx_gate.specs.Histories.{Adds};

    ghost then = { Adds };
}

/// The commands that a step adds: those after the first `known` that are unsent.
#[derive(Drop)]
pub struct Asked<'a> {
    unsent: &'a Unsent,
    known: u64,
}

impl Plain<Asked<'_>, Batch, u64> for Add {
    ghost use Rattle.std.specs.Prelude.{None, drop};

    ghost ask = { λ asked. drop asked.known asked.unsent.now };

    ghost state = { λ asked. None };
}

/// A history with no commands, which has no name yet.
#[derive(Drop)]
pub struct EmptyHistory {
    head: Word<Batch, u64, Law>,
    seen: Seen<Batch, u64, Law>,
    pub ghost empty: { seen.log ≡ [] },
    pub ghost head_is: { head ≡ head_of seen.book },
}

impl EmptyHistory {
    pub fn new() -> EmptyHistory {
        let (seen, mut first, _second) = Seen::open(Start::alone(), 0, 0);
        EmptyHistory {
            head: Word::tracked(0, &mut first),
            seen,
        }
    }

    /// The history under a name, and its prefix with no commands.
    pub(crate) fn named<G: Origin>(self) -> (History<G>, Prefix<G>)
        requires { self.seen.book ≡ G.book }
        ensures { result.1 ≡ [] }
    {
        let EmptyHistory { head, seen } = self;
        (
            History {
                head,
                of: PhantomData,
            },
            Prefix {
                count: 0,
                seen,
                of: PhantomData,
            },
        )
    }
}

/// The word that holds the history's length.
#[derive(Drop)]
pub struct History<G: Origin> {
    head: Word<Batch, u64, Law>,
    of: PhantomData<G>,
    ghost head_is: { head ≡ head_of G.book },
}

/// A prefix of the history. Contracts see it as its commands.
#[derive(Drop)]
pub struct Prefix<G: Origin> {
    count: u64,
    seen: Seen<Batch, u64, Law>,
    of: PhantomData<G>,
}

impl<G: Origin> Model for Prefix<G> {
    ghost use Rattle.std.specs.Prelude.{◌≡◌, List, length};
    ghost use Rattle.lx_spec.specs.declared.Command.{Command};
    ghost use Rattle.lx_gate.specs.CommandLists.{flat};

    ghost Value = { List Command };

    ghost view = { λ p. flat p.seen.log };

    ghost invariant = { λ p. (p.count ≡ length (flat p.seen.log)) × (p.seen.book ≡ G.book) };
}

impl<G: Origin> Prefix<G> {
    pub(crate) fn of_parts(count: u64, seen: Seen<Batch, u64, Law>) -> Prefix<G>
        requires book { seen.book ≡ G.book }
        requires count { count ≡ length (flat seen.log) }
        ensures { result ≡ flat seen.log }
    {
        Prefix {
            count,
            seen,
            of: PhantomData,
        }
    }

    /// What it has seen, without the name.
    pub(crate) fn mark(&self) -> Seen<Batch, u64, Law>
        ensures book { result.book ≡ G.book }
        ensures list { flat result.log ≡ self.now }
    {
        self.seen.again()
    }

    /// How many commands it has.
    pub fn len(&self) -> u64
        ensures { result ≡ length self.now }
    {
        self.count
    }

    /// A copy.
    pub fn again(&self) -> Prefix<G>
        ensures { result ≡ self.now }
    {
        Prefix {
            count: self.count,
            seen: self.seen.again(),
            of: PhantomData,
        }
    }

    /// The longer of two prefixes; this one, where they are as long. Each of the two is a prefix of it.
    pub fn longer(&self, other: &Prefix<G>) -> Prefix<G>
        ensures longest { result ≡ longest self.now other.now }
        ensures this { IsPrefix self.now result }
        ensures that { IsPrefix other.now result }
    {
        self.chain(other);
        if self.count < other.count {
            other.again()
        } else {
            self.again()
        }
    }

    /// One of two prefixes is a prefix of the other. When it runs it does nothing.
    pub fn chain(&self, other: &Prefix<G>)
        ensures { IsChained self.now other.now }
    {
        let mut both = self.seen.again();
        both.learn(&other.seen);
    }

    /// Whether another is a prefix of this one. That is so exactly where it isn't longer.
    pub fn follows(&self, earlier: &Prefix<G>) -> bool
        ensures answer { IsTrue result ↔ (length earlier.now ≤ length self.now) }
        ensures prefix { IsTrue result → IsPrefix earlier.now self.now }
    {
        self.chain(earlier);
        earlier.len() <= self.len()
    }

    /// Adds the commands after the first `known` that are unsent to this prefix where it is the whole history, and says whether it
    /// was; else this is then a longer prefix.
    pub fn extend(&mut self, history: &History<G>, unsent: &Unsent, known: u64) -> bool
        requires known { known ≤ length unsent.now }
        requires room { length self.old + (length unsent.now - known) < 2 ^ 64 }
        ensures { MatchBool result (self.new ≡ self.old ++ drop known unsent.now) (IsLonger self.old self.new) }
    {
        let mut seen = self.seen.again();
        let mut offer: Offer<Batch, u64, Law, Nothing> = seen.plain::<Nothing, Asked<'_>, Add>(
            &Asked { unsent, known },
        );
        let mut pen = seen.no_pen();
        let count = self.count;
        let longer = count + (unsent.len() - known);
        let found = history
            .head
            .compare_exchange::<Add, Nothing>(count, longer, &mut seen, &mut offer, &mut pen);
        if found != count {
            *self = Prefix::of_parts(found, seen);
            return false;
        }
        *self = Prefix::of_parts(longer, seen);
        true
    }
}
