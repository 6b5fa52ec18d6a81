//! The gate: it publishes versions, and ends by `close`.
ghost use Rattle.std.specs.Prelude.{◌≡◌, ◌+◌, ◌-◌, ◌<◌, ◌≤◌, ◌^◌, ◌++◌, List, [], length, IsSomeAnd, OnOk, OnErr, drop};
ghost use Rattle.lx_io.specs.Causes.{HasCause};
ghost use Rattle.lx_spec.specs.Show.{Show};
ghost use Rattle.lx_gate.specs.Frames.{AreFramesOf, moment_after, IsVersion};
ghost use Rattle.lx_gate.specs.Gates.{IsAtRest, IsEntered, StillRests, HasSent, HasSentNone};
ghost use Rattle.lx_gate.specs.Notes.{IsNoteOf, commands_of_note};
ghost use Rattle.lx_base.specs.declared.TheConstants.{SLOTS};
ghost use Rattle.lx_spec.specs.declared.Command.{Command};

use crate::{Commit, GateRule, History, Note, Origin, Prefix, Shows, Unsent, Version, WriterHeap};
use left_right::writer::Writer;
use lx_base::SLOTS;
use std::alloc::AllocError;
use std::marker::Model;
use std::sync::Wait;

pub type GateWriter<G> = Writer<Version<G>, Commit<G>, (), GateRule<G>>;

/// What a writer shows to taps.
pub trait Window {
    /// Taps are shown the version of this list over this show, and nothing else is on its way.
    ghost rests: { Self → Show → List Command → Type 0 };
}

impl<G: Origin> Window for GateWriter<G> {
    ghost rests = { λ w show list.
        let version = w.desk.shown.value in
        IsAtRest show list version.list version.slots version.count version.moment (drop w.behind w.log.items) };
}

/// The gate over a writer of type `W`. Contracts see it as the commands that it has published, and those in its history.
pub struct Gate<G: Origin, W: Window> {
    pub(crate) writer: Option<W>,
    pub(crate) history: History<G>,
    pub(crate) entered: Prefix<G>,
    pub(crate) published: Prefix<G>,
}

impl<G: Origin, W: Window> Model for Gate<G, W> {
    ghost use Rattle.std.specs.Prelude.{IsSomeAnd};
    ghost use Rattle.lx_gate.specs.Gates.{Published};

    ghost Value = { Published };

    ghost view = { λ g. record { published = g.published; entered = g.entered } };

    ghost invariant = { λ g. IsSomeAnd g.writer (λ w. W.rests w G.show g.published) };
}

impl<G: Origin> Gate<G, GateWriter<G>> {
    /// Publishes all unsent commands at one step. An error comes where the writer's memory was refused; then taps see what they saw,
    /// and the commands go out with a later publish. It may wait for taps.
    pub fn publish<R: Wait>(
        &mut self,
        rt: &R,
        writers: &mut WriterHeap,
        unsent: &mut Unsent,
        frames: &[u8],
        moment: u32,
    ) -> Result<(), AllocError>
        requires entered { IsEntered self.old unsent.old }
        requires slots { length frames.now ≡ SLOTS }
        requires frames { AreFramesOf G.show (self.old.published ++ unsent.old) frames.now }
        requires moment { moment ≡ moment_after G.show (self.old.published ++ unsent.old) }
        requires room { length self.old.published + length unsent.old < 2 ^ 64 - 1 }
        ensures entered { IsEntered self.new unsent.new }
        ensures ok { OnOk result (HasSent self.old unsent.old self.new unsent.new) }
        ensures err { OnErr result (HasSentNone self.old unsent.old self.new unsent.new) }
        ensures cause { HasCause writers.old writers.new result }
    {
        let entered = self.enter(rt, unsent);
        self.entered = entered.again();
        let commit = Commit {
            slots: slots_of(frames),
            list: entered.again(),
            moment,
        };
        send(rt, writers, &mut self.writer, commit)?;
        self.published = entered;
        *unsent = Unsent::new();
        Ok(())
    }

    /// The history with all unsent commands. It has some of them already where a publish failed.
    ///
    /// Nobody else holds the word of the history, so the first try adds them. A rule of the logbook can't say who holds a word, so the
    /// loop waits where another try would be due.
    fn enter<R: Wait>(&self, rt: &R, unsent: &Unsent) -> Prefix<G>
        requires entered { IsEntered self.now unsent.now }
        requires room { length self.now.published + length unsent.now < 2 ^ 64 - 1 }
        ensures { result ≡ self.now.published ++ unsent.now }
    {
        for _ in rt.forever() {
            let mut entered = self.entered.again();
            let known = entered.len() - self.published.len();
            if entered.extend(&self.history, unsent, known) {
                return entered;
            }
        }
        unreachable!()
    }

    /// What is published now. It takes no memory and waits for nobody.
    pub fn note(&self) -> Note
        ensures gate { IsNoteOf G.show G.book result }
        ensures list { commands_of_note result ≡ self.now.published }
    {
        let Some(writer) = &self.writer else {
            unreachable!()
        };
        let version = writer.published();
        Note {
            slots: version.slots,
            count: version.count,
            moment: version.moment,
            seen: self.published.mark(),
        }
    }

    /// How many commands are published.
    pub fn count(&self) -> u64
        ensures { result ≡ length self.now.published }
    {
        self.published.len()
    }

    /// Ends the gate. It may wait for taps.
    pub fn close<R: Wait>(self, rt: &R) {
        let Gate {
            writer,
            history: _history,
            entered: _entered,
            published: _published,
        } = self;
        if let Some(writer) = writer {
            let _version = writer.take(rt);
        }
    }
}

/// Publishes a commit at one step. An error comes where the writer's memory was refused, and changes nothing.
fn send<G: Origin, R: Wait>(
    rt: &R,
    writers: &mut WriterHeap,
    writer: &mut Option<GateWriter<G>>,
    commit: Commit<G>,
) -> Result<(), AllocError>
    requires rest { IsSomeAnd writer.old (λ w. drop w.behind w.log.items ≡ []) }
    requires slots { AreFramesOf G.show commit.list commit.slots }
    requires moment { commit.moment ≡ moment_after G.show commit.list }
    ensures ok { OnOk result (IsSomeAnd writer.new (λ w. ⟦<GateWriter<G> as Window>⟧.rests w G.show commit.list)) }
    ensures err { OnErr result (StillRests ⟦<GateWriter<G> as Window>⟧.rests G.show writer.old writer.new) }
    ensures cause { HasCause writers.old writers.new result }
{
    let Some(open) = writer.take() else {
        unreachable!()
    };
    let (open, appended) = writers.append(open, commit);
    let (open, answer) = match appended {
        Err(_) => (open, Err(AllocError)),
        Ok(()) => (open.publish_as::<Shows<G>, R>(rt).0, Ok(())),
    };
    match writer.replace(open) {
        None => answer,
        Some(_) => unreachable!(),
    }
}

/// The slots of all universes.
fn slots_of(frames: &[u8]) -> [u8; SLOTS]
    requires { length frames.now ≡ SLOTS }
    ensures { result ≡ frames.now }
{
    let mut slots = [0; SLOTS];
    slots.copy_from_slice(frames);
    slots
}
