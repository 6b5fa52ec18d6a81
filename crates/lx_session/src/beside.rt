//! What answers the lines of a script beside something that is lent to it.

ghost use Rattle.std.specs.Prelude.{◌≡◌, ◌≤◌, List, ℕ, Bool, true, option_copied};
ghost use Rattle.lx_io.specs.Puts.{HasSinkCause};
ghost use Rattle.lx_spec.specs.Session.{Session, Answering, ends_script};
ghost use Rattle.lx_session.specs.LineReply.{TallyHasRoom, HasOneMore, counts_in};
ghost use Rattle.lx_session.specs.OneAnswer.{IsLine, IsLawful, OneAnswer, GoesOnUnless};
ghost use Rattle.lx_session.specs.Spared.{MayTake, spared};

use crate::answers::Answers;
use crate::line::answer_in;
use crate::listener::Listener;
use crate::tally::Tally;
use lx_console::Console;
use lx_io::{Heap, Sink, SinkFault};

/// What answers the lines of a script beside something that is lent to it, `D`: a listener beside its console, or a desk
/// that needs nothing (`Answers`) beside nothing.
pub(crate) trait AnswersBeside<D> {
    /// What it keeps true of itself together with what is lent.
    ghost keeps: { Self → D → Type 0 };

    /// Whether no attempt was turned down up to this state.
    ghost admitted_all: { Self → Bool };

    /// How both answer a line, where no attempt is turned down, and where some may be.
    ghost by: { Bool → Answering (List ℕ) };

    /// What is to be known of where a session began.
    ghost Since: { Type 0 };

    /// They stand for the state, of a session that began so.
    ghost stands: { Since → (all : Bool) → (by all).State → Self → D → Type 0 };

    /// As `Answers::answer_in`.
    fn answer_beside<H: Heap, K: Sink>(
        &mut self,
        lent: &mut D,
        heap: &mut H,
        line: Option<&[u8]>,
        sink: &mut K,
        tally: &mut Tally,
    ) -> Result<bool, SinkFault>
        requires room { TallyHasRoom tally.old }
        requires keeps { keeps self.old lent.old }
        ensures keeps { keeps self.new lent.new }
        ensures answered { (all ample : Bool) → MayTake all ample (admitted_all self.new) (H.refusals heap.old) (H.refusals heap.new)
            → (since : Since) (s : Session (by all).State) (text : List ℕ) → stands since all s.state self.old lent.old
            → s.counts ≡ counts_in tally.old → IsLine (option_copied line.entry) text
            → OneAnswer (spared ample (by all)) K.Sink sink.old sink.new result s text
            (λ state. stands since all state self.new lent.new)
            tally.new }
        ensures all { admitted_all self.new ≡ true → admitted_all self.old ≡ true }
        ensures later { H.refusals heap.old ≤ H.refusals heap.new }
        ensures quit { (text : List ℕ) → IsLine (option_copied line.entry) text → GoesOnUnless (ends_script text) result }
        ensures cause { HasSinkCause K.Sink sink.old sink.new result }
        ensures more { HasOneMore tally.old tally.new }
        ensures lawful { (all : Bool) → IsLawful (by all) };
}

impl<A: Answers> AnswersBeside<()> for A {
    ghost keeps = { λ _ _. Unit {0} };

    ghost admitted_all = { λ _. true };

    ghost by = { λ _. A.by };

    ghost Since = { Unit {0} };

    ghost stands = { λ _ _ state answerer _. A.stands state answerer };

    fn answer_beside<H: Heap, K: Sink>(
        &mut self,
        _lent: &mut (),
        heap: &mut H,
        line: Option<&[u8]>,
        sink: &mut K,
        tally: &mut Tally,
    ) -> Result<bool, SinkFault> {
        self.answer_in(heap, line, sink, tally)
    }
}

impl<L: Listener> AnswersBeside<Console> for L {
    ghost use Rattle.lx_spec.specs.DeskSession.{desk_answering};
    ghost use Rattle.lx_session.specs.Listening.{Beginning, HasHeard};

    ghost keeps = { L.keeps };

    ghost admitted_all = { L.admitted_all };

    ghost by = { desk_answering };

    ghost Since = { Beginning L };

    ghost stands = { λ since _ state listener console. HasHeard L.heard since state listener console };

    fn answer_beside<H: Heap, K: Sink>(
        &mut self,
        lent: &mut Console,
        heap: &mut H,
        line: Option<&[u8]>,
        sink: &mut K,
        tally: &mut Tally,
    ) -> Result<bool, SinkFault> {
        answer_in(self, heap, lent, line, sink, tally)
    }
}
