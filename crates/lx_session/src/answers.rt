//! What answers the lines of a script.

ghost use Rattle.std.specs.Prelude.{◌≡◌, ◌≤◌, List, ℕ, Bool, true, option_copied};
ghost use Rattle.lx_io.specs.Puts.{HasSinkCause};
ghost use Rattle.lx_spec.specs.Session.{Session, Answering, ends_script};
ghost use Rattle.lx_session.specs.LineReply.{TallyHasRoom, HasOneMore, counts_in};
ghost use Rattle.lx_session.specs.OneAnswer.{IsLine, IsLawful, OneAnswer, GoesOnUnless};
ghost use Rattle.lx_session.specs.Spared.{HasStood, spared};

use crate::tally::Tally;
use lx_io::{Heap, Sink, SinkFault};

/// What answers the lines of a script, one after another: a desk of any kind.
///
/// It has two meanings for contracts: how it answers (`by`: the states, the session after a line, and at which lines an attempt
/// may fail), and for which state it stands (`stands`).
pub trait Answers {
    /// How it answers a line.
    ghost by: { Answering (List ℕ) };

    /// It stands for the state.
    ghost stands: { by.State → Self → Type 0 };

    /// Does what a line asks for, then appends its replies and counts them. None stands for a line that is too
    /// long, which is bad. It answers false exactly for `quit`.
    ///
    /// A fault comes only where the sink answered it in this call; then a prefix of the replies was appended, and
    /// the line was done. Where the heap refused nothing in this call, no attempt failed.
    fn answer_in<H: Heap, K: Sink>(
        &mut self,
        heap: &mut H,
        line: Option<&[u8]>,
        sink: &mut K,
        tally: &mut Tally,
    ) -> Result<bool, SinkFault>
        requires room { TallyHasRoom tally.old }
        ensures answered { (ample : Bool) → (ample ≡ true → HasStood (H.refusals heap.old) (H.refusals heap.new)) → (s : Session by.State)
            (text : List ℕ) → stands s.state self.old → s.counts ≡ counts_in tally.old → IsLine (option_copied line.entry) text
            → OneAnswer (spared ample by) K.Sink sink.old sink.new result s text (λ state. stands state self.new)
            tally.new }
        ensures later { H.refusals heap.old ≤ H.refusals heap.new }
        ensures quit { (text : List ℕ) → IsLine (option_copied line.entry) text → GoesOnUnless (ends_script text) result }
        ensures cause { HasSinkCause K.Sink sink.old sink.new result }
        ensures more { HasOneMore tally.old tally.new }
        ensures lawful { IsLawful by };
}
