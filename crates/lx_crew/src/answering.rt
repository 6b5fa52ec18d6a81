//! The answer to one entry.
#![tactic(auto, using(lx_io::proofs::Chain::puts))]

ghost use Rattle.std.specs.Prelude.{◌≡◌, ◌≤◌, ◌+◌, None, Some, List, ℕ, ◌++◌, ◌∷◌, [], option_copied};
ghost use Rattle.lx_crew.specs.Imports.{Puts, HasSinkCause, op_text, Desk, meaning_of, TallyHasRoom, HasOneMore, FromDesk};
ghost use Rattle.lx_crew.specs.Imports.{AnswersNamed, HasAnswered, OutputCause, named_line};
ghost use Rattle.lx_crew.specs.declared.entry.Message.{Message as AnEntry};

use crate::entry::{Message, Sent};
use lx_console::Console;
use lx_io::{Heap, Sink, SinkFault, put_all};
use lx_lex::put_count_and;
use lx_session::{NoListener, Tally, answer_in};

/// Appends the name of a line: `op`, its operator from 1, and its number among that operator's lines.
fn put_name<K: Sink>(place: u8, number: u32, sink: &mut K) -> Result<(), SinkFault>
    ensures { Puts K.Sink sink.old sink.new result (op_text (named_line place number [])) }
{
    put_all(sink, b"op ")?;
    put_count_and(u64::from(place) + 1, b' ', sink)?;
    put_count_and(u64::from(number), b'\n', sink)
}

/// Appends the name of a line, does the line and appends its replies, and counts them. None stands for a line that is too
/// long, which is bad. It answers false exactly for `quit`. An edit takes memory from the heap.
fn answer_line<H: Heap, K: Sink>(
    heap: &mut H,
    console: &mut Console,
    place: u8,
    number: u32,
    line: Option<&[u8]>,
    sink: &mut K,
    tally: &mut Tally,
) -> Result<bool, SinkFault>
    requires room { TallyHasRoom tally.old }
    ensures answered { FromDesk console.old tally.old (λ s. AnswersNamed (H.refusals heap.old) (H.refusals heap.new) K.Sink sink.old sink.new
        result s (op_text (named_line place number [])) (meaning_of (option_copied line.entry)) console.new tally.new) }
    ensures cause { HasSinkCause K.Sink sink.old sink.new result }
    ensures more { HasOneMore tally.old tally.new }
    ensures later { H.refusals heap.old ≤ H.refusals heap.new }
{
    // With a `?` the check takes four times as long to see that this is the code.
    match put_name(place, number, sink) {
        Ok(()) => answer_in(&mut NoListener, heap, console, line, sink, tally),
        Err(fault) => Err(fault),
    }
}

/// Answers an entry, unless the output had a fault. Then it is thrown away.
pub(crate) fn answer_entry<H: Heap, K: Sink>(
    heap: &mut H,
    console: &mut Console,
    entry: &Message,
    sink: &mut K,
    tally: &mut Tally,
    output: &mut Option<SinkFault>,
)
    requires room { TallyHasRoom tally.old }
    ensures answered { (before : ℕ) (d : Desk) (popped : List AnEntry) (start : _)
        → HasAnswered before (H.refusals heap.old) K.Sink d popped start sink.old console.old tally.old output.old
        → HasAnswered before (H.refusals heap.new) K.Sink d (popped ++ entry.now ∷ []) start sink.new console.new tally.new output.new }
    ensures cause { OutputCause K.Sink sink.old sink.new output.old output.new }
    ensures more { HasOneMore tally.old tally.new }
    ensures later { H.refusals heap.old ≤ H.refusals heap.new }
{
    if output.is_some() {
        return;
    }
    let line = match &entry.sent {
        Sent::Line(line) => Some(line.bytes()),
        Sent::LongLine => None,
        _ => return,
    };
    *output = answer_line(heap, console, entry.place, entry.number, line, sink, tally).err();
}

/// Hands on what the output keeps back, unless it had a fault. Without one nothing is kept back any more.
pub(crate) fn flush<K: Sink>(sink: &mut K, output: &mut Option<SinkFault>)
    ensures answered { (before now : ℕ) (d : Desk) (popped : List AnEntry) (start : _) (console : _) (tally : _)
        → HasAnswered before now K.Sink d popped start sink.old console tally output.old
        → HasAnswered before now K.Sink d popped start sink.new console tally output.new }
    ensures cause { OutputCause K.Sink sink.old sink.new output.old output.new }
    ensures handed_on { output.new ≡ None → K.back sink.new ≡ [] }
{
    if output.is_none() {
        *output = sink.flush().err();
    }
}
