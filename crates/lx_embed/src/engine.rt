//! What a host's desk answers with: a plain desk, or one with its history.

ghost use Rattle.std.specs.Prelude.{◌≡◌, ◌≤◌, ◌<◌, [], true, IfOk, OnErr};
ghost use Rattle.lx_embed.specs.Imports.{IsErr, HasCause, Rose, Desk, step, UndoState, begun, desk_answering, undo_answering, StandsFor};
ghost use Rattle.lx_embed.specs.Imports.{ByMemory, spared, UndoStands, Answered, AnswersLine, console_of, OpenedAs, reply_bytes, wants_of};
ghost use Rattle.lx_embed.specs.Imports.{AcceptedTicks};
ghost use Rattle.lx_spec.specs.declared.Command.TheVariants as Command;

use crate::reply::ReplyText;
use crate::ticks::{tick_plain, tick_undo};
use lx_console::Console;
use lx_io::{Heap, SinkFault};
use lx_session::{Answers, NoListener, Tally, answer_inlined};
use lx_show::Show;
use lx_undo::UndoDesk;
use std::alloc::AllocError;

/// A plain desk, or one that keeps the shows that its edits and records replaced.
#[derive(Drop)]
pub enum Engine {
    /// Its script knows the lines of `render`.
    Plain(Console),
    /// Its script also knows `undo`, `redo` and `record n [only]`.
    Undo(UndoDesk),
}

impl Engine {
    /// A desk over the show, as at the opening: a plain one, or where a depth is given one that keeps this many shows. An error comes
    /// where the heap refuses memory.
    pub(crate) fn open_in<H: Heap>(
        heap: &mut H,
        show: Show,
        depth: Option<u32>,
    ) -> Result<Engine, AllocError>
        ensures opens { IfOk result (OpenedAs depth show) }
        ensures cause { HasCause (H.refusals heap.old) (H.refusals heap.new) result }
    {
        match depth {
            None => Ok(Engine::Plain(Console::open_in(heap, show)?)),
            Some(depth) => Ok(Engine::Undo(UndoDesk::open_in(heap, show, depth as usize)?)),
        }
    }

    /// The desk: its show, levels and frames as they are now.
    pub fn console(&self) -> &Console
        ensures { result.now ≡ console_of self.now }
    {
        match self {
            Engine::Plain(console) => console,
            Engine::Undo(desk) => desk.console(),
        }
    }

    /// Does one line of a script, and keeps its reply, in the place of the last. It answers false exactly for `quit`. Where the heap
    /// refused nothing in this call, no attempt failed as out of memory.
    ///
    /// A fault comes only where memory was refused for the reply: the line was done, and of its reply a front is kept.
    pub(crate) fn answer_in<H: Heap>(
        &mut self,
        heap: &mut H,
        line: &[u8],
        reply: &mut ReplyText,
    ) -> Result<bool, SinkFault>
        ensures answered { ByMemory (H.refusals heap.old) (H.refusals heap.new)
            (λ ample. Answered ample self.old self.new line.now result (reply_bytes reply.new)) }
        ensures wanted { OnErr result (Rose (wants_of reply.old) (wants_of reply.new)) }
        ensures later { H.refusals heap.old ≤ H.refusals heap.new }
    {
        reply.clear();
        match self {
            Engine::Plain(console) => answer_plain(console, heap, line, reply),
            Engine::Undo(desk) => answer_undo(desk, heap, line, reply),
        }
    }
}

impl Engine {
    /// Lets this many ticks go by, and says how many were accepted: all of them, unless the moment comes to its end.
    pub(crate) fn tick(&mut self, n: u32) -> u32
        ensures most { result ≤ n }
        ensures ticks { AcceptedTicks self.old result self.new }
        ensures end { result < n → (d : Desk) → StandsFor d (console_of self.new) → IsErr (step d Command.Tick) }
    {
        match self {
            Engine::Plain(console) => tick_plain(console, n),
            Engine::Undo(desk) => tick_undo(desk, n),
        }
    }
}

/// Does one line of a plain desk's script, whose reply is appended.
fn answer_plain<H: Heap>(
    console: &mut Console,
    heap: &mut H,
    line: &[u8],
    reply: &mut ReplyText,
) -> Result<bool, SinkFault>
    requires { reply_bytes reply.old ≡ [] }
    ensures answered { ByMemory (H.refusals heap.old) (H.refusals heap.new) (λ ample. (d : Desk) → StandsFor d console.old
        → AnswersLine (spared ample (desk_answering true)) (λ next. StandsFor next.desk console.new) (begun d) line.now result
        (reply_bytes reply.new)) }
    ensures wanted { OnErr result (Rose (wants_of reply.old) (wants_of reply.new)) }
    ensures later { H.refusals heap.old ≤ H.refusals heap.new }
{
    let mut tally = Tally::new();
    answer_inlined(
        &mut NoListener,
        heap,
        console,
        Some(line),
        reply,
        &mut tally,
    )
}

/// Does one line of the script of a desk with a history, whose reply is appended. It is a function of its own, so that a line of a
/// plain desk doesn't pay for its room.
#[inline(never)]
fn answer_undo<H: Heap>(
    desk: &mut UndoDesk,
    heap: &mut H,
    line: &[u8],
    reply: &mut ReplyText,
) -> Result<bool, SinkFault>
    requires { reply_bytes reply.old ≡ [] }
    ensures answered { ByMemory (H.refusals heap.old) (H.refusals heap.new) (λ ample. (s : UndoState) → UndoStands s desk.old
        → AnswersLine (spared ample undo_answering) (λ next. UndoStands next desk.new) s line.now result (reply_bytes reply.new)) }
    ensures wanted { OnErr result (Rose (wants_of reply.old) (wants_of reply.new)) }
    ensures later { H.refusals heap.old ≤ H.refusals heap.new }
{
    let mut tally = Tally::new();
    desk.answer_in(heap, Some(line), reply, &mut tally)
}
