//! One operator: it sends the lines of a source that it owns.

ghost use Rattle.std.specs.Prelude.{◌≡◌, ◌+◌, ◌<◌, ◌≤◌, ◌^◌, [], ◌++◌, ◌∷◌, List, length, true, Some};
ghost use Rattle.crossbeam_queue.specs.Passes.{view, IsPassOf, IsSamePass};
ghost use Rattle.lx_lex.specs.Unread.{CanAdvance, SameSource};
ghost use Rattle.lx_crew.specs.Rule.{operator_view};
ghost use Rattle.lx_crew.specs.SentLines.{HasSentLines, TookNext};

use crate::entry::{LineText, Message, Sent};
use crate::fault::OperatorFault;
use crate::follows::{Follows, what_follows};
use crate::rule::{Queue, Sends, View};
use crossbeam_queue::Pass;
use crossbeam_utils::Backoff;
use crossbeam_utils::sync::Unparker;
use lx_io::Source;
use lx_lex::{Lines, Step};
use lx_work::Work;
use std::sync::Wait;

/// What an operator owns while it runs, and how it ended.
#[derive(Drop)]
pub struct Operator<'q, 'e, S> {
    pub queue: &'q Queue,
    /// Wakes the engine.
    pub engine: &'e Unparker,
    pub pass: Pass<Message, View>,
    pub source: S,
    /// Its place, from 0.
    pub place: u8,
    pub fault: Option<OperatorFault>,
}

impl<S: Source> Work for Operator<'_, '_, S> {
    ghost ready = { λ x. IsPassOf x.queue.now x.pass × (view x.pass ≡ operator_view x.place []) };

    ghost done = { λ x y. (y.place ≡ x.place)
        × (IsSamePass x.pass y.pass × HasSentLines S.Source x.place x.source y.source (view y.pass) y.fault) };

    fn run<R: Wait>(&mut self, rt: &R) {
        self.fault = send_lines(
            rt,
            self.queue,
            self.engine,
            &mut self.pass,
            self.place,
            &mut self.source,
        );
    }
}

/// Sends an entry for each line of the source, up to `quit` or the end, and then how the lines ended.
fn send_lines<R: Wait, S: Source>(
    rt: &R,
    queue: &Queue,
    engine: &Unparker,
    pass: &mut Pass<Message, View>,
    place: u8,
    source: &mut S,
) -> Option<OperatorFault>
    requires queue { IsPassOf queue.now pass.old }
    requires view { view pass.old ≡ operator_view place [] }
    ensures queue { IsSamePass pass.old pass.new }
    ensures sent { HasSentLines S.Source place source.old source.new (view pass.new) result }
{
    let mut lines = Lines::new(source);
    for _ in rt.forever() {
        let number = lines.number() + 1;
        let sent = take_next(&mut lines);
        let after = what_follows(&sent);
        send(
            rt,
            queue,
            engine,
            pass,
            Message {
                place,
                number,
                sent,
            },
        );
        match after {
            Follows::Lines => {}
            Follows::End => {
                let last = Message {
                    place,
                    number: number + 1,
                    sent: Sent::End,
                };
                send(rt, queue, engine, pass, last);
                return None;
            }
            Follows::Nothing(fault) => return fault,
        }
    }
    unreachable!()
}

/// Takes the next line, or how the lines ended.
fn take_next<S: Source>(lines: &mut Lines<S>) -> Sent
    requires going { CanAdvance lines.old }
    ensures same_source { SameSource lines.old lines.new }
    ensures took { TookNext S.Source lines.old lines.new result }
    ensures later { S.faults lines.old.source.now ≤ S.faults lines.new.source.now }
{
    match lines.advance() {
        Step::Line => Sent::Line(LineText::of(lines.line())),
        Step::LongLine => Sent::LongLine,
        Step::End => Sent::End,
        Step::ReadFault => Sent::ReadFault,
        Step::InputTooLong => Sent::InputTooLong,
    }
}

/// Pushes one entry, again and again until there is room, and wakes the engine.
fn send<R: Wait>(
    rt: &R,
    queue: &Queue,
    engine: &Unparker,
    pass: &mut Pass<Message, View>,
    entry: Message,
)
    requires queue { IsPassOf queue.now pass.old }
    requires pushes { (view pass.old).pushes ≡ true }
    requires own { entry.place ≡ (view pass.old).place }
    requires next { entry.number ≡ length (view pass.old).pushed + 1 }
    ensures queue { IsSamePass pass.old pass.new }
    ensures view { view pass.new ≡ record (view pass.old) { pushed = (view pass.old).pushed ++ entry ∷ [] } }
{
    let mut entry = entry;
    let backoff = Backoff::new();
    for _ in rt.forever() {
        match queue.try_push_as::<Sends>(pass, entry) {
            Ok(()) => {
                engine.unpark();
                return;
            }
            Err(back) => entry = back,
        }
        backoff.snooze();
    }
    unreachable!()
}
