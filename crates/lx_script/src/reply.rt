//! The reply to a script line.
#![tactic(auto, using(lx_io::proofs::Chain::puts))]

ghost use Rattle.std.specs.Prelude.{◌≤◌, ◌++◌, ◌∷◌, [], decimal, length};
ghost use Rattle.lx_script.specs.Imports.{Puts, cue_number_text, refused_text, reply_text};

use lx_base::CueNo;
use lx_io::{Sink, SinkFault, put_all};
use lx_lex::{put_count_and, put_cue_no_and, put_cue_no_between};
use lx_spec::Refusal;

/// What a command, or a line that is none, is answered.
#[derive(Clone, Copy, PartialEq, Eq, Debug)]
pub enum Reply {
    /// The command was accepted, or each of a line's ticks.
    Ok,
    /// The line means nothing.
    Bad,
    /// The command was refused, or one of a line's ticks.
    Refused(Refusal),
}

/// Appends the line of a reply: `ok`, `bad`, or `refused` and the refusal's name and numbers. A fault is the sink's
/// own, and then a prefix of the line was appended.
#[inline(always)]
pub fn put_reply<K: Sink>(reply: &Reply, sink: &mut K) -> Result<(), SinkFault>
    ensures { Puts K.Sink sink.old sink.new result (reply_text reply.now) }
{
    match reply {
        Reply::Ok => put_all(sink, b"ok\n"),
        Reply::Bad => put_all(sink, b"bad\n"),
        Reply::Refused(refusal) => put_refused(refusal, sink),
    }
}

/// Appends the line of a refusal: as one piece where a cue number ends it, and else in as few pieces as there are numbers in
/// it and one more. It is a function of its own, so that `ok` and `bad` don't pay for the room of its texts.
#[inline(never)]
fn put_refused<K: Sink>(refusal: &Refusal, sink: &mut K) -> Result<(), SinkFault>
    ensures { Puts K.Sink sink.old sink.new result (refused_text refusal.now) }
{
    match refusal {
        Refusal::AbsentCue(cue) => put_of_cue(b"refused AbsentCue ", *cue, sink),
        Refusal::AbsentPart(cue, part) => put_in_cue(
            b"refused AbsentPart ",
            *cue,
            part.get(),
            sink,
        ),
        Refusal::AbsentChannel(chan) => put_of_number(b"refused AbsentChannel ", chan.get(), sink),
        Refusal::AbsentMove(cue, chan) => put_in_cue(
            b"refused AbsentMove ",
            *cue,
            chan.get(),
            sink,
        ),
        Refusal::AbsentGroup(group) => put_of_number(b"refused AbsentGroup ", group.get(), sink),
        Refusal::AbsentSub(sub) => put_of_number(b"refused AbsentSub ", sub.get(), sink),
        Refusal::AbsentDimmer(dimmer) => put_of_number(
            b"refused AbsentDimmer ",
            dimmer.get(),
            sink,
        ),
        Refusal::CueLimit => put_all(sink, b"refused CueLimit\n"),
        Refusal::BasePart => put_all(sink, b"refused BasePart\n"),
        Refusal::NoCueAfter(cue) => put_of_cue(b"refused NoCueAfter ", *cue, sink),
        Refusal::NoCueBefore(cue) => put_of_cue(b"refused NoCueBefore ", *cue, sink),
        Refusal::PlaybackFull => put_all(sink, b"refused PlaybackFull\n"),
        Refusal::TickLimit(moment) => put_of_number(b"refused TickLimit ", *moment, sink),
        Refusal::Memory => put_all(sink, b"refused Memory\n"),
    }
}

/// Appends the start of a line and the cue number that ends it, as one piece.
#[inline(always)]
fn put_of_cue<K: Sink>(start: &[u8], cue: CueNo, sink: &mut K) -> Result<(), SinkFault>
    requires { length start.now ≤ 22 }
    ensures { Puts K.Sink sink.old sink.new result (start.now ++ (cue_number_text cue ++ 10 ∷ [])) }
{
    put_cue_no_between(start, cue, b'\n', sink)
}

/// Appends the start of a line and the whole number that ends it.
fn put_of_number<K: Sink>(start: &[u8], number: u32, sink: &mut K) -> Result<(), SinkFault>
    ensures { Puts K.Sink sink.old sink.new result (start.now ++ (decimal number ++ 10 ∷ [])) }
{
    put_all(sink, start)?;
    put_count_and(u64::from(number), b'\n', sink)
}

/// Appends the start of a line, a cue number and the number of what is in the cue, which ends the line.
fn put_in_cue<K: Sink>(start: &[u8], cue: CueNo, number: u32, sink: &mut K) -> Result<(), SinkFault>
    ensures { Puts K.Sink sink.old sink.new result
        (start.now ++ ((cue_number_text cue ++ 32 ∷ decimal number) ++ 10 ∷ [])) }
{
    put_all(sink, start)?;
    put_cue_no_and(cue, b' ', sink)?;
    put_count_and(u64::from(number), b'\n', sink)
}
