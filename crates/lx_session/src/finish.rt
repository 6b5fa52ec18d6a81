//! The reply to a line.

ghost use Rattle.std.specs.Prelude.{◌≡◌, ◌≤◌, [], OnOk, None, Some, false};
ghost use Rattle.lx_session.specs.Imports.{Puts, HasSinkCause, Desk, frame_text, row_text, frame, show_text, reply_text, StandsFor};
ghost use Rattle.lx_session.specs.Imports.{is_quit, next_of, frame_of, reply_to, reply_for, counts_after, counts_in, counted, TallyHasRoom};
ghost use Rattle.lx_session.specs.Imports.{HasOneMore, GoesOnUnless};
ghost use Rattle.lx_base.specs.declared.TheConstants.{UNIVERSES};

use crate::tally::Tally;
use crate::turn::Turn;
use lx_base::{CueNo, Level};
use lx_console::{Console, Player, slots_of};
use lx_io::{Sink, SinkFault};
use lx_report::put_row;
use lx_script::{Reply, put_frame, put_reply};
use lx_spec::{Line, Refusal};
use lx_writer::write_show;

impl<'a> Turn<'a> {
    /// Appends the reply to the line after its attempts, and counts it. It answers false exactly for
    /// `quit`.
    ///
    /// A fault comes only where the sink answered it in this call, and then a prefix of the reply was
    /// appended.
    pub fn finish<K: Sink>(
        &self,
        console: &Console,
        sink: &mut K,
        tally: &mut Tally,
    ) -> Result<bool, SinkFault>
        requires over { next_of self.now ≡ None }
        requires room { TallyHasRoom tally.old }
        ensures cause { HasSinkCause K.Sink sink.old sink.new result }
        ensures text { (d : Desk) → StandsFor d console.now
            → Puts K.Sink sink.old sink.new result (reply_to d self.now.meaning self.now.refusal) }
        ensures counts { (d : Desk) → StandsFor d console.now
            → OnOk result (counts_in tally.new ≡ counts_after d (counts_in tally.old) self.now.meaning self.now.refusal) }
        ensures quit { GoesOnUnless (is_quit self.now.meaning) result }
        ensures counted { HasOneMore tally.old tally.new }
    {
        match self.frame_universe() {
            Some(universe) => put_universe(universe, console, sink),
            None => self.finish_without_frame(console.player(), sink, tally),
        }
    }

    /// As `finish`, of a line that asks for no frame: a player puts none out.
    pub fn finish_without_frame<K: Sink>(
        &self,
        player: &Player,
        sink: &mut K,
        tally: &mut Tally,
    ) -> Result<bool, SinkFault>
        requires over { next_of self.now ≡ None }
        requires no_frame { frame_of self.now.meaning ≡ None }
        requires room { TallyHasRoom tally.old }
        ensures cause { HasSinkCause K.Sink sink.old sink.new result }
        ensures text { (d : Desk) → StandsFor d player.now
            → Puts K.Sink sink.old sink.new result (reply_to d self.now.meaning self.now.refusal) }
        ensures counts { (d : Desk) → StandsFor d player.now
            → OnOk result (counts_in tally.new ≡ counts_after d (counts_in tally.old) self.now.meaning self.now.refusal) }
        ensures quit { GoesOnUnless (is_quit self.now.meaning) result }
        ensures counted { HasOneMore tally.old tally.new }
    {
        reply_to_line(&self.line, self.refusal, player, sink, tally)
    }
}

/// Appends the reply to a line of this meaning, which asks for no frame, and counts it.
fn reply_to_line<K: Sink>(
    line: &Option<Line>,
    refusal: Option<Refusal>,
    player: &Player,
    sink: &mut K,
    tally: &mut Tally,
) -> Result<bool, SinkFault>
    requires no_frame { frame_of line.now ≡ None }
    requires room { TallyHasRoom tally.old }
    ensures cause { HasSinkCause K.Sink sink.old sink.new result }
    ensures text { (d : Desk) → StandsFor d player.now
        → Puts K.Sink sink.old sink.new result (reply_to d line.now refusal) }
    ensures counts { (d : Desk) → StandsFor d player.now
        → OnOk result (counts_in tally.new ≡ counts_after d (counts_in tally.old) line.now refusal) }
    ensures quit { GoesOnUnless (is_quit line.now) result }
    ensures counted { HasOneMore tally.old tally.new }
{
    match line {
        None => give(Reply::Bad, sink, tally),
        Some(Line::Command(_)) => give(reply_of(refusal), sink, tally),
        Some(Line::Ticks(_)) => give(reply_of(refusal), sink, tally),
        Some(Line::Frame(_)) => unreachable!(),
        Some(Line::Save) => put_show(player, sink),
        Some(Line::SheetOf(n)) => put_sheet(*n, refusal, player, sink, tally),
        Some(Line::Quit) => Ok(false),
        Some(Line::Blank) => Ok(true),
    }
}

/// The reply to what was accepted or refused.
pub(crate) fn reply_of(refusal: Option<Refusal>) -> Reply
    ensures { result ≡ reply_for refusal }
{
    match refusal {
        None => Reply::Ok,
        Some(refusal) => Reply::Refused(refusal),
    }
}

/// Appends a reply, and counts it. A caller that knows the kind of the reply pays for that kind alone.
#[inline(always)]
pub(crate) fn give<K: Sink>(
    reply: Reply,
    sink: &mut K,
    tally: &mut Tally,
) -> Result<bool, SinkFault>
    requires room { TallyHasRoom tally.old }
    ensures text { Puts K.Sink sink.old sink.new result (reply_text reply) }
    ensures counts { counts_in tally.new ≡ counted reply (counts_in tally.old) }
    ensures counted { HasOneMore tally.old tally.new }
    ensures more { GoesOnUnless false result }
{
    match reply {
        Reply::Ok => tally.ok += 1,
        Reply::Bad => tally.bad += 1,
        Reply::Refused(_) => tally.refused += 1,
    }
    put_reply(&reply, sink)?;
    Ok(true)
}

/// Appends the row line of a cue; where there is no such cue, that is refused, and counted so.
fn put_sheet<K: Sink>(
    n: CueNo,
    refusal: Option<Refusal>,
    player: &Player,
    sink: &mut K,
    tally: &mut Tally,
) -> Result<bool, SinkFault>
    requires room { TallyHasRoom tally.old }
    ensures cause { HasSinkCause K.Sink sink.old sink.new result }
    ensures text { (d : Desk) → StandsFor d player.now
        → Puts K.Sink sink.old sink.new result (reply_to d (Some (Line.SheetOf n)) refusal) }
    ensures counts { (d : Desk) → StandsFor d player.now
        → OnOk result (counts_in tally.new ≡ counts_after d (counts_in tally.old) (Some (Line.SheetOf n)) refusal) }
    ensures more { GoesOnUnless false result }
    ensures counted { HasOneMore tally.old tally.new }
{
    match player.tracked_row(n) {
        Some(row) => give_row(n, row, sink),
        None => give(Reply::Refused(Refusal::AbsentCue(n)), sink, tally),
    }
}

/// Appends a row line.
fn give_row<K: Sink>(n: CueNo, row: &[Level], sink: &mut K) -> Result<bool, SinkFault>
    ensures text { Puts K.Sink sink.old sink.new result (row_text n row.now) }
    ensures more { GoesOnUnless false result }
{
    put_row(n, row, sink)?;
    Ok(true)
}

/// Appends the canonical text of the show.
fn put_show<K: Sink>(player: &Player, sink: &mut K) -> Result<bool, SinkFault>
    ensures cause { HasSinkCause K.Sink sink.old sink.new result }
    ensures text { (d : Desk) → StandsFor d player.now → Puts K.Sink sink.old sink.new result (show_text d.show) }
    ensures more { GoesOnUnless false result }
{
    write_show(player.show(), sink)?;
    Ok(true)
}

/// Appends the frame line of a universe.
pub(crate) fn put_universe<K: Sink>(
    universe: u8,
    console: &Console,
    sink: &mut K,
) -> Result<bool, SinkFault>
    requires least { 1 ≤ universe }
    requires most { universe ≤ UNIVERSES }
    ensures cause { HasSinkCause K.Sink sink.old sink.new result }
    ensures text { (d : Desk) → StandsFor d console.now
        → Puts K.Sink sink.old sink.new result (frame_text [] d.playback.moment universe (frame d universe)) }
    ensures more { GoesOnUnless false result }
{
    let slots = slots_of(universe, console.frames());
    put_frame(None, console.moment(), universe, slots, sink)?;
    Ok(true)
}
