//! The frame of both lists as a line.

ghost use Rattle.std.specs.Prelude.{◌≤◌, [], false};
ghost use Rattle.lx_lists.specs.Imports.{Puts, HasSinkCause, GoesOnUnless, frame_text, TwoDesks, frame_of_two, TwoStand};
ghost use Rattle.lx_base.specs.declared.TheConstants.{UNIVERSES};

use crate::desk::TwoLists;
use lx_console::slots_of;
use lx_io::{Sink, SinkFault};
use lx_script::put_frame;

/// Appends the frame line of a universe. It answers true: the session goes on.
pub(crate) fn put_universe<K: Sink>(
    desk: &TwoLists,
    universe: u8,
    sink: &mut K,
) -> Result<bool, SinkFault>
    requires least { 1 ≤ universe }
    requires most { universe ≤ UNIVERSES }
    ensures text { (s : TwoDesks) → TwoStand s desk.now
        → Puts K.Sink sink.old sink.new result
        (frame_text [] s.first.playback.moment universe (frame_of_two s universe)) }
    ensures more { GoesOnUnless false result }
    ensures cause { HasSinkCause K.Sink sink.old sink.new result }
{
    let slots = slots_of(universe, desk.frames());
    put_frame(None, desk.moment(), universe, slots, sink)?;
    Ok(true)
}
