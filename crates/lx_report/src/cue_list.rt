//! The list of all cues, each with its row.
#![tactic(auto, using(lx_io::proofs::Chain::puts))]

ghost use Rattle.std.specs.Prelude.{◌≡◌, ◌++◌, Some, flat_map};
ghost use Rattle.lx_io.specs.Puts.{Puts};
ghost use Rattle.lx_spec.specs.SheetOutput.{cue_line, cue_lines};
ghost use Rattle.lx_spec.specs.Replies.{row_of, row_text};
ghost use Rattle.lx_spec.specs.TrackedLevel.{cue_of};
ghost use Rattle.lx_sheet.specs.SheetMeaning.{RowsStandFor};

use crate::cue_line::put_cue_line;
use crate::row::put_row;
use lx_base::Level;
use lx_io::{Sink, SinkFault};
use lx_sheet::Sheet;
use lx_show::{Cue, Show};

/// Appends the cue list of a show: for each cue, in order, a line `cue N KIND P M` with its label, and then its row line. KIND
/// is `block` or `track`, P the number of its parts and M that of its moves. The sheet
/// stands for the show. A fault is the sink's own, and then a prefix of the list was appended.
pub fn put_cue_list<K: Sink>(show: &Show, sheet: &Sheet, sink: &mut K) -> Result<(), SinkFault>
    requires { RowsStandFor show.now sheet.now }
    ensures { Puts K.Sink sink.old sink.new result (flat_map (cue_lines show.now) show.now.cues) }
{
    for cue in show.cues() {
        put_cue(cue, row_in(show, sheet, cue), sink)?;
    }
    Ok(())
}

/// Appends the two lines of a cue.
fn put_cue<K: Sink>(cue: &Cue, row: &[Level], sink: &mut K) -> Result<(), SinkFault>
    ensures { Puts K.Sink sink.old sink.new result (cue_line cue.now ++ row_text cue.now.number row.now) }
{
    put_cue_line(cue, sink)?;
    put_row(cue.number, row, sink)
}

/// The row of one of the show's cues.
fn row_in<'a>(show: &Show, sheet: &'a Sheet, cue: &Cue) -> &'a [Level]
    requires stands { RowsStandFor show.now sheet.now }
    requires there { cue_of show.now cue.now.number ≡ Some cue.now }
    ensures { result.now ≡ row_of show.now cue.now.number }
{
    match sheet.row(cue.number) {
        Some(row) => row,
        None => unreachable!(),
    }
}
