//! The row line of a cue.
#![tactic(auto, using(lx_io::proofs::Chain::puts))]

ghost use Rattle.lx_io.specs.Puts.{Puts};
ghost use Rattle.lx_spec.specs.Replies.{row_text};

use lx_base::{CueNo, Level};
use lx_io::{Sink, SinkFault, put_all};
use lx_lex::put_cue_no;
use lx_script::put_cells;

/// Appends the row line of a cue: `row`, the cue number, and for each channel whose level isn't 0, rising,
/// `channel=level` in decimal. The level of channel c stands at place c - 1. A fault is the sink's own, and
/// then a prefix of the line was appended.
pub fn put_row<K: Sink>(n: CueNo, row: &[Level], sink: &mut K) -> Result<(), SinkFault>
    ensures { Puts K.Sink sink.old sink.new result (row_text n row.now) }
{
    put_all(sink, b"row ")?;
    put_cue_no(n, sink)?;
    put_cells(row, sink)?;
    put_all(sink, b"\n")
}
