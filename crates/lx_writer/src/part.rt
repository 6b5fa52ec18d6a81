//! The parts of a cue, each with its times and the moves in it.
#![tactic(auto, using(lx_io::proofs::Chain::puts))]

ghost use Rattle.std.specs.Prelude.{[], ◌++◌, ◌∷◌, codes, decimal, flat_map};
ghost use Rattle.lx_io.specs.Puts.{Puts};
ghost use Rattle.lx_spec.specs.Numerals.{time_text};
ghost use Rattle.lx_spec.specs.ShowText.{line, part_text};

use crate::lines::put_moves;
use crate::record::put_between;
use lx_base::{Cs, PartNo};
use lx_io::{Sink, SinkFault, put_all};
use lx_lex::put_hundredths_and;
use lx_show::{Move, Part};

/// Appends the parts of a cue that has these moves.
pub(crate) fn put_parts<K: Sink>(
    moves: &[Move],
    parts: &[Part],
    sink: &mut K,
) -> Result<(), SinkFault>
    ensures { Puts K.Sink sink.old sink.new result (flat_map (part_text moves.now) parts.now) }
{
    for part in parts {
        put_part(moves, part, sink)?;
    }
    Ok(())
}

/// Appends a part: its number, its times, and those of the moves that stand in it.
fn put_part<K: Sink>(moves: &[Move], part: &Part, sink: &mut K) -> Result<(), SinkFault>
    ensures { Puts K.Sink sink.old sink.new result (part_text moves.now part.now) }
{
    put_number(part.number, sink)?;
    put_time(b"UP ", part.up, part.up_delay, sink)?;
    put_time(b"DOWN ", part.down, part.down_delay, sink)?;
    put_moves(moves, part.number, sink)
}

/// Appends the line of a part's number.
fn put_number<K: Sink>(number: PartNo, sink: &mut K) -> Result<(), SinkFault>
    ensures { Puts K.Sink sink.old sink.new result (line (codes "PART" ∷ decimal number ∷ [])) }
{
    put_between(b"PART ", number.get(), b'\n', sink)
}

/// Appends the line of a time and a delay: `start` is its word and a space.
fn put_time<K: Sink>(start: &[u8], time: Cs, delay: Cs, sink: &mut K) -> Result<(), SinkFault>
    ensures { Puts K.Sink sink.old sink.new result ((start.now ++ (time_text time ++ 32 ∷ time_text delay)) ++ 10 ∷ []) }
{
    put_all(sink, start)?;
    put_hundredths_and(time, b' ', sink)?;
    put_hundredths_and(delay, b'\n', sink)
}
