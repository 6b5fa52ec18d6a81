//! The line of a frame.
#![tactic(auto, using(lx_io::proofs::Chain::puts))]

ghost use Rattle.std.specs.Prelude.{◌≡◌, ◌++◌, [], ◌∷◌, codes, length, decimal, flat_map};
ghost use Rattle.lx_script.specs.Imports.{Puts, frame_text, count_words};

use crate::cells::put_cells;
use lx_base::{Level, Moment, UNIVERSE_SLOTS};
use lx_io::{Sink, SinkFault, put_all};
use lx_lex::{put_count, put_count_and};

/// Appends the line of a frame: `frame`, the count where there is one, the moment in hundredths of a second, the
/// universe, and for each of its 512 slots that isn't 0, rising, `slot=value`. A fault is the sink's own, and then a
/// prefix of the line was appended.
pub fn put_frame<K: Sink>(
    count: Option<u64>,
    m: Moment,
    universe: u8,
    slots: &[Level],
    sink: &mut K,
) -> Result<(), SinkFault>
    requires { length slots.now ≡ UNIVERSE_SLOTS }
    ensures { Puts K.Sink sink.old sink.new result (frame_text (count_words count) m universe slots.now) }
{
    put_head(count, m, universe, sink)?;
    put_cells(slots, sink)?;
    put_all(sink, b"\n")
}

/// Appends the words before the slots.
fn put_head<K: Sink>(
    count: Option<u64>,
    m: Moment,
    universe: u8,
    sink: &mut K,
) -> Result<(), SinkFault>
    ensures { Puts K.Sink sink.old sink.new result
        (codes "frame" ++ (flat_map (λ word. 32 ∷ word) (count_words count) ++ (32 ∷ decimal m ++ 32 ∷ decimal universe))) }
{
    put_start(count, sink)?;
    put_count_and(m as u64, b' ', sink)?;
    put_count(universe as u64, sink)
}

/// Appends `frame`, the count where there is one, and a space behind each.
fn put_start<K: Sink>(count: Option<u64>, sink: &mut K) -> Result<(), SinkFault>
    ensures { Puts K.Sink sink.old sink.new result
        (codes "frame" ++ (flat_map (λ word. 32 ∷ word) (count_words count) ++ 32 ∷ [])) }
{
    put_all(sink, b"frame ")?;
    match count {
        Some(count) => put_count_and(count, b' ', sink),
        None => Ok(()),
    }
}
