//! Cues, but for their parts.
#![tactic(auto, using(lx_io::proofs::Chain::puts))]

ghost use Rattle.std.specs.Prelude.{[], ◌++◌, ◌∷◌, codes};
ghost use Rattle.lx_io.specs.Puts.{Puts};
ghost use Rattle.lx_spec.specs.Numerals.{time_text};
ghost use Rattle.lx_spec.specs.ShowText.{line, cue_number_text, block_text, assert_text, label_text, follow_text, link_text};

use crate::part::put_parts;
use crate::pieces::Written;
use crate::record::put_label;
use lx_base::{Cs, CueNo};
use lx_io::{Sink, SinkFault, put_all};
use lx_lex::{put_cue_no_and, put_hundredths_and};
use lx_show::Cue;

impl Written for Cue {
    ghost use Rattle.lx_spec.specs.ShowText.{cue_text};

    ghost text = { cue_text };

    /// Appends a cue: what is said of it as a whole, and its parts with their moves.
    fn write<K: Sink>(&self, sink: &mut K) -> Result<(), SinkFault> {
        put_cue_number(b"CUE ", self.number, sink)?;
        put_block(self.block, sink)?;
        put_assert(self.asserted, sink)?;
        put_label(self.label.as_slice(), sink)?;
        put_follow(self.follow, sink)?;
        put_link(self.link, sink)?;
        put_parts(self.moves.as_slice(), self.parts.as_slice(), sink)
    }
}

/// Appends the line that makes a block cue, where it is one.
fn put_block<K: Sink>(block: bool, sink: &mut K) -> Result<(), SinkFault>
    ensures { Puts K.Sink sink.old sink.new result (block_text block) }
{
    if block {
        put_all(sink, b"$$BLOCK\n")
    } else {
        Ok(())
    }
}

/// Appends the line that makes an asserted cue, where it is one.
fn put_assert<K: Sink>(asserted: bool, sink: &mut K) -> Result<(), SinkFault>
    ensures { Puts K.Sink sink.old sink.new result (assert_text asserted) }
{
    if asserted {
        put_all(sink, b"$$ASSERT\n")
    } else {
        Ok(())
    }
}

/// Appends the line of the follow time, where there is one.
fn put_follow<K: Sink>(follow: Option<Cs>, sink: &mut K) -> Result<(), SinkFault>
    ensures { Puts K.Sink sink.old sink.new result (follow_text follow) }
{
    match follow {
        Some(time) => put_follow_time(time, sink),
        None => Ok(()),
    }
}

/// Appends the line of a follow time.
fn put_follow_time<K: Sink>(time: Cs, sink: &mut K) -> Result<(), SinkFault>
    ensures { Puts K.Sink sink.old sink.new result (line (codes "FOLLOWON" ∷ time_text time ∷ [])) }
{
    put_all(sink, b"FOLLOWON ")?;
    put_hundredths_and(time, b'\n', sink)
}

/// Appends the line of the link, where there is one.
fn put_link<K: Sink>(link: Option<CueNo>, sink: &mut K) -> Result<(), SinkFault>
    ensures { Puts K.Sink sink.old sink.new result (link_text link) }
{
    match link {
        Some(number) => put_cue_number(b"LINK ", number, sink),
        None => Ok(()),
    }
}

/// Appends the line of a cue number: `start` is its word and a space.
fn put_cue_number<K: Sink>(start: &[u8], number: CueNo, sink: &mut K) -> Result<(), SinkFault>
    ensures { Puts K.Sink sink.old sink.new result (start.now ++ cue_number_text number ++ 10 ∷ []) }
{
    put_all(sink, start)?;
    put_cue_no_and(number, b'\n', sink)
}
