//! The line of a cue in the cue list.
#![tactic(auto, using(lx_io::proofs::Chain::puts))]

ghost use Rattle.std.specs.Prelude.{◌≡◌, ◌++◌, ◌∷◌, length, codes, decimal};
ghost use Rattle.lx_io.specs.Puts.{Puts};
ghost use Rattle.lx_spec.specs.ShowText.{cue_number_text};
ghost use Rattle.lx_spec.specs.SheetOutput.{kind_word, cue_line};
ghost use Rattle.lx_report.specs.CueLine.{label_behind};

use lx_io::{Sink, SinkFault, put_all};
use lx_lex::{put_count, put_cue_no};
use lx_show::Cue;

/// Appends the line of a cue: `cue`, its number, `block` or `track`, how many parts and how many moves it
/// has, and its label if there is one. A fault is the sink's own, and then a prefix of the line was
/// appended.
pub(crate) fn put_cue_line<K: Sink>(cue: &Cue, sink: &mut K) -> Result<(), SinkFault>
    ensures { Puts K.Sink sink.old sink.new result (cue_line cue.now) }
{
    put_kind(cue, sink)?;
    put_counts(cue, sink)?;
    put_label(cue, sink)?;
    put_all(sink, b"\n")
}

/// Appends `cue`, the number and the kind.
fn put_kind<K: Sink>(cue: &Cue, sink: &mut K) -> Result<(), SinkFault>
    ensures { Puts K.Sink sink.old sink.new result
        (codes "cue " ++ (cue_number_text cue.now.number ++ 32 ∷ kind_word cue.now.block)) }
{
    put_all(sink, b"cue ")?;
    put_cue_no(cue.number, sink)?;
    put_all(sink, kind_behind(cue.block))
}

/// A space and the word for a block cue or another.
fn kind_behind(block: bool) -> &'static [u8]
    ensures { result.now ≡ 32 ∷ kind_word block }
{
    if block { b" block" } else { b" track" }
}

/// Appends a space and a count, twice.
fn put_counts<K: Sink>(cue: &Cue, sink: &mut K) -> Result<(), SinkFault>
    ensures { Puts K.Sink sink.old sink.new result
        (32 ∷ decimal (length cue.now.parts) ++ 32 ∷ decimal (length cue.now.moves)) }
{
    put_all(sink, b" ")?;
    put_count(cue.parts.len() as u64, sink)?;
    put_all(sink, b" ")?;
    put_count(cue.moves.as_slice().len() as u64, sink)
}

/// Appends a space and the label, where there is one.
fn put_label<K: Sink>(cue: &Cue, sink: &mut K) -> Result<(), SinkFault>
    ensures { Puts K.Sink sink.old sink.new result (label_behind cue.now.label) }
{
    let label = cue.label.as_slice();
    if label.is_empty() {
        return Ok(());
    }
    put_all(sink, b" ")?;
    put_all(sink, label)
}
