//! A show text that is in memory whole.

ghost use Rattle.std.specs.Prelude.{IfOk, Ok};
ghost use Rattle.lx_io.specs.Causes.{HasCauseOf};
ghost use Rattle.lx_spec.specs.Reading.{reads, reads_under};
ghost use Rattle.lx_spec.specs.Finer.{hundredths, finer};
ghost use Rattle.lx_text_laws.specs.ReadAs.{ComesAs};

use lx_io::{Heap, PlainSource};
use lx_lex::Lines;
use lx_reader::{Loaded, ShowFault, read_show_in};
use lx_spec::Form;

/// How many bytes are read at a time.
const PIECE: usize = 65_536;

/// Reads a show text: what comes is what it means, or its own fault. One that could be read when a cue number had two decimals is read
/// as the same show, each cue number and each link ten times as fine, with the same counts of skipped lines. `InputTooLong` comes only
/// where what the show needs of the text is longer than the limit of an input, and `Memory` only where the heap refused some.
pub fn read_text<H: Heap>(heap: &mut H, text: Vec<u8>, form: Form) -> Result<Loaded, ShowFault>
    ensures answer { ComesAs text.items (reads form text.items) result }
    ensures old { IfOk (reads_under hundredths form text.items) (λ reading. ComesAs text.items (Ok (finer reading)) result) }
    ensures cause { HasCauseOf ShowFault.Memory (H.refusals heap.old) (H.refusals heap.new) result }
{
    let mut source = PlainSource::new(text, PIECE);
    let mut lines = Lines::new(&mut source);
    read_show_in(heap, &mut lines, form)
}
