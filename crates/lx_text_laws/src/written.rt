//! A show that is written and read again.

ghost use Rattle.std.specs.Prelude.{◌≡◌, ◌<◌, ◌≤◌, ◌⊎◌, [], length, Err, IfOk, IfErr};
ghost use Rattle.lx_base.specs.declared.TheConstants.{INPUT_BYTES};
ghost use Rattle.lx_io.specs.Causes.{Rose};
ghost use Rattle.lx_spec.specs.ShowText.{show_text};
ghost use Rattle.lx_reader.specs.Answer.{reading_of};

use crate::memory::read_text;
use lx_io::{Heap, PlainSink};
use lx_reader::{Loaded, ShowFault};
use lx_show::Show;
use lx_spec::Form;
use lx_writer::write_show;

/// Writes a show's canonical text into the empty sink, and reads it back: what comes is the show, with no skipped line. `InputTooLong`
/// comes only where the text is longer than the limit of an input, and `Memory` only where the heap refused some, or the sink was out
/// of memory.
pub fn read_back<H: Heap>(
    heap: &mut H,
    sink: &mut PlainSink,
    show: &Show,
) -> Result<Loaded, ShowFault>
    requires empty { sink.old.bytes ≡ [] }
    ensures same { IfOk result (λ loaded. reading_of loaded ≡ record { show = show.now; skipped = 0; first_skipped = 0 }) }
    ensures fault { IfErr result (λ fault. (fault ≡ ShowFault.Memory)
        ⊎ ((fault ≡ ShowFault.InputTooLong) × (INPUT_BYTES < length (show_text show.now)))) }
    ensures wanted { result ≡ Err ShowFault.Memory
        → Rose (H.refusals heap.old) (H.refusals heap.new) ⊎ Rose sink.old.wants sink.new.wants }
    ensures later { H.refusals heap.old ≤ H.refusals heap.new }
{
    let Ok(()) = write_show(show, sink) else {
        return Err(ShowFault::Memory);
    };
    match heap.copy_of(sink.bytes()) {
        Ok(text) => read_text(heap, text, Form::Moves),
        Err(_) => Err(ShowFault::Memory),
    }
}
