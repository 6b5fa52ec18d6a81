//! A desk over a show's text.

ghost use Rattle.std.specs.Prelude.{◌≡◌, IfOk, IfErr};
ghost use Rattle.lx_embed.specs.Imports.{HasCauseOf, OpensText, RefusesShow};

use crate::engine::Engine;
use crate::slice_source::SliceSource;
use lx_io::Heap;
use lx_lex::Lines;
use lx_reader::{ShowFault, read_show_in};
use lx_show::Form;

/// Reads a show's text up to its line ENDDATA, and opens a desk over the show. `Memory` comes only where the heap refused some.
pub(crate) fn open_text<H: Heap>(
    heap: &mut H,
    text: &[u8],
    form: Form,
    depth: Option<u32>,
) -> Result<Engine, ShowFault>
    ensures opens { IfOk result (OpensText form depth text.now) }
    ensures refuses { IfErr result (RefusesShow form text.now) }
    ensures cause { HasCauseOf ShowFault.Memory (H.refusals heap.old) (H.refusals heap.new) result }
{
    let mut source = SliceSource {
        rest: text,
        given: 0,
    };
    let mut lines = Lines::new(&mut source);
    match read_show_in(heap, &mut lines, form) {
        Ok(loaded) => match Engine::open_in(heap, loaded.show, depth) {
            Ok(engine) => Ok(engine),
            Err(_) => Err(ShowFault::Memory),
        },
        Err(fault) => Err(fault),
    }
}
