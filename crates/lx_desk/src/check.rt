//! The job `check`: one line about a show.
#![tactic(auto, using(lx_io::proofs::Chain::puts))]

ghost use Rattle.std.specs.Prelude.{◌++◌, ◌∷◌, [], codes, decimal};
ghost use Rattle.lx_desk.specs.Imports.{Puts, check_text, reading_of, Does};
ghost use Rattle.lx_spec.specs.declared.Job.TheVariants.{Check};

use crate::desk::Status;
use crate::finish::finish;
use crate::generator::{put_last, put_number};
use crate::refuse::refuse;
use lx_io::{Heap, Sink, SinkFault, Source, put_all};
use lx_lex::{Lines, put_count};
use lx_reader::{Loaded, read_show_in};
use lx_show::Form;

/// Reads a show and writes one line about it: how many cues and channels it has, how many of its lines were skipped, and
/// which was the first of them.
pub(crate) fn check<H: Heap, S: Source, K: Sink>(
    heap: &mut H,
    form: Form,
    input: &mut S,
    output: &mut K,
) -> Status
    ensures { Does K.Sink (H.refusals heap.old) (H.refusals heap.new) (Check form) (S.left input.old) (S.left input.new)
        (S.faults input.old) (S.faults input.new) output.old output.new result }
{
    let mut lines = Lines::new(input);
    match read_show_in(heap, &mut lines, form) {
        Ok(loaded) => finish(put_size(&loaded, output), Status::Ok, output),
        Err(fault) => refuse(fault, output),
    }
}

/// Appends the line `show cues A channels B skipped C first D`.
fn put_size<K: Sink>(loaded: &Loaded, output: &mut K) -> Result<(), SinkFault>
    ensures { Puts K.Sink output.old output.new result (check_text (reading_of loaded.now)) }
{
    put_counts(loaded.show.cues().len(), loaded.show.channels(), output)?;
    put_skipped(loaded.skipped, loaded.first_skipped, output)
}

/// Appends how many cues and channels there are.
fn put_counts<K: Sink>(cues: usize, channels: u32, output: &mut K) -> Result<(), SinkFault>
    ensures { Puts K.Sink output.old output.new result
        (codes "show cues " ++ (decimal cues ++ (codes " channels " ++ decimal channels))) }
{
    put_all(output, b"show cues ")?;
    put_count(cues as u64, output)?;
    put_number(b" channels ", channels, output)
}

/// Appends how many lines were skipped, and which was the first.
fn put_skipped<K: Sink>(skipped: u32, first: u32, output: &mut K) -> Result<(), SinkFault>
    ensures { Puts K.Sink output.old output.new result
        (codes " skipped " ++ (decimal skipped ++ (codes " first " ++ (decimal first ++ 10 ∷ [])))) }
{
    put_number(b" skipped ", skipped, output)?;
    put_last(b" first ", first, output)
}
