//! The pass over the lines of a show text.

ghost use Rattle.std.specs.Prelude.{◌≡◌, ◌≢◌, ◌≤◌, ◌+◌, Err, IfSome, IsTrue, OnOk};
ghost use Rattle.lx_reader.specs.Imports.{HasCauseOf, Rose, Valid, CanGoOn, state_of, final_reading, PassFits, settled, AnswerOf, IsLoaded};
ghost use Rattle.lx_reader.specs.Imports.{TurnOf, reading_of};

use crate::fault::ShowFault;
use crate::loaded::Loaded;
use crate::looks::looks_to_moves;
use crate::reader::Reader;
use crate::reading::ShowPass;
use lx_base::DEFAULT_CHANNELS;
use lx_io::{Heap, Source, SystemHeap};
use lx_lex::{Lines, Step};
use lx_show::Show;
use lx_spec::{Form, TextFault};
use std::alloc::Global;

/// Reads a show text, up to its ENDDATA line. No line was read from the lines before. The levels of its cues
/// are moves, or in the form States whole looks, which become moves.
///
/// `ReadFault` comes only where a read failed, and no failed read is passed over. The faults that carry a line name the first line that
/// has one. Lines that aren't known are skipped and
/// counted. All memory is of the process, and `Memory` comes where it gives none.
pub fn read_show<S: Source>(
    alloc: Global,
    lines: &mut Lines<S>,
    form: Form,
) -> Result<Loaded, ShowFault>
    requires going { IsTrue lines.old.going }
    requires first { lines.old.number ≡ 0 }
    ensures same_reference { lines.new.source.ghost_name ≡ lines.old.source.ghost_name }
    ensures answer { AnswerOf S.Source lines.old lines.new form result }
    ensures later { S.faults lines.old.source.now ≤ S.faults lines.new.source.now }
    ensures read { result ≡ Err ShowFault.ReadFault → Rose (S.faults lines.old.source.now) (S.faults lines.new.source.now) }
    ensures kept { result ≢ Err ShowFault.ReadFault → S.faults lines.new.source.now ≡ S.faults lines.old.source.now }
{
    read_show_in(&mut SystemHeap::new(alloc), lines, form)
}

/// Reads a show text as `read_show` does, with all its memory from this heap. `Memory` comes only where the heap refused in this call,
/// and with any other answer the heap's count stands as it was.
pub fn read_show_in<H: Heap, S: Source>(
    heap: &mut H,
    lines: &mut Lines<S>,
    form: Form,
) -> Result<Loaded, ShowFault>
    requires going { IsTrue lines.old.going }
    requires first { lines.old.number ≡ 0 }
    ensures same_reference { lines.new.source.ghost_name ≡ lines.old.source.ghost_name }
    ensures answer { AnswerOf S.Source lines.old lines.new form result }
    ensures later { S.faults lines.old.source.now ≤ S.faults lines.new.source.now }
    ensures read { result ≡ Err ShowFault.ReadFault → Rose (S.faults lines.old.source.now) (S.faults lines.new.source.now) }
    ensures kept { result ≢ Err ShowFault.ReadFault → S.faults lines.new.source.now ≡ S.faults lines.old.source.now }
    ensures cause { HasCauseOf ShowFault.Memory (H.refusals heap.old) (H.refusals heap.new) result }
{
    let mut reader = match Show::new_in(heap, 1) {
        Ok(show) => ShowPass::new(heap.allocator(), show),
        Err(_) => return Err(ShowFault::Memory),
    };
    loop {
        read_line(heap, lines, &mut reader)?;
        if reader.reader.ended {
            return loaded_by(heap, reader, form);
        }
    }
}

/// Reads one line, and goes a step on with it.
#[inline(always)]
fn read_line<H: Heap, S: Source>(
    heap: &mut H,
    lines: &mut Lines<S>,
    reader: &mut ShowPass,
) -> Result<(), ShowFault>
    requires going { IsTrue lines.old.going }
    requires ready { CanGoOn (settled reader.old) (lines.old.number + 1) }
    requires fits { PassFits reader.old }
    ensures same_reference { lines.new.source.ghost_name ≡ lines.old.source.ghost_name }
    ensures turn { TurnOf S.Source lines.old lines.new (settled reader.old) (settled reader.new) result }
    ensures fits { OnOk result (PassFits reader.new) }
    ensures later { S.faults lines.old.source.now ≤ S.faults lines.new.source.now }
    ensures read { result ≡ Err ShowFault.ReadFault → Rose (S.faults lines.old.source.now) (S.faults lines.new.source.now) }
    ensures kept { result ≢ Err ShowFault.ReadFault → S.faults lines.new.source.now ≡ S.faults lines.old.source.now }
    ensures cause { HasCauseOf ShowFault.Memory (H.refusals heap.old) (H.refusals heap.new) result }
{
    match lines.advance() {
        Step::Line => reader.step(heap, lines.number(), lines.line()),
        Step::LongLine => Err(ShowFault::Text(TextFault::LineTooLong(lines.number()))),
        Step::End => Err(ShowFault::Text(TextFault::NoEndData(lines.number() + 1))),
        Step::ReadFault => Err(ShowFault::ReadFault),
        Step::InputTooLong => Err(ShowFault::InputTooLong),
    }
}

/// What was read, in the form of the text.
fn loaded_by<H: Heap>(heap: &mut H, reading: ShowPass, form: Form) -> Result<Loaded, ShowFault>
    requires { PassFits reading }
    ensures loaded { IsLoaded form (settled reading) result }
    ensures cause { HasCauseOf ShowFault.Memory (H.refusals heap.old) (H.refusals heap.new) result }
{
    let mut reading = reading;
    reading.settle(heap)?;
    let mut loaded = loaded(reading.reader);
    match form {
        Form::Moves => {}
        Form::States => looks_to_moves(heap, &mut loaded.show)?,
    }
    Ok(loaded)
}

/// What was read: the show has as many channels as it names, and as SET CHANNELS says, or else 512.
fn loaded(reader: Reader) -> Loaded
    ensures reading { reading_of result ≡ final_reading Form.Moves (state_of reader) }
    ensures least { IfSome reader.channels_set (λ n. 1 ≤ n) }
    ensures valid { Valid result.show }
{
    let mut show = reader.show;
    let set = match reader.channels_set {
        Some(channels) => channels.get(),
        None => DEFAULT_CHANNELS,
    };
    let channels = show.channels().max(set);
    show.widen(channels);
    // For its proof alone: the show is valid.
    let _ = show.channels();
    Loaded {
        show,
        skipped: reader.skipped,
        first_skipped: reader.first_skipped,
    }
}
