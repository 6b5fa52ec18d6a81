//! The job `make`: a session over an input that is made of a number, and five lines about it.
#![tactic(auto, using(lx_io::proofs::Chain::puts))]

ghost use Rattle.std.specs.Prelude.{◌≡◌, ◌≤◌, ◌∷◌, [], ℕ, List, Some, decimal, sum, length, IsTrue};
ghost use Rattle.lx_desk.specs.Imports.{Puts, made_input, line, Desk, opened, frame, universe, StandsFor, Does, TellsScript, report_of, report_text};
ghost use Rattle.std.specs.declared.option.Option.{Option};
ghost use Rattle.lx_base.specs.declared.TheConstants.{INPUT_BYTES, UNIVERSE_SLOTS};
ghost use Rattle.lx_spec.specs.declared.Job.TheVariants as jobs;

use crate::desk::Status;
use crate::discard::Discard;
use crate::finish::finish;
use crate::generator::made_input;
use crate::play::status_of;
use crate::refuse::refuse;
use lx_base::{Level, UNIVERSE_SLOTS};
use lx_console::Console;
use lx_io::{Heap, PlainSource, Sink, SinkFault, Source, put_all};
use lx_lex::{Lines, put_count};
use lx_reader::read_show_in;
use lx_session::{Tally, session_in};
use lx_show::{Form, Show};

/// How many bytes of the input are read at a time.
const PIECE: usize = 65_536;

/// What a session came to.
#[derive(Clone, Copy)]
pub(crate) struct Report {
    /// How many cues were made.
    pub(crate) cues: u64,
    /// The last moment, in hundredths of a second.
    pub(crate) moment: u64,
    /// How many replies were `ok`.
    pub(crate) ok: u64,
    /// How many were `refused`.
    pub(crate) refused: u64,
    /// The sum of the slots of universe 1.
    pub(crate) sum: u64,
}

/// Makes an input of a number, reads its show and answers its script as `render` does, and writes five lines about the
/// session in place of the replies.
pub(crate) fn make<H: Heap, K: Sink>(heap: &mut H, cues: u32, output: &mut K) -> Status
    ensures { (left : Option (List ℕ)) (reads : ℕ) → Does K.Sink (H.refusals heap.old) (H.refusals heap.new) (jobs.Make cues) (Some []) left
        reads reads output.old output.new result }
{
    match made_input(heap, cues) {
        Ok(input) => make_of(heap, cues, input, output),
        Err(_) => Status::Memory,
    }
}

/// Reads the show of a made input and answers its script, and writes the lines about the session.
fn make_of<H: Heap, K: Sink>(heap: &mut H, cues: u32, input: Vec<u8>, output: &mut K) -> Status
    requires { input.items ≡ made_input cues }
    ensures { (left : Option (List ℕ)) (reads : ℕ) → Does K.Sink (H.refusals heap.old) (H.refusals heap.new) (jobs.Make cues) (Some []) left
        reads reads output.old output.new result }
{
    let mut input = PlainSource::new(input, PIECE);
    let mut lines = Lines::new(&mut input);
    match read_show_in(heap, &mut lines, Form::Moves) {
        Ok(loaded) => tell_session(heap, cues, loaded.show, &mut lines, output),
        Err(fault) => refuse(fault, output),
    }
}

/// Answers the script that is left over a show, drops the replies, and writes the lines about the session.
fn tell_session<H: Heap, S: Source, K: Sink>(
    heap: &mut H,
    cues: u32,
    show: Show,
    lines: &mut Lines<S>,
    output: &mut K,
) -> Status
    requires going { IsTrue lines.old.going }
    requires within { lines.old.taken ≤ INPUT_BYTES }
    ensures { TellsScript S.Source K.Sink (H.refusals heap.old) (H.refusals heap.new) cues (opened show) lines.old lines.new output.old output.new
        result }
{
    let Ok(mut console) = Console::open_in(heap, show) else {
        return Status::Memory;
    };
    match session_in(heap, &mut console, lines, &mut Discard) {
        Ok(tally) => finish(
            put_report(report_on(cues, &console, tally), output),
            Status::Ok,
            output,
        ),
        Err(fault) => status_of(Err(fault)),
    }
}

/// What there is to tell of a console after this many replies.
fn report_on(cues: u32, console: &Console, tally: Tally) -> Report
    ensures { (d : Desk) → StandsFor d console.now → result ≡ report_of cues d tally }
{
    Report {
        cues: cues as u64,
        moment: console.moment() as u64,
        ok: tally.ok,
        refused: tally.refused,
        sum: sum_of(first_universe(console.frames())),
    }
}

/// The slots of universe 1, of those of all dimmers.
fn first_universe(slots: &[Level]) -> &[Level]
    requires { UNIVERSE_SLOTS ≤ length slots.now }
    ensures slots { result.now ≡ universe 1 slots.now }
    ensures reach { length result.now ≤ UNIVERSE_SLOTS }
{
    &slots[..UNIVERSE_SLOTS]
}

/// The sum of the slots of a universe.
fn sum_of(slots: &[Level]) -> u64
    requires { length slots.now ≤ UNIVERSE_SLOTS }
    ensures { result ≡ sum slots.now }
{
    let mut total = 0;
    for slot in slots {
        total += *slot as u64;
    }
    total
}

/// Appends the lines about a session.
fn put_report<K: Sink>(report: Report, output: &mut K) -> Result<(), SinkFault>
    ensures { Puts K.Sink output.old output.new result (report_text report) }
{
    put_line(b"cues", report.cues, output)?;
    put_line(b"moment", report.moment, output)?;
    put_line(b"ok", report.ok, output)?;
    put_line(b"refused", report.refused, output)?;
    put_line(b"sum", report.sum, output)
}

/// Appends a line of a word and a number.
fn put_line<K: Sink>(word: &[u8], number: u64, output: &mut K) -> Result<(), SinkFault>
    ensures { Puts K.Sink output.old output.new result (line (word.now ∷ decimal number ∷ [])) }
{
    put_all(output, word)?;
    put_all(output, b" ")?;
    put_count(number, output)?;
    put_all(output, b"\n")
}
