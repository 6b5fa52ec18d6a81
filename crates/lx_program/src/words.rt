//! The words of the command line.

ghost use Rattle.std.specs.Prelude.{◌≡◌, ◌≤◌, true, false, None, Some, Err, map, option_map, string_bytes, IfOk, IfErr, IfSome};
ghost use Rattle.lx_program.specs.Imports.{list_any, job_of, form_of, number_alone, plain_number, counted_job, ended, JobInRange, NamesNoCrew};
ghost use Rattle.lx_program.specs.Imports.{NamesNoRun, begins_with_dash};
ghost use Rattle.lx_base.specs.declared.TheConstants.{OPERATORS, UNIVERSES};
ghost use Rattle.lx_spec.specs.declared.Job.TheVariants.{Crew, Script};
ghost use Rattle.lx_spec.specs.declared.ScriptKind.TheVariants.{Live};
ghost use Rattle.lx_io.specs.Causes.{HasCauseOf};

use crate::words_heap::{WORD, WordsHeap};
use lx_base::{CUES, OPERATORS, UNIVERSES};
use lx_lex::read_whole;
use lx_spec::{Form, Job, ScriptKind};
use std::alloc::Global;

/// Why a list of words names no job.
#[derive(Clone, Copy, Debug, PartialEq, Eq)]
pub enum WordsFault {
    /// The words aren't one of the forms.
    Usage,
    /// Out of memory.
    Memory,
}

/// The job that the words name: `check`, `render`, `sheet`, `undo` or `two`, or one of them and `states`; or `make` and a number
/// of cues. It may also be `run` and a number of universes or `crew` and a number of operators, or these and `states`. `Usage`
/// comes exactly where they are none of these, and at once where a word begins with a dash.
pub fn words_of(alloc: Global, words: &[String]) -> Result<Job, WordsFault>
    ensures job { IfOk result (λ job. job_of (map string_bytes words.now) ≡ Some job) }
    ensures range { IfOk result JobInRange }
    ensures usage { result ≡ Err WordsFault.Usage → job_of (map string_bytes words.now) ≡ None }
    ensures dash { list_any begins_with_dash (map string_bytes words.now) ≡ true → result ≡ Err WordsFault.Usage }
{
    words_of_in(&mut WordsHeap::new(alloc), words)
}

/// The same, with the memory of this heap. `Memory` comes only where it refused some.
pub fn words_of_in(heap: &mut WordsHeap, words: &[String]) -> Result<Job, WordsFault>
    ensures job { IfOk result (λ job. job_of (map string_bytes words.now) ≡ Some job) }
    ensures range { IfOk result JobInRange }
    ensures usage { result ≡ Err WordsFault.Usage → job_of (map string_bytes words.now) ≡ None }
    ensures dash { list_any begins_with_dash (map string_bytes words.now) ≡ true → result ≡ Err WordsFault.Usage }
    ensures cause { HasCauseOf WordsFault.Memory heap.old heap.new result }
{
    if has_dash(words) {
        return Err(WordsFault::Usage);
    }
    // Every other list is taken, so that nothing but memory can run out.
    let Ok(matches) = heap.matches(words) else {
        return Err(WordsFault::Memory);
    };
    let Some(given) = matches.get_strs(WORD) else {
        return Err(WordsFault::Usage);
    };
    match job_in(given) {
        Some(job) => Ok(job),
        None => Err(WordsFault::Usage),
    }
}

/// How many universes are played live, and how the levels are read, where the words name a live run; `Usage` exactly where they name none.
pub(crate) fn live_run_of(heap: &mut WordsHeap, words: &[String]) -> Result<(u8, Form), WordsFault>
    ensures run { IfOk result (λ named. job_of (map string_bytes words.now) ≡ Some (Script (Live named.0) named.1)) }
    ensures range { IfOk result (λ named. (1 ≤ named.0) × (named.0 ≤ UNIVERSES)) }
    ensures usage { result ≡ Err WordsFault.Usage → NamesNoRun (job_of (map string_bytes words.now)) }
    ensures dash { list_any begins_with_dash (map string_bytes words.now) ≡ true → result ≡ Err WordsFault.Usage }
    ensures cause { HasCauseOf WordsFault.Memory heap.old heap.new result }
{
    match words_of_in(heap, words)? {
        Job::Script(kind, form) => match kind {
            ScriptKind::Live(universes) => Ok((universes, form)),
            ScriptKind::Render | ScriptKind::Undo | ScriptKind::Two => Err(WordsFault::Usage),
        },
        Job::Check(_) | Job::Sheet(_) | Job::Make(_) | Job::Crew(..) => Err(WordsFault::Usage),
    }
}

/// How many operators there are, and how the levels are read, where the words name a crew; `Usage` exactly where they name none.
pub(crate) fn crew_of(heap: &mut WordsHeap, words: &[String]) -> Result<(u8, Form), WordsFault>
    ensures crew { IfOk result (λ named. job_of (map string_bytes words.now) ≡ Some (Crew named.0 named.1)) }
    ensures range { IfOk result (λ named. (1 ≤ named.0) × (named.0 ≤ OPERATORS)) }
    ensures usage { result ≡ Err WordsFault.Usage → NamesNoCrew (job_of (map string_bytes words.now)) }
    ensures dash { list_any begins_with_dash (map string_bytes words.now) ≡ true → result ≡ Err WordsFault.Usage }
    ensures cause { HasCauseOf WordsFault.Memory heap.old heap.new result }
{
    match words_of_in(heap, words)? {
        Job::Crew(operators, form) => Ok((operators, form)),
        Job::Check(_) | Job::Sheet(_) | Job::Make(_) | Job::Script(..) => Err(WordsFault::Usage),
    }
}

/// A word begins with a dash.
fn has_dash(words: &[String]) -> bool
    ensures { result ≡ list_any begins_with_dash (map string_bytes words.now) }
{
    for word in words {
        if begins_with_dash(word) {
            return true;
        }
    }
    false
}

fn begins_with_dash(word: &str) -> bool
    ensures { result ≡ begins_with_dash word.now }
{
    matches!(word.as_bytes(), [b'-', ..])
}

/// The job that the words name.
fn job_in(words: &[&str]) -> Option<Job>
    ensures job { result ≡ job_of (map (λ word. word.now) words.now) }
    ensures range { IfSome result JobInRange }
{
    let (name, rest) = words.split_first()?;
    match *name {
        "check" => form_in(rest).map(Job::Check),
        "render" => script_in(ScriptKind::Render, rest),
        "sheet" => form_in(rest).map(Job::Sheet),
        "make" => number_alone(CUES as u32, rest).map(Job::Make),
        "run" => run_in(rest),
        "undo" => script_in(ScriptKind::Undo, rest),
        "two" => script_in(ScriptKind::Two, rest),
        "crew" => crew_in(rest),
        _ => None,
    }
}

/// A script of this kind, and how the levels are read.
fn script_in(kind: ScriptKind, words: &[&str]) -> Option<Job>
    ensures { result ≡ option_map (Script kind) (form_of (map (λ word. word.now) words.now)) }
{
    let form = form_in(words)?;
    Some(Job::Script(kind, form))
}

/// How many universes are played live, and how the levels are read.
fn run_in(words: &[&str]) -> Option<Job>
    ensures job { result ≡ counted_job UNIVERSES (λ universes. Script (Live universes)) (map (λ word. word.now) words.now) }
    ensures range { IfSome result JobInRange }
{
    let (word, rest) = words.split_first()?;
    let universes = plain_number(u32::from(UNIVERSES), word)?;
    let form = form_in(rest)?;
    Some(Job::Script(ScriptKind::Live(universes as u8), form))
}

/// How many operators there are, and how the levels are read.
fn crew_in(words: &[&str]) -> Option<Job>
    ensures job { result ≡ counted_job OPERATORS Crew (map (λ word. word.now) words.now) }
    ensures range { IfSome result JobInRange }
{
    let (word, rest) = words.split_first()?;
    let operators = plain_number(u32::from(OPERATORS), word)?;
    let form = form_in(rest)?;
    Some(Job::Crew(operators as u8, form))
}

/// The number, where no further word is given.
fn number_alone(most: u32, words: &[&str]) -> Option<u32>
    ensures { result ≡ number_alone most (map (λ word. word.now) words.now) }
{
    let (word, rest) = words.split_first()?;
    let number = plain_number(most, word)?;
    ended(rest, number)
}

/// A number from 1 up to the most: digits without a leading zero.
fn plain_number(most: u32, word: &str) -> Option<u32>
    ensures number { result ≡ plain_number most word.now }
    ensures within { IfSome result (λ n. (1 ≤ n) × (n ≤ most)) }
{
    match word.as_bytes() {
        [b'0', ..] => None,
        digits => read_whole(digits, 1, most).ok(),
    }
}

/// How the levels are read: as moves, or with the word `states` as whole looks.
fn form_in(words: &[&str]) -> Option<Form>
    ensures { result ≡ form_of (map (λ word. word.now) words.now) }
{
    let Some((word, rest)) = words.split_first() else {
        return Some(Form::Moves);
    };
    match *word {
        "states" => ended(rest, Form::States),
        _ => None,
    }
}

/// The answer, where no further word is given.
fn ended<A: Copy>(words: &[&str], answer: A) -> Option<A>
    ensures { result ≡ ended (map (λ word. word.now) words.now) answer }
{
    match words {
        [] => Some(answer),
        _ => None,
    }
}
