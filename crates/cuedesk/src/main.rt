//! A tracking lighting desk's engine as a program: it reads a show, and a script, from standard input, and writes replies
//! and frames, or what there is to tell of the show, to standard output.
#![tactic(auto)]

use lx_crew::QueueHeap;
use lx_desk::Status;
use lx_io::{BufferedSink, Sink, StdSink, StdSource, SystemHeap};
use lx_program::{
    DeskPace, WordsFault, WordsHeap, desk_crew_in, desk_in, desk_live_in, exit_of, files, scripts,
    words_of_in,
};
use lx_spec::{Job, ScriptKind};
use lx_workers::WriterHeap;
use std::alloc::Global;
use std::io::IsTerminal;
use std::process::ExitCode;
use std::{env, io};

/// The line that says how the program is used.
const USAGE: &str = "usage: cuedesk check|render|sheet [states] | make N | run U [states]";

/// What a person at a terminal is told behind the usage line: the jobs, and where there is more.
const JOBS: &str = "
  check    counts a show's cues and channels, and the lines that were skipped
  sheet    lists each cue with the level of every channel in it
  render   plays the script behind a show, and answers each of its lines
  run U    as render, at real speed: the frames of universes 1 to U go to files
  make N   makes a show of N cues and plays it, as a test of the program
  undo     as render, with undo, redo and record
  two      as render, over two cue lists that play beside each other
  crew N   plays the scripts of N operators at the same time, from files

The show comes from standard input. All but make take the word states behind
them: the levels of each cue are then its whole look, and not its changes alone.
The manual: man cuedesk, docs/GUIDE.md";

/// The words after the program's name.
fn words_given(rt: &HostRuntime) -> io::Result<Vec<String>> {
    let alloc: Global = rt.alloc();
    let mut words = Vec::new(alloc);
    for word in env::args(rt)?.skip(1) {
        words.push(word)?;
    }
    Ok(words)
}

/// How the program ends where its words can't be taken: without memory for them, or with one that isn't text, which names no job.
fn status_without_words(error: &io::Error) -> Status {
    match error.kind() {
        io::ErrorKind::OutOfMemory => Status::Memory,
        _ => Status::Usage,
    }
}

/// Says on standard error how the program is used. Programs compare the line, so only a person, at a terminal, gets the jobs too.
fn tell_usage(rt: &HostRuntime) {
    let _ = eprintln!(rt; "{USAGE}");
    if rt.stderr().is_terminal() {
        let _ = eprintln!(rt; "{JOBS}");
    }
}

/// Ends with the status. Where the words name no job, standard error says how the program is used.
fn end(rt: &HostRuntime, status: Status) -> ExitCode {
    if matches!(status, Status::Usage | Status::Live) {
        tell_usage(rt);
    }
    ExitCode::from(exit_of(status))
}

/// The status where what was written couldn't be handed on at the end: a fault that there was before stays.
fn status_unwritten(status: Status) -> Status {
    match status {
        Status::Ok | Status::ShowRefused => Status::WriteFault,
        fault => fault,
    }
}

fn main(rt: HostRuntime) -> ExitCode {
    let alloc: Global = rt.alloc();
    let words = match words_given(&rt) {
        Ok(words) => words,
        Err(error) => return end(&rt, status_without_words(&error)),
    };
    let mut input = StdSource::new(rt.stdin());
    let mut output = BufferedSink::new(alloc, StdSink::new(rt.stdout()));
    let mut heap = SystemHeap::new(alloc);
    let mut words_heap = WordsHeap::new(alloc);
    let status = match words_of_in(&mut words_heap, &words) {
        Ok(Job::Crew(..)) => {
            let mut operators = scripts(&rt);
            desk_crew_in(
                &rt,
                &mut heap,
                &mut QueueHeap::new(alloc),
                &mut words_heap,
                &words,
                &mut input,
                &mut output,
                &mut operators,
            )
        }
        Ok(Job::Script(ScriptKind::Live(_), _)) => {
            let mut outlets = files(&rt, alloc);
            desk_live_in(
                &rt,
                &mut heap,
                &mut WriterHeap::new(alloc),
                &mut words_heap,
                &words,
                &mut input,
                &mut output,
                &mut outlets,
                &DeskPace::new(&rt),
            )
        }
        Ok(_) => desk_in(&mut heap, &mut words_heap, &words, &mut input, &mut output),
        Err(WordsFault::Usage) => Status::Usage,
        Err(WordsFault::Memory) => Status::Memory,
    };
    // What was answered before a fault is handed on as far as it can be.
    match output.flush() {
        Ok(()) => end(&rt, status),
        Err(_) => end(&rt, status_unwritten(status)),
    }
}
