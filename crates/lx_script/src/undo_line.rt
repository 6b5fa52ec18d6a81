//! Lines that ask something of the history of a desk: `undo`, `redo` and `record n [only]`.

ghost use Rattle.std.specs.Prelude.{◌≡◌, ◌∷◌, false, None, IfSome};
ghost use Rattle.lx_script.specs.Imports.{tokens, undo_meaning, record_line, left, NamesCue, is_other_letter, IsReadWithUndo};
ghost use Rattle.lx_script.specs.Imports.{IsValidWithUndo, MeansWithUndo};

use crate::first_word::first_word;
use crate::line::read_line;
use crate::phrase::{cue_number, ended, only_or_end};
use crate::sentence::sentence;
use lx_base::LINE_BYTES;
use lx_lex::{Tokens, tokens, word_is};
use lx_spec::{Line, UndoLine};

/// What a script line means where edits can be undone.
#[derive(PartialEq, Eq, Drop)]
pub enum LineWithUndo<'a> {
    /// It asks this of the history.
    OfHistory(UndoLine),
    /// It asks nothing of the history, and means this to the desk: nothing where it is bad.
    OfDesk(Option<Line<'a>>),
}

/// What a script line means, without its LF, where edits can be undone. It is for the history exactly where it is one of the
/// three lines, and has at most `LINE_BYTES` bytes; else it means what `read_line` says. Words are read in either case.
///
/// A line that begins with another letter than those three costs the look at that letter.
pub fn read_line_with_undo(line: &[u8]) -> LineWithUndo<'_>
    ensures meaning { IsReadWithUndo result line.now }
    ensures valid { IsValidWithUndo result }
{
    if line.len() > LINE_BYTES || !may_ask(line) {
        return LineWithUndo::OfDesk(read_line(line));
    }
    any_line(line)
}

/// Whether the first byte leaves it open that the line is one of the three.
fn may_ask(line: &[u8]) -> bool
    ensures { result ≡ false → undo_meaning (tokens line.now) ≡ None }
{
    match line {
        [first, ..] => !is_other_letter(*first),
        [] => false,
    }
}

/// A letter with which none of the three lines begins.
fn is_other_letter(b: u8) -> bool
    ensures { result ≡ is_other_letter b }
{
    match b {
        b'U' | b'u' | b'R' | b'r' => false,
        _ => b.is_ascii_alphabetic(),
    }
}

/// What a line of any length means.
fn any_line(line: &[u8]) -> LineWithUndo<'_>
    ensures { MeansWithUndo result line.now (tokens line.now) }
{
    let mut rest = tokens(line);
    match rest.next() {
        None => LineWithUndo::OfDesk(Some(Line::Blank)),
        Some(first) => by_word(first, line, rest),
    }
}

/// What a line with this first word and these further tokens means.
#[tactic(auto, using(crate::proofs::FirstWords::meaning_is))]
fn by_word<'a>(first: &[u8], line: &'a [u8], rest: Tokens<'a>) -> LineWithUndo<'a>
    ensures { MeansWithUndo result line.now (first.now ∷ left rest.entry) }
{
    if let Some(word) = first_word(first) {
        return LineWithUndo::OfDesk(sentence(word, line, rest));
    }
    match history_line(first, rest) {
        Some(what) => LineWithUndo::OfHistory(what),
        None => LineWithUndo::OfDesk(None),
    }
}

/// What a line with this first word and these further tokens asks of the history.
fn history_line(first: &[u8], rest: Tokens) -> Option<UndoLine>
    ensures meaning { result ≡ undo_meaning (first.now ∷ left rest.entry) }
    ensures cue { IfSome result NamesCue }
{
    if word_is(first, b"UNDO") {
        return ended(rest, UndoLine::Undo);
    }
    if word_is(first, b"REDO") {
        return ended(rest, UndoLine::Redo);
    }
    if word_is(first, b"RECORD") {
        return record_of(rest);
    }
    None
}

/// `record n [only]`
fn record_of(mut rest: Tokens) -> Option<UndoLine>
    ensures { result ≡ record_line (left rest.entry) }
{
    let cue = cue_number(&mut rest)?;
    let only = only_or_end(rest)?;
    Some(UndoLine::Record { cue, only })
}
