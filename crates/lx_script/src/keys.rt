//! Lines that press keys, move faders, let time pass or ask for a line: what follows their first word.

ghost use Rattle.std.specs.Prelude.{◌≡◌};
ghost use Rattle.lx_script.specs.Imports.{ended, fader_line, master_line, goto_line, tick_line, frame_line, sheet_line, left};

use crate::phrase::{at_level, cue_number, ended, sub};
use lx_base::{TICKS, UNIVERSES};
use lx_lex::{Tokens, read_whole};
use lx_spec::{Command, Key, Line, PlayKey};

/// The line that presses a key or moves a fader.
fn key(key: Key) -> Line<'static>
    ensures { result ≡ Line.Command (Command.Key key) }
{
    Line::Command(Command::Key(key))
}

/// `go`, `back` or `settle`
pub(crate) fn play(play_key: PlayKey, rest: Tokens) -> Option<Line<'_>>
    ensures { result ≡ ended (left rest.entry) (Line.Command (Command.Key (Key.Play play_key))) }
{
    ended(rest, key(Key::Play(play_key)))
}

/// `goto n`
pub(crate) fn goto(mut rest: Tokens) -> Option<Line<'_>>
    ensures { result ≡ goto_line (left rest.entry) }
{
    let cue = cue_number(&mut rest)?;
    play(PlayKey::Goto(cue), rest)
}

/// `fader s at L`
pub(crate) fn fader(mut rest: Tokens) -> Option<Line<'_>>
    ensures { result ≡ fader_line (left rest.entry) }
{
    let sub = sub(&mut rest)?;
    let level = at_level(&mut rest)?;
    ended(rest, key(Key::Fader { sub, level }))
}

/// `master at L`
pub(crate) fn master(mut rest: Tokens) -> Option<Line<'_>>
    ensures { result ≡ master_line (left rest.entry) }
{
    let level = at_level(&mut rest)?;
    ended(rest, key(Key::Master { level }))
}

/// `tick [k]`: one tick where no number is named.
pub(crate) fn ticks(mut rest: Tokens) -> Option<Line<'_>>
    ensures { result ≡ tick_line (left rest.entry) }
{
    match rest.next() {
        None => Some(Line::Ticks(1)),
        Some(count) => ended(rest, Line::Ticks(read_whole(count, 1, TICKS).ok()?)),
    }
}

/// `frame [u]`: the first universe where none is named.
pub(crate) fn frame(mut rest: Tokens) -> Option<Line<'_>>
    ensures { result ≡ frame_line (left rest.entry) }
{
    let Some(universe) = rest.next() else {
        return Some(Line::Frame(1));
    };
    let universe = read_whole(universe, 1, UNIVERSES as u32).ok()?;
    ended(rest, Line::Frame(universe as u8))
}

/// `sheet n`
pub(crate) fn sheet(mut rest: Tokens) -> Option<Line<'_>>
    ensures { result ≡ sheet_line (left rest.entry) }
{
    let cue = cue_number(&mut rest)?;
    ended(rest, Line::SheetOf(cue))
}
