//! What a script line means.

ghost use Rattle.std.specs.Prelude.{◌≡◌, ◌∷◌, IfSome, Some, codes};
ghost use Rattle.lx_script.specs.Imports.{tokens, line_of, meaning, ValidLine, left, lone_key};

use crate::first_word::{FirstWord, first_word};
use crate::sentence::sentence;
use lx_base::LINE_BYTES;
use lx_lex::{Tokens, tokens};
use lx_spec::{Command, Key, Line, PlayKey};

/// What a script line means, without its LF. `None` exactly where the line is bad: its first word is unknown, a token
/// is missing, is one too many or isn't what may stand in its place, or the line has more than `LINE_BYTES` bytes.
/// Words are read in either case. The numbers of a line that means something are in their range.
pub fn read_line(line: &[u8]) -> Option<Line<'_>>
    ensures meaning { result ≡ line_of line.now }
    ensures valid { IfSome result ValidLine }
{
    if let Some(key) = lone_key(line) {
        return Some(Line::Command(Command::Key(Key::Play(key))));
    }
    if let Some(lone) = lone_word(line) {
        return Some(lone);
    }
    if line.len() > LINE_BYTES {
        return None;
    }
    any_line(line)
}

/// The key that a line presses which is that key's word in small letters and nothing else, as most lines `go` and `back` are.
/// Of any other line it says nothing.
#[inline(always)]
pub fn lone_key(line: &[u8]) -> Option<PlayKey>
    ensures meaning { IfSome result (λ key. line_of line.now ≡ Some (Line.Command (Command.Key (Key.Play key)))) }
    ensures lone { result ≡ lone_key line.now }
{
    match line {
        [b'g', b'o'] => Some(PlayKey::Go),
        [b'b', b'a', b'c', b'k'] => Some(PlayKey::Back),
        _ => None,
    }
}

/// What a line means that is `tick` or `frame` in small letters and nothing else. Of any other line it says nothing.
#[inline(always)]
fn lone_word(line: &[u8]) -> Option<Line<'_>>
    ensures { IfSome result (λ meaning. line_of line.now ≡ Some meaning) }
{
    match line {
        [b't', b'i', b'c', b'k'] => Some(Line::Ticks(1)),
        [b'f', b'r', b'a', b'm', b'e'] => Some(Line::Frame(1)),
        _ => None,
    }
}

/// What a line of any length means. It is a function of its own, so that a lone word doesn't pay for the room of its tokens.
#[inline(never)]
#[tactic(auto, using(crate::proofs::FirstWords::meaning_is))]
fn any_line(line: &[u8]) -> Option<Line<'_>>
    ensures { result ≡ meaning line.now (tokens line.now) }
{
    if let Some(rest) = behind_frame(line) {
        return sentence(FirstWord::Frame, line, rest);
    }
    let mut rest = tokens(line);
    match rest.next() {
        None => Some(Line::Blank),
        Some(first) => sentence(first_word(first)?, line, rest),
    }
}

/// The tokens behind the first one where that is `frame` in small letters and a space follows at once. Frames are what a script asks for
/// most often, so their word isn't looked for among all others.
#[inline(always)]
fn behind_frame(line: &[u8]) -> Option<Tokens<'_>>
    ensures { IfSome result (λ rest. tokens line.now ≡ codes "frame" ∷ left rest) }
{
    if !line.starts_with(b"frame ") {
        return None;
    }
    Some(tokens(&line[6..]))
}
