//! Lines for a second cue list.

ghost use Rattle.std.specs.Prelude.{◌≡◌, IfSome};
ghost use Rattle.lx_script.specs.Imports.{line_of, where_of_second, is_of_second, commands_second, ValidLine};

use crate::line::read_line;
use lx_spec::{Command, Edit, Key, Line};

/// What the rest of a script line means that is for a second cue list. `None` also where such a list doesn't take it: it
/// takes keys of the playback, edits but those of submasters and the patch, and lines `save` and `sheet n`.
pub fn read_second_line(rest: &[u8]) -> Option<Line<'_>>
    ensures meaning { result ≡ where_of_second (line_of rest.now) }
    ensures valid { IfSome result ValidLine }
{
    let line = read_line(rest)?;
    if is_of_second(&line) {
        Some(line)
    } else {
        None
    }
}

/// A second cue list takes the line.
fn is_of_second(line: &Line) -> bool
    ensures { result ≡ is_of_second line.now }
{
    match line {
        Line::Command(command) => takes_command(command),
        Line::Save | Line::SheetOf(_) => true,
        _ => false,
    }
}

/// A second cue list takes the command.
fn takes_command(command: &Command) -> bool
    ensures { result ≡ commands_second command.now }
{
    match command {
        Command::Edit(edit) => !matches!(
            edit,
            Edit::SubMember { .. } | Edit::Patch { .. } | Edit::Unpatch { .. }
        ),
        Command::Key(key) => matches!(key, Key::Play(_)),
        Command::Tick => false,
    }
}
