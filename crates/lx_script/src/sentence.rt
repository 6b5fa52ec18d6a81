//! A script line by its first word.

ghost use Rattle.std.specs.Prelude.{◌≡◌};
ghost use Rattle.lx_script.specs.Imports.{sentence_of, left};

use crate::first_word::FirstWord;
use crate::phrase::ended;
use crate::{edits, groups_and_patch, keys};
use lx_lex::Tokens;
use lx_spec::{Line, PlayKey};

/// What a line with this first word and these further tokens means.
pub(crate) fn sentence<'a>(word: FirstWord, line: &'a [u8], rest: Tokens<'a>) -> Option<Line<'a>>
    ensures { result ≡ sentence_of line.now word (left rest.entry) }
{
    match word {
        FirstWord::Go => keys::play(PlayKey::Go, rest),
        FirstWord::Back => keys::play(PlayKey::Back, rest),
        FirstWord::Goto => keys::goto(rest),
        FirstWord::Settle => keys::play(PlayKey::Settle, rest),
        FirstWord::Fader => keys::fader(rest),
        FirstWord::Master => keys::master(rest),
        FirstWord::Tick => keys::ticks(rest),
        FirstWord::Cue => edits::make_cue(rest),
        FirstWord::Delete => edits::delete(rest),
        FirstWord::Set => edits::set(rest),
        FirstWord::Release => edits::release(rest),
        FirstWord::Time => edits::part_time(rest),
        FirstWord::Part => edits::add_part(rest),
        FirstWord::Unpart => edits::delete_part(rest),
        FirstWord::Block => edits::block(rest),
        FirstWord::Unblock => edits::unblock(rest),
        FirstWord::Assert => edits::assert(rest),
        FirstWord::Unassert => edits::unassert(rest),
        FirstWord::Follow => edits::follow(rest),
        FirstWord::Label => edits::label(line, rest),
        FirstWord::Group => groups_and_patch::group_members(rest),
        FirstWord::Sub => groups_and_patch::sub_members(rest),
        FirstWord::Patch => groups_and_patch::patch(rest),
        FirstWord::Unpatch => groups_and_patch::unpatch(rest),
        FirstWord::Frame => keys::frame(rest),
        FirstWord::Sheet => keys::sheet(rest),
        FirstWord::Save => ended(rest, Line::Save),
        FirstWord::Quit => ended(rest, Line::Quit),
    }
}
