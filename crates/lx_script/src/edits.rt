//! Lines that edit cues: what follows their first word.

ghost use Rattle.std.specs.Prelude.{◌≡◌, true, false};
ghost use Rattle.lx_script.specs.Imports.{edit, cue_edit, part_edit, delete_line, set_line, set_channels, set_group, release_line};
ghost use Rattle.lx_script.specs.Imports.{time_line, time_edit, follow_line, label_line, left};

use crate::phrase::{
    at_level, channels, cue_number, delay_or_end, ended, group, in_part, only_or_end, part, takes,
    time, word,
};
use lx_base::{CueNo, PartNo};
use lx_lex::{Tokens, rest_after};
use lx_spec::{Command, Edit, LabelText, Line};

/// The line that asks for an edit.
pub(crate) fn edit(change: Edit<'_>) -> Line<'_>
    ensures { result ≡ edit change.entry }
{
    Line::Command(Command::Edit(change))
}

/// `cue n`
pub(crate) fn make_cue(mut rest: Tokens) -> Option<Line<'_>>
    ensures { result ≡ cue_edit Edit.MakeCue (left rest.entry) }
{
    let cue = cue_number(&mut rest)?;
    ended(rest, edit(Edit::MakeCue { cue }))
}

/// `delete n [only]`
pub(crate) fn delete(mut rest: Tokens) -> Option<Line<'_>>
    ensures { result ≡ delete_line (left rest.entry) }
{
    let cue = cue_number(&mut rest)?;
    let only = only_or_end(rest)?;
    Some(edit(Edit::DeleteCue { cue, only }))
}

/// `set n chan a [thru b] at L [part p] [only]` or `set n group g at L [part p] [only]`
pub(crate) fn set(mut rest: Tokens) -> Option<Line<'_>>
    ensures { result ≡ set_line (left rest.entry) }
{
    let cue = cue_number(&mut rest)?;
    if takes(&mut rest, b"CHAN") {
        return set_channels(cue, rest);
    }
    word(&mut rest, b"GROUP")?;
    set_group(cue, rest)
}

/// `a [thru b] at L [part p] [only]`
fn set_channels(cue: CueNo, mut rest: Tokens) -> Option<Line<'_>>
    ensures { result ≡ set_channels cue (left rest.entry) }
{
    let range = channels(&mut rest)?;
    let level = at_level(&mut rest)?;
    let part = in_part(&mut rest)?;
    let only = only_or_end(rest)?;
    Some(edit(Edit::Set {
        cue,
        part,
        range,
        level,
        only,
    }))
}

/// `g at L [part p] [only]`
fn set_group(cue: CueNo, mut rest: Tokens) -> Option<Line<'_>>
    ensures { result ≡ set_group cue (left rest.entry) }
{
    let group = group(&mut rest)?;
    let level = at_level(&mut rest)?;
    let part = in_part(&mut rest)?;
    let only = only_or_end(rest)?;
    Some(edit(Edit::SetGroup {
        cue,
        part,
        group,
        level,
        only,
    }))
}

/// `release n chan a [thru b] [only]`
pub(crate) fn release(mut rest: Tokens) -> Option<Line<'_>>
    ensures { result ≡ release_line (left rest.entry) }
{
    let cue = cue_number(&mut rest)?;
    word(&mut rest, b"CHAN")?;
    let range = channels(&mut rest)?;
    let only = only_or_end(rest)?;
    Some(edit(Edit::Release { cue, range, only }))
}

/// `time n [part p] up t [d]` or `time n [part p] down t [d]`: part 1 where none is named.
pub(crate) fn part_time(mut rest: Tokens) -> Option<Line<'_>>
    ensures { result ≡ time_line (left rest.entry) }
{
    let cue = cue_number(&mut rest)?;
    let part = in_part(&mut rest)?.unwrap_or(PartNo::BASE);
    if takes(&mut rest, b"UP") {
        return time_and_delay(cue, part, true, rest);
    }
    word(&mut rest, b"DOWN")?;
    time_and_delay(cue, part, false, rest)
}

/// `t [d]`: no delay where it is absent.
fn time_and_delay(cue: CueNo, part: PartNo, rising: bool, mut rest: Tokens) -> Option<Line<'_>>
    ensures { result ≡ time_edit cue part rising (left rest.entry) }
{
    let time = time(&mut rest)?;
    let delay = delay_or_end(rest)?;
    Some(edit(Edit::Time {
        cue,
        part,
        rising,
        time,
        delay,
    }))
}

/// `part n p`
pub(crate) fn add_part(mut rest: Tokens) -> Option<Line<'_>>
    ensures { result ≡ part_edit Edit.AddPart (left rest.entry) }
{
    let cue = cue_number(&mut rest)?;
    let part = part(&mut rest)?;
    ended(rest, edit(Edit::AddPart { cue, part }))
}

/// `unpart n p`
pub(crate) fn delete_part(mut rest: Tokens) -> Option<Line<'_>>
    ensures { result ≡ part_edit Edit.DeletePart (left rest.entry) }
{
    let cue = cue_number(&mut rest)?;
    let part = part(&mut rest)?;
    ended(rest, edit(Edit::DeletePart { cue, part }))
}

/// `block n`
pub(crate) fn block(mut rest: Tokens) -> Option<Line<'_>>
    ensures { result ≡ cue_edit Edit.Block (left rest.entry) }
{
    let cue = cue_number(&mut rest)?;
    ended(rest, edit(Edit::Block { cue }))
}

/// `unblock n`
pub(crate) fn unblock(mut rest: Tokens) -> Option<Line<'_>>
    ensures { result ≡ cue_edit Edit.Unblock (left rest.entry) }
{
    let cue = cue_number(&mut rest)?;
    ended(rest, edit(Edit::Unblock { cue }))
}

/// `assert n`
pub(crate) fn assert(mut rest: Tokens) -> Option<Line<'_>>
    ensures { result ≡ cue_edit (λ n. Edit.Asserted n true) (left rest.entry) }
{
    let cue = cue_number(&mut rest)?;
    ended(rest, edit(Edit::Asserted { cue, on: true }))
}

/// `unassert n`
pub(crate) fn unassert(mut rest: Tokens) -> Option<Line<'_>>
    ensures { result ≡ cue_edit (λ n. Edit.Asserted n false) (left rest.entry) }
{
    let cue = cue_number(&mut rest)?;
    ended(rest, edit(Edit::Asserted { cue, on: false }))
}

/// `follow n t` or `follow n off`
pub(crate) fn follow(mut rest: Tokens) -> Option<Line<'_>>
    ensures { result ≡ follow_line (left rest.entry) }
{
    let cue = cue_number(&mut rest)?;
    if takes(&mut rest, b"OFF") {
        return ended(rest, edit(Edit::Follow { cue, after: None }));
    }
    let after = Some(time(&mut rest)?);
    ended(rest, edit(Edit::Follow { cue, after }))
}

/// `label n`, and a label that is made from the rest of the line after two tokens.
pub(crate) fn label<'a>(line: &'a [u8], mut rest: Tokens<'a>) -> Option<Line<'a>>
    ensures { result ≡ label_line line.now (left rest.entry) }
{
    let cue = cue_number(&mut rest)?;
    let label = LabelText::new(rest_after(line, 2));
    Some(edit(Edit::Name { cue, label }))
}
