//! The lines within a cue, a group or a submaster that aren't of levels: what they say goes to the open record.

ghost use Rattle.std.specs.Prelude.{◌≡◌, List, ℕ, false};
ghost use Rattle.lx_reader.specs.Imports.{cue_entry, members_entry, left, CueSays, HasParts, LabelSays, facts_at, is_levels};

use crate::numbers::{next_cue_no, next_part, next_time, next_times};
use crate::times::{ensure_part, set_down, set_up};
use lx_base::PartNo;
use lx_lex::{Tokens, rest_after};
use lx_show::Cue;
use lx_spec::{Label, TextFault, Word};

/// A line in a cue, in this part. It answers whether the line says something; a line of another word doesn't.
pub(crate) fn line_of_cue(
    cue: &mut Cue,
    part: &mut PartNo,
    i: u32,
    line: &[u8],
    word: Word,
    tokens: Tokens,
) -> Result<bool, TextFault>
    requires parts { HasParts cue.old part.old }
    requires other { is_levels word ≡ false }
    ensures { CueSays (cue_entry (facts_at i) line.now word (left tokens.entry)) cue.old cue.new part.old part.new result }
{
    match word {
        Word::Part => {
            let next = next_part(i, tokens)?;
            ensure_part(cue, next);
            *part = next;
        }
        Word::Up => {
            let (time, delay) = next_times(i, tokens)?;
            set_up(cue, *part, time, delay);
        }
        Word::Down => {
            let (time, delay) = next_times(i, tokens)?;
            set_down(cue, *part, time, delay);
        }
        Word::FollowOn => cue.follow = Some(next_time(i, tokens)?),
        Word::Link => cue.link = Some(next_cue_no(i, tokens)?),
        Word::Text => cue.label = Label::new(rest_after(line, 1)),
        Word::Block => cue.block = true,
        Word::Assert => cue.asserted = true,
        _ => return Ok(false),
    }
    Ok(true)
}

/// A line in a group or submaster, of which this is the label. It answers whether the line says something.
pub(crate) fn line_of_set(old: &mut Label, line: &[u8], word: Word) -> bool
    requires { is_levels word ≡ false }
    ensures { (i : ℕ) (rest : List (List ℕ)) → LabelSays (members_entry (facts_at i) line.now word rest) old.old old.new result }
{
    match word {
        Word::Text => {
            *old = Label::new(rest_after(line, 1));
            true
        }
        _ => false,
    }
}
