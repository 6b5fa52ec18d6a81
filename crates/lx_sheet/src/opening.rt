//! A sheet is filled in whole, as at the opening: the rows of all cues and their marks, in one pass over the moves. No call takes memory.

ghost use Rattle.std.specs.Prelude.{◌≡◌, ℕ, ◌+◌, ◌*◌, ◌<◌, ◌≤◌, get_or, length, max, take, vec_capacity};
ghost use Rattle.lx_sheet.specs.Imports.{AllByRecursion, ValidCue, cell, width, IsGrown, IsMarkTable, IsMarkedFor, IsReached, level_after};
ghost use Rattle.lx_base.specs.declared.TheConstants.{CUES, CHANNELS};
ghost use Rattle.lx_spec.specs.Show.{Cue as CueData};

use crate::block::{reach, write_row};
use crate::look::track;
use crate::marks::Marks;
use lx_base::Level;
use lx_show::Cue;

/// Fills in the row at each cue's place from the one before, and writes its marks right then, while its moves are at hand in the
/// processor's cache. In a show of many moves they are nearly all that has to be fetched. The block and the table of marks reach over a
/// row only when it is written, so that what they grow by is at hand too.
pub(crate) fn fill_all(levels: &mut Vec<Level>, look: &mut [Level], marks: &mut Marks, cues: &[Cue])
    requires few { length look.old ≤ CHANNELS }
    requires rows { length cues.now ≤ CUES }
    requires room { CUES * width (length look.old) ≤ vec_capacity levels.old }
    requires valid { AllByRecursion (ValidCue (length look.old)) cues.now }
    requires table { IsMarkTable (length look.old) marks.old }
    ensures levels { (k : ℕ) → k < length cues.now → (c : ℕ)
        → cell (length look.old) levels.new.items k c ≡ level_after (take (k + 1) cues.now) c }
    ensures length { length levels.new.items ≡ max (length levels.old.items) (length cues.now * width (length look.old)) }
    ensures room { vec_capacity levels.old ≤ vec_capacity levels.new }
    ensures table { IsGrown marks.old marks.new }
    ensures reach { (r : ℕ) → r < length cues.now → IsReached marks.new r }
    ensures marks { (k : ℕ) (cue : CueData) → k < length cues.now → cue ≡ get_or cues.now k cue
        → IsMarkedFor (length look.old) marks.new k cue }
{
    look.fill(0);
    for place in 0..cues.len() {
        let cue = &cues[place];
        track(look, cue);
        reach(levels, look.len(), place + 1);
        write_row(levels, look, place);
        marks.reach(place + 1);
        marks.write(place, cue);
    }
}
