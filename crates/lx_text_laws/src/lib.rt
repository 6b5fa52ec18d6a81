//! Laws of show texts: what is written of a show reads back as that show, a text of looks gives the levels of its looks, and a text
//! from before cue numbers became finer keeps its meaning. Each is the contract of a function with nothing to do; `read_back` and
//! `read_text` carry the first and the last to the writer and the reader.
#![tactic(auto)]

mod memory;
mod written;

ghost use Rattle.lx_text_laws.specs.RoundTrip.{LawOfRoundTrip};
ghost use Rattle.lx_text_laws.specs.LookLevels.{LawOfLooks};
ghost use Rattle.lx_text_laws.specs.OldTexts.{LawOfOldTexts};

pub use memory::read_text;
pub use written::read_back;

/// The canonical text of a valid show reads back as that show, with no skipped line.
pub fn round_trip()
    ensures { LawOfRoundTrip }
{}

/// Where a text is read as looks, each channel's tracked level at each cue is the one that the text names for it in that
/// cue, or 0.
pub fn looks()
    ensures { LawOfLooks }
{}

/// A text that could be read under limits with one decimal less to a cue number is read as the same show, each cue number
/// and each link ten times as fine, with the same counts of skipped lines. Its show ends at the same line.
pub fn old_texts()
    ensures { LawOfOldTexts }
{}
