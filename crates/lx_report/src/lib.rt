//! What is written about a show's cues: the row line of a cue, and the list of all cues with their rows.
#![tactic(auto)]

mod cue_line;
mod cue_list;
mod row;

pub use cue_list::put_cue_list;
pub use row::put_row;
