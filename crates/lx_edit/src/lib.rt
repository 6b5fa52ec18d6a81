//! Edits of a show: planned whole, and then applied whole. A plan is refused where the edit is, for what it
//! names and the show lacks, for a stated limit, or as out of memory, and nothing is changed. It takes all
//! memory that the edit needs, so that to apply it takes none.
#![tactic(auto)]

mod absent;
mod application;
mod blocks;
mod chan_set;
mod cue_edits;
mod dirty;
mod kept;
mod levels;
mod marks;
mod members;
mod moves;
mod patch_edits;
pub mod planning;
mod plans;

pub use absent::channel;
pub use application::Exchanged;
pub use chan_set::ChanSet;
pub use dirty::Dirty;
pub use moves::{add, with_levels, with_moves};
pub use plans::Plan;
