//! Tracked rows: the level that each channel has in each cue, kept so that nobody has to look back for
//! it. A cue holds what it changes, and a row holds what the stage looks like.
#![tactic(auto)]

mod block;
mod edits;
mod look;
mod marks;
mod opening;
mod pool;
mod sheet;

pub use sheet::Sheet;
