//! The canonical text of a show.
#![tactic(auto)]

mod cue;
mod lines;
mod part;
mod pieces;
mod record;
mod rows;
mod show;

pub use show::write_show;
