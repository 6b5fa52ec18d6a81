//! The level of each channel, kept while runs are live: a stack of fades for each, of which one governs.
#![tactic(auto)]

mod channel;
mod current;
mod hints;
mod levels;
mod motion;
mod racks;
mod replay;
mod runs;

pub use levels::Levels;
