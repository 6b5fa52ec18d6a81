//! The desk: a show in playback, with the levels of its channels and the frames of its dimmers kept.
#![tactic(auto)]

mod change;
mod console;
mod kept_output;
pub mod laws;
mod levels;
mod player;
mod slots;
mod ticks;
mod unseen;

pub use change::Change;
pub use console::Console;
pub use kept_output::KeptOutput;
pub use player::{Applied, Passed, Player};
pub use slots::slots_of;
