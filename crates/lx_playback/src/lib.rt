//! Playback of a show: keys, follow-ons and rest.
#![tactic(auto)]

mod keys;
mod playback;
mod run;
mod ticks;

pub use keys::Pressed;
pub use lx_spec::PartTimes;
pub use playback::Playback;
pub use run::{Run, entry_extent};
pub use ticks::Ticked;
