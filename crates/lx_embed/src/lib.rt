//! The desk for a program that embeds one: a show's text is opened, script lines are done and answered, ticks go by, and frames,
//! levels and the state of the playback are told. It takes nothing but memory.
#![tactic(auto)]

mod desk;
mod engine;
mod one_line;
mod open;
mod reply;
mod shown;
mod slice_source;
mod state;
mod taken;
mod ticks;

pub use desk::HostDesk;
pub use engine::Engine;
pub use one_line::is_line;
pub use reply::ReplyText;
pub use state::{PlaybackState, RunSpan};
pub use taken::{Taken, TakenSlots};
