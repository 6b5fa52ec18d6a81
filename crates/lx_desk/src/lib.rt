//! The jobs of the desk as calls: from the bytes that come in to the bytes that go out, over any sources and sinks. Nothing here names a
//! file, a word or a clock.
#![tactic(auto)]

mod check;
mod crew;
mod desk;
mod discard;
mod draws;
mod finish;
mod generator;
mod live;
mod make;
mod play;
mod refuse;
mod room_sink;
mod script;
mod sheet;
mod two;
mod undo;

pub use crew::run_crew_in;
pub use desk::{Status, run_job_in};
pub use live::run_live_in;
