//! A live run: the engine publishes what a session accepts, and output workers, each for one universe, write its versions
//! to their own sinks.
#![tactic(auto)]

mod engine;
mod halt;
mod lane;
mod playing;
mod script;
mod worker;

pub use halt::{Halt, Stop, Watch};
pub use lane::Lane;
pub use lx_gate::WriterHeap;
pub use playing::{LiveOutcome, OUTLETS, play, play_in};
pub use worker::{Served, serve};
