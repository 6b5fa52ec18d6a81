//! The mix of playback and submasters, under the master.
#![tactic(auto)]

mod mix;

pub use mix::mix_into;
