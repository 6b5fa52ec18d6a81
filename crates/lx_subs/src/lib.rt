//! What the submasters of a show give its channels, each at its fader.
#![tactic(auto)]

mod contributions;
mod rack;

pub use rack::SubRack;
