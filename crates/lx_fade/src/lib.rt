//! Fades of one channel, kept as a stack in a lent row: the newest fade that has begun gives the
//! level.
#![tactic(auto)]

mod fade;
mod held;
pub mod laws;
mod stack;

pub use fade::{Fade, value_at};
pub use held::{Held, NEVER, held_at};
pub use stack::{Column, Push, push_fade, push_in, value, value_in};
