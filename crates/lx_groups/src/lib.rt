//! Groups at a level: each member at its own level in proportion.
#![tactic(auto)]

mod group;
mod scaled;

pub use group::members;
pub use scaled::Members;
