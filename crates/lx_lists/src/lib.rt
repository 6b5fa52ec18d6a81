//! Two cue lists that play beside each other, as the house lights' list beside the show's: the greatest governs,
//! under the first list's patch, submasters and master.
#![tactic(auto)]

mod attempts;
mod desk;
mod frame;
pub mod laws;
mod output;
mod session;
mod split;

pub use desk::TwoLists;
pub use session::{two_session, two_session_in};
