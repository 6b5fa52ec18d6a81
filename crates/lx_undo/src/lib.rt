//! Undo and redo: a desk with the plans that take its edits and records back. To take one back leaves the playback, the
//! faders and the master as they are.
#![tactic(auto)]

mod asked;
mod desk;
mod history;
pub mod laws;
mod session;

pub use desk::UndoDesk;
pub use lx_spec::UndoFault;
pub use session::{undo_session, undo_session_in};
