//! Lines of a script as they are read, and the lines that answer them.
#![tactic(auto)]

mod cells;
mod edits;
mod first_word;
mod frame;
mod groups_and_patch;
mod keys;
mod line;
mod phrase;
mod reply;
mod rows;
mod second_line;
mod sentence;
mod undo_line;
mod undo_reply;

pub use cells::put_cells;
pub use frame::put_frame;
pub use line::{lone_key, read_line};
pub use lx_spec::Line;
pub use reply::{Reply, put_reply};
pub use second_line::read_second_line;
pub use undo_line::{LineWithUndo, read_line_with_undo};
pub use undo_reply::put_undo_fault;
