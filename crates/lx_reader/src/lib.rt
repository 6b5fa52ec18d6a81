//! Reads a show text: one pass over its lines, with a running state.
#![tactic(auto)]

mod fault;
mod lists;
mod loaded;
mod looks;
mod numbers;
mod open_moves;
mod open_record;
mod outer_line;
mod pass;
mod percents;
mod reader;
mod reading;
mod record_lines;
mod rows;
mod times;
mod word;

pub use fault::ShowFault;
pub use loaded::Loaded;
pub use pass::{read_show, read_show_in};
