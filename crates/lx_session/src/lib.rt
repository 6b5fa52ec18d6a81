//! A session: the lines of a script, each taken through its commands on a console and answered.
#![tactic(auto)]

mod answers;
mod beside;
mod fault;
mod finish;
mod key;
mod line;
mod listener;
mod quit;
mod script;
mod take;
mod tally;
mod turn;

pub use answers::Answers;
pub use fault::SessionFault;
pub use line::{answer, answer_in, answer_inlined};
pub use listener::{Listener, NoListener};
pub use quit::is_quit;
pub use script::{answer_lines_in, session, session_in, session_with_in};
pub use tally::Tally;
pub use turn::Turn;
