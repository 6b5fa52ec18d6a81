//! A crew: several operators send the lines of their scripts at the same time, through one queue, to an engine that answers each.
#![tactic(auto)]

mod answering;
mod engine;
mod entry;
mod fault;
mod follows;
mod operator;
mod queue_heap;
mod rule;
mod running;

pub use engine::CrewEngine;
pub use entry::{LineText, Message, Sent};
pub use fault::OperatorFault;
pub use follows::Follows;
pub use operator::Operator;
pub use queue_heap::QueueHeap;
pub use rule::{Enters, Gets, Leaves, Queue, QueueLaw, Sends, Total, View};
pub use running::{Crewed, crew, crew_in};
