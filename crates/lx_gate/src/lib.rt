//! Versions of the desk's frames: one gate publishes them, and a tap for each universe takes them without waiting.
#![tactic(auto)]

mod desk;
mod gate;
mod history;
mod note;
mod origin;
mod port;
mod rule;
mod senders;
mod stamp;
mod start;
mod tap;
mod unsent;
mod version;
mod writer_heap;

pub use gate::{Gate, GateWriter, Window};
pub use history::{EmptyHistory, History, Prefix};
pub use note::Note;
pub use origin::Origin;
pub use port::{GatePort, GateReader, LrPort, Port};
pub use rule::{GateRule, Shows};
pub use stamp::Stamp;
pub use tap::Tap;
pub use unsent::Unsent;
pub use version::{Commit, Version};
pub use writer_heap::WriterHeap;
