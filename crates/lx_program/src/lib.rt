//! The program as calls: from the words of its command line to the job that they name, and from that and the bytes that come in to the
//! bytes that go out, over any sources and sinks. Beside them the program's files and its clock: a source for each operator of a crew, and an
//! outlet for each universe of a live run, with its pace.
#![tactic(auto)]

mod calls;
mod crew;
mod exit;
mod live;
mod operators;
mod pace;
mod universes;
mod words;
mod words_heap;

pub use calls::{desk, desk_in};
pub use crew::{desk_crew, desk_crew_in};
pub use exit::exit_of;
pub use live::{desk_live, desk_live_in};
pub use operators::{OperatorFile, scripts};
pub use pace::DeskPace;
pub use universes::{UniverseFile, files};
pub use words::{WordsFault, words_of, words_of_in};
pub use words_heap::WordsHeap;
