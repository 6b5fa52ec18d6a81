//! The patch of a show, kept so that the slots of all its dimmers are filled in by one pass.
#![tactic(auto)]

mod followers;
mod slots;
mod table;
mod wiring;

pub use table::PatchTable;
