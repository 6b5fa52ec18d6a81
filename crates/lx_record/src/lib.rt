//! Record from the stage: a look found live becomes a cue. The cue takes the levels that the playback gives, as
//! moves of the channels where tracking gives others; the desk stays as it is, and the changed show is handed out.
#![tactic(auto)]

mod kept;
pub mod laws;
mod record;
mod staged;

pub use record::{plan_record_in, recorded, recorded_in};
