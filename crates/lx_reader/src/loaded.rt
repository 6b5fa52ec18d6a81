//! What reading a show text gives.

use lx_show::Show;

/// A show that was read.
#[derive(Drop)]
pub struct Loaded {
    /// The show.
    pub show: Show,
    /// How many lines were skipped.
    pub skipped: u32,
    /// The number of the first of them, or 0.
    pub first_skipped: u32,
}
