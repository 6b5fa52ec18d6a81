//! Times and moments.

/// A time or a delay, in hundredths of a second.
pub type Cs = u32;

/// A moment, in hundredths of a second after the opening.
pub type Moment = u32;
