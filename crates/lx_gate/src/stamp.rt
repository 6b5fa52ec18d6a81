//! Which version it is.

/// How many commands led to a version, and its moment in hundredths of a second.
#[derive(Clone, Copy, Debug, PartialEq, Eq)]
pub struct Stamp {
    pub count: u64,
    pub moment: u32,
}
