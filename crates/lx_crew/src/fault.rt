//! Why an operator's lines ended before its script did.

/// Why an operator's lines ended before its script did.
#[derive(Clone, Copy, Debug, PartialEq, Eq)]
pub enum OperatorFault {
    /// Its source failed at a read.
    ReadFault,
    /// A line that is wanted has a byte past the 67,108,864th of its source.
    InputTooLong,
}
