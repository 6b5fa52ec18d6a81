//! A sink that drops what it is given.

use lx_io::{Sink, SinkFault};

/// A sink that drops what it is given, and never fails.
#[derive(Drop)]
pub(crate) struct Discard;

impl Sink for Discard {
    ghost use Rattle.std.specs.Prelude.{None, []};

    ghost holds = { λ _. None };

    ghost back = { λ _. [] };

    ghost faults = { λ _. 0 };

    ghost wants = { λ _. 0 };

    fn write(&mut self, piece: &[u8]) -> Result<usize, SinkFault> {
        Ok(piece.len())
    }

    /// Nothing is kept back.
    fn flush(&mut self) -> Result<(), SinkFault> {
        Ok(())
    }
}
