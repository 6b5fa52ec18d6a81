//! A sink over room that it was given.

ghost use Rattle.std.specs.Prelude.{◌≡◌};

use lx_io::{Sink, SinkFault};

/// A sink that keeps its bytes in a vector's room and takes no memory. What doesn't fit is refused with `Memory`, and `Failed` never comes.
#[derive(Drop)]
pub(crate) struct RoomSink {
    bytes: Vec<u8>,
    wants: u64,
}

impl RoomSink {
    /// A sink that appends to the vector, as far as its room goes.
    pub(crate) fn new(room: Vec<u8>) -> RoomSink
        ensures { result.bytes.items ≡ room.items }
    {
        RoomSink {
            bytes: room,
            wants: 0,
        }
    }

    /// The bytes that it holds, without a copy.
    pub(crate) fn into_bytes(self) -> Vec<u8>
        ensures { result.items ≡ self.bytes.items }
    {
        self.bytes
    }
}

impl Sink for RoomSink {
    ghost use Rattle.std.specs.Prelude.{Some, []};

    ghost holds = { λ s. Some s.bytes.items };

    ghost back = { λ _. [] };

    ghost faults = { λ _. 0 };

    ghost wants = { λ s. s.wants };

    fn write(&mut self, piece: &[u8]) -> Result<usize, SinkFault> {
        if piece.len() > self.bytes.capacity() - self.bytes.len() {
            self.wants = self.wants.saturating_add(1);
            return Err(SinkFault::Memory);
        }
        match self.bytes.extend_from_slice(piece) {
            Ok(()) => Ok(piece.len()),
            Err(_) => unreachable!(),
        }
    }

    /// Nothing is kept back.
    fn flush(&mut self) -> Result<(), SinkFault> {
        Ok(())
    }
}
