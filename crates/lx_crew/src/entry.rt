//! What an operator sends to the engine.

ghost use Rattle.std.specs.Prelude.{◌≡◌, ◌≤◌, length};
ghost use Rattle.lx_base.specs.declared.TheConstants.{LINE_BYTES};

use lx_base::LINE_BYTES;

/// The bytes of a line in a fixed array, so that a line is sent without memory.
#[derive(Drop)]
pub struct LineText {
    bytes: [u8; LINE_BYTES],
    len: usize,
    ghost short: { len ≤ LINE_BYTES },
}

impl LineText {
    ghost use Rattle.lx_crew.specs.Entries.{text_in};

    /// These bytes.
    pub fn of(text: &[u8]) -> LineText
        requires { length text.now ≤ LINE_BYTES }
        ensures { text_in result ≡ text.now }
    {
        let len = text.len();
        let mut bytes = [0; LINE_BYTES];
        bytes[..len].copy_from_slice(text);
        LineText { bytes, len }
    }

    /// The bytes of the line.
    pub fn bytes(&self) -> &[u8]
        ensures text { result.now ≡ text_in self.now }
        ensures short { length result.now ≤ LINE_BYTES }
    {
        &self.bytes[..self.len]
    }
}

/// A line, or how an operator's lines ended.
#[derive(Drop)]
pub enum Sent {
    /// A line of at most 4,096 bytes that count.
    Line(LineText),
    /// A line of more bytes.
    LongLine,
    /// The script ended, by `quit` or with the source.
    End,
    /// A read of the source failed.
    ReadFault,
    /// The next line has a byte past the 67,108,864th of the source.
    InputTooLong,
}

/// What an operator sends.
#[derive(Drop)]
pub struct Message {
    /// The operator's place, from 0.
    pub place: u8,
    /// Its number among that operator's entries, from 1.
    pub number: u32,
    pub sent: Sent,
}
