//! The ready end of a channel's line, and the word of the next.
#![tactic(auto)]

use lx_lex::pairs;

macro_rules! row {
    ($high:literal $low:literal) => { [[b'@', b'H', $high, $low, b'\n', b'C', b'H', b'A'], *b"N       "] };
}

/// `@`, a level, the line's end and the word of the next line, at the front of two words.
pub(crate) static LEVELS: [[[u8; 8]; 2]; 256] = pairs! { row:
    b'0' b'1' b'2' b'3' b'4' b'5' b'6' b'7' b'8' b'9' b'A' b'B' b'C' b'D' b'E' b'F'
};
