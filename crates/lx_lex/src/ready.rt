//! Channels' numbers as ready texts: written from a table, and known again by it where one is guessed.

ghost use Rattle.std.specs.Prelude.{◌≡◌, ◌≤◌, IfSome, decimal, length, take};
ghost use Rattle.lx_lex.specs.Imports.{tokens, FirstIsNumber};

use crate::names::{DIGITS, NUMBERS};
use crate::plain::past_byte;
use lx_base::Chan;

/// The channel's number in decimal, at the front of four bytes.
#[inline(always)]
pub fn ready_number(chan: Chan) -> &'static [u8; 4]
    ensures { take (length (decimal chan)) result.now ≡ decimal chan }
{
    &NUMBERS[chan.get() as usize]
}

/// How many digits the channel's number has.
#[inline(always)]
pub fn ready_digits(chan: Chan) -> usize
    ensures few { result ≤ 4 }
    ensures digits { result ≡ length (decimal chan) }
{
    DIGITS[chan.get() as usize] as usize
}

/// What follows the channel's number and `@` behind it, where both stand at the front of the line. None where they don't, and for a
/// number of fewer than three digits.
#[inline(always)]
pub(crate) fn past_channel(line: &[u8], chan: Chan) -> Option<&[u8]>
    ensures { IfSome result (λ rest. FirstIsNumber (tokens line.now) chan (tokens rest.now)) }
{
    let number = chan.get();
    if number < 100 || !line.starts_with(&NUMBERS[number as usize]) {
        return None;
    }
    let rest = &line[4..];
    if number < 1000 {
        return Some(rest);
    }
    let others = past_byte(rest, b'@')?;
    Some(others)
}
