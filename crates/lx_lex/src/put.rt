//! Texts of numbers, each handed to a sink as one piece. The answer is the sink's own fault, and then a prefix of the
//! text was appended.
#![tactic(auto, using(lx_io::proofs::Chain::puts))]

ghost use Rattle.std.specs.Prelude.{◌≡◌, ◌<◌, ◌≤◌, ◌++◌, ◌∷◌, [], ◌+◌, decimal, length, take};
ghost use Rattle.lx_lex.specs.Imports.{Puts, decimal_text, time_text, hex_digit, level_text, behind_text, decimals_text};
ghost use Rattle.lx_lex.specs.declared.put.TheConstants.{START_BYTES};

use itoa::write_digits;
use lx_base::{CUE_UNIT, CueNo, Level};
use lx_io::{Sink, SinkFault, TEXT_ROOM, Text, put_all};

/// The most bytes of a start that stands before a number.
const START_BYTES: usize = 22;

/// The most bytes of a point and the decimals behind it.
const DECIMALS_BYTES: usize = 4;

/// The most digits of a whole number.
const WHOLE_DIGITS: usize = 20;

/// Appends a whole number in decimal, without leading zeros.
pub fn put_whole<K: Sink>(value: u32, sink: &mut K) -> Result<(), SinkFault>
    ensures { Puts K.Sink sink.old sink.new result (decimal value) }
{
    put_count(value as u64, sink)
}

/// Appends a count in decimal, without leading zeros.
pub fn put_count<K: Sink>(value: u64, sink: &mut K) -> Result<(), SinkFault>
    ensures { Puts K.Sink sink.old sink.new result (decimal value) }
{
    put_numeral(b"", value, 0, 1, None, sink)
}

/// Appends a count in decimal, without leading zeros, and a byte behind it, as one piece.
pub fn put_count_and<K: Sink>(value: u64, behind: u8, sink: &mut K) -> Result<(), SinkFault>
    ensures { Puts K.Sink sink.old sink.new result (decimal value ++ behind ∷ []) }
{
    put_numeral(b"", value, 0, 1, Some(behind), sink)
}

/// Appends a number in hundredths, as a time in hundredths of a second: the whole part and, where they aren't 0, a
/// point and the decimals without a trailing zero. 250 is `2.5`.
pub fn put_hundredths<K: Sink>(value: u32, sink: &mut K) -> Result<(), SinkFault>
    ensures { Puts K.Sink sink.old sink.new result (time_text value) }
{
    put_decimal(b"", value, 100, None, sink)
}

/// Appends a number in hundredths, as by `put_hundredths`, and a byte behind it, as one piece.
pub fn put_hundredths_and<K: Sink>(value: u32, behind: u8, sink: &mut K) -> Result<(), SinkFault>
    ensures { Puts K.Sink sink.old sink.new result (time_text value ++ behind ∷ []) }
{
    put_decimal(b"", value, 100, Some(behind), sink)
}

/// Appends a cue number: whole cues and, where they aren't 0, a point and the decimals without a trailing zero. How
/// many decimals there can be follows from `CUE_UNIT`.
pub fn put_cue_no<K: Sink>(number: CueNo, sink: &mut K) -> Result<(), SinkFault>
    ensures { Puts K.Sink sink.old sink.new result (decimal_text CUE_UNIT number) }
{
    put_decimal(b"", number.get(), CUE_UNIT, None, sink)
}

/// Appends a cue number, as by `put_cue_no`, and a byte behind it, as one piece.
pub fn put_cue_no_and<K: Sink>(number: CueNo, behind: u8, sink: &mut K) -> Result<(), SinkFault>
    ensures { Puts K.Sink sink.old sink.new result (decimal_text CUE_UNIT number ++ behind ∷ []) }
{
    put_decimal(b"", number.get(), CUE_UNIT, Some(behind), sink)
}

/// Appends a start of up to 22 bytes, a cue number, as by `put_cue_no`, and a byte behind it, as one piece.
#[inline(always)]
pub fn put_cue_no_between<K: Sink>(
    start: &[u8],
    number: CueNo,
    behind: u8,
    sink: &mut K,
) -> Result<(), SinkFault>
    requires { length start.now ≤ 22 }
    ensures { Puts K.Sink sink.old sink.new result (start.now ++ (decimal_text CUE_UNIT number ++ behind ∷ [])) }
{
    put_decimal(start, number.get(), CUE_UNIT, Some(behind), sink)
}

/// Appends a level, 0 to 255: `H` and two hexadecimal digits, letters in upper case. 10 is `H0A`. This is the form of
/// the ASCII text representation 3.0.
pub fn put_level<K: Sink>(value: Level, sink: &mut K) -> Result<(), SinkFault>
    ensures { Puts K.Sink sink.old sink.new result (level_text value) }
{
    put_all(sink, &[b'H', hex_digit(value / 16), hex_digit(value % 16)])
}

/// A hexadecimal digit, in upper case.
fn hex_digit(value: u8) -> u8
    requires { value < 16 }
    ensures { result ≡ hex_digit value }
{
    if value < 10 {
        b'0' + value
    } else {
        b'A' - 10 + value
    }
}

/// Appends a start, a number in parts of a unit, with the decimals as far as they aren't 0, at most three, and a byte behind it, where
/// there is one.
#[inline(always)]
fn put_decimal<K: Sink>(
    start: &[u8],
    value: u32,
    unit: u32,
    behind: Option<u8>,
    sink: &mut K,
) -> Result<(), SinkFault>
    requires short { length start.now ≤ START_BYTES }
    requires some { 0 < unit }
    requires few { unit ≤ 1000 }
    ensures { Puts K.Sink sink.old sink.new result (start.now ++ (decimal_text unit value ++ behind_text behind)) }
{
    put_numeral(
        start,
        u64::from(value / unit),
        value % unit,
        unit,
        behind,
        sink,
    )
}

/// The same of a whole number and a rest of the unit.
#[inline(always)]
fn put_numeral<K: Sink>(
    start: &[u8],
    whole: u64,
    rest: u32,
    unit: u32,
    behind: Option<u8>,
    sink: &mut K,
) -> Result<(), SinkFault>
    requires short { length start.now ≤ START_BYTES }
    requires part { rest < unit }
    requires few { unit ≤ 1000 }
    ensures { Puts K.Sink sink.old sink.new result (start.now ++ (decimal whole ++ (decimals_text unit rest ++ behind_text behind))) }
{
    sink.put_text(&Numeral {
        start,
        whole,
        rest,
        unit,
        behind,
    })
}

/// A number behind a start: the whole part, the decimals of a rest of the unit, as far as they aren't 0, and a byte behind it, where
/// there is one. Each byte is written where it stays, so that no copy waits for it.
#[derive(Clone, Copy)]
struct Numeral<'a> {
    start: &'a [u8],
    whole: u64,
    rest: u32,
    unit: u32,
    behind: Option<u8>,
    ghost short: { length start.now ≤ START_BYTES },
    ghost part: { rest < unit },
    ghost few: { unit ≤ 1000 },
}

impl Text for Numeral<'_> {
    ghost bytes = { λ n. n.start.now ++ (decimal n.whole ++ (decimals_text n.unit n.rest ++ behind_text n.behind)) };

    #[inline(always)]
    fn write_into(&self, room: &mut [u8; TEXT_ROOM]) -> usize {
        let at = write_start(self.start, room);
        let point = write_whole(self.whole, room, at);
        let end = write_decimals(self.rest, self.unit, room, point);
        write_behind(self.behind, room, end)
    }
}

/// Writes a start at the front of the room, and says where it ends.
#[inline(always)]
fn write_start(start: &[u8], room: &mut [u8; TEXT_ROOM]) -> usize
    requires { length start.now ≤ START_BYTES }
    ensures end { result ≡ length start.now }
    ensures text { take result room.new ≡ start.now }
{
    let end = start.len();
    room[..end].copy_from_slice(start);
    end
}

/// Writes a whole number at a place, and says where it ends.
#[inline(always)]
fn write_whole(value: u64, room: &mut [u8; TEXT_ROOM], at: usize) -> usize
    requires { at ≤ START_BYTES }
    ensures end { result ≤ at + WHOLE_DIGITS }
    ensures text { take result room.new ≡ take at room.old ++ decimal value }
{
    if value < 10 {
        write_digit(value as u8, room, at)
    } else {
        write_long(value, room, at)
    }
}

/// Writes a number of one digit at a place, and says where it ends. Most numbers of a reply are of one.
#[tactic(auto, using(std::proofs::lemmas::List::take_more_set, std::proofs::lemmas::Fmt::decimal_digit))]
#[inline(always)]
fn write_digit(value: u8, room: &mut [u8; TEXT_ROOM], at: usize) -> usize
    requires place { at ≤ START_BYTES }
    requires digit { value < 10 }
    ensures end { result ≤ at + WHOLE_DIGITS }
    ensures text { take result room.new ≡ take at room.old ++ decimal value }
{
    room[at] = b'0' + value;
    at + 1
}

/// Writes a whole number of any length at a place, and says where it ends.
#[inline(always)]
fn write_long(value: u64, room: &mut [u8; TEXT_ROOM], at: usize) -> usize
    requires { at ≤ START_BYTES }
    ensures end { result ≤ at + WHOLE_DIGITS }
    ensures text { take result room.new ≡ take at room.old ++ decimal value }
{
    let end = at + digits_of(value);
    write_digits(value, room, end);
    end
}

/// How many digits a whole number has.
#[inline]
fn digits_of(value: u64) -> usize
    ensures few { result ≤ WHOLE_DIGITS }
    ensures digits { result ≡ length (decimal value) }
{
    let mut rest = value;
    let mut count = 0;
    while rest >= 10_000 {
        rest /= 10_000;
        count += 4;
    }
    count + digits_of_few(rest)
}

/// How many digits a number below 10,000 has.
#[tactic(auto, using(crate::proofs::Decimals::digit_counts))]
#[inline(always)]
fn digits_of_few(value: u64) -> usize
    requires { value < 10000 }
    ensures { result ≡ length (decimal value) }
{
    if value < 10 {
        1
    } else if value < 100 {
        2
    } else if value < 1000 {
        3
    } else {
        4
    }
}

/// Writes the point and the decimals of a rest of the unit at a place, where the rest isn't 0, and says where they end.
#[inline]
fn write_decimals(rest: u32, unit: u32, room: &mut [u8; TEXT_ROOM], at: usize) -> usize
    requires rest { rest < unit }
    requires few { unit ≤ 1000 }
    requires room { at + DECIMALS_BYTES ≤ TEXT_ROOM }
    ensures end { result ≤ at + DECIMALS_BYTES }
    ensures text { take result room.new ≡ take at room.old ++ decimals_text unit rest }
{
    if rest == 0 {
        return at;
    }
    room[at] = b'.';
    let last = at + DECIMALS_BYTES;
    let mut end = at + 1;
    let mut rest = rest;
    while rest != 0 && end < last {
        room[end] = b'0' + (10 * rest / unit) as u8;
        rest = 10 * rest % unit;
        end += 1;
    }
    end
}

/// Writes a byte at a place, where there is one, and says where it ends.
#[inline(always)]
fn write_behind(behind: Option<u8>, room: &mut [u8; TEXT_ROOM], at: usize) -> usize
    requires { at < TEXT_ROOM }
    ensures end { result ≤ at + 1 }
    ensures text { take result room.new ≡ take at room.old ++ behind_text behind }
{
    match behind {
        Some(byte) => {
            room[at] = byte;
            at + 1
        }
        None => at,
    }
}
