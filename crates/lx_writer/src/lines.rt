//! The lines of a cue's moves: those of many moves are written into one text and handed to the sink as one piece.
#![tactic(auto, using(lx_io::proofs::Chain::puts))]

ghost use Rattle.std.specs.Prelude.{◌≡◌, ◌==◌, true, ◌+◌, ◌-◌, ◌*◌, ◌<◌, ◌≤◌, [], ◌++◌, ◌∷◌, codes, decimal, filter, take, flat_map, false};
ghost use Rattle.std.specs.Prelude.{length, IfSome, slice_index_or};
ghost use Rattle.std.specs.List.{AllByRecursion};
ghost use Rattle.lx_io.specs.Puts.{Puts};
ghost use Rattle.lx_writer.specs.ShiftedLines.{shifted_line, shifted_lines};
ghost use Rattle.lx_spec.specs.Numerals.{level_text};
ghost use Rattle.lx_spec.specs.ShowText.{line, at_text, move_text};
ghost use Rattle.lx_writer.specs.declared.lines.TheConstants.{PIECE_MOVES, LINE_BYTES, WRITTEN_BYTES};
ghost use Rattle.lx_base.specs.declared.TheConstants.{CHANNELS};

use crate::rows::LEVELS;
use lx_base::{Chan, Level, PartNo};
use lx_io::{Sink, SinkFault, TEXT_ROOM, Text};
use lx_lex::{ready_digits, ready_number};
use lx_show::Move;

/// The most bytes of a line: `CHAN `, a number of up to four digits, `@`, a level of three bytes and the line's end.
const LINE_BYTES: usize = 14;

/// The most bytes that are written for a line: those of its number, and a whole row.
const WRITTEN_BYTES: usize = 20;

/// The bytes of the word that a line begins with, and a space.
const WORD_BYTES: usize = 5;

/// The most moves whose lines are one piece, so that there is room for the word of a line behind them and what is written over.
const PIECE_MOVES: usize = 320;

/// Appends a line for each move that stands in the part.
pub(crate) fn put_moves<K: Sink>(
    moves: &[Move],
    part: PartNo,
    sink: &mut K,
) -> Result<(), SinkFault>
    ensures { Puts K.Sink sink.old sink.new result (flat_map move_text (filter (λ entry. entry.part == part) moves.now)) }
{
    let mut from = 0;
    while from < moves.len() {
        let end = (from + PIECE_MOVES).min(moves.len());
        put_piece(&moves[from..end], part, sink)?;
        from = end;
    }
    Ok(())
}

/// The lines of some moves, of those that stand in the part.
#[derive(Clone, Copy)]
struct MoveLines<'a> {
    moves: &'a [Move],
    part: PartNo,
    ghost few: { length moves.now ≤ PIECE_MOVES },
}

impl Text for MoveLines<'_> {
    ghost bytes = { λ lines. flat_map move_text (filter (λ entry. entry.part == lines.part) lines.moves.now) };

    fn write_into(&self, room: &mut [u8; TEXT_ROOM]) -> usize {
        write_lines(self.moves, self.part, room)
    }
}

/// Appends the lines of some moves, as one piece. Where none of them stands in the part, which is so for most pieces of a cue of several
/// parts, it is passed over whole.
fn put_piece<K: Sink>(moves: &[Move], part: PartNo, sink: &mut K) -> Result<(), SinkFault>
    requires { length moves.now ≤ PIECE_MOVES }
    ensures { Puts K.Sink sink.old sink.new result (flat_map move_text (filter (λ entry. entry.part == part) moves.now)) }
{
    if are_apart(moves, part) {
        return Ok(());
    }
    sink.put_text(&MoveLines { moves, part })
}

/// None of the moves stands in the part. Most often the first of them tells that it isn't so.
#[inline(always)]
fn are_apart(moves: &[Move], part: PartNo) -> bool
    ensures { result ≡ true → flat_map move_text (filter (λ entry. entry.part == part) moves.now) ≡ [] }
{
    match moves {
        [first, ..] if stands_in(first, part) => false,
        _ => are_all_apart(moves, part),
    }
}

/// The same, where more than the first of them are looked at: eight a turn, each by one comparison. Made vectors of, as the compiler does
/// where there is no early end, it took twice as long, since the parts stand four bytes apart.
#[inline(never)]
fn are_all_apart(moves: &[Move], part: PartNo) -> bool
    ensures { result ≡ true → flat_map move_text (filter (λ entry. entry.part == part) moves.now) ≡ [] }
{
    let mut left = moves;
    while let Some(rest) = past_eight(left, part) {
        left = rest;
    }
    have_none(left, part)
}

/// None of the moves stands in the part: the same, one by one.
fn have_none(moves: &[Move], part: PartNo) -> bool
    ensures { result ≡ true → filter (λ entry. entry.part == part) moves.now ≡ [] }
{
    for entry in moves {
        if stands_in(entry, part) {
            return false;
        }
    }
    true
}

/// What follows the first eight moves, where there are as many and none of them stands in the part.
#[inline(always)]
fn past_eight(moves: &[Move], part: PartNo) -> Option<&[Move]>
    ensures same { IfSome result (λ rest. filter (λ entry. entry.part == part) moves.now ≡ filter (λ entry. entry.part == part) rest.now) }
    ensures fewer { IfSome result (λ rest. length rest.now < length moves.now) }
{
    match moves {
        [a, b, c, d, e, f, g, h, rest @ ..]
            if !have_one(a, b, c, d, part) && !have_one(e, f, g, h, part) => { Some(rest) }
        _ => None,
    }
}

/// One of four moves stands in the part.
#[inline(always)]
fn have_one(a: &Move, b: &Move, c: &Move, d: &Move, part: PartNo) -> bool
    ensures { result ≡ false → AllByRecursion (λ entry. (entry.part == part) ≡ false) (a.now ∷ b.now ∷ c.now ∷ d.now ∷ []) }
{
    stands_in(a, part) || stands_in(b, part) || stands_in(c, part) || stands_in(d, part)
}

/// Writes the lines of some moves at the front of the text, four moves a turn, and says where they end. The first word of a line is
/// written behind the line before, so that a line is two stores. It is a function of its own, so that the loop has the processor's registers to itself.
#[inline(never)]
fn write_lines(moves: &[Move], part: PartNo, text: &mut [u8; TEXT_ROOM]) -> usize
    requires { length moves.now ≤ PIECE_MOVES }
    ensures end { result ≤ TEXT_ROOM }
    ensures text { take result text.new ≡ flat_map move_text (filter (λ entry. entry.part == part) moves.now) }
{
    let mut end = begin_line(text);
    let mut left = moves;
    while let Some((four, rest)) = left.split_first_chunk() {
        end = write_four(four, part, text, end);
        left = rest;
    }
    write_some(left, part, text, end) - WORD_BYTES
}

/// Writes the lines of four moves at a place, of those that stand in the part, and says where they end. All four are asked first: where
/// all stand in it, as most often, their lines are written with nothing asked in between.
#[inline(always)]
fn write_four(four: &[Move; 4], part: PartNo, text: &mut [u8; TEXT_ROOM], at: usize) -> usize
    requires room { at + 4 * LINE_BYTES + WRITTEN_BYTES ≤ TEXT_ROOM }
    ensures more { at ≤ result }
    ensures end { result ≤ at + 4 * LINE_BYTES }
    ensures text { take result text.new ≡ take at text.old ++ shifted_lines part four.now }
{
    let [a, b, c, d] = four;
    if have_all(a, b, c, d, part) {
        write_all(a, b, c, d, text, at)
    } else {
        write_some(four, part, text, at)
    }
}

/// All of four moves stand in the part.
#[inline(always)]
fn have_all(a: &Move, b: &Move, c: &Move, d: &Move, part: PartNo) -> bool
    ensures { result ≡ true → AllByRecursion (λ entry. (entry.part == part) ≡ true) (a.now ∷ b.now ∷ c.now ∷ d.now ∷ []) }
{
    stands_in(a, part) && stands_in(b, part) && stands_in(c, part) && stands_in(d, part)
}

/// Writes the lines of all of four moves at a place, and says where they end.
#[inline(always)]
fn write_all(a: &Move, b: &Move, c: &Move, d: &Move, text: &mut [u8; TEXT_ROOM], at: usize) -> usize
    requires room { at + 4 * LINE_BYTES + WRITTEN_BYTES ≤ TEXT_ROOM }
    ensures more { at ≤ result }
    ensures end { result ≤ at + 4 * LINE_BYTES }
    ensures text { take result text.new ≡ take at text.old ++ flat_map shifted_line (a.now ∷ b.now ∷ c.now ∷ d.now ∷ []) }
{
    let second = write_line(a.chan, a.level, text, at);
    let third = write_line(b.chan, b.level, text, second);
    let fourth = write_line(c.chan, c.level, text, third);
    write_line(d.chan, d.level, text, fourth)
}

/// Writes the lines of some moves at a place one by one, of those that stand in the part, and says where they end.
#[inline(always)]
fn write_some(moves: &[Move], part: PartNo, text: &mut [u8; TEXT_ROOM], at: usize) -> usize
    requires room { at + LINE_BYTES * length moves.now + WRITTEN_BYTES ≤ TEXT_ROOM }
    ensures more { at ≤ result }
    ensures end { result ≤ at + LINE_BYTES * length moves.now }
    ensures text { take result text.new ≡ take at text.old ++ shifted_lines part moves.now }
{
    let mut end = at;
    for entry in moves {
        if stands_in(entry, part) {
            end = write_line(entry.chan, entry.level, text, end);
        }
    }
    end
}

/// Writes the word of the first line at the front of the text, and says where it ends.
fn begin_line(text: &mut [u8; TEXT_ROOM]) -> usize
    ensures end { result ≡ WORD_BYTES }
    ensures text { take result text.new ≡ codes "CHAN " }
{
    write_words(&[*b"CHAN    ", *b"        "], WORD_BYTES, text, 0)
}

/// The move stands in the part.
#[inline(always)]
fn stands_in(entry: &Move, part: PartNo) -> bool
    ensures { result ≡ (entry.now.part == part) }
{
    entry.part.get() == part.get()
}

/// Writes the line of a channel and its level behind its word at a place, and the word of the next; and says where that ends. What
/// follows it may be written over.
#[inline(always)]
fn write_line(chan: Chan, level: Level, text: &mut [u8; TEXT_ROOM], at: usize) -> usize
    requires room { at + WRITTEN_BYTES ≤ TEXT_ROOM }
    ensures more { at ≤ result }
    ensures end { result ≤ at + LINE_BYTES }
    ensures text { take result text.new ≡ take at text.old ++ (decimal chan ++ 64 ∷ (level_text level ++ codes "\nCHAN ")) }
{
    let middle = write_number(chan, text, at);
    write_level(level, text, middle)
}

/// Writes a channel's number at a place, and says where it ends.
#[inline(always)]
fn write_number(chan: Chan, text: &mut [u8; TEXT_ROOM], at: usize) -> usize
    requires room { at + 4 ≤ TEXT_ROOM }
    ensures more { at ≤ result }
    ensures end { result ≤ at + 4 }
    ensures text { take result text.new ≡ take at text.old ++ decimal chan }
{
    write_row(ready_number(chan), ready_digits(chan), text, at)
}

/// Writes `@`, a level, the line's end and the word of the next line at a place, and says where they end.
#[inline(always)]
fn write_level(level: Level, text: &mut [u8; TEXT_ROOM], at: usize) -> usize
    requires room { at + 16 ≤ TEXT_ROOM }
    ensures end { result ≡ at + 10 }
    ensures text { take result text.new ≡ take at text.old ++ 64 ∷ (level_text level ++ codes "\nCHAN ") }
{
    write_words(&LEVELS[level as usize], 10, text, at)
}

/// Writes two words at a place, and says where their first bytes end that are wanted.
#[inline(always)]
fn write_words(words: &[[u8; 8]; 2], count: usize, text: &mut [u8; TEXT_ROOM], at: usize) -> usize
    requires count { count ≤ 16 }
    requires room { at + 16 ≤ TEXT_ROOM }
    ensures end { result ≡ at + count }
    ensures text { take result text.new ≡ take at text.old ++ take count (slice_index_or words.now 0 [] ++ slice_index_or words.now 1 []) }
{
    store_words(words, text, at);
    at + count
}

/// Writes two whole words at a place.
#[inline(always)]
fn store_words(words: &[[u8; 8]; 2], text: &mut [u8; TEXT_ROOM], at: usize)
    requires { at + 16 ≤ TEXT_ROOM }
    ensures { take (at + 16) text.new ≡ take at text.old ++ (slice_index_or words.now 0 [] ++ slice_index_or words.now 1 []) }
{
    store_word(&words[0], text, at);
    store_word(&words[1], text, at + 8);
}

/// Writes a whole word at a place.
#[inline(always)]
fn store_word(word: &[u8; 8], text: &mut [u8; TEXT_ROOM], at: usize)
    requires { at + 8 ≤ TEXT_ROOM }
    ensures { take (at + 8) text.new ≡ take at text.old ++ word.now }
{
    // Byte by byte, which is one store of eight bytes: `copy_from_slice` asks at each call whether the two overlap.
    let [a, b, c, d, e, f, g, h] = *word;
    store_row(&[a, b, c, d], text, at);
    store_row(&[e, f, g, h], text, at + 4);
}

/// Writes a row at a place, and says where its first bytes end that are wanted.
#[inline(always)]
fn write_row(row: &[u8; 4], count: usize, text: &mut [u8; TEXT_ROOM], at: usize) -> usize
    requires count { count ≤ 4 }
    requires room { at + 4 ≤ TEXT_ROOM }
    ensures end { result ≡ at + count }
    ensures text { take result text.new ≡ take at text.old ++ take count row.now }
{
    store_row(row, text, at);
    at + count
}

/// Writes a whole row at a place.
#[inline(always)]
fn store_row(row: &[u8; 4], text: &mut [u8; TEXT_ROOM], at: usize)
    requires { at + 4 ≤ TEXT_ROOM }
    ensures { take (at + 4) text.new ≡ take at text.old ++ row.now }
{
    text[at] = row[0];
    text[at + 1] = row[1];
    text[at + 2] = row[2];
    text[at + 3] = row[3];
}
