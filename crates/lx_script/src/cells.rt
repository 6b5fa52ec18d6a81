//! Words for levels that aren't 0, each behind a space.
#![tactic(auto, using(lx_io::proofs::Chain::puts))]

ghost use Rattle.std.specs.Prelude.{◌≡◌, ◌==◌, if◌then◌else◌, ℕ, ◌+◌, ◌*◌, ◌<◌, ◌≤◌, ◌^◌, ◌++◌, ◌∷◌, length, take, decimal, flat_map};
ghost use Rattle.lx_io.specs.Puts.{Puts};
ghost use Rattle.lx_spec.specs.Replies.{cells};
ghost use Rattle.lx_script.specs.Cells.{cell_text, cells_from};
ghost use Rattle.lx_script.specs.declared.cells.TheConstants.{NEAR, PIECE_CELLS};

use crate::rows::{COUNTS, LEVELS, NUMBERS, PAIRS};
use lx_base::Level;
use lx_io::{Sink, SinkFault, TEXT_ROOM, Text, put_all};
use lx_lex::{put_count, put_count_and};

/// The most bytes of a cell that is written with others: a space, a number of up to four digits, `=` and a level of up to
/// three.
const CELL_BYTES: usize = 9;

/// The most levels whose cells are one piece.
const PIECE_CELLS: usize = 512;

/// The greatest number whose cell is written with others.
const NEAR: usize = 9_999;

/// Appends ` number=level` in decimal for each level that isn't 0, rising, the first level's number being 1. A fault is
/// the sink's own, and then a prefix of the text was appended.
pub fn put_cells<K: Sink>(levels: &[Level], sink: &mut K) -> Result<(), SinkFault>
    ensures { Puts K.Sink sink.old sink.new result (flat_map (λ word. 32 ∷ word) (cells levels.now)) }
{
    let mut from = 0;
    while from < levels.len() {
        let end = piece_end(from, levels.len());
        put_piece(from as u64 + 1, &levels[from..end], sink)?;
        from = end;
    }
    Ok(())
}

/// Where a piece ends that begins at a place: the numbers get another digit there, or it is full, or no level is left.
/// Behind the near numbers each piece is one level.
fn piece_end(from: usize, end: usize) -> usize
    requires { from < end }
    ensures more { from < result }
    ensures within { result ≤ end }
    ensures few { result ≤ from + PIECE_CELLS }
    ensures near { from < NEAR → (n : ℕ) → from < n → n ≤ result → (n ≤ NEAR) × (length (decimal n) ≡ length (decimal (from + 1))) }
    ensures far { NEAR ≤ from → result ≡ from + 1 }
{
    let most = if from < 9 {
        9
    } else if from < 99 {
        99
    } else if from < 999 {
        999
    } else if from < NEAR {
        NEAR
    } else {
        from + 1
    };
    from + (most.min(end) - from).min(PIECE_CELLS)
}

/// The cells of some levels, the first of which has this number. The numbers are near, and have the same number of digits.
#[derive(Clone, Copy)]
struct Cells<'a> {
    number: u64,
    levels: &'a [Level],
    ghost first: { number ≤ NEAR },
    ghost few: { length levels.now ≤ PIECE_CELLS },
    ghost near: { (n : ℕ) → number ≤ n → n < number + length levels.now → (n ≤ NEAR) × (length (decimal n) ≡ length (decimal number)) },
}

impl Text for Cells<'_> {
    ghost bytes = { λ piece. cells_from piece.number piece.levels.now };

    fn write_into(&self, room: &mut [u8; TEXT_ROOM]) -> usize {
        write_cells(self.number, self.levels, width_of(self.number), room)
    }
}

/// Appends the cells of some levels, as one piece; or that of one level, whose number isn't near.
fn put_piece<K: Sink>(number: u64, levels: &[Level], sink: &mut K) -> Result<(), SinkFault>
    requires some { 0 < length levels.now }
    requires few { length levels.now ≤ PIECE_CELLS }
    requires near { number ≤ NEAR → (n : ℕ) → number ≤ n → n < number + length levels.now
        → (n ≤ NEAR) × (length (decimal n) ≡ length (decimal number)) }
    requires far { NEAR < number → length levels.now ≡ 1 }
    ensures { Puts K.Sink sink.old sink.new result (cells_from number levels.now) }
{
    if number > NEAR as u64 {
        return put_far(number, levels[0], sink);
    }
    sink.put_text(&Cells { number, levels })
}

/// Appends the cell of a level.
fn put_far<K: Sink>(number: u64, level: Level, sink: &mut K) -> Result<(), SinkFault>
    ensures { Puts K.Sink sink.old sink.new result (cell_text number level) }
{
    if level == 0 {
        return Ok(());
    }
    put_all(sink, b" ")?;
    put_count_and(number, b'=', sink)?;
    put_count(u64::from(level), sink)
}

/// How many bytes a space and a near number have.
#[tactic(auto, using(lx_lex::proofs::Decimals::digit_counts))]
fn width_of(number: u64) -> usize
    requires { number ≤ NEAR }
    ensures least { 2 ≤ result }
    ensures most { result ≤ 5 }
    ensures width { result ≡ length (decimal number) + 1 }
{
    if number < 10 {
        2
    } else if number < 100 {
        3
    } else if number < 1000 {
        4
    } else {
        5
    }
}

/// Writes the cells of some levels at the front of the text, and says where they end. Each number is near, and has one
/// digit less than `width`.
fn write_cells(number: u64, levels: &[Level], width: usize, text: &mut [u8; TEXT_ROOM]) -> usize
    requires least { 2 ≤ width }
    requires most { width ≤ 5 }
    requires few { length levels.now ≤ PIECE_CELLS }
    requires near { (n : ℕ) → number ≤ n → n < number + length levels.now → (n ≤ NEAR) × (width ≡ length (decimal n) + 1) }
    ensures end { result ≤ TEXT_ROOM }
    ensures text { take result text.new ≡ cells_from number levels.now }
{
    let mut end = 0;
    for (at, level) in levels.iter().enumerate() {
        end = write_cell(number + at as u64, width, *level, text, end);
    }
    end
}

/// Writes the cell of a level, where it isn't 0, at a place, and says where it ends. The number has one digit less than
/// `width`. What follows it may be written over.
#[inline(always)]
fn write_cell(
    number: u64,
    width: usize,
    level: Level,
    text: &mut [u8; TEXT_ROOM],
    at: usize,
) -> usize
    requires near { number ≤ NEAR }
    requires least { 2 ≤ width }
    requires most { width ≤ 5 }
    requires width { width ≡ length (decimal number) + 1 }
    requires room { at + CELL_BYTES ≤ TEXT_ROOM }
    ensures end { result ≤ at + CELL_BYTES }
    ensures text { take result text.new ≡ take at text.old ++ cell_text number level }
{
    let middle = write_number(number, width, text, at);
    write_level(level, text, middle);
    // From a table, so that the next place waits for one addition alone.
    at + count_of(width, level)
}

/// How many bytes the cell of a level is, whose number has one digit less than `width`.
#[inline(always)]
fn count_of(width: usize, level: Level) -> usize
    requires least { 2 ≤ width }
    requires most { width ≤ 5 }
    ensures few { result ≤ CELL_BYTES }
    ensures count { result ≡ (if level == 0 then 0 else width + (length (decimal level) + 1)) }
{
    COUNTS[width - 2][level as usize] as usize
}

/// Writes a space and a number at a place, and says where they end. They are of this many bytes.
#[inline(always)]
fn write_number(number: u64, width: usize, text: &mut [u8; TEXT_ROOM], at: usize) -> usize
    requires near { number ≤ NEAR }
    requires most { width ≤ 5 }
    requires width { width ≡ length (decimal number) + 1 }
    requires room { at + 5 ≤ TEXT_ROOM }
    ensures end { result ≡ at + width }
    ensures text { take result text.new ≡ take at text.old ++ 32 ∷ decimal number }
{
    if width < 5 {
        return write_row(&NUMBERS[number as usize], width, text, at);
    }
    let middle = write_row(&NUMBERS[(number / 100) as usize], 3, text, at);
    write_pair(&PAIRS[(number % 100) as usize], text, middle)
}

/// Writes `=level` at a place. What follows it may be written over.
#[inline(always)]
fn write_level(level: Level, text: &mut [u8; TEXT_ROOM], at: usize)
    requires { at + 4 ≤ TEXT_ROOM }
    ensures { take (at + (length (decimal level) + 1)) text.new ≡ take at text.old ++ 61 ∷ decimal level }
{
    write_all(&LEVELS[level as usize], text, at);
}

/// Writes a row at a place, and says where its first bytes end that are wanted.
#[inline(always)]
fn write_row(row: &[u8; 4], count: usize, text: &mut [u8; TEXT_ROOM], at: usize) -> usize
    requires count { count ≤ 4 }
    requires room { at + 4 ≤ TEXT_ROOM }
    ensures end { result ≡ at + count }
    ensures text { take result text.new ≡ take at text.old ++ take count row.now }
{
    write_all(row, text, at);
    at + count
}

/// Writes four bytes at a place.
#[inline(always)]
fn write_all(row: &[u8; 4], text: &mut [u8; TEXT_ROOM], at: usize)
    requires { at + 4 ≤ TEXT_ROOM }
    ensures { take (at + 4) text.new ≡ take at text.old ++ row.now }
{
    // Byte by byte, which is one store of four bytes.
    text[at] = row[0];
    text[at + 1] = row[1];
    text[at + 2] = row[2];
    text[at + 3] = row[3];
}

/// Writes two bytes at a place, and says where they end.
#[inline(always)]
fn write_pair(pair: &[u8; 2], text: &mut [u8; TEXT_ROOM], at: usize) -> usize
    requires room { at + 2 ≤ TEXT_ROOM }
    ensures end { result ≡ at + 2 }
    ensures text { take result text.new ≡ take at text.old ++ pair.now }
{
    text[at] = pair[0];
    text[at + 1] = pair[1];
    at + 2
}
