//! Marks beside the rows: which channels the cue of a row may decide, so that a walk down a column asks only the cues
//! that matter to it. No call but `open` takes memory.

ghost use Rattle.std.specs.Prelude.{◌≡◌, ◌≢◌, ℕ, ◌+◌, ◌-◌, ◌*◌, ◌/◌, ◌%◌, ◌^◌, ◌<◌, ◌≤◌, true, IfOk, is_some, length, slice_index};
ghost use Rattle.std.specs.Prelude.{vec_capacity};
ghost use Rattle.lx_sheet.specs.Imports.{bit_at, All, HasCause, IsStrictlySorted, has_entry, InRange, decides, IsBitOf, MovesWithin};
ghost use Rattle.lx_sheet.specs.Imports.{bit_of, group_of, word_place, row_bit, words_over};
ghost use Rattle.lx_base.specs.declared.TheConstants.{CUES, CHANNELS};

use lx_base::{CUES, Chan};
use lx_io::Heap;
use lx_show::{Cue, Move};
use std::alloc::AllocError;

/// This many rows stand side by side: their words of one group of channels follow one another.
const TILE: usize = 64;

/// This many channels share a word.
const GROUP: usize = 64;

/// A bit for each row of the block and each channel. A clear one says that the cue of the row doesn't decide the channel, and a set
/// one that it may.
///
/// For each 64 rows, and in them for each 64 channels, there are 64 words, one a row. So a walk down a column reads words that follow
/// one another, and the table grows with the rows that are in use.
#[derive(Drop)]
pub(crate) struct Marks {
    /// How many words a row has.
    pub(crate) groups: usize,
    pub(crate) words: Vec<u64>,
}

impl Marks {
    ghost use Rattle.lx_sheet.specs.Marks.{IsMarkTable, IsGrown, IsReached, IsMarkedFor, has_mark};

    /// A table for this many channels, with room for all rows. Nothing of it is written yet. An error comes where the heap refuses
    /// memory.
    pub(crate) fn open<H: Heap>(heap: &mut H, channels: usize) -> Result<Marks, AllocError>
        requires { channels ≤ CHANNELS }
        ensures table { IfOk result (IsMarkTable channels) }
        ensures cause { HasCause (H.refusals heap.old) (H.refusals heap.new) result }
    {
        let groups = channels.div_ceil(GROUP);
        Ok(Marks {
            groups,
            words: heap.room(words_of(CUES, groups))?,
        })
    }

    /// Makes the table reach over this many rows, in the room that is there. The marks of a row that is new are clear.
    pub(crate) fn reach(&mut self, rows: usize)
        requires rows { rows ≤ CUES }
        requires few { self.old.groups ≤ 64 }
        requires room { words_over CUES self.old.groups ≤ vec_capacity self.old.words }
        ensures table { IsGrown self.old self.new }
        ensures reach { (r : ℕ) → r < rows → IsReached self.new r }
        ensures same { (r c : ℕ) → has_mark self.new r c ≡ has_mark self.old r c }
    {
        let end = words_of(rows, self.groups);
        if self.words.len() < end {
            match self.words.resize(end, 0) {
                Ok(()) => {}
                Err(_) => unreachable!(),
            }
        }
    }

    /// The cue of the row may decide the channel.
    pub(crate) fn has(&self, row: usize, chan: Chan) -> bool
        requires row { row < CUES }
        requires few { self.now.groups ≤ 64 }
        requires reach { IsReached self.now row }
        requires within { chan ≤ 64 * self.now.groups }
        ensures { result ≡ has_mark self.now row chan }
    {
        let at = chan.get() as usize - 1;
        let word = self.words[place_of(self.groups, row, at / GROUP)];
        (word >> (at % GROUP)) & 1 == 1
    }

    /// Writes the marks of the row again, which is this cue's.
    pub(crate) fn write(&mut self, row: usize, cue: &Cue)
        requires row { row < CUES }
        requires few { self.old.groups ≤ 64 }
        requires reach { IsReached self.old row }
        requires moves { MovesWithin (64 * self.old.groups) cue.now }
        ensures table { IsGrown self.old self.new }
        ensures here { IsMarkedFor (64 * self.old.groups) self.new row cue.now }
        ensures others { (r c : ℕ) → r ≢ row → 1 ≤ c → c ≤ 64 * self.old.groups → has_mark self.new r c ≡ has_mark self.old r c }
    {
        write_row(&mut self.words, self.groups, row, cue);
    }
}

/// How many words there are for this many rows.
fn words_of(rows: usize, groups: usize) -> usize
    requires rows { rows ≤ CUES }
    requires groups { groups ≤ 64 }
    ensures { result ≡ words_over rows groups }
{
    rows.div_ceil(TILE) * groups * TILE
}

/// Where the word of a row and a group of channels stands.
fn place_of(groups: usize, row: usize, group: usize) -> usize
    requires row { row < CUES }
    requires groups { groups ≤ 64 }
    requires group { group < groups }
    ensures { result ≡ word_place groups row group }
{
    (row / TILE * groups + group) * TILE + row % TILE
}

/// Writes the words of the row again, which is this cue's.
fn write_row(words: &mut [u64], groups: usize, row: usize, cue: &Cue)
    requires row { row < CUES }
    requires groups { groups ≤ 64 }
    requires reach { (row / 64 + 1) * groups * 64 ≤ length words.old }
    requires moves { MovesWithin (64 * groups) cue.now }
    ensures here { (c : ℕ) → 1 ≤ c → c ≤ 64 * groups → decides cue.now c ≡ true → row_bit groups words.new row c ≡ 1 }
    ensures others { (r g : ℕ) → r ≢ row → g < groups
        → slice_index words.new (word_place groups r g) ≡ slice_index words.old (word_place groups r g) }
{
    if cue.block {
        fill(words, groups, row, u64::MAX);
    } else {
        fill(words, groups, row, 0);
        mark_moves(words, groups, row, cue.moves.as_slice());
    }
}

/// Each word of the row becomes this one.
fn fill(words: &mut [u64], groups: usize, row: usize, word: u64)
    requires row { row < CUES }
    requires groups { groups ≤ 64 }
    requires reach { (row / 64 + 1) * groups * 64 ≤ length words.old }
    ensures here { (g : ℕ) → g < groups → slice_index words.new (word_place groups row g) ≡ word }
    ensures others { (r g : ℕ) → r ≢ row → g < groups
        → slice_index words.new (word_place groups r g) ≡ slice_index words.old (word_place groups r g) }
{
    for group in 0..groups {
        words[place_of(groups, row, group)] = word;
    }
}

/// Marks the channels of the moves in the row.
fn mark_moves(words: &mut [u64], groups: usize, row: usize, moves: &[Move])
    requires row { row < CUES }
    requires groups { groups ≤ 64 }
    requires reach { (row / 64 + 1) * groups * 64 ≤ length words.old }
    requires within { All (λ m. InRange (64 * groups) m.chan) moves.now }
    requires sorted { IsStrictlySorted (λ m. m.chan) moves.now }
    ensures here { (c : ℕ) → has_entry (λ m. m.chan) c moves.now ≡ true → row_bit groups words.new row c ≡ 1 }
    ensures others { (r g : ℕ) → r ≢ row → g < groups
        → slice_index words.new (word_place groups r g) ≡ slice_index words.old (word_place groups r g) }
{
    let mut next = 0;
    while next < moves.len() {
        let group = group_of(moves[next].chan);
        let stretch = gather(moves, next);
        words[place_of(groups, row, group)] |= stretch.bits;
        next = stretch.end;
    }
}

/// The marks of moves that stand side by side and are in one group of channels.
#[derive(Clone, Copy)]
struct Stretch {
    /// The bits of their channels.
    bits: u64,
    /// The index behind the last of them.
    end: usize,
}

/// The moves from an index on that are in the group of the first. Where the 64th from there is in it too, they are all channels of
/// the group.
fn gather(moves: &[Move], from: usize) -> Stretch
    requires from { from < length moves.now }
    requires sorted { IsStrictlySorted (λ m. m.chan) moves.now }
    ensures end { from < result.end }
    ensures most { result.end ≤ length moves.now }
    ensures bits { (k : ℕ) → from ≤ k → k < result.end → IsBitOf moves.now from result.bits k }
{
    let group = group_of(moves[from].chan);
    if from + GROUP <= moves.len() && group_of(moves[from + GROUP - 1].chan) == group {
        return Stretch {
            bits: u64::MAX,
            end: from + GROUP,
        };
    }
    let mut bits = 0;
    for end in from..moves.len() {
        let chan = moves[end].chan;
        if group_of(chan) != group {
            return Stretch { bits, end };
        }
        bits |= bit_of(chan);
    }
    Stretch {
        bits,
        end: moves.len(),
    }
}

/// The group of 64 channels in which the channel is.
fn group_of(chan: Chan) -> usize
    ensures { result ≡ group_of chan }
{
    (chan.get() as usize - 1) / GROUP
}

/// The channel's bit in the word of its group.
fn bit_of(chan: Chan) -> u64
    ensures { result ≡ 1 * 2 ^ bit_of chan % 2 ^ 64 }
{
    1 << ((chan.get() - 1) % GROUP as u32)
}
