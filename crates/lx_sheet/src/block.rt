//! The block of rows: rows written and read, and columns mended.

ghost use Rattle.std.specs.Prelude.{◌≡◌, ◌≢◌, ℕ, true, false, ◌+◌, ◌*◌, ◌<◌, ◌≤◌, IfSome, length, max, slice_get, take, vec_capacity};
ghost use Rattle.lx_sheet.specs.Imports.{decides, AreApart, HasPlaces, IsBlock, own_rows, row_at_place, cell, cue_level, last_value};
ghost use Rattle.lx_sheet.specs.Imports.{level_in_look, width, Tells, level_after, IsEnd, IsRight, RowsFollow, FillsRows, IsPassed, IsLeft};
ghost use Rattle.lx_base.specs.declared.TheConstants.{CUES, CHANNELS};

use crate::look::track;
use crate::marks::Marks;
use crate::sheet::Place;
use lx_base::{CHANNELS, CUES, Chan, Level, next_change};
use lx_show::Cue;

/// How many levels stand between the end of a row and the next one. Rows whose length is a power of two would have the levels of a channel
/// in the same few sets of the processor's cache, which then holds only some hundred of them.
pub(crate) const ROW_GAP: usize = 64;

/// Fills in the rows of the cues from a place on, each from the one before, up to the first from `sure` on
/// that holds its levels already: those above it follow.
pub(crate) fn fill_from(
    levels: &mut [Level],
    look: &mut [Level],
    order: &[Place],
    cues: &[Cue],
    from: usize,
    sure: usize,
)
    requires places { HasPlaces (length look.old) levels.old order.now cues.now }
    requires from { from ≤ length cues.now }
    ensures { FillsRows (length look.old) order.now cues.now levels.old levels.new from sure }
{
    recall(look, levels, order, from);
    fill_rows(levels, look, order, cues, from, sure);
}

/// The same where the cue at the place came. Where it decides nothing its row is that of the cue before, and those above it
/// hold their levels already.
pub(crate) fn fill_inserted(
    levels: &mut [Level],
    look: &mut [Level],
    order: &[Place],
    cues: &[Cue],
    at: usize,
)
    requires places { HasPlaces (length look.old) levels.old order.now cues.now }
    requires at { at < length cues.now }
    ensures { IsPassed (length look.old) order.now cues.now levels.old at
        → FillsRows (length look.old) order.now cues.now levels.old levels.new at (at + 1) }
{
    recall(look, levels, order, at);
    if decides_none(&cues[at]) {
        write_row(levels, look, own_row(order, at));
    } else {
        fill_rows(levels, look, order, cues, at, at + 1);
    }
}

/// The same where the cue that was at the place went, of which the row is left. Where that holds the levels of the cue
/// before, those above it hold theirs already.
pub(crate) fn fill_removed(
    levels: &mut [Level],
    look: &mut [Level],
    order: &[Place],
    cues: &[Cue],
    at: usize,
    row: usize,
)
    requires places { HasPlaces (length look.old) levels.old order.now cues.now }
    requires at { at ≤ length cues.now }
    requires row { row < CUES }
    requires left { (row + 1) * width (length look.old) ≤ length levels.old }
    ensures { IsLeft (length look.old) order.now cues.now levels.old at row
        → FillsRows (length look.old) order.now cues.now levels.old levels.new at at }
{
    recall(look, levels, order, at);
    if !holds(levels, look, row) {
        fill_rows(levels, look, order, cues, at, at);
    }
}

/// The cue decides no channel.
fn decides_none(cue: &Cue) -> bool
    ensures { result ≡ true → (c : ℕ) → decides cue.now c ≡ false }
{
    !cue.block && cue.moves.as_slice().is_empty()
}

/// Makes the block reach over this many rows, in the room that is there. A row that is new is at 0.
pub(crate) fn reach(levels: &mut Vec<Level>, channels: usize, rows: usize)
    requires few { channels ≤ CHANNELS }
    requires rows { rows ≤ CUES }
    requires room { CUES * width channels ≤ vec_capacity levels.old }
    ensures length { length levels.new.items ≡ max (length levels.old.items) (rows * width channels) }
    ensures same { (r c : ℕ) → cell channels levels.new.items r c ≡ cell channels levels.old.items r c }
    ensures room { vec_capacity levels.old ≤ vec_capacity levels.new }
{
    let end = rows * (channels + ROW_GAP);
    if levels.len() < end {
        match levels.resize(end, 0) {
            Ok(()) => {}
            Err(_) => unreachable!(),
        }
    }
}

/// Takes up the levels of the last of this many cues, or 0 where there is none.
fn recall(look: &mut [Level], levels: &[Level], order: &[Place], cues: usize)
    requires block { IsBlock (length look.old) levels.now order.now }
    requires cues { cues ≤ length order.now }
    ensures { (c : ℕ) → level_in_look look.new c ≡ last_value cues (λ k. cue_level (length look.old) order.now levels.now k c) }
{
    if cues == 0 {
        look.fill(0);
    } else {
        read_row(look, levels, own_row(order, cues - 1));
    }
}

/// Takes up the levels of the row.
fn read_row(look: &mut [Level], levels: &[Level], row: usize)
    requires few { length look.old ≤ CHANNELS }
    requires row { row < CUES }
    requires room { (row + 1) * width (length look.old) ≤ length levels.now }
    ensures { (c : ℕ) → level_in_look look.new c ≡ cell (length look.old) levels.now row c }
{
    let len = look.len();
    let start = row * (len + ROW_GAP);
    look.copy_from_slice(&levels[start..start + len]);
}

/// Writes the levels as the row.
pub(crate) fn write_row(levels: &mut [Level], look: &[Level], row: usize)
    requires few { length look.now ≤ CHANNELS }
    requires row { row < CUES }
    requires room { (row + 1) * width (length look.now) ≤ length levels.old }
    ensures here { (c : ℕ) → cell (length look.now) levels.new row c ≡ level_in_look look.now c }
    ensures others { (r c : ℕ) → r ≢ row → cell (length look.now) levels.new r c ≡ cell (length look.now) levels.old r c }
{
    let len = look.len();
    let start = row * (len + ROW_GAP);
    levels[start..start + len].copy_from_slice(look);
}

/// The row holds these levels.
fn holds(levels: &[Level], look: &[Level], row: usize) -> bool
    requires few { length look.now ≤ CHANNELS }
    requires row { row < CUES }
    requires room { (row + 1) * width (length look.now) ≤ length levels.now }
    ensures { result ≡ true → (c : ℕ) → cell (length look.now) levels.now row c ≡ level_in_look look.now c }
{
    let len = look.len();
    let start = row * (len + ROW_GAP);
    next_change(&levels[start..start + len], look, 0).is_none()
}

/// The same where the look holds the levels before the first of the rows.
fn fill_rows(
    levels: &mut [Level],
    look: &mut [Level],
    order: &[Place],
    cues: &[Cue],
    from: usize,
    sure: usize,
)
    requires places { HasPlaces (length look.old) levels.old order.now cues.now }
    ensures front { (k c : ℕ) → k < from → k < length order.now
        → cue_level (length look.old) order.now levels.new k c ≡ cue_level (length look.old) order.now levels.old k c }
    ensures rows { ((c : ℕ) → level_in_look look.old c ≡ level_after (take from cues.now) c)
        → RowsFollow (length look.old) order.now cues.now levels.old sure → (k c : ℕ) → from ≤ k → k < length cues.now
        → IsRight (length look.old) order.now cues.now levels.new k c }
{
    for place in from..cues.len() {
        track(look, &cues[place]);
        let row = own_row(order, place);
        if place >= sure && holds(levels, look, row) {
            return;
        }
        write_row(levels, look, row);
    }
}

/// Fills in the channel's column in the rows of the cues from a place to below another, each from the one before, or up to the first
/// from `sure` on that decides the channel. It answers the place where it ended. Where marks are given, only the cues that they name
/// are asked.
pub(crate) fn fill_column(
    levels: &mut [Level],
    channels: usize,
    order: &[Place],
    cues: &[Cue],
    marks: Option<&Marks>,
    from: usize,
    sure: usize,
    to: usize,
    chan: Chan,
) -> usize
    requires places { HasPlaces channels levels.old order.now cues.now }
    requires from { from ≤ length cues.now }
    requires to { to ≤ length cues.now }
    requires within { chan ≤ channels }
    requires marks { IfSome marks
        (λ m. (k : ℕ) → IfSome (slice_get cues.now k) (λ cue. Tells m.now (row_at_place order.now k) cue chan)) }
    ensures end { IsEnd cues.now chan from sure to result }
    ensures others { (r c : ℕ) → c ≢ chan → cell channels levels.new r c ≡ cell channels levels.old r c }
    ensures front { (k : ℕ) → k < from → cue_level channels order.now levels.new k chan ≡ cue_level channels order.now levels.old k chan }
    ensures back { (k : ℕ) → result ≤ k → k < length cues.now
        → cue_level channels order.now levels.new k chan ≡ cue_level channels order.now levels.old k chan }
    ensures rows { last_value from (λ k. cue_level channels order.now levels.old k chan) ≡ level_after (take from cues.now) chan
        → (k : ℕ) → from ≤ k → k < result → IsRight channels order.now cues.now levels.new k chan }
{
    let at = chan.get() as usize - 1;
    let width = channels + ROW_GAP;
    let mut level = level_before(levels, channels, order, from, at);
    let mut near = 0;
    for place in from..to {
        let row = own_row(order, place);
        if decides_at(&cues[place], chan, &mut near, marks, row) {
            if place >= sure {
                return place;
            }
            level = cues[place].level_of(chan);
        }
        levels[row * width + at] = level;
    }
    to
}

/// The cue decides the channel. It isn't asked where the marks of its row say that it doesn't.
fn decides_at(cue: &Cue, chan: Chan, near: &mut usize, marks: Option<&Marks>, row: usize) -> bool
    requires row { row < CUES }
    requires marks { IfSome marks (λ m. Tells m.now row cue.now chan) }
    ensures { result ≡ decides cue.now chan }
{
    let may = match marks {
        Some(marks) => marks.has(row, chan),
        None => true,
    };
    may && cue.decides_near(chan, near)
}

/// The channel's level in the last of this many cues, or 0 where there is none. It stands at this place in
/// each row.
pub(crate) fn level_before(
    levels: &[Level],
    channels: usize,
    order: &[Place],
    cues: usize,
    at: usize,
) -> Level
    requires block { IsBlock channels levels.now order.now }
    requires cues { cues ≤ length order.now }
    requires within { at < channels }
    ensures { result ≡ last_value cues (λ k. cue_level channels order.now levels.now k (at + 1)) }
{
    if cues == 0 {
        0
    } else {
        levels[own_row(order, cues - 1) * (channels + ROW_GAP) + at]
    }
}

/// The row of the block that is the own one of the cue at this place of the order.
pub(crate) fn own_row(order: &[Place], place: usize) -> usize
    requires place { place < length order.now }
    requires rows { AreApart (own_rows order.now) }
    ensures row { result ≡ row_at_place order.now place }
    ensures within { result < CUES }
{
    order[place].row
}
