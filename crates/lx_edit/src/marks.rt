//! Which channels see a difference where a cue is changed, added or taken out.

ghost use Rattle.std.specs.Prelude.{◌≡◌, ◌≤◌, ◌-◌, ℕ, true, false, Some, None, IfSome, List, length, take, drop};
ghost use Rattle.lx_edit.specs.Imports.{option_copied, option_map_or, IsSomeAnd, Valid, IsStrictlySorted, entry_at, cue_of, move_in};
ghost use Rattle.lx_edit.specs.Imports.{asserts, tracked, level_of, RowsStandFor, has_chan, planned, covers, IsReady, SameOutside};
ghost use Rattle.lx_edit.specs.Imports.{AreAmong, move_by, moves_of_cue, is_block, SameEntry, Grows};
ghost use Rattle.lx_base.specs.declared.TheConstants.{CHANNELS};

use crate::absent::channel;
use crate::blocks::below;
use crate::chan_set::ChanSet;
use crate::plans::Plan;
use lx_base::{CHANNELS, Chan, ChanRange, CueNo};
use lx_sheet::Sheet;
use lx_show::around::{above, up_to};
use lx_show::{Cue, Move, Show};

/// Adds each channel that sees a difference between the show's cue of the number, which may be absent, and
/// this one, which may be so too.
pub(crate) fn mark_change(
    chans: &mut ChanSet,
    show: &Show,
    sheet: &Sheet,
    n: CueNo,
    new: Option<&Cue>,
)
    requires { RowsStandFor show.now sheet.now }
    ensures grows { Grows chans.old chans.new }
    ensures same { (c : ℕ) → has_chan chans.new c ≡ false
        → SameEntry (cue_of show.now n) (option_copied new.entry) c (tracked show.now (n - 1) c) }
{
    let old = show.cue(n);
    mark_moves(chans, moves_of(old), moves_of(new));
    if is_block(old) != is_block(new) {
        mark_tracked(chans, sheet, n, new);
    }
}

/// Adds each channel whose move among these is another than in the show's cue of the number. Outside the range they
/// are the same.
pub(crate) fn mark_within(
    chans: &mut ChanSet,
    show: &Show,
    n: CueNo,
    moves: &[Move],
    within: ChanRange,
)
    requires sorted { IsStrictlySorted (λ m. m.chan) moves.now }
    requires same { IsSomeAnd (cue_of show.now n) (λ cue. SameOutside within cue.moves moves.now) }
    ensures { IsSomeAnd (cue_of show.now n) (λ cue. (c : ℕ) → has_chan chans.new c ≡ false
        → move_in cue c ≡ entry_at (λ m. m.chan) c moves.now) }
{
    if let Some(before) = show.cue(n) {
        let old = part_of(before.moves.as_slice(), within);
        mark_moves(chans, old, part_of(moves, within));
    }
}

/// Those of the moves whose channels are in the range.
fn part_of(moves: &[Move], within: ChanRange) -> &[Move]
    requires { IsStrictlySorted (λ m. m.chan) moves.now }
    ensures sorted { IsStrictlySorted (λ m. m.chan) result.now }
    ensures part { (c : ℕ) → covers within c ≡ true → entry_at (λ m. m.chan) c result.now ≡ entry_at (λ m. m.chan) c moves.now }
{
    let from = above(moves, within.first().get() - 1);
    up_to(from, within.last().get())
}

/// The cue's moves, if it is there.
fn moves_of<'a>(cue: Option<&'a Cue>) -> &'a [Move]
    ensures moves { result.now ≡ moves_of_cue (option_copied cue.entry) }
    ensures sorted { IsStrictlySorted (λ m. m.chan) result.now }
{
    match cue {
        Some(cue) => cue.moves.as_slice(),
        None => &[],
    }
}

/// Adds the channels whose moves among the ones are others than among the others.
fn mark_moves(chans: &mut ChanSet, old: &[Move], new: &[Move])
    requires old { IsStrictlySorted (λ m. m.chan) old.now }
    requires new { IsStrictlySorted (λ m. m.chan) new.now }
    ensures grows { Grows chans.old chans.new }
    ensures same { (c : ℕ) → has_chan chans.new c ≡ false → entry_at (λ m. m.chan) c old.now ≡ entry_at (λ m. m.chan) c new.now }
{
    let front = same_front(old, new);
    mark_rest(chans, rest(old, front), rest(new, front));
}

/// The moves from a place on.
fn rest(moves: &[Move], from: usize) -> &[Move]
    requires from { from ≤ length moves.now }
    requires sorted { IsStrictlySorted (λ m. m.chan) moves.now }
    ensures rest { result.now ≡ drop from moves.now }
    ensures sorted { IsStrictlySorted (λ m. m.chan) result.now }
{
    &moves[from..]
}

/// How many moves at the front are the same in both.
fn same_front(old: &[Move], new: &[Move]) -> usize
    ensures old { result ≤ length old.now }
    ensures new { result ≤ length new.now }
    ensures same { take result old.now ≡ take result new.now }
{
    let most = old.len().min(new.len());
    for at in 0..most {
        if !is_same(&old[at], &new[at]) {
            return at;
        }
    }
    most
}

/// The same as `mark_moves`, in one walk through both.
fn mark_rest(chans: &mut ChanSet, old: &[Move], new: &[Move])
    requires old { IsStrictlySorted (λ m. m.chan) old.now }
    requires new { IsStrictlySorted (λ m. m.chan) new.now }
    ensures grows { Grows chans.old chans.new }
    ensures same { (c : ℕ) → has_chan chans.new c ≡ false → entry_at (λ m. m.chan) c old.now ≡ entry_at (λ m. m.chan) c new.now }
{
    let mut next = 0;
    for entry in new {
        mark_below(chans, old, &mut next, Some(entry.chan));
        mark_beside(chans, old, &mut next, entry);
    }
    mark_below(chans, old, &mut next, None);
}

/// Adds the channels of the moves from the place on that are below the channel, or of all where none is given. The
/// place goes on past them.
fn mark_below(chans: &mut ChanSet, moves: &[Move], next: &mut usize, end: Option<Chan>)
    requires { next.old ≤ length moves.now }
    ensures grows { Grows chans.old chans.new }
    ensures within { next.new ≤ length moves.now }
    ensures marked { (others : List Move) → AreAmong chans.old (take next.old moves.now) others
        → AreAmong chans.new (take next.new moves.now) others }
    ensures all { end ≡ None → next.new ≡ length moves.now }
{
    while *next < moves.len() && is_below(&moves[*next], &end) {
        chans.insert(moves[*next].chan);
        *next += 1;
    }
}

/// The move's channel is below this one, where one is given.
fn is_below(entry: &Move, end: &Option<Chan>) -> bool
    ensures { end.now ≡ None → result ≡ true }
{
    match end {
        Some(end) => entry.chan.get() < end.get(),
        None => true,
    }
}

/// Adds the channel of the move, unless the same one stands at the place among the others. The place goes on past
/// one of its channel.
fn mark_beside(chans: &mut ChanSet, moves: &[Move], next: &mut usize, entry: &Move)
    requires sorted { IsStrictlySorted (λ m. m.chan) moves.now }
    requires within { next.old ≤ length moves.now }
    ensures grows { Grows chans.old chans.new }
    ensures within { next.new ≤ length moves.now }
    ensures here { has_chan chans.new entry.now.chan ≡ false → entry_at (λ m. m.chan) entry.now.chan moves.now ≡ Some entry.now }
    ensures marked { (others : List Move) → entry_at (λ m. m.chan) entry.now.chan others ≡ Some entry.now
        → AreAmong chans.old (take next.old moves.now) others → AreAmong chans.new (take next.new moves.now) others }
{
    if *next < moves.len() && moves[*next].chan.get() == entry.chan.get() {
        mark_move(chans, entry, &moves[*next]);
        *next += 1;
    } else {
        chans.insert(entry.chan);
    }
}

/// Adds the channel of the move, unless the old one was the same move.
pub(crate) fn mark_move(chans: &mut ChanSet, entry: &Move, old: &Move)
    ensures grows { Grows chans.old chans.new }
    ensures marked { has_chan chans.new entry.now.chan ≡ false → Some old.now ≡ Some entry.now }
{
    if !is_same(entry, old) {
        chans.insert(entry.chan);
    }
}

/// They are the same move.
fn is_same(entry: &Move, other: &Move) -> bool
    ensures { result ≡ true → other.now ≡ entry.now }
{
    entry.chan.get() == other.chan.get()
        && entry.part.get() == other.part.get()
        && entry.level == other.level
}

/// The channel's move in the cue, where that is there.
fn move_by(cue: Option<&Cue>, c: Chan) -> Option<Move>
    ensures { result ≡ move_by (option_copied cue.entry) c }
{
    cue?.move_of(c)
}

/// The cue is there, and a block cue.
fn is_block(cue: Option<&Cue>) -> bool
    ensures { result ≡ is_block (option_copied cue.entry) }
{
    match cue {
        Some(cue) => cue.block,
        None => false,
    }
}

/// The plan changes at some number whether an asserted cue is there.
pub(crate) fn changes_asserts(show: &Show, plan: &Plan) -> bool
    requires { IsReady show.now plan.now }
    ensures valid { result ≡ true → Valid show.now }
    ensures same { result ≡ false → (n : ℕ) → asserts show.now n ≡ asserts (planned show.now plan.now) n }
{
    match plan {
        Plan::Cue {
            number,
            to,
            above,
            ..
        } => changes_at(show, *number, to) || changes_above(show, above),
        Plan::Move { .. } => false,
        Plan::Moves { .. } => false,
        _ => false,
    }
}

/// The cue of the number is asserted where this one isn't, or the other way round. A cue that is absent isn't.
fn changes_at(show: &Show, n: CueNo, to: &Option<Cue>) -> bool
    ensures valid { Valid show.now }
    ensures same { result ≡ false → asserts show.now n ≡ option_map_or (λ cue. cue.asserted) to.now false }
{
    let asserted = match to {
        Some(cue) => cue.asserted,
        None => false,
    };
    asserts(show, n) != asserted
}

/// There is a cue, and it is asserted where that of its number is not, or the other way round.
fn changes_above(show: &Show, above: &Option<Cue>) -> bool
    ensures { result ≡ false → IfSome above.now (λ cue. asserts show.now cue.number ≡ cue.asserted) }
{
    match above {
        Some(cue) => changes_at(show, cue.number, above),
        None => false,
    }
}

/// The cue of the number is there, and asserted.
fn asserts(show: &Show, n: CueNo) -> bool
    ensures valid { Valid show.now }
    ensures asserted { result ≡ asserts show.now n }
{
    match show.cue(n) {
        Some(cue) => cue.asserted,
        None => false,
    }
}

/// Adds each channel that has no move in the cue, and at which another level than 0 tracks into it.
fn mark_tracked(chans: &mut ChanSet, sheet: &Sheet, n: CueNo, cue: Option<&Cue>)
    ensures grows { Grows chans.old chans.new }
    ensures marked { (c : ℕ) → 1 ≤ c → c ≤ CHANNELS → has_chan chans.new c ≡ false → move_by (option_copied cue.entry) c ≡ None
        → level_of sheet.now (n - 1) c ≡ 0 }
{
    for k in 1..CHANNELS + 1 {
        mark_at(chans, sheet, n, cue, channel(k));
    }
}

/// Adds the channel if it has no move in the cue, and another level than 0 tracks into it.
fn mark_at(chans: &mut ChanSet, sheet: &Sheet, n: CueNo, cue: Option<&Cue>, c: Chan)
    ensures grows { Grows chans.old chans.new }
    ensures marked { has_chan chans.new c ≡ false → move_by (option_copied cue.entry) c ≡ None → level_of sheet.now (n - 1) c ≡ 0 }
{
    if move_by(cue, c).is_none() && sheet.level_at(below(n), c) != 0 {
        chans.insert(c);
    }
}
