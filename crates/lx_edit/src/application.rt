//! A plan applied: the show becomes the edited one, the sheet follows, and the plan that takes it back is made of
//! what was replaced. No call takes memory.

ghost use Rattle.std.specs.Prelude.{◌≡◌, ◌≤◌, false, true, None, IfSome};
ghost use Rattle.lx_edit.specs.Imports.{Valid, cue_of, with_cue, without_cue, RowsStandFor, CanMend, Grows, KeepsLevels, KeepsOthers};
ghost use Rattle.lx_edit.specs.Imports.{Replaced, changed_show, planned, with_above, CanExchange, CanPlace, KeepsAbove, IsReady};
ghost use Rattle.lx_edit.specs.Imports.{dimmer_planned, plans_sub, TakesBack, cue_instead};

use crate::chan_set::ChanSet;
use crate::dirty::Dirty;
use crate::marks::{changes_asserts, mark_change, mark_move, mark_within};
use crate::plans::Plan;
use lx_base::{CHANNELS, ChanRange, CueNo};
use lx_sheet::Sheet;
use lx_show::{Cue, Move, MoveList, Show};

/// A plan that was applied: what it touched, and the plan that takes it back.
#[derive(Drop)]
pub struct Exchanged {
    /// What it touched.
    pub dirty: Dirty,
    /// The plan that takes it back. What was replaced is moved into it.
    pub undo: Plan,
}

impl Plan {
    /// Applies the plan to the show for which it was made, as `exchange` does, and answers what was touched.
    pub fn apply(self, show: &mut Show, sheet: &mut Sheet) -> Dirty
        requires ready { IsReady show.old self }
        requires sheet { RowsStandFor show.old sheet.old }
        ensures show { show.new ≡ planned show.old self }
        ensures sheet { RowsStandFor show.new sheet.new }
        ensures levels { KeepsLevels show.old show.new result.chans }
        ensures others { KeepsOthers show.old show.new result.chans }
        ensures dimmer { result.dimmer ≡ dimmer_planned self }
        ensures subs { result.subs ≡ plans_sub self }
    {
        self.exchange(show, sheet).dirty
    }

    /// Applies the plan to the show for which it was made: the show becomes the edited one, and the sheet
    /// stands for it. It answers what was touched: all channels where a cue is asserted, or is so no longer,
    /// since each run of it acts on other channels then. And it answers the plan that makes the show before of
    /// the one after. It takes no memory.
    pub fn exchange(self, show: &mut Show, sheet: &mut Sheet) -> Exchanged
        requires ready { IsReady show.old self }
        requires sheet { RowsStandFor show.old sheet.old }
        ensures show { show.new ≡ planned show.old self }
        ensures sheet { RowsStandFor show.new sheet.new }
        ensures levels { KeepsLevels show.old show.new result.dirty.chans }
        ensures others { KeepsOthers show.old show.new result.dirty.chans }
        ensures dimmer { result.dirty.dimmer ≡ dimmer_planned self }
        ensures subs { result.dirty.subs ≡ plans_sub self }
        ensures undo { TakesBack show.old show.new result.undo }
    {
        let reaches_all = changes_asserts(show, &self);
        let Exchanged { dirty, undo } = self.exchanged(show, sheet);
        let dirty = if reaches_all { dirty.with_all() } else { dirty };
        Exchanged { dirty, undo }
    }

    /// The same, where the channels are those alone whose moves or tracked levels are changed.
    fn exchanged(self, show: &mut Show, sheet: &mut Sheet) -> Exchanged
        requires ready { IsReady show.old self }
        requires sheet { RowsStandFor show.old sheet.old }
        ensures show { show.new ≡ planned show.old self }
        ensures sheet { RowsStandFor show.new sheet.new }
        ensures others { KeepsLevels show.old show.new result.dirty.chans }
        ensures dimmer { result.dirty.dimmer ≡ dimmer_planned self }
        ensures subs { result.dirty.subs ≡ plans_sub self }
        ensures undo { TakesBack show.old show.new result.undo }
    {
        match self {
            Plan::Nothing => Exchanged {
                dirty: Dirty::apart(None, false),
                undo: Plan::Nothing,
            },
            Plan::Cue {
                number,
                to,
                above,
                keeps,
            } => {
                if keeps {
                    exchange_kept(show, sheet, number, to, above)
                } else {
                    exchange_cues(show, sheet, number, to, above)
                }
            }
            Plan::Move { cue, to } => exchange_move(show, sheet, cue, &to),
            Plan::Moves { cue, to, within } => exchange_moves(show, sheet, cue, to, within),
            Plan::Group { number, to } => Exchanged {
                dirty: Dirty::apart(None, false),
                undo: Plan::Group {
                    number,
                    to: show.exchange_group(number, to),
                },
            },
            Plan::Sub { number, to } => Exchanged {
                dirty: Dirty::apart(None, true),
                undo: Plan::Sub {
                    number,
                    to: show.exchange_sub(number, to),
                },
            },
            Plan::Row { dimmer, to } => Exchanged {
                dirty: Dirty::apart(Some(dimmer), false),
                undo: Plan::Row {
                    dimmer,
                    to: show.exchange_patch(dimmer, to),
                },
            },
        }
    }
}

/// Cue only: places both cues, of which the one above keeps its levels.
fn exchange_kept(
    show: &mut Show,
    sheet: &mut Sheet,
    n: CueNo,
    to: Option<Cue>,
    above: Option<Cue>,
) -> Exchanged
    requires ready { IsReady show.old (Plan.Cue n to above true) }
    requires sheet { RowsStandFor show.old sheet.old }
    ensures show { show.new ≡ planned show.old (Plan.Cue n to above true) }
    ensures sheet { RowsStandFor show.new sheet.new }
    ensures others { KeepsLevels show.old show.new result.dirty.chans }
    ensures dimmer { result.dirty.dimmer ≡ None }
    ensures subs { result.dirty.subs ≡ false }
    ensures undo { TakesBack show.old show.new result.undo }
{
    match to {
        Some(cue) => match above {
            Some(above) => {
                let mut chans = ChanSet::empty();
                let undo = place_alone(show, sheet, &mut chans, n, cue, above);
                let dirty = Dirty::of_cues(chans);
                Exchanged { dirty, undo }
            }
            None => unreachable!(),
        },
        None => unreachable!(),
    }
}

/// Cue only: places the cue of the number, and the one above it, which keeps its levels. It adds the channels that see a
/// difference, and answers what takes it back. The rows from the cue above on are as they were.
fn place_alone(
    show: &mut Show,
    sheet: &mut Sheet,
    chans: &mut ChanSet,
    n: CueNo,
    cue: Cue,
    above: Cue,
) -> Plan
    requires ready { CanPlace show.old cue }
    requires number { cue.number ≡ n }
    requires above { CanPlace (with_cue show.old cue) above }
    requires keeps { KeepsAbove show.old (with_cue show.old cue) n above }
    requires sheet { RowsStandFor show.old sheet.old }
    ensures show { show.new ≡ with_cue (with_cue show.old cue) above }
    ensures sheet { RowsStandFor show.new sheet.new }
    ensures others { KeepsLevels show.old show.new chans.new }
    ensures undo { TakesBack show.old show.new result }
{
    let end = above.number;
    mark_change(chans, show, sheet, n, Some(&cue));
    mark_change(chans, show, sheet, end, Some(&above));
    let old = show.exchange_cue(n, Some(cue));
    sheet.mark(show, n);
    let old_above = show.exchange_cue(end, Some(above));
    sheet.mark(show, end);
    mend(sheet, show, n, Some(end), chans);
    Plan::Cue {
        number: n,
        to: old,
        above: old_above,
        keeps: true,
    }
}

/// Places the move in the cue, in the place of the one of its channel. The cue moved the channel before, so its marks hold.
fn exchange_move(show: &mut Show, sheet: &mut Sheet, n: CueNo, entry: &Move) -> Exchanged
    requires ready { IsReady show.old (Plan.Move n entry.now) }
    requires sheet { RowsStandFor show.old sheet.old }
    ensures show { show.new ≡ planned show.old (Plan.Move n entry.now) }
    ensures sheet { RowsStandFor show.new sheet.new }
    ensures others { KeepsLevels show.old show.new result.dirty.chans }
    ensures dimmer { result.dirty.dimmer ≡ None }
    ensures subs { result.dirty.subs ≡ false }
    ensures undo { TakesBack show.old show.new result.undo }
{
    let old = show.exchange_move_in(n, *entry);
    let mut chans = ChanSet::empty();
    mark_move(&mut chans, entry, &old);
    mend_columns(sheet, show, n, &None, &chans);
    Exchanged {
        dirty: Dirty::of_cues(chans),
        undo: Plan::Move { cue: n, to: old },
    }
}

/// Gives the cue these moves. Outside the range they are its own.
fn exchange_moves(
    show: &mut Show,
    sheet: &mut Sheet,
    n: CueNo,
    moves: MoveList,
    within: ChanRange,
) -> Exchanged
    requires ready { IsReady show.old (Plan.Moves n moves within) }
    requires sheet { RowsStandFor show.old sheet.old }
    ensures show { show.new ≡ planned show.old (Plan.Moves n moves within) }
    ensures sheet { RowsStandFor show.new sheet.new }
    ensures others { KeepsLevels show.old show.new result.dirty.chans }
    ensures dimmer { result.dirty.dimmer ≡ None }
    ensures subs { result.dirty.subs ≡ false }
    ensures undo { TakesBack show.old show.new result.undo }
{
    let mut chans = ChanSet::empty();
    mark_within(&mut chans, show, n, moves.as_slice(), within);
    let old = show.replace_moves(n, moves);
    mend_cue(sheet, show, n, &chans);
    Exchanged {
        dirty: Dirty::of_cues(chans),
        undo: Plan::Moves {
            cue: n,
            to: old,
            within,
        },
    }
}

/// Makes the cue of the number this one, or none, and then places the one above it where that is given.
fn exchange_cues(
    show: &mut Show,
    sheet: &mut Sheet,
    n: CueNo,
    to: Option<Cue>,
    above: Option<Cue>,
) -> Exchanged
    requires ready { CanExchange show.old n to above false }
    requires sheet { RowsStandFor show.old sheet.old }
    ensures show { show.new ≡ planned show.old (Plan.Cue n to above false) }
    ensures sheet { RowsStandFor show.new sheet.new }
    ensures others { KeepsLevels show.old show.new result.dirty.chans }
    ensures dimmer { result.dirty.dimmer ≡ None }
    ensures subs { result.dirty.subs ≡ false }
    ensures undo { TakesBack show.old show.new result.undo }
{
    let mut chans = ChanSet::empty();
    let old = exchange_cue(show, sheet, &mut chans, n, to);
    let above = place_above(show, sheet, &mut chans, above);
    Exchanged {
        dirty: Dirty::of_cues(chans),
        undo: Plan::Cue {
            number: n,
            to: old,
            above,
            keeps: false,
        },
    }
}

/// Makes the cue of the number this one, or none. It answers the one that it was, and adds the channels that see a difference.
fn exchange_cue(
    show: &mut Show,
    sheet: &mut Sheet,
    chans: &mut ChanSet,
    n: CueNo,
    to: Option<Cue>,
) -> Option<Cue>
    requires least { 1 ≤ n }
    requires number { IfSome to (λ cue. cue.number ≡ n) }
    requires ready { IfSome to (CanPlace show.old) }
    requires sheet { RowsStandFor show.old sheet.old }
    ensures valid { Valid show.old }
    ensures replaced { result ≡ cue_of show.old n }
    ensures show { show.new ≡ changed_show show.old n to }
    ensures sheet { RowsStandFor show.new sheet.new }
    ensures grows { Grows chans.old chans.new }
    ensures others { KeepsLevels show.old show.new chans.new }
{
    match to {
        Some(cue) => place_cue(show, sheet, chans, cue),
        None => remove_cue(show, sheet, chans, n),
    }
}

/// Places the cue above the edited one too, where it is changed, and adds the channels that see a difference.
/// It answers the cue that was there instead.
fn place_above(
    show: &mut Show,
    sheet: &mut Sheet,
    chans: &mut ChanSet,
    above: Option<Cue>,
) -> Option<Cue>
    requires ready { IfSome above (CanPlace show.old) }
    requires sheet { RowsStandFor show.old sheet.old }
    ensures replaced { result ≡ cue_instead show.old above }
    ensures show { show.new ≡ with_above above show.old }
    ensures sheet { RowsStandFor show.new sheet.new }
    ensures grows { Grows chans.old chans.new }
    ensures others { KeepsLevels show.old show.new chans.new }
{
    match above {
        Some(above) => place_cue(show, sheet, chans, above),
        None => None,
    }
}

/// Places the cue, in place of the one of its number, which it answers, and adds the channels that see a
/// difference.
fn place_cue(show: &mut Show, sheet: &mut Sheet, chans: &mut ChanSet, cue: Cue) -> Option<Cue>
    requires ready { CanPlace show.old cue }
    requires sheet { RowsStandFor show.old sheet.old }
    ensures valid { Valid show.old }
    ensures replaced { result ≡ cue_of show.old cue.number }
    ensures show { show.new ≡ with_cue show.old cue }
    ensures sheet { RowsStandFor show.new sheet.new }
    ensures grows { Grows chans.old chans.new }
    ensures others { KeepsLevels show.old show.new chans.new }
{
    let n = cue.number;
    mark_change(chans, show, sheet, n, Some(&cue));
    let old = show.exchange_cue(n, Some(cue));
    if old.is_none() {
        sheet.insert_row(show, n);
    } else {
        mend_cue(sheet, show, n, chans);
    }
    old
}

/// Takes the cue out and answers it, and adds the channels that see a difference.
fn remove_cue(show: &mut Show, sheet: &mut Sheet, chans: &mut ChanSet, n: CueNo) -> Option<Cue>
    requires number { 1 ≤ n }
    requires sheet { RowsStandFor show.old sheet.old }
    ensures valid { Valid show.old }
    ensures removed { result ≡ cue_of show.old n }
    ensures show { show.new ≡ without_cue show.old n }
    ensures sheet { RowsStandFor show.new sheet.new }
    ensures grows { Grows chans.old chans.new }
    ensures others { KeepsLevels show.old show.new chans.new }
{
    mark_change(chans, show, sheet, n, None);
    let old = show.exchange_cue(n, None);
    sheet.remove_row(show, n);
    old
}

/// A cue was put in the place of the one of its number: the rows and its marks follow. The channels that see a difference
/// are among these.
fn mend_cue(sheet: &mut Sheet, show: &Show, n: CueNo, chans: &ChanSet)
    requires { Replaced show.now sheet.old n chans.now }
    ensures { RowsStandFor show.now sheet.new }
{
    if chans.is_large() {
        sheet.replace_row(show, n);
    } else {
        sheet.mark(show, n);
        mend_columns(sheet, show, n, &None, chans);
    }
}

/// A cue was changed in its place: the columns of these channels are filled in again from it on, up to the
/// given end, or the whole sheet where they are many.
fn mend(sheet: &mut Sheet, show: &Show, from: CueNo, to: Option<CueNo>, chans: &ChanSet)
    requires { CanMend show.now sheet.old from to chans.now }
    ensures { RowsStandFor show.now sheet.new }
{
    if chans.is_large() {
        sheet.refill(show);
    } else {
        mend_columns(sheet, show, from, &to, chans);
    }
}

/// The columns of these channels are filled in again: from the cue on, up to the given end or else to the next cue
/// that decides the channel.
fn mend_columns(sheet: &mut Sheet, show: &Show, from: CueNo, to: &Option<CueNo>, chans: &ChanSet)
    requires { CanMend show.now sheet.old from to.now chans.now }
    ensures { RowsStandFor show.now sheet.new }
{
    let mut k = 0;
    while let Some(c) = chans.next_above(k, CHANNELS) {
        match to {
            Some(end) => sheet.changed_until(show, from, Some(*end), c),
            None => sheet.changed_on(show, from, c),
        }
        k = c.get();
    }
}
