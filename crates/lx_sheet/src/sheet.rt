//! A sheet, and what it tells.

ghost use Rattle.std.specs.Prelude.{◌≡◌, ℕ, ◌+◌, ◌<◌, ◌≤◌, None, IfOk, IfSome, length, option_map, slice_index};
ghost use Rattle.std.specs.Option.{option_copied};
ghost use Rattle.lx_io.specs.Causes.{HasCause};
ghost use Rattle.lx_spec.specs.SortedList.{IsStrictlySorted};
ghost use Rattle.lx_spec.specs.TrackedLevel.{cue_of, tracked};
ghost use Rattle.lx_spec.specs.Replies.{row_of};
ghost use Rattle.lx_show.specs.Around.{entries_up_to};
ghost use Rattle.lx_sheet.specs.Rows.{row_at, level_of};
ghost use Rattle.lx_sheet.specs.SheetMeaning.{RowsStandFor};
ghost use Rattle.lx_spec.specs.Show.{Show as ShowData};

use crate::block::{ROW_GAP, level_before, own_row};
use crate::marks::Marks;
use crate::pool::list_free;
use lx_base::{CUE_UNIT, CUES, Chan, CueNo, Level};
use lx_io::{Heap, SystemHeap, filled};
use lx_show::Show;
use lx_show::sorted::{Keyed, index_of};
use std::alloc::{AllocError, Global};
use std::marker::Model;

/// Which row of the block is a cue's own.
#[derive(Clone, Copy)]
pub(crate) struct Place {
    pub(crate) cue: CueNo,
    pub(crate) row: usize,
}

impl Keyed for Place {
    ghost key = { λ p. p.cue };

    fn key(&self) -> u32 {
        self.cue.get()
    }

    fn step(&self) -> u32 {
        CUE_UNIT
    }
}

/// A row of tracked levels for each cue of a show, and marks of the channels that the cue may decide. Contracts see the channel
/// count for which it was opened, its rows and its marks, sorted by cue number.
#[derive(Drop)]
pub struct Sheet {
    pub(crate) channels: usize,
    /// The cues in the order of their numbers, and the row of each.
    pub(crate) order: Vec<Place>,
    /// The rows of the block that are no cue's.
    pub(crate) free: Vec<usize>,
    /// The block of rows, each as long as there are channels and a gap behind it, up to the last one that was a cue's. A row stays in
    /// its place as long as its cue is there.
    pub(crate) levels: Vec<Level>,
    /// The levels of the cue that is being filled in.
    pub(crate) look: Vec<Level>,
    /// The marks of the rows of the block.
    pub(crate) marks: Marks,
}

impl Model for Sheet {
    ghost use Rattle.std.specs.Prelude.{vec_capacity};
    ghost use Rattle.lx_sheet.specs.Rows.{Sheet as SheetData};
    ghost use Rattle.lx_sheet.specs.Block.{marks_of, rows_of, HoldsRows};

    ghost Value = { SheetData };

    ghost view = { λ s. record {
      channels = s.channels;
      rows = rows_of s.channels s.order.items s.levels.items;
      marks = marks_of s.channels s.order.items s.marks;
    } };

    ghost invariant = { λ s. HoldsRows s.channels s.order.items (vec_capacity s.order) s.free.items
        (vec_capacity s.free) s.levels.items (vec_capacity s.levels) s.look.items s.marks };
}

impl Sheet {
    /// A sheet that stands for the show. It takes the memory for `CUES` rows of the show's channels; an
    /// error comes where it runs out.
    pub fn open(alloc: Global, show: &Show) -> Result<Sheet, AllocError>
        ensures { IfOk result (RowsStandFor show.now) }
    {
        Sheet::open_in(&mut SystemHeap::new(alloc), show)
    }

    /// The same, by a heap. An error comes where the heap refuses memory.
    pub fn open_in<H: Heap>(heap: &mut H, show: &Show) -> Result<Sheet, AllocError>
        ensures rows { IfOk result (RowsStandFor show.now) }
        ensures cause { HasCause (H.refusals heap.old) (H.refusals heap.new) result }
    {
        let channels = show.channels() as usize;
        let mut free = heap.room(CUES)?;
        list_free(&mut free, 0);
        let mut sheet = Sheet {
            channels,
            order: heap.room(CUES)?,
            free,
            levels: heap.room(CUES * (channels + ROW_GAP))?,
            look: filled(heap, 0, channels)?,
            marks: Marks::open(heap, channels)?,
        };
        sheet.refill(show);
        Ok(sheet)
    }

    /// The row of the cue: the level of channel c at place c - 1. `None` exactly where there is no cue of
    /// the number.
    pub fn row(&self, n: CueNo) -> Option<&[Level]>
        ensures row { option_copied result ≡ option_map (λ row. row.levels) (row_at self.now n) }
        ensures stands { (show : ShowData) → RowsStandFor show self.now
            → option_copied result ≡ option_map (λ cue. row_of show n) (cue_of show n) }
    {
        let order = self.order.as_slice();
        match index_of(order, n.get()) {
            Ok(at) => {
                let row = own_row(order, at);
                let start = row * (self.channels + ROW_GAP);
                Some(&self.levels[start..start + self.channels])
            }
            Err(_) => None,
        }
    }

    /// The levels at the number, which need not be a cue's: the last row up to it, the level of channel c at place
    /// c - 1. `None` where there is none: each channel is at 0.
    pub fn look_at(&self, n: CueNo) -> Option<&[Level]>
        ensures reach { IfSome result (λ row. length row.now ≡ self.now.channels) }
        ensures levels { IfSome result (λ row. (k : ℕ) → k < self.now.channels → slice_index row.now k ≡ level_of self.now n (k + 1)) }
        ensures none { result ≡ None → (c : ℕ) → level_of self.now n c ≡ 0 }
    {
        let order = self.order.as_slice();
        let mut near = 0;
        let cues = count_near(order, n, &mut near);
        if cues == 0 {
            return None;
        }
        let last = own_row(order, cues - 1);
        let start = last * (self.channels + ROW_GAP);
        Some(&self.levels[start..start + self.channels])
    }

    /// The channel's tracked level at the number, which need not be a cue's: that in the last row up to
    /// it, and 0 where there is none or the channel is above the count.
    pub fn level_at(&self, n: CueNo, c: Chan) -> Level
        ensures level { result ≡ level_of self.now n c }
        ensures stands { (show : ShowData) → RowsStandFor show self.now → result ≡ tracked show n c }
    {
        let mut near = 0;
        self.level_near(n, c, &mut near)
    }

    /// The same, for a number that is most often that of the row which was found last: its place among the
    /// rows is kept in `near`.
    pub fn level_near(&self, n: CueNo, c: Chan, near: &mut usize) -> Level
        ensures level { result ≡ level_of self.now n c }
        ensures stands { (show : ShowData) → RowsStandFor show self.now → result ≡ tracked show n c }
    {
        let at = c.get() as usize - 1;
        if at >= self.channels {
            return 0;
        }
        let order = self.order.as_slice();
        let cues = count_near(order, n, near);
        level_before(self.levels.as_slice(), self.channels, order, cues, at)
    }
}

/// How many of the places are up to the number. It is looked for first at the place that was found last.
fn count_near(order: &[Place], n: CueNo, near: &mut usize) -> usize
    requires { IsStrictlySorted (λ p. p.cue) order.now }
    ensures count { result ≡ length (entries_up_to (λ p. p.cue) n order.now) }
    ensures within { result ≤ length order.now }
{
    let before = *near;
    if before < order.len() && order[before].cue.get() == n.get() {
        return before + 1;
    }
    match index_of(order, n.get()) {
        Ok(at) => {
            *near = at;
            at + 1
        }
        Err(at) => at,
    }
}
