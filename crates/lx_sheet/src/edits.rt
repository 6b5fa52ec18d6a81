//! A sheet follows the edits of its show. No call takes memory.

ghost use Rattle.std.specs.Prelude.{◌≡◌, ◌≢◌, ℕ, ◌<◌, ◌≤◌, true, None, IfSome, is_some, length, map};
ghost use Rattle.lx_sheet.specs.Imports.{option_map_or, IsStrictlySorted, cue_of, tracked, with_cue, without_cue, numbers_of, level_of};
ghost use Rattle.lx_sheet.specs.Imports.{is_marked, count_under, IsEnd, IsMarked, IsMarkedAt, RowsStandFor, StandsFrom, StandsIn};
ghost use Rattle.lx_sheet.specs.Imports.{cue_numbers, next_decision};
ghost use Rattle.lx_spec.specs.Show.{Show as ShowData, Cue as CueData};

use crate::block::{fill_column, fill_from, fill_inserted, fill_removed, own_row, reach};
use crate::marks::Marks;
use crate::opening::fill_all;
use crate::pool::{add_place, drop_place, list_cues, list_free};
use crate::sheet::Sheet;
use lx_base::{Chan, CueNo};
use lx_show::around::{below, up_to};
use lx_show::sorted::index_of;
use lx_show::{Cue, Show};

/// Which cues are asked whether they decide a channel.
#[derive(Clone, Copy)]
enum CuesAsked {
    /// Each of them.
    Each,
    /// Those that are marked.
    Marked,
}

impl CuesAsked {
    /// The marks that tell which: none where each cue is asked.
    fn among(self, marks: &Marks) -> Option<&Marks>
        ensures { IfSome result (λ m. (m.now ≡ marks.now) × (self ≡ CuesAsked.Marked)) }
    {
        match self {
            CuesAsked::Each => None,
            CuesAsked::Marked => Some(marks),
        }
    }
}

impl Sheet {
    /// Moves of the channel were changed in cues from `from` on, or a block flag: its column stands for
    /// the show again, and the others are as they were. It is one pass down the column.
    ///
    /// The show has the sheet's cues and channel count, and below `from` the column stands for it.
    pub fn changed(&mut self, show: &Show, from: CueNo, chan: Chan)
        requires channels { self.old.channels ≡ show.now.channels }
        requires numbers { numbers_of self.old ≡ cue_numbers show.now }
        requires below { (n : ℕ) → n < from → level_of self.old n chan ≡ tracked show.now n chan }
        ensures column { StandsIn show.now chan self.new }
        ensures others { (n c : ℕ) → c ≢ chan → level_of self.new n c ≡ level_of self.old n c }
        ensures numbers { numbers_of self.new ≡ numbers_of self.old }
        ensures channels { self.new.channels ≡ self.old.channels }
        ensures marks { self.new.marks ≡ self.old.marks }
    {
        self.changed_until(show, from, None, chan)
    }

    /// The same where the rows of the cues from `to` on stand for the show as they are, if `to` is a number:
    /// they aren't touched.
    pub fn changed_until(&mut self, show: &Show, from: CueNo, to: Option<CueNo>, chan: Chan)
        requires channels { self.old.channels ≡ show.now.channels }
        requires numbers { numbers_of self.old ≡ cue_numbers show.now }
        requires below { (n : ℕ) → n < from → level_of self.old n chan ≡ tracked show.now n chan }
        requires above { IfSome to (λ end. (n : ℕ) → end ≤ n → level_of self.old n chan ≡ tracked show.now n chan) }
        ensures column { StandsIn show.now chan self.new }
        ensures others { (n c : ℕ) → c ≢ chan → level_of self.new n c ≡ level_of self.old n c }
        ensures numbers { numbers_of self.new ≡ numbers_of self.old }
        ensures channels { self.new.channels ≡ self.old.channels }
        ensures marks { self.new.marks ≡ self.old.marks }
    {
        let last = count_below(show.cues(), to);
        self.fill(show, from, chan, last, last, CuesAsked::Each);
    }

    /// The same where the channel's levels change up to the next cue above `from` that decides it: one pass finds that cue and fills
    /// in the rows before it. Those from it on stand for the show as they are, and aren't touched. What the cues decide is marked, so
    /// only cues that may decide the channel are asked.
    pub fn changed_on(&mut self, show: &Show, from: CueNo, chan: Chan)
        requires channels { self.old.channels ≡ show.now.channels }
        requires numbers { numbers_of self.old ≡ cue_numbers show.now }
        requires below { (n : ℕ) → n < from → level_of self.old n chan ≡ tracked show.now n chan }
        requires above { IfSome (next_decision show.now from chan)
            (λ end. (n : ℕ) → end ≤ n → level_of self.old n chan ≡ tracked show.now n chan) }
        requires marks { IsMarked show.now self.old }
        ensures column { StandsIn show.now chan self.new }
        ensures others { (n c : ℕ) → c ≢ chan → level_of self.new n c ≡ level_of self.old n c }
        ensures numbers { numbers_of self.new ≡ numbers_of self.old }
        ensures channels { self.new.channels ≡ self.old.channels }
        ensures marks { self.new.marks ≡ self.old.marks }
    {
        let cues = show.cues();
        let next = up_to(cues, from.get()).len();
        self.fill(show, from, chan, next, cues.len(), CuesAsked::Marked);
    }

    /// The same up to a place of the order, or to the first cue from another on that decides the channel. The rows from the end
    /// on stand for the show as they are.
    fn fill(
        &mut self,
        show: &Show,
        from: CueNo,
        chan: Chan,
        sure: usize,
        to: usize,
        asked: CuesAsked,
    )
        requires channels { self.old.channels ≡ show.now.channels }
        requires numbers { numbers_of self.old ≡ cue_numbers show.now }
        requires below { (n : ℕ) → n < from → level_of self.old n chan ≡ tracked show.now n chan }
        requires to { to ≤ length show.now.cues }
        requires above { (end : ℕ) → IsEnd show.now.cues chan (count_under from (cue_numbers show.now)) sure to end
            → StandsFrom show.now chan end self.old }
        requires marks { asked ≡ CuesAsked.Marked → IsMarked show.now self.old }
        ensures column { StandsIn show.now chan self.new }
        ensures others { (n c : ℕ) → c ≢ chan → level_of self.new n c ≡ level_of self.old n c }
        ensures numbers { numbers_of self.new ≡ numbers_of self.old }
        ensures channels { self.new.channels ≡ self.old.channels }
        ensures marks { self.new.marks ≡ self.old.marks }
    {
        let cues = show.cues();
        let first = below(cues, from.get()).len();
        if chan.get() as usize <= self.channels {
            let marks = asked.among(&self.marks);
            let _ = fill_column(
                &mut self.levels,
                self.channels,
                &self.order,
                cues,
                marks,
                first,
                sure,
                to,
                chan,
            );
        }
    }

    /// The cue of the number was put in the place of another: its marks are made again. No row is looked at.
    pub fn mark(&mut self, show: &Show, n: CueNo)
        requires { self.old.channels ≡ show.now.channels }
        ensures levels { (m c : ℕ) → level_of self.new m c ≡ level_of self.old m c }
        ensures numbers { numbers_of self.new ≡ numbers_of self.old }
        ensures channels { self.new.channels ≡ self.old.channels }
        ensures others { (m c : ℕ) → m ≢ n → is_marked self.new m c ≡ is_marked self.old m c }
        ensures marks { IsMarkedAt show.now self.new n }
    {
        if let Some(cue) = show.cue(n) {
            if let Ok(place) = index_of(self.order.as_slice(), n.get()) {
                self.marks.write(own_row(&self.order, place), cue);
            }
        }
    }

    /// The cue was added: a sheet that stood for the show without it stands for the show. No other row is moved.
    pub fn insert_row(&mut self, show: &Show, n: CueNo)
        requires { self.old.channels ≡ show.now.channels }
        ensures { (before : ShowData) (cue : CueData) → RowsStandFor before self.old → cue.number ≡ n → cue_of before n ≡ None
            → show.now ≡ with_cue before cue → RowsStandFor show.now self.new }
    {
        let cues = show.cues();
        if let Some(at) = add_place(&mut self.order, &mut self.free, n) {
            let row = own_row(&self.order, at);
            reach(&mut self.levels, self.channels, row + 1);
            self.marks.reach(row + 1);
            if self.order.len() == cues.len() {
                self.marks.write(row, &cues[at]);
                fill_inserted(&mut self.levels, &mut self.look, &self.order, cues, at);
            }
        }
    }

    /// The cue was taken out: a sheet that stood for the show with it stands for the show. No other row is moved.
    pub fn remove_row(&mut self, show: &Show, n: CueNo)
        requires { self.old.channels ≡ show.now.channels }
        ensures { (before : ShowData) → RowsStandFor before self.old → show.now ≡ without_cue before n → RowsStandFor show.now self.new }
    {
        let cues = show.cues();
        if let Some(freed) = drop_place(&mut self.order, &mut self.free, n) {
            if self.order.len() == cues.len() {
                fill_removed(
                    &mut self.levels,
                    &mut self.look,
                    &self.order,
                    cues,
                    freed.at,
                    freed.row,
                );
            }
        }
    }

    /// The cue was put in the place of the one of its number: a sheet that stood for the show before stands for the
    /// show. Rows are filled in from it on, up to the first that holds its levels already.
    pub fn replace_row(&mut self, show: &Show, n: CueNo)
        requires { self.old.channels ≡ show.now.channels }
        ensures { (before : ShowData) (cue : CueData) → RowsStandFor before self.old → cue.number ≡ n → is_some (cue_of before n) ≡ true
            → show.now ≡ with_cue before cue → RowsStandFor show.now self.new }
    {
        let cues = show.cues();
        let order = self.order.as_slice();
        if let Ok(place) = index_of(order, n.get()) {
            if order.len() == cues.len() {
                self.marks.write(own_row(order, place), &cues[place]);
                fill_from(
                    &mut self.levels,
                    &mut self.look,
                    order,
                    cues,
                    place,
                    place + 1,
                );
            }
        }
    }

    /// Fills in every row again: the sheet stands for the show, which has its channel count.
    pub fn refill(&mut self, show: &Show)
        requires { self.old.channels ≡ show.now.channels }
        ensures { RowsStandFor show.now self.new }
    {
        let cues = show.cues();
        list_cues(&mut self.order, cues);
        list_free(&mut self.free, cues.len());
        fill_all(&mut self.levels, &mut self.look, &mut self.marks, cues);
    }
}

/// How many cues are below the number: all where there is none.
fn count_below(cues: &[Cue], to: Option<CueNo>) -> usize
    requires { IsStrictlySorted (λ cue. cue.number) cues.now }
    ensures { result ≡ option_map_or (λ end. count_under end (map (λ cue. cue.number) cues.now)) to (length cues.now) }
{
    match to {
        Some(end) => below(cues, end.get()).len(),
        None => cues.len(),
    }
}
