//! What a show has: each look-up finds its number by halving.

ghost use Rattle.std.specs.Prelude.{◌≡◌, IfSome, find, reverse};
ghost use Rattle.lx_show.specs.Imports.{option_copied, entry_at, Valid, ValidCue, ValidGroup, ValidSub, ValidPatchRow, cue_of, decides};
ghost use Rattle.lx_show.specs.Imports.{move_of, tracked, deciding_cue, cue_above, cue_below, next_cue, cue_before};

use crate::cue::Cue;
use crate::members::{Group, Sub};
use crate::show::Show;
use crate::{around, sorted};
use lx_base::{Chan, CueNo, Dimmer, GroupNo, Level, SubNo};
use lx_spec::{Move, PatchRow};

impl Show {
    /// The cue with the number. `None` exactly where there is none.
    pub fn cue(&self, n: CueNo) -> Option<&Cue>
        ensures cue { option_copied result ≡ cue_of self.now n }
        ensures valid { IfSome result (λ cue. ValidCue self.now.channels cue.now) }
        ensures show { Valid self.now }
    {
        sorted::entry_of(self.cues.as_slice(), n.get())
    }

    /// The group with the number. `None` exactly where there is none.
    pub fn group(&self, g: GroupNo) -> Option<&Group>
        ensures group { option_copied result ≡ entry_at (λ x. x.number) g self.now.groups }
        ensures valid { IfSome result (λ group. ValidGroup self.now.channels group.now) }
    {
        sorted::entry_of(self.groups.as_slice(), g.get())
    }

    /// The submaster with the number. `None` exactly where there is none.
    pub fn sub(&self, s: SubNo) -> Option<&Sub>
        ensures sub { option_copied result ≡ entry_at (λ x. x.number) s self.now.subs }
        ensures valid { IfSome result (λ sub. ValidSub self.now.channels sub.now) }
    {
        sorted::entry_of(self.subs.as_slice(), s.get())
    }

    /// The dimmer's patch row. `None` exactly where it has none.
    pub fn patch_of(&self, d: Dimmer) -> Option<PatchRow>
        ensures row { result ≡ entry_at (λ x. x.dimmer) d self.now.patch }
        ensures valid { IfSome result (λ row. ValidPatchRow self.now.channels row) }
    {
        sorted::entry_of(self.patch.as_slice(), d.get()).copied()
    }

    /// The channel's move in the cue. `None` exactly where there is no such cue or no such move.
    pub fn move_of(&self, n: CueNo, c: Chan) -> Option<Move>
        ensures { result ≡ move_of self.now n c }
    {
        self.cue(n)?.move_of(c)
    }
}

impl Show {
    /// The cue of the least number above this one, which need not be a cue's. `None` exactly where there
    /// is none.
    pub fn cue_above(&self, n: CueNo) -> Option<&Cue>
        ensures above { option_copied result ≡ cue_above self.now n }
        ensures valid { IfSome result (λ cue. ValidCue self.now.channels cue.now) }
    {
        around::above(self.cues.as_slice(), n.get()).first()
    }

    /// The cue of the greatest number below this one, which need not be a cue's. `None` exactly where
    /// there is none.
    pub fn cue_below(&self, n: CueNo) -> Option<&Cue>
        ensures below { option_copied result ≡ cue_below self.now n }
        ensures valid { IfSome result (λ cue. ValidCue self.now.channels cue.now) }
    {
        around::below(self.cues.as_slice(), n.get()).last()
    }

    /// The least cue number above this one. `None` exactly where there is none.
    pub fn next_cue(&self, n: CueNo) -> Option<CueNo>
        ensures { result ≡ next_cue self.now n }
    {
        Some(self.cue_above(n)?.number)
    }

    /// The greatest cue number below this one. `None` exactly where there is none.
    pub fn cue_before(&self, n: CueNo) -> Option<CueNo>
        ensures { result ≡ cue_before self.now n }
    {
        Some(self.cue_below(n)?.number)
    }

    /// Of the cues up to the number, the last one that decides the channel.
    fn deciding_cue(&self, n: CueNo, c: Chan) -> Option<&Cue>
        ensures { option_copied result ≡ deciding_cue self.now n c }
    {
        last_deciding(around::up_to(self.cues.as_slice(), n.get()), c)
    }

    /// The channel's tracked level at the number, which need not be a cue's. It is that of the last cue up to it
    /// that moves the channel or is a block cue, and 0 where that has no move of it or there is none.
    pub fn tracked(&self, n: CueNo, c: Chan) -> Level
        ensures { result ≡ tracked self.now n c }
    {
        match self.deciding_cue(n, c) {
            Some(cue) => cue.level_of(c),
            None => 0,
        }
    }
}

/// The last of the cues that decides the channel.
fn last_deciding(cues: &[Cue], c: Chan) -> Option<&Cue>
    ensures { option_copied result ≡ find (λ cue. decides cue c) (reverse cues.now) }
{
    cues.iter().rev().find(|cue| cue.decides(c))
}
