//! Entries placed into a show and taken out: each call changes the entry of that number alone. None takes
//! memory, since a show has room for all numbers.

ghost use Rattle.std.specs.Prelude.{◌≡◌, ◌≤◌, ◌||◌, IsTrue, IfSome, length, nat_lt};
ghost use Rattle.lx_show.specs.Imports.{entry_at, has_entry, placed, taken_out, Valid, ValidCue, ValidGroup, ValidPatchRow, ValidSub};
ghost use Rattle.lx_show.specs.Imports.{cue_of, exchanged_at};

use crate::cue::Cue;
use crate::members::{Group, Sub};
use crate::show::Show;
use crate::sorted;
use lx_base::{CUES, CueNo, Dimmer, GroupNo, SubNo};
use lx_spec::PatchRow;

impl Show {
    /// A cue of the number may be placed: it is there, or there are fewer than `CUES` cues.
    pub fn has_room_for(&self, n: CueNo) -> bool
        ensures room { result ≡ (has_entry (λ x. x.number) n self.now.cues || nat_lt (length self.now.cues) CUES) }
        ensures valid { Valid self.now }
    {
        self.cues.len() < CUES || self.cue(n).is_some()
    }

    /// Places the cue, in place of the one of its number. Either that is there, or there are fewer than
    /// `CUES` cues.
    pub fn put_cue(&mut self, cue: Cue)
        requires valid { ValidCue self.old.channels cue }
        requires room { IsTrue (has_entry (λ x. x.number) cue.number self.old.cues || nat_lt (length self.old.cues) CUES) }
        ensures { self.new ≡ record self.old { cues = placed (λ x. x.number) cue self.old.cues } }
    {
        let n = cue.number;
        let _ = self.exchange_cue(n, Some(cue));
    }

    /// Takes the cue out. `None` exactly where there is no cue of the number.
    pub fn take_cue(&mut self, n: CueNo) -> Option<Cue>
        ensures cue { result ≡ cue_of self.old n }
        ensures others { self.new ≡ record self.old { cues = taken_out (λ x. x.number) n self.old.cues } }
    {
        self.exchange_cue(n, None)
    }

    /// Places the group, in place of the one of its number.
    pub fn put_group(&mut self, group: Group)
        requires { ValidGroup self.old.channels group }
        ensures { self.new ≡ record self.old { groups = placed (λ x. x.number) group self.old.groups } }
    {
        let g = group.number;
        let _ = self.exchange_group(g, Some(group));
    }

    /// Places the submaster, in place of the one of its number.
    pub fn put_sub(&mut self, sub: Sub)
        requires { ValidSub self.old.channels sub }
        ensures { self.new ≡ record self.old { subs = placed (λ x. x.number) sub self.old.subs } }
    {
        let s = sub.number;
        let _ = self.exchange_sub(s, Some(sub));
    }

    /// Places the row, in place of the one of its dimmer. Its channel is within the count.
    pub fn put_patch(&mut self, row: PatchRow)
        requires { row.chan ≤ self.old.channels }
        ensures { self.new ≡ record self.old { patch = placed (λ x. x.dimmer) row self.old.patch } }
    {
        // For its proof alone: what the types of a row keep.
        let _ = row.dimmer.get();
        let _ = row.chan.get();
        let _level = row.level;
        let _ = self.exchange_patch(row.dimmer, Some(row));
    }

    /// Takes the dimmer's row out. `None` exactly where it has none.
    pub fn take_patch(&mut self, d: Dimmer) -> Option<PatchRow>
        ensures row { result ≡ entry_at (λ x. x.dimmer) d self.old.patch }
        ensures others { self.new ≡ record self.old { patch = taken_out (λ x. x.dimmer) d self.old.patch } }
    {
        self.exchange_patch(d, None)
    }
}

impl Show {
    /// Makes the cue of the number this one, or none, and hands back the one that it was. There is room for a cue of the number where
    /// one is given: it is there, or there are fewer than `CUES` cues.
    pub fn exchange_cue(&mut self, n: CueNo, to: Option<Cue>) -> Option<Cue>
        requires number { IfSome to (λ cue. cue.number ≡ n) }
        requires valid { IfSome to (ValidCue self.old.channels) }
        requires room { IfSome to (λ _. IsTrue (has_entry (λ x. x.number) n self.old.cues || nat_lt (length self.old.cues) CUES)) }
        ensures before { Valid self.old }
        ensures after { Valid self.new }
        ensures replaced { result ≡ cue_of self.old n }
        ensures show { self.new ≡ record self.old { cues = exchanged_at (λ x. x.number) n to self.old.cues } }
    {
        sorted::exchange_in_room(&mut self.cues, n.get(), to)
    }

    /// Makes the group of the number this one, or none, and hands back the one that it was.
    pub fn exchange_group(&mut self, g: GroupNo, to: Option<Group>) -> Option<Group>
        requires number { IfSome to (λ group. group.number ≡ g) }
        requires valid { IfSome to (ValidGroup self.old.channels) }
        ensures before { Valid self.old }
        ensures replaced { result ≡ entry_at (λ x. x.number) g self.old.groups }
        ensures show { self.new ≡ record self.old { groups = exchanged_at (λ x. x.number) g to self.old.groups } }
    {
        sorted::exchange_in_room(&mut self.groups, g.get(), to)
    }

    /// Makes the submaster of the number this one, or none, and hands back the one that it was.
    pub fn exchange_sub(&mut self, s: SubNo, to: Option<Sub>) -> Option<Sub>
        requires number { IfSome to (λ submaster. submaster.number ≡ s) }
        requires valid { IfSome to (ValidSub self.old.channels) }
        ensures before { Valid self.old }
        ensures replaced { result ≡ entry_at (λ x. x.number) s self.old.subs }
        ensures show { self.new ≡ record self.old { subs = exchanged_at (λ x. x.number) s to self.old.subs } }
    {
        sorted::exchange_in_room(&mut self.subs, s.get(), to)
    }

    /// Makes the dimmer's row this one, or none, and hands back the one that it was.
    pub fn exchange_patch(&mut self, d: Dimmer, to: Option<PatchRow>) -> Option<PatchRow>
        requires number { IfSome to (λ row. row.dimmer ≡ d) }
        requires valid { IfSome to (ValidPatchRow self.old.channels) }
        ensures before { Valid self.old }
        ensures replaced { result ≡ entry_at (λ x. x.dimmer) d self.old.patch }
        ensures show { self.new ≡ record self.old { patch = exchanged_at (λ x. x.dimmer) d to self.old.patch } }
    {
        sorted::exchange_in_room(&mut self.patch, d.get(), to)
    }
}
