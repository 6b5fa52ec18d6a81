//! The record that is open: a cue, group or submaster of which the lines say more. It is kept apart from the show, and is put into it once.

ghost use Rattle.std.specs.Prelude.{◌≡◌, ◌≢◌, ◌||◌, length, nat_lt, IsTrue, OnOk};
ghost use Rattle.lx_reader.specs.Imports.{HasCause, has_entry, placed, ValidCue, ValidGroup, ValidSub, cue_with_entry, with_set, CueFits};
ghost use Rattle.lx_reader.specs.Imports.{OpenFits, SetFits, is_open, with_open};
ghost use Rattle.lx_base.specs.declared.TheConstants.{CUES, GROUPS, SUBS};
ghost use Rattle.lx_spec.specs.declared.Section.{Section};
ghost use Rattle.lx_reader.specs.declared.open_record.Open.TheVariants as open_records;

use crate::open_moves::OpenMoves;
use lx_base::{CueNo, GroupNo, SubNo};
use lx_io::Heap;
use lx_show::sorted::entry_of;
use lx_show::{Cue, Group, Show, Sub};
use std::alloc::{AllocError, Global};

/// The record in whose section the reading stands. Where it was in the show before, a bare one of its number is there in its place.
#[derive(Drop)]
pub(crate) enum Open {
    /// None is open.
    None,
    Cue(Cue),
    Group(Group),
    Sub(Sub),
}

impl Open {
    /// A record is open.
    #[inline(always)]
    pub(crate) fn is_some(&self) -> bool
        ensures { result ≡ is_open self.now }
    {
        !matches!(self, Open::None)
    }
}

/// Puts the record into the show, with its levels.
pub(crate) fn put_record<H: Heap>(
    heap: &mut H,
    show: &mut Show,
    held: Open,
    moves: &mut OpenMoves,
) -> Result<(), AllocError>
    requires { (section : Section) × OpenFits show.old section moves.old held }
    ensures show { OnOk result (show.new ≡ with_open held moves.old show.old) }
    ensures cause { HasCause (H.refusals heap.old) (H.refusals heap.new) result }
{
    match held {
        Open::None => Ok(()),
        Open::Cue(cue) => put_cue(heap, show, cue, moves),
        Open::Group(group) => put_group(heap, show, group, moves),
        Open::Sub(sub) => put_sub(heap, show, sub, moves),
    }
}

/// The same for a cue.
fn put_cue<H: Heap>(
    heap: &mut H,
    show: &mut Show,
    mut cue: Cue,
    moves: &mut OpenMoves,
) -> Result<(), AllocError>
    requires { CueFits show.old moves.old cue }
    ensures show { OnOk result (show.new ≡ with_open (open_records.Cue cue) moves.old show.old) }
    ensures cause { HasCause (H.refusals heap.old) (H.refusals heap.new) result }
{
    let channels = show.channels();
    moves.put_in_cue(heap, channels, &mut cue.moves)?;
    show.put_cue(cue);
    Ok(())
}

/// The same for a group.
fn put_group<H: Heap>(
    heap: &mut H,
    show: &mut Show,
    mut group: Group,
    moves: &mut OpenMoves,
) -> Result<(), AllocError>
    requires { SetFits GROUPS show.old moves.old group }
    ensures show { OnOk result (show.new ≡ with_open (open_records.Group group) moves.old show.old) }
    ensures cause { HasCause (H.refusals heap.old) (H.refusals heap.new) result }
{
    moves.put_in_set(heap, &mut group.members)?;
    show.put_group(group);
    Ok(())
}

/// The same for a submaster.
fn put_sub<H: Heap>(
    heap: &mut H,
    show: &mut Show,
    mut sub: Sub,
    moves: &mut OpenMoves,
) -> Result<(), AllocError>
    requires { SetFits SUBS show.old moves.old sub }
    ensures show { OnOk result (show.new ≡ with_open (open_records.Sub sub) moves.old show.old) }
    ensures cause { HasCause (H.refusals heap.old) (H.refusals heap.new) result }
{
    moves.put_in_set(heap, &mut sub.members)?;
    show.put_sub(sub);
    Ok(())
}

/// The cue to say more of: a new one, or the one of the show, where a bare one stands in its place.
pub(crate) fn open_cue(alloc: Global, show: &mut Show, n: CueNo) -> Cue
    requires number { n ≢ 0 }
    requires room { IsTrue (has_entry (λ c. c.number) n show.old.cues || nat_lt (length show.old.cues) CUES) }
    ensures number { result.number ≡ n }
    ensures valid { ValidCue show.new.channels result }
    ensures show { show.new ≡ record show.old { cues = show.new.cues } }
    ensures room { IsTrue (has_entry (λ c. c.number) n show.new.cues || nat_lt (length show.new.cues) CUES) }
    ensures cues { placed (λ c. c.number) result show.new.cues ≡ cue_with_entry n show.old.cues }
{
    if entry_of(show.cues(), n.get()).is_none() {
        return Cue::new(alloc, n);
    }
    match show.exchange_cue(n, Some(Cue::new(alloc, n))) {
        Some(cue) => cue,
        None => unreachable!(),
    }
}

/// The same for a group.
pub(crate) fn open_group(alloc: Global, show: &mut Show, g: GroupNo) -> Group
    ensures number { result.number ≡ g }
    ensures valid { ValidGroup show.new.channels result }
    ensures show { show.new ≡ record show.old { groups = show.new.groups } }
    ensures groups { placed (λ s. s.number) result show.new.groups ≡ with_set g show.old.groups }
{
    if entry_of(show.groups(), g.get()).is_none() {
        return Group::new(alloc, g);
    }
    match show.exchange_group(g, Some(Group::new(alloc, g))) {
        Some(group) => group,
        None => unreachable!(),
    }
}

/// The same for a submaster.
pub(crate) fn open_sub(alloc: Global, show: &mut Show, s: SubNo) -> Sub
    ensures number { result.number ≡ s }
    ensures valid { ValidSub show.new.channels result }
    ensures show { show.new ≡ record show.old { subs = show.new.subs } }
    ensures subs { placed (λ x. x.number) result show.new.subs ≡ with_set s show.old.subs }
{
    if entry_of(show.subs(), s.get()).is_none() {
        return Sub::new(alloc, s);
    }
    match show.exchange_sub(s, Some(Sub::new(alloc, s))) {
        Some(sub) => sub,
        None => unreachable!(),
    }
}
