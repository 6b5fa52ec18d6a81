//! Channels with levels under one number: groups and submasters.

ghost use Rattle.std.specs.Prelude.{◌≡◌, ℕ, [], None, OnOk, OnErr, IfOk};
ghost use Rattle.lx_io.specs.Causes.{HasCause};
ghost use Rattle.lx_spec.specs.SortedList.{entry_at, placed};
ghost use Rattle.lx_spec.specs.Show.{ValidGroup, ValidSub};

use crate::list::{Copied, SortedList};
use crate::sorted::Keyed;
use lx_base::{GroupNo, SubNo};
use lx_io::Heap;
use lx_spec::{Label, Member};
use std::alloc::{AllocError, Global};
use std::marker::Model;

impl Keyed for Member {
    ghost key = { λ m. m.chan };

    fn key(&self) -> u32 {
        self.chan.get()
    }
}

impl Keyed for GroupNo {
    ghost key = { λ n. n };

    fn key(&self) -> u32 {
        self.get()
    }
}

impl Keyed for SubNo {
    ghost key = { λ n. n };

    fn key(&self) -> u32 {
        self.get()
    }
}

/// Members sorted by channel, one for each channel.
pub type MemberList = SortedList<Member>;

/// Channels with levels under one number, which is a group's or a submaster's. Contracts see its number,
/// its label and its members.
#[derive(Drop)]
pub struct MemberSet<N: Keyed + Copy + Drop> {
    /// Its number.
    pub number: N,
    /// Its label, which may be empty.
    pub label: Label,
    /// Sorted by channel.
    pub members: MemberList,
}

/// A group: channels with levels, named by one number.
pub type Group = MemberSet<GroupNo>;

/// A submaster: channels with the levels that its fader brings up.
pub type Sub = MemberSet<SubNo>;

impl<N: Keyed + Copy + Drop> Model for MemberSet<N> {
    ghost use Rattle.lx_spec.specs.Show.{MemberSet as MemberSetData};

    ghost Value = { MemberSetData };

    ghost view = { λ s. record { number = N.key s.number; label = s.label; members = s.members } };
}

impl<N: Keyed + Copy + Drop> Keyed for MemberSet<N> {
    ghost key = { λ s. s.number };

    fn key(&self) -> u32 {
        self.number.key()
    }
}

impl<N: Keyed + Copy + Drop> Copied for MemberSet<N> {
    fn copied<H: Heap>(&self, heap: &mut H) -> Result<Self, AllocError> {
        self.copy(heap)
    }
}

impl MemberSet<GroupNo> {
    /// A group without members and label. It takes no memory yet.
    pub fn new(alloc: Global, number: GroupNo) -> Group
        ensures group { result ≡ record { number = number; label = []; members = [] } }
        ensures valid { (channels : ℕ) → ValidGroup channels result }
    {
        // For its proof alone: the range of the number.
        let _ = number.get();
        MemberSet {
            number,
            label: Label::none(),
            members: SortedList::new(alloc),
        }
    }
}

impl MemberSet<SubNo> {
    /// A submaster without members and label. It takes no memory yet.
    pub fn new(alloc: Global, number: SubNo) -> Sub
        ensures submaster { result ≡ record { number = number; label = []; members = [] } }
        ensures valid { (channels : ℕ) → ValidSub channels result }
    {
        // For its proof alone: the range of the number.
        let _ = number.get();
        MemberSet {
            number,
            label: Label::none(),
            members: SortedList::new(alloc),
        }
    }
}

impl<N: Keyed + Copy + Drop> MemberSet<N> {
    /// An equal group or submaster. An error comes where the heap refuses memory.
    pub fn copy<H: Heap>(&self, heap: &mut H) -> Result<Self, AllocError>
        ensures set { IfOk result (λ set. set ≡ self.now) }
        ensures cause { HasCause (H.refusals heap.old) (H.refusals heap.new) result }
    {
        Ok(MemberSet {
            number: self.number,
            label: self.label.copy(),
            members: self.members.copy(heap)?,
        })
    }

    /// Places the member, in place of the one of its channel. An error comes where the heap refuses room, only where the
    /// channel is no member yet, and leaves the group or submaster as it was.
    pub fn put_member<H: Heap>(&mut self, heap: &mut H, entry: Member) -> Result<(), AllocError>
        ensures ok { OnOk result (self.new ≡ record self.old { members = placed (λ m. m.chan) entry self.old.members }) }
        ensures err { OnErr result (self.new ≡ self.old) }
        ensures absent { OnErr result (entry_at (λ m. m.chan) entry.chan self.old.members ≡ None) }
        ensures cause { HasCause (H.refusals heap.old) (H.refusals heap.new) result }
    {
        self.members.put(heap, entry)
    }
}
