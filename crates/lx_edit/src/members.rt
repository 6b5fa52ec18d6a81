//! Edits of the members of a group or a submaster, which is made where it is absent.

ghost use Rattle.std.specs.Prelude.{◌≡◌, IfOk, OnOk, unwrap_or};
ghost use Rattle.lx_edit.specs.Imports.{HasCause, HasCauseOf, ValidMembers, ValidGroup, ValidSub, all_at, channels_in, with_members};
ghost use Rattle.lx_edit.specs.Imports.{set_or_new, IsWithin, Plans};

use crate::absent::{channel, the_channels};
use crate::plans::Plan;
use lx_base::{ChanRange, GroupNo, Level, SubNo};
use lx_io::Heap;
use lx_show::{Edit, Group, Member, MemberList, Refusal, Show, Sub, facts};
use std::alloc::AllocError;

/// The channels of the range are in the group at the level.
pub(crate) fn group_member<H: Heap>(
    heap: &mut H,
    show: &Show,
    g: GroupNo,
    range: ChanRange,
    level: Level,
) -> Result<Plan, Refusal>
    ensures plan { Plans show.now (Edit.GroupMember g range level) result }
    ensures cause { HasCauseOf Refusal.Memory (H.refusals heap.old) (H.refusals heap.new) result }
{
    the_channels(show, range)?;
    let mut group = group_or_new(heap, show, g)?;
    put_members(heap, show.channels(), &mut group.members, range, level)?;
    Ok(Plan::Group {
        number: g,
        to: Some(group),
    })
}

/// The channels of the range are in the submaster at the level.
pub(crate) fn sub_member<H: Heap>(
    heap: &mut H,
    show: &Show,
    s: SubNo,
    range: ChanRange,
    level: Level,
) -> Result<Plan, Refusal>
    ensures plan { Plans show.now (Edit.SubMember s range level) result }
    ensures cause { HasCauseOf Refusal.Memory (H.refusals heap.old) (H.refusals heap.new) result }
{
    the_channels(show, range)?;
    let mut sub = sub_or_new(heap, show, s)?;
    put_members(heap, show.channels(), &mut sub.members, range, level)?;
    Ok(Plan::Sub {
        number: s,
        to: Some(sub),
    })
}

/// An equal group, or a new one where it is absent. An error comes where memory runs out.
fn group_or_new<H: Heap>(heap: &mut H, show: &Show, g: GroupNo) -> Result<Group, AllocError>
    ensures group { IfOk result (λ group. group ≡ set_or_new show.now.groups g) }
    ensures number { IfOk result (λ group. group.number ≡ g) }
    ensures valid { IfOk result (ValidGroup show.now.channels) }
    ensures cause { HasCause (H.refusals heap.old) (H.refusals heap.new) result }
{
    match show.group(g) {
        Some(group) => group.copy(heap),
        None => Ok(Group::new(heap.allocator(), g)),
    }
}

/// An equal submaster, or a new one where it is absent. An error comes where memory runs out.
fn sub_or_new<H: Heap>(heap: &mut H, show: &Show, s: SubNo) -> Result<Sub, AllocError>
    ensures submaster { IfOk result (λ submaster. submaster ≡ set_or_new show.now.subs s) }
    ensures number { IfOk result (λ submaster. submaster.number ≡ s) }
    ensures valid { IfOk result (ValidSub show.now.channels) }
    ensures cause { HasCause (H.refusals heap.old) (H.refusals heap.new) result }
{
    match show.sub(s) {
        Some(sub) => sub.copy(heap),
        None => Ok(Sub::new(heap.allocator(), s)),
    }
}

/// Places the channels of the range at the level, each in the place of the member of its channel. An error comes where memory runs out.
fn put_members<H: Heap>(
    heap: &mut H,
    channels: u32,
    list: &mut MemberList,
    range: ChanRange,
    level: Level,
) -> Result<(), AllocError>
    requires valid { ValidMembers channels list.old }
    requires within { IsWithin channels range }
    ensures members { OnOk result (list.new ≡ with_members list.old (all_at level (channels_in range))) }
    ensures valid { OnOk result (ValidMembers channels list.new) }
    ensures cause { HasCause (H.refusals heap.old) (H.refusals heap.new) result }
{
    let first = range.first().get();
    let last = range.last().get();
    for n in first..last + 1 {
        let chan = channel(n);
        let member = Member { chan, level };
        facts::of_member(&member);
        list.put(heap, member)?;
    }
    Ok(())
}
