//! The plan of an edit.

ghost use Rattle.std.specs.Prelude.{◌≡◌, Err, true};
ghost use Rattle.lx_edit.specs.Imports.{HasCauseOf, ValidEdit, takes_memory, Plans};

use crate::plans::Plan;
use crate::{blocks, cue_edits, kept, levels, members, patch_edits};
use lx_io::Heap;
use lx_show::{Edit, Refusal, Show};

/// Plans the edit whole: the plan makes the edited show, and holds all the memory that it needs. It is
/// refused exactly where the edit is, by the edit's first refusal; `Memory` comes only where no other does and the heap refused some
/// in this call, and never for a new cue or a row of the patch.
pub fn plan<H: Heap>(heap: &mut H, show: &Show, edit: &Edit) -> Result<Plan, Refusal>
    requires { ValidEdit edit.now }
    ensures plan { Plans show.now edit.now result }
    ensures memory { result ≡ Err Refusal.Memory → takes_memory edit.now ≡ true }
    ensures cause { HasCauseOf Refusal.Memory (H.refusals heap.old) (H.refusals heap.new) result }
{
    match edit {
        Edit::MakeCue { cue } => cue_edits::make_cue(heap.allocator(), show, *cue),
        Edit::DeleteCue { cue, only } => kept::delete_cue(heap, show, *cue, *only),
        Edit::Set {
            cue,
            part,
            range,
            level,
            only,
        } => levels::set(heap, show, *cue, *part, *range, *level, *only),
        Edit::SetGroup {
            cue,
            part,
            group,
            level,
            only,
        } => levels::set_group(heap, show, *cue, *part, *group, *level, *only),
        Edit::Release { cue, range, only } => levels::release(heap, show, *cue, *range, *only),
        Edit::Time {
            cue,
            part,
            rising,
            time,
            delay,
        } => cue_edits::time(heap, show, *cue, *part, *rising, *time, *delay),
        Edit::AddPart { cue, part } => cue_edits::add_part(heap, show, *cue, *part),
        Edit::DeletePart { cue, part } => cue_edits::delete_part(heap, show, *cue, *part),
        Edit::Block { cue } => blocks::block(heap, show, *cue),
        Edit::Unblock { cue } => blocks::unblock(heap, show, *cue),
        Edit::Asserted { cue, on } => cue_edits::assert(heap, show, *cue, *on),
        Edit::Follow { cue, after } => cue_edits::follow(heap, show, *cue, *after),
        Edit::Name { cue, label } => cue_edits::name(heap, show, *cue, label),
        Edit::GroupMember {
            group,
            range,
            level,
        } => members::group_member(heap, show, *group, *range, *level),
        Edit::SubMember { sub, range, level } => {
            members::sub_member(heap, show, *sub, *range, *level)
        }
        Edit::Patch {
            dimmer,
            chan,
            level,
        } => patch_edits::patch(show, *dimmer, *chan, *level),
        Edit::Unpatch { dimmer } => patch_edits::unpatch(show, *dimmer),
    }
}
