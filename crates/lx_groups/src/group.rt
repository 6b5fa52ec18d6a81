//! The members of a group of a show.

ghost use Rattle.std.specs.Prelude.{◌≡◌, IsTrue, map};
ghost use Rattle.std.specs.Option.{IsSomeAnd};
ghost use Rattle.lx_spec.specs.EditedShow.{in_proportion};
ghost use Rattle.lx_spec.specs.SortedList.{entry_at, has_entry};
ghost use Rattle.lx_spec.specs.Show.{ValidMembers};
ghost use Rattle.lx_groups.specs.Left.{members_left};

use crate::scaled::Members;
use lx_base::{GroupNo, Level};
use lx_show::Show;

/// The members of a group that the show has, each at its own level in the proportion that the level given
/// has to 255, rounded down, as console practice has it; the rounding is our own rule.
pub fn members(show: &Show, group: GroupNo, level: Level) -> Members<'_>
    requires { IsTrue (has_entry (λ x. x.number) group show.now.groups) }
    ensures members { IsSomeAnd (entry_at (λ x. x.number) group show.now.groups) (λ g. members_left result ≡ map (in_proportion level) g.members) }
    ensures valid { ValidMembers show.now.channels (members_left result) }
{
    match show.group(group) {
        Some(group) => Members {
            rest: group.members.as_slice(),
            level,
        },
        None => unreachable!(),
    }
}
