//! What the submasters give each channel.

ghost use Rattle.std.specs.Prelude.{◌≡◌, ◌+◌, ◌≤◌, ℕ, max, length, slice_index, EachIndex};
ghost use Rattle.std.specs.List.{AllByRecursion};
ghost use Rattle.lx_base.specs.declared.TheConstants.{SUBS};
ghost use Rattle.lx_base.specs.Numbers.{scaled};
ghost use Rattle.lx_spec.specs.Show.{ValidMembers};
ghost use Rattle.lx_spec.specs.Output.{contribution};
ghost use Rattle.lx_mixer.specs.Table.{IsTable};
ghost use Rattle.lx_spec.specs.Output.{level_among};

use lx_base::{Level, SUBS, scale};
use lx_show::{Member, Show};

/// Fills in what the submasters give each channel, each at its fader: channel c stands at place c - 1.
/// The work is that of the channels and of the submasters' members.
pub(crate) fn fill(show: &Show, faders: &[Level], contributions: &mut [Level])
    requires faders { length faders.now ≡ SUBS }
    requires reach { length contributions.old ≡ show.now.channels }
    ensures { IsTable show.now.channels (contribution show.now faders.now) contributions.new }
{
    let subs = show.subs();
    contributions.fill(0);
    for sub in subs {
        let fader = faders[sub.number.get() as usize - 1];
        raise_to(sub.members.as_slice(), fader, contributions);
    }
}

/// Raises the level of each member's channel to the member's, in proportion to the fader, where that is
/// higher.
fn raise_to(members: &[Member], fader: Level, contributions: &mut [Level])
    requires { ValidMembers (length contributions.old) members.now }
    ensures { EachIndex contributions.new (λ k. slice_index contributions.new k
        ≡ max (slice_index contributions.old k) (scaled (level_among members.now (k + 1)) fader)) }
{
    for member in members {
        let at = member.chan.get() as usize - 1;
        contributions[at] = contributions[at].max(scale(member.level, fader));
    }
}
