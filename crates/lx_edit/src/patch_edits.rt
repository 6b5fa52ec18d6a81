//! Edits of the patch.

ghost use Rattle.std.specs.Prelude.{◌≢◌, Err};
ghost use Rattle.lx_edit.specs.PlanMeaning.{Plans};

use crate::plans::Plan;
use lx_base::{Chan, Dimmer, Level};
use lx_show::{Edit, PatchRow, Refusal, Show};

/// The dimmer follows the channel, in proportion to the level.
pub(crate) fn patch(show: &Show, dimmer: Dimmer, chan: Chan, level: Level) -> Result<Plan, Refusal>
    ensures plan { Plans show.now (Edit.Patch dimmer chan level) result }
    ensures memory { result ≢ Err Refusal.Memory }
{
    let row = PatchRow {
        dimmer,
        chan,
        level,
    };
    if chan.get() <= show.channels() {
        Ok(Plan::Row {
            dimmer,
            to: Some(row),
        })
    } else {
        Err(Refusal::AbsentChannel(chan))
    }
}

/// The dimmer follows no channel.
pub(crate) fn unpatch(show: &Show, dimmer: Dimmer) -> Result<Plan, Refusal>
    ensures plan { Plans show.now (Edit.Unpatch dimmer) result }
    ensures memory { result ≢ Err Refusal.Memory }
{
    if show.patch_of(dimmer).is_some() {
        Ok(Plan::Row { dimmer, to: None })
    } else {
        Err(Refusal::AbsentDimmer(dimmer))
    }
}
