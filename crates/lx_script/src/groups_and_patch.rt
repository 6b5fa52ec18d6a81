//! Lines that edit groups, submasters and the patch: what follows their first word.

ghost use Rattle.std.specs.Prelude.{◌≡◌};
ghost use Rattle.lx_script.specs.Imports.{group_line, sub_line, patch_line, unpatch_line, left};

use crate::edits::edit;
use crate::phrase::{at_level, channel, channels, dimmer, ended, group, sub, word};
use lx_lex::Tokens;
use lx_spec::{Edit, Line};

/// `group g chan a [thru b] at L`
pub(crate) fn group_members(mut rest: Tokens) -> Option<Line<'_>>
    ensures { result ≡ group_line (left rest.entry) }
{
    let group = group(&mut rest)?;
    word(&mut rest, b"CHAN")?;
    let range = channels(&mut rest)?;
    let level = at_level(&mut rest)?;
    ended(
        rest,
        edit(Edit::GroupMember {
            group,
            range,
            level,
        }),
    )
}

/// `sub s chan a [thru b] at L`
pub(crate) fn sub_members(mut rest: Tokens) -> Option<Line<'_>>
    ensures { result ≡ sub_line (left rest.entry) }
{
    let sub = sub(&mut rest)?;
    word(&mut rest, b"CHAN")?;
    let range = channels(&mut rest)?;
    let level = at_level(&mut rest)?;
    ended(rest, edit(Edit::SubMember { sub, range, level }))
}

/// `patch e chan c at L`
pub(crate) fn patch(mut rest: Tokens) -> Option<Line<'_>>
    ensures { result ≡ patch_line (left rest.entry) }
{
    let dimmer = dimmer(&mut rest)?;
    word(&mut rest, b"CHAN")?;
    let chan = channel(&mut rest)?;
    let level = at_level(&mut rest)?;
    ended(
        rest,
        edit(Edit::Patch {
            dimmer,
            chan,
            level,
        }),
    )
}

/// `unpatch e`
pub(crate) fn unpatch(mut rest: Tokens) -> Option<Line<'_>>
    ensures { result ≡ unpatch_line (left rest.entry) }
{
    let dimmer = dimmer(&mut rest)?;
    ended(rest, edit(Edit::Unpatch { dimmer }))
}
