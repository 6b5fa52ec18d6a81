//! What an edit names must be there: each is found, or its absence is the refusal.

ghost use Rattle.std.specs.Prelude.{◌≡◌, ℕ, ◌≤◌, Ok, Err, MatchResult, Some, None, find, is_none};
ghost use Rattle.lx_edit.specs.Imports.{ValidGroup, entry_at, move_in, the_cue, the_part, the_given_part, the_channels, the_group};
ghost use Rattle.lx_edit.specs.Imports.{the_moves, channels_in, FoundCue, GivenPart, IsAbsence, IsWithin};
ghost use Rattle.lx_base.specs.declared.TheConstants.{CHANNELS};

use lx_base::{CHANNELS, Chan, ChanRange, CueNo, GroupNo, PartNo};
use lx_show::{Cue, Group, Part, Refusal, Show};

/// The cue of the number.
pub(crate) fn the_cue(show: &Show, n: CueNo) -> Result<&Cue, Refusal>
    ensures { MatchResult result (λ cue. FoundCue show.now n cue.now) (IsAbsence (the_cue show.now n)) }
{
    match show.cue(n) {
        Some(cue) => Ok(cue),
        None => Err(Refusal::AbsentCue(n)),
    }
}

/// The cue's part of the number.
pub(crate) fn the_part(cue: &Cue, p: PartNo) -> Result<Part, Refusal>
    ensures { MatchResult result (λ part. entry_at (λ x. x.number) p cue.now.parts ≡ Some part)
        (IsAbsence (the_part cue.now p)) }
{
    match cue.part(p) {
        Some(part) => Ok(part),
        None => Err(Refusal::AbsentPart(cue.number, p)),
    }
}

/// The part that is given is the cue's, where one is given.
pub(crate) fn the_given_part(cue: &Cue, given: Option<PartNo>) -> Result<Option<PartNo>, Refusal>
    ensures { MatchResult result (GivenPart cue.now given) (IsAbsence (the_given_part cue.now given)) }
{
    match given {
        Some(p) => {
            the_part(cue, p)?;
            Ok(Some(p))
        }
        None => Ok(None),
    }
}

/// The channels of the range are the show's; else the least that is not is the refusal.
pub(crate) fn the_channels(show: &Show, range: ChanRange) -> Result<(), Refusal>
    ensures { MatchResult result (λ _. IsWithin show.now.channels range) (IsAbsence (the_channels show.now range)) }
{
    let channels = show.channels();
    let last = range.last().get();
    if last <= channels {
        return Ok(());
    }
    let first = range.first().get();
    Err(Refusal::AbsentChannel(channel(first.max(channels + 1))))
}

/// The group of the number.
pub(crate) fn the_group(show: &Show, g: GroupNo) -> Result<&Group, Refusal>
    ensures group { MatchResult result (λ group. entry_at (λ x. x.number) g show.now.groups ≡ Some group.now)
        (IsAbsence (the_group show.now g)) }
    ensures valid { MatchResult result (λ group. ValidGroup show.now.channels group.now) (IsAbsence (the_group show.now g)) }
{
    match show.group(g) {
        Some(group) => Ok(group),
        None => Err(Refusal::AbsentGroup(g)),
    }
}

/// Each channel of the range has a move in the cue; else the least that has none is the refusal.
pub(crate) fn the_moves(cue: &Cue, range: ChanRange) -> Result<(), Refusal>
    ensures { MatchResult result (λ _. find (λ c. is_none (move_in cue.now c)) (channels_in range) ≡ None)
        (IsAbsence (the_moves cue.now (channels_in range))) }
{
    let first = range.first().get();
    let last = range.last().get();
    for n in first..last + 1 {
        let c = channel(n);
        if cue.move_of(c).is_none() {
            return Err(Refusal::AbsentMove(cue.number, c));
        }
    }
    Ok(())
}

/// The channel of the number.
pub fn channel(n: u32) -> Chan
    requires least { 1 ≤ n }
    requires most { n ≤ CHANNELS }
    ensures { result ≡ n }
{
    Chan::at(n as usize - 1)
}

/// All channels.
pub(crate) fn all_channels() -> ChanRange
    ensures { result ≡ record { first = 1; last = CHANNELS } }
{
    match ChanRange::new(channel(1), channel(CHANNELS)) {
        Some(range) => range,
        None => unreachable!(),
    }
}
