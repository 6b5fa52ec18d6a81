//! Which of the channels that an edit touched the playback looks at.

ghost use Rattle.std.specs.Prelude.{◌≡◌, ℕ, ◌≤◌, ◌<◌, ◌⊎◌, true, false, find, length, reverse, option_map, IfSome};
ghost use Rattle.lx_console.specs.Imports.{IsSomeAnd, All, Valid, InRange, decides, has_chan, IsReady, planned, IsUnseen, IsFrom};
ghost use Rattle.lx_console.specs.Imports.{PlacesCue, decided_at};
ghost use Rattle.lx_spec.specs.Show.{Show as ShowData};

use lx_base::{Chan, CueNo};
use lx_edit::{ChanSet, Plan};
use lx_playback::Playback;
use lx_show::around::above;
use lx_show::{Cue, Show};

/// This many cues above an edited one are asked whether they decide a channel.
const NEAR: usize = 16;

/// The cue that the plan places, where it changes no other one.
pub(crate) fn placed_alone(plan: &Plan) -> Option<CueNo>
    ensures { IfSome result (λ n. (show : ShowData) → Valid show → IsReady show plan.now → PlacesCue show (planned show plan.now) n) }
{
    match plan {
        Plan::Cue {
            number,
            to: Some(_),
            above: None,
            ..
        } => Some(*number),
        Plan::Move { cue, .. } => Some(*cue),
        Plan::Moves { cue, .. } => Some(*cue),
        _ => None,
    }
}

/// Of the channels that an edit touched, those at which the playback may look. Where one cue was placed, the edited
/// levels of a channel end at the next cue that decides it. So it stays as it was where the playback stands below
/// the placed cue, or from that next one on, and so does each live run.
pub(crate) fn seen(
    show: &Show,
    playback: &Playback,
    placed: Option<CueNo>,
    chans: &ChanSet,
) -> ChanSet
    ensures { (c : ℕ) → InRange show.now.channels c → has_chan result c ≡ false
        → (has_chan chans.now c ≡ false) ⊎ IsSomeAnd placed (λ n. IsUnseen show.now playback.now n c) }
{
    let Some(n) = placed else {
        return *chans;
    };
    let Some(first) = first_from(playback, n) else {
        return ChanSet::empty();
    };
    let later = above(show.cues(), n.get());
    let near = &later[..later.len().min(NEAR)];
    undecided(show, near, first, chans)
}

/// Those of the channels that none of the cues decides up to the number.
fn undecided(show: &Show, near: &[Cue], first: CueNo, chans: &ChanSet) -> ChanSet
    ensures { (c : ℕ) → InRange show.now.channels c → has_chan result c ≡ false
        → (has_chan chans.now c ≡ false) ⊎ (decided_at near.now first c) }
{
    let mut left = ChanSet::empty();
    let mut k = 0;
    while let Some(c) = chans.next_above(k, show.channels()) {
        if !is_decided(near, first, c) {
            left.insert(c);
        }
        k = c.get();
    }
    left
}

/// The first of the cues that decides the channel comes up to the number.
fn is_decided(near: &[Cue], first: CueNo, c: Chan) -> bool
    ensures { result ≡ true → decided_at near.now first c }
{
    match first_decision(near, c) {
        Some(end) => end.get() <= first.get(),
        None => false,
    }
}

/// The first of the cues that decides the channel.
fn first_decision(near: &[Cue], c: Chan) -> Option<CueNo>
    ensures { result ≡ option_map (λ cue. cue.number) (find (λ cue. decides cue c) near.now) }
{
    let cue = near.iter().find(|cue| cue.decides(c))?;
    Some(cue.number)
}

/// The least number from this one on at which the playback stood before its live runs, or to which one of them goes.
fn first_from(playback: &Playback, n: CueNo) -> Option<CueNo>
    ensures base { IsFrom result n playback.now.base }
    ensures runs { All (λ run. IsFrom result n run.cue) playback.now.live }
{
    let live = playback.live();
    let mut first = nearer(None, playback.base(), n);
    for k in 0..live.len() {
        let run = &live[k];
        first = nearer(first, run.cue, n);
    }
    first
}

/// The lesser of the two, where the second is no less than this number.
fn nearer(first: Option<CueNo>, m: CueNo, n: CueNo) -> Option<CueNo>
    ensures here { IsFrom result n m }
    ensures others { (x : ℕ) → IsFrom first n x → IsFrom result n x }
{
    if m.get() < n.get() {
        return first;
    }
    match first {
        Some(before) if before.get() <= m.get() => first,
        _ => Some(m),
    }
}
