//! A cue and a move found again where they were found last.

ghost use Rattle.std.specs.Prelude.{◌≡◌, ◌||◌, ℕ, true, is_some};
ghost use Rattle.lx_levels.specs.Imports.{option_copied, tracked, asserts, cue_of, move_of, acts};

use lx_base::{Chan, CueNo, Level};
use lx_playback::Run;
use lx_show::sorted::index_of;
use lx_show::{Cue, Show};

/// Where the cue of a run was found last among the cues, and a move among its moves. Neither needs to be right.
#[derive(Clone, Copy)]
pub(crate) struct Hint {
    pub(crate) cue: usize,
    pub(crate) entry: usize,
}

/// Nothing was found yet.
pub(crate) const NO_HINT: Hint = Hint { cue: 0, entry: 0 };

/// The run acts on the channel: it is whole, or the channel is to come to another level, or its cue is asserted
/// in the show as it is now, or moves the channel. `looks` is the tracked level at the position that the run comes
/// from, `target` the one at the run's cue.
pub(crate) fn acts(
    show: &Show,
    run: &Run,
    c: Chan,
    looks: Level,
    target: Level,
    hint: &mut Hint,
) -> bool
    requires { target ≡ tracked show.now run.now.cue c }
    ensures { (from : ℕ) → looks ≡ tracked show.now from c → result ≡ acts show.now from run.now c }
{
    run.whole || looks != target || asserts_or_moves(show, run.cue, c, hint)
}

/// The cue is asserted, or moves the channel. The cue is looked for once, where the hint says first.
fn asserts_or_moves(show: &Show, n: CueNo, c: Chan, hint: &mut Hint) -> bool
    ensures { result ≡ (asserts show.now n || is_some (move_of show.now n c)) }
{
    match cue_near(show, n, &mut hint.cue) {
        Some(cue) => { cue.asserted || cue.move_near(c, &mut hint.entry).is_some() }
        None => false,
    }
}

/// The cue of the number, looked for at this place first. `None` exactly where there is none.
fn cue_near<'a>(show: &'a Show, n: CueNo, near: &mut usize) -> Option<&'a Cue>
    ensures { option_copied result ≡ cue_of show.now n }
{
    let cues = show.cues();
    let at = *near;
    if at < cues.len() {
        let cue = &cues[at];
        if is_of(cue, n) {
            return Some(cue);
        }
    }
    match index_of(cues, n.get()) {
        Ok(at) => {
            *near = at;
            Some(&cues[at])
        }
        Err(_) => None,
    }
}

/// The cue has the number.
fn is_of(cue: &Cue, n: CueNo) -> bool
    ensures { result ≡ true → cue.now.number ≡ n }
{
    cue.number.get() == n.get()
}
