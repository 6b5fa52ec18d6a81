//! The kept levels, as keys, ticks and edits leave them.

ghost use Rattle.std.specs.Prelude.{◌≡◌, ℕ, ◌+◌, ◌<◌, ◌≤◌, [], true, false, length, is_some, IsTrue};
ghost use Rattle.lx_console.specs.Imports.{Valid, RowsStandFor, has_chan, level_at, LevelsStandFor, StackStandsAt, StandsBefore, IsTicked};

use lx_base::Chan;
use lx_edit::ChanSet;
use lx_levels::Levels;
use lx_playback::{Playback, Ticked};
use lx_sheet::Sheet;
use lx_show::Show;

/// After a key: Settle has left no run live, another has started one.
pub(crate) fn after_key(
    levels: &mut Levels,
    show: &Show,
    sheet: &Sheet,
    playback: &Playback,
    settled: bool,
)
    requires rows { RowsStandFor show.now sheet.now }
    requires moment { levels.old.moment ≡ playback.now.moment }
    requires reach { length levels.old.stacks ≡ show.now.channels }
    requires settled { settled ≡ true → playback.now.live ≡ [] }
    requires started { settled ≡ false → StandsBefore show.now playback.now levels.old }
    ensures { LevelsStandFor show.now playback.now levels.new }
{
    if settled {
        levels.settled(sheet, playback);
    } else {
        levels.run_added(show, sheet, playback);
    }
}

/// After a tick: the moment has grown, and a follow may have started a run, or the playback come to rest.
/// Answers whether a level may have changed.
pub(crate) fn after_tick(
    levels: &mut Levels,
    show: &Show,
    sheet: &Sheet,
    playback: &Playback,
    ticked: &Ticked,
) -> bool
    requires rows { RowsStandFor show.now sheet.now }
    requires ticked { IsTicked show.now playback.now levels.old ticked.now.rested (is_some ticked.now.fired) }
    ensures stands { LevelsStandFor show.now playback.now levels.new }
    ensures same { result ≡ false → (k : ℕ) → k < show.now.channels → level_at levels.new k ≡ level_at levels.old k }
{
    let changed = levels.to_moment(playback.moment());
    if ticked.rested {
        levels.settled(sheet, playback);
        return true;
    }
    if ticked.fired.is_some() {
        levels.run_added(show, sheet, playback);
        return true;
    }
    changed
}

/// Makes these channels again from the live runs; the others stand already. Answers whether there was one, and so a level may have
/// changed.
pub(crate) fn recompute_touched(
    levels: &mut Levels,
    show: &Show,
    sheet: &Sheet,
    playback: &Playback,
    chans: &ChanSet,
) -> bool
    requires rows { RowsStandFor show.now sheet.now }
    requires moment { levels.old.moment ≡ playback.now.moment }
    requires reach { length levels.old.stacks ≡ show.now.channels }
    requires others { (k : ℕ) → k < show.now.channels → has_chan chans.now (k + 1) ≡ false → StackStandsAt show.now playback.now levels.old k }
    ensures stands { LevelsStandFor show.now playback.now levels.new }
    ensures same { result ≡ false → levels.new ≡ levels.old }
    ensures valid { Valid show.now }
{
    let mut changed = false;
    let mut k = 0;
    while let Some(c) = chans.next_above(k, show.channels()) {
        levels.recompute(show, sheet, playback, c);
        changed = true;
        k = c.get();
    }
    changed
}

/// Makes each channel again from the live runs.
pub(crate) fn recompute_all(levels: &mut Levels, show: &Show, sheet: &Sheet, playback: &Playback)
    requires rows { RowsStandFor show.now sheet.now }
    requires moment { levels.old.moment ≡ playback.now.moment }
    requires reach { length levels.old.stacks ≡ show.now.channels }
    ensures stands { LevelsStandFor show.now playback.now levels.new }
    ensures valid { Valid show.now }
{
    for k in 0..show.channels() as usize {
        levels.recompute(show, sheet, playback, Chan::at(k));
    }
}
