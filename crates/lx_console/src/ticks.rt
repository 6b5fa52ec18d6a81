//! Keys and ticks of the playback, with the levels.

ghost use Rattle.std.specs.Prelude.{◌≡◌, ℕ, ◌+◌, ◌<◌, false, OnOk, OnErr, IfOk, IfErr, IsOkAnd};
ghost use Rattle.lx_console.specs.Imports.{press, tick, RowsStandFor, level_at, LevelsStandFor};
ghost use Rattle.lx_base.specs.declared.TheConstants.{TICK_STEP};

use crate::levels::{after_key, after_tick};
use lx_levels::Levels;
use lx_playback::Playback;
use lx_sheet::Sheet;
use lx_show::{PlayKey, Refusal, Show};

/// A key of the playback.
pub(crate) fn press_key(
    playback: &mut Playback,
    levels: &mut Levels,
    show: &Show,
    sheet: &Sheet,
    key: PlayKey,
) -> Result<(), Refusal>
    requires rows { RowsStandFor show.now sheet.now }
    requires levels { LevelsStandFor show.now playback.old levels.old }
    ensures ok { OnOk result (IsOkAnd (press show.now playback.old key) (λ played. played.playback ≡ playback.new)) }
    ensures levels { OnOk result (LevelsStandFor show.now playback.new levels.new) }
    ensures moment { playback.new.moment ≡ playback.old.moment }
    ensures err { IfErr result (λ refusal. press show.now playback.old key ≡ Err refusal) }
    ensures unchanged { OnErr result (playback.new ≡ playback.old) }
    ensures kept { OnErr result (levels.new ≡ levels.old) }
{
    let pressed = playback.press(show, key)?;
    after_key(levels, show, sheet, playback, pressed.settled);
    Ok(())
}

/// A tick of the playback, and whether it may have changed a level.
pub(crate) fn tick_of(
    playback: &mut Playback,
    levels: &mut Levels,
    show: &Show,
    sheet: &Sheet,
) -> Result<bool, Refusal>
    requires rows { RowsStandFor show.now sheet.now }
    requires levels { LevelsStandFor show.now playback.old levels.old }
    ensures ok { OnOk result (IsOkAnd (tick show.now playback.old) (λ played. played.playback ≡ playback.new)) }
    ensures levels { OnOk result (LevelsStandFor show.now playback.new levels.new) }
    ensures same { IfOk result (λ changed. changed ≡ false → (k : ℕ) → k < show.now.channels
        → level_at levels.new k ≡ level_at levels.old k) }
    ensures moment { OnOk result (playback.new.moment ≡ playback.old.moment + TICK_STEP) }
    ensures err { IfErr result (λ refusal. tick show.now playback.old ≡ Err refusal) }
    ensures unchanged { OnErr result (playback.new ≡ playback.old) }
    ensures kept { OnErr result (levels.new ≡ levels.old) }
{
    let ticked = playback.tick(show)?;
    Ok(after_tick(levels, show, sheet, playback, &ticked))
}
