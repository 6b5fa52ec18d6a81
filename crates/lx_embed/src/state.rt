//! Where the playback stands.

ghost use Rattle.std.specs.Prelude.{◌≡◌, option_map, slice_get};
ghost use Rattle.lx_embed.specs.Told.{Stands, span_of};

use lx_base::{CueNo, Level, Moment};
use lx_console::Console;
use lx_playback::Playback;

/// When a run began, and from when on it is over.
#[derive(Clone, Copy, PartialEq, Eq, Debug)]
pub struct RunSpan {
    pub began: Moment,
    pub ends: Moment,
}

/// Where the playback of a desk stands.
#[derive(Clone, Copy, PartialEq, Eq, Debug)]
pub struct PlaybackState {
    /// The present moment, in hundredths of a second since the opening.
    pub moment: Moment,
    /// The cue of the newest live run, or the position at the last rest; 0 is before the first cue.
    pub position: CueNo,
    /// The cue that a `go` would run. `None` where none is above the position.
    pub next: Option<CueNo>,
    /// How many runs are live; with 0 the playback is at rest.
    pub live: u32,
    /// From this moment on every live run is over; 0 where none is live.
    pub over_at: Moment,
    /// The newest live run's. `None` where none is live.
    pub newest: Option<RunSpan>,
    /// The moment at which the pending follow is due. `None` where none is pending.
    pub follow_at: Option<Moment>,
    /// The master.
    pub master: Level,
    /// How many channels the show has.
    pub channels: u32,
    /// How many cues the show has.
    pub cues: u32,
}

/// Where the playback of the console stands.
pub(crate) fn state_of(console: &Console) -> PlaybackState
    ensures { Stands console.now result }
{
    let playback = console.playback();
    let show = console.show();
    let position = console.position();
    PlaybackState {
        moment: console.moment(),
        position,
        next: show.next_cue(position),
        live: playback.live().len() as u32,
        over_at: playback.over_at(),
        newest: newest_of(playback),
        follow_at: playback.pending(),
        master: console.master(),
        channels: show.channels(),
        cues: show.cues().len() as u32,
    }
}

/// The newest live run's span.
fn newest_of(playback: &Playback) -> Option<RunSpan>
    ensures { result ≡ option_map span_of (slice_get playback.now.live 0) }
{
    let run = playback.live().last()?;
    Some(RunSpan {
        began: run.start,
        ends: run.start + run.extent(),
    })
}
