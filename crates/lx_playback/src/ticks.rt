//! Ticks: the moment grows, a follow may fire, and the playback may come to rest.

ghost use Rattle.std.specs.Prelude.{◌≡◌, Ok, Err, IfOk, IfErr, OnErr};
ghost use Rattle.lx_spec.specs.Playback.{tick, start_above, followed, is_over, rested};
ghost use Rattle.lx_playback.specs.Told.{comes_to_rest};

use crate::playback::Playback;
use crate::run::Run;
use lx_base::TICK_END;
use lx_show::{Refusal, Show};

/// What a tick did: the run that a follow started, and whether the playback came to rest.
#[derive(Drop)]
pub struct Ticked {
    pub fired: Option<Run>,
    pub rested: bool,
}

impl Playback {
    /// The moment grows by 2 hundredths of a second. A pending follow that is due then is cleared,
    /// and the cue above the position starts as by Go, where there is one and fewer than 512 runs
    /// are live; so at most one follow fires. Then, if some run is live, all live runs are over
    /// and no follow is pending, the playback comes to rest: the position becomes the base, and
    /// no run is live.
    ///
    /// Refused with `TickLimit`, and nothing changes, exactly where the moment is `TICK_END`.
    /// The rules are our own.
    pub fn tick(&mut self, show: &Show) -> Result<Ticked, Refusal>
        ensures ok { IfOk result (λ ticked. tick show.now self.old ≡ Ok (record { playback = self.new; run = ticked.fired })) }
        ensures rested { IfOk result (λ ticked. ticked.rested ≡ comes_to_rest show.now self.old) }
        ensures err { IfErr result (λ refusal. tick show.now self.old ≡ Err refusal) }
        ensures unchanged { OnErr result (self.new ≡ self.old) }
    {
        if !self.grow() {
            return Err(Refusal::TickLimit(TICK_END));
        }
        let fired = self.follow(show);
        let rested = self.rest();
        Ok(Ticked { fired, rested })
    }

    /// A follow that is due is cleared, and starts the cue above.
    fn follow(&mut self, show: &Show) -> Option<Run>
        ensures { record { playback = self.new; run = result } ≡ followed show.now self.old }
    {
        if !self.is_due() {
            return None;
        }
        self.clear_pending();
        self.start_above(show)
    }

    /// Starts the cue above the position, where there is one and room for it.
    fn start_above(&mut self, show: &Show) -> Option<Run>
        ensures { record { playback = self.new; run = result } ≡ start_above show.now self.old }
    {
        let cue = show.cue_above(self.position())?;
        if !self.has_room() {
            return None;
        }
        Some(self.start(cue, false))
    }

    /// Comes to rest where all is over.
    fn rest(&mut self) -> bool
        ensures rested { result ≡ is_over self.old }
        ensures state { self.new ≡ rested self.old }
    {
        if self.is_over() {
            self.come_to_rest();
            return true;
        }
        false
    }
}
