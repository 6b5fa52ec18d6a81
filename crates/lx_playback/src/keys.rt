//! Playback keys: go, back, goto and settle.

ghost use Rattle.std.specs.Prelude.{◌≡◌, ◌↔◌, ◌+◌, ◌<◌, ◌≤◌, false, length, Ok, Err, Some, None, is_none, option_map, IfOk, IfErr, OnErr};
ghost use Rattle.std.specs.Prelude.{IfSome, IsTrue};
ghost use Rattle.std.specs.List.{AllByRecursion};
ghost use Rattle.std.specs.Option.{IsSomeAnd};
ghost use Rattle.lx_spec.specs.SortedList.{has_entry};
ghost use Rattle.lx_spec.specs.Show.{IsTime, ValidPart};
ghost use Rattle.lx_spec.specs.Playback.{press, appended, run_of, run_whole, follow_of, at_rest};
ghost use Rattle.lx_playback.specs.Told.{run_made};
ghost use Rattle.lx_base.specs.declared.TheConstants.{RUNS, TICK_END, BACK_TIME};

use crate::playback::Playback;
use crate::run::{Run, captured_all, one_entry};
use lx_base::{BACK_TIME, Cs, CueNo, Moment};
use lx_show::{Cue, PlayKey, Refusal, Show};

/// What a key did: Settle alone starts no live run, and settles.
#[derive(Drop)]
pub struct Pressed {
    pub run: Option<Run>,
    pub settled: bool,
}

impl Playback {
    /// Plays a key at the present moment.
    ///
    /// Go starts the cue above the position, Goto the cue named, each with the cue's own times,
    /// and its follow-on becomes the pending follow. Back starts the cue below the position,
    /// whole, in 5 seconds, and no follow is pending. Settle makes the position the base, with no
    /// run live and no follow pending; whoever keeps a list of all runs adds one of the position
    /// that takes no time.
    ///
    /// Refused with `NoCueAfter` or `NoCueBefore` of the position, or `AbsentCue` of the cue
    /// named, where there is no such cue, and then with `PlaybackFull` where 512 runs are live;
    /// never with `Memory`. A refusal changes nothing. The rules are our own.
    pub fn press(&mut self, show: &Show, key: PlayKey) -> Result<Pressed, Refusal>
        ensures ok { IfOk result (λ pressed. press show.now self.old key
            ≡ Ok (record { playback = self.new; run = run_made self.old pressed })) }
        ensures settled { IfOk result (λ pressed. IsTrue pressed.settled ↔ (key ≡ PlayKey.Settle)) }
        ensures run { IfOk result (λ pressed. is_none pressed.run ≡ pressed.settled) }
        ensures err { IfErr result (λ refusal. press show.now self.old key ≡ Err refusal) }
        ensures unchanged { OnErr result (self.new ≡ self.old) }
    {
        match key {
            PlayKey::Go => started(self.go(show)),
            PlayKey::Back => started(self.back(show)),
            PlayKey::Goto(n) => started(self.go_to(show, n)),
            PlayKey::Settle => Ok(self.settle()),
        }
    }

    /// Starts the cue, with its own times and follow.
    pub(crate) fn start(&mut self, cue: &Cue, whole: bool) -> Run
        requires room { length self.old.live < RUNS }
        requires follow { IfSome cue.now.follow IsTime }
        requires parts { AllByRecursion ValidPart cue.now.parts }
        requires first_part { IsTrue (has_entry (λ p. p.number) 1 cue.now.parts) }
        ensures run { result ≡ run_of self.old cue.now whole }
        ensures started { self.new ≡ (appended self.old (run_of self.old cue.now whole) (follow_of self.old cue.now)).playback }
    {
        let start = self.moment();
        let pending = follow_at(start, cue.follow);
        let run = Run {
            start,
            cue: cue.number,
            parts: captured_all(&cue.parts),
            whole,
        };
        let started = run.copy();
        self.append(run, pending);
        started
    }

    fn go(&mut self, show: &Show) -> Result<Run, Refusal>
        ensures ok { IfOk result (λ run. press show.now self.old PlayKey.Go ≡ Ok (record { playback = self.new; run = Some run })) }
        ensures err { IfErr result (λ refusal. press show.now self.old PlayKey.Go ≡ Err refusal) }
        ensures unchanged { OnErr result (self.new ≡ self.old) }
    {
        let at = self.position();
        match show.cue_above(at) {
            Some(cue) => {
                if !self.has_room() {
                    return Err(Refusal::PlaybackFull);
                }
                Ok(self.start(cue, false))
            }
            None => Err(Refusal::NoCueAfter(at)),
        }
    }

    fn back(&mut self, show: &Show) -> Result<Run, Refusal>
        ensures ok { IfOk result (λ run. press show.now self.old PlayKey.Back ≡ Ok (record { playback = self.new; run = Some run })) }
        ensures err { IfErr result (λ refusal. press show.now self.old PlayKey.Back ≡ Err refusal) }
        ensures unchanged { OnErr result (self.new ≡ self.old) }
    {
        let at = self.position();
        match show.cue_before(at) {
            Some(n) => {
                if !self.has_room() {
                    return Err(Refusal::PlaybackFull);
                }
                Ok(self.start_back(n))
            }
            None => Err(Refusal::NoCueBefore(at)),
        }
    }

    /// Starts a run back to the cue. It is a function of its own, so that a refused key doesn't pay for the room of a run.
    #[inline(never)]
    fn start_back(&mut self, n: CueNo) -> Run
        requires { length self.old.live < RUNS }
        ensures run { result ≡ run_whole self.old n BACK_TIME }
        ensures started { self.new ≡ (appended self.old (run_whole self.old n BACK_TIME) None).playback }
    {
        let run = Run {
            start: self.moment(),
            cue: n,
            parts: one_entry(BACK_TIME),
            whole: true,
        };
        let started = run.copy();
        self.append(run, None);
        started
    }

    fn go_to(&mut self, show: &Show, n: CueNo) -> Result<Run, Refusal>
        ensures ok { IfOk result (λ run. press show.now self.old (PlayKey.Goto n) ≡ Ok (record { playback = self.new; run = Some run })) }
        ensures err { IfErr result (λ refusal. press show.now self.old (PlayKey.Goto n) ≡ Err refusal) }
        ensures unchanged { OnErr result (self.new ≡ self.old) }
    {
        match show.cue(n) {
            Some(cue) => {
                if !self.has_room() {
                    return Err(Refusal::PlaybackFull);
                }
                Ok(self.start(cue, true))
            }
            None => Err(Refusal::AbsentCue(n)),
        }
    }

    fn settle(&mut self) -> Pressed
        ensures settled { IsTrue result.settled }
        ensures run { result.run ≡ None }
        ensures state { self.new ≡ record (at_rest self.old) { pending = None } }
    {
        self.come_to_rest();
        self.clear_pending();
        Pressed {
            run: None,
            settled: true,
        }
    }
}

/// The moment at which a follow is due.
fn follow_at(start: Moment, follow: Option<Cs>) -> Option<Moment>
    requires start { start ≤ TICK_END }
    requires follow { IfSome follow IsTime }
    ensures { result ≡ option_map (λ t. start + t) follow }
{
    Some(start + follow?)
}

/// The answer of a key that started a run, or was refused.
fn started(run: Result<Run, Refusal>) -> Result<Pressed, Refusal>
    ensures ok { IfOk result (λ pressed. (pressed.settled ≡ false) × IsSomeAnd pressed.run (λ r. run ≡ Ok r)) }
    ensures err { IfErr result (λ refusal. run ≡ Err refusal) }
{
    Ok(Pressed {
        run: Some(run?),
        settled: false,
    })
}
