//! The console: a player, and the output that shows it.

ghost use Rattle.std.specs.Prelude.{◌≡◌, ◌≢◌, ℕ, ◌-◌, ◌/◌, ◌≤◌, [], None, Err, min, option_map, OnErr, IfOk, IsOkAnd, true};
ghost use Rattle.std.specs.Option.{option_copied};
ghost use Rattle.lx_io.specs.Causes.{HasCause, HasCauseOf};
ghost use Rattle.lx_spec.specs.Level.{level};
ghost use Rattle.lx_spec.specs.Playback.{position_of};
ghost use Rattle.lx_spec.specs.TrackedLevel.{cue_of, tracked};
ghost use Rattle.lx_spec.specs.Replies.{row_of};
ghost use Rattle.lx_spec.specs.ValidEdit.{ValidCommand};
ghost use Rattle.lx_spec.specs.WantedMemory.{may_lack_memory};
ghost use Rattle.lx_spec.specs.Output.{dimmer_value, fader, frame};
ghost use Rattle.lx_spec.specs.Desk.{Desk, opened};
ghost use Rattle.lx_playback.specs.QuietTicks.{moments_later};
ghost use Rattle.lx_edit.specs.PlanMeaning.{IsReady, planned};
ghost use Rattle.lx_edit.specs.Undone.{TakesBack};
ghost use Rattle.lx_mixer.specs.Table.{IsTable};
ghost use Rattle.lx_console.specs.Slots.{universe};
ghost use Rattle.lx_console.specs.ConsoleMeaning.{StandsFor, Obeys, Answers, level_now, out_now};
ghost use Rattle.lx_console.specs.Ticks.{after_ticks};
ghost use Rattle.lx_base.specs.declared.TheConstants.{SLOTS, TICK_END, TICK_STEP, UNIVERSES};

use crate::kept_output::KeptOutput;
use crate::player::{Applied, Player};
use lx_base::{Chan, CueNo, Level, Moment, SubNo};
use lx_edit::Plan;
use lx_io::{Heap, SystemHeap};
use lx_playback::Playback;
use lx_show::{Command, Key, Refusal, Show};
use std::alloc::{AllocError, Global};
use std::marker::Model;

/// A desk: a show in playback, the faders of its submasters and the master. The tracked row of each cue,
/// and the level of each channel and the slot of each dimmer at the present moment, are kept, and lent as
/// they are.
///
/// A console stands for a desk that also has the list of all runs since its opening. Edits, keys and ticks
/// are accepted, or refused, as that desk does. The rows are those of its show, the levels and slots
/// those over all its runs. It stands where its player does, and its output shows the player. How levels follow
/// from runs is our own rule; that the greatest of playback and submasters goes out, under the master, is console
/// practice.
#[derive(Drop)]
pub struct Console {
    player: Player,
    output: KeptOutput,
}

impl Model for Console {
    ghost use Rattle.lx_spec.specs.Kept.{Kept};
    ghost use Rattle.lx_console.specs.KeptOutput.{ShowsPlayer};

    ghost Value = { Kept };

    ghost view = { λ c. c.player };

    ghost invariant = { λ c. ShowsPlayer c.player c.output };
}

impl Console {
    /// A desk over the show, as at the opening: at moment 0 before the first cue, with every fader at 0
    /// and the master at 255. It takes all the memory that keys and ticks need, and the room for the rows;
    /// where it runs out the show is lost. Edits take theirs from the same allocator.
    pub fn open(alloc: Global, show: Show) -> Result<Console, AllocError>
        ensures { IfOk result (StandsFor (opened show)) }
    {
        Console::open_in(&mut SystemHeap::new(alloc), show)
    }

    /// The same, by a heap. An error comes where the heap refuses memory.
    pub fn open_in<H: Heap>(heap: &mut H, show: Show) -> Result<Console, AllocError>
        ensures stands { IfOk result (StandsFor (opened show)) }
        ensures cause { HasCause (H.refusals heap.old) (H.refusals heap.new) result }
    {
        let player = Player::open_in(heap, show)?;
        let mut output = KeptOutput::open_in(heap, player.show())?;
        output.fill(player.levels(), &player);
        Ok(Console { player, output })
    }
}

impl Console {
    /// What plays: all of the console but what goes out.
    pub fn player(&self) -> &Player
        ensures { result.now ≡ self.now }
    {
        &self.player
    }

    /// The show.
    pub fn show(&self) -> &Show
        ensures { result.now ≡ self.now.show }
    {
        self.player.show()
    }

    /// The playback: the moment, the live runs and the pending follow.
    pub fn playback(&self) -> &Playback
        ensures { result.now ≡ self.now.playback }
    {
        self.player.playback()
    }

    /// The present moment, in hundredths of a second since the opening.
    pub fn moment(&self) -> Moment
        ensures { result ≡ self.now.playback.moment }
    {
        self.player.moment()
    }

    /// The cue of the newest live run, or the position at the last rest where none is live; 0 is before
    /// the first cue.
    pub fn position(&self) -> CueNo
        ensures { result ≡ position_of self.now.playback }
    {
        self.player.position()
    }

    /// The master, 0 to 255.
    pub fn master(&self) -> Level
        ensures { result ≡ self.now.master }
    {
        self.player.master()
    }

    /// The fader of the submaster, 0 to 255.
    pub fn fader(&self, sub: SubNo) -> Level
        ensures { result ≡ fader self.now.faders sub }
    {
        self.player.fader(sub)
    }

    /// The tracked row of the cue: the tracked level of channel c at place c - 1. `None` exactly where there
    /// is no cue of the number.
    pub fn tracked_row(&self, n: CueNo) -> Option<&[Level]>
        ensures { option_copied result ≡ option_map (λ cue. row_of self.now.show n) (cue_of self.now.show n) }
    {
        self.player.tracked_row(n)
    }

    /// The channel's tracked level at the number, which need not be a cue's: as by the show, but read from the row
    /// of the last cue up to it. It is 0 above the channel count.
    pub fn tracked(&self, n: CueNo, c: Chan) -> Level
        ensures { result ≡ tracked self.now.show n c }
    {
        self.player.tracked(n, c)
    }

    /// Where edits take their memory.
    pub fn allocator(&self) -> Global {
        self.player.allocator()
    }

    /// The level of each channel at the present moment, before submasters and master: that of channel c
    /// at place c - 1. It is the level over all runs since the opening.
    pub fn levels(&self) -> &[Level]
        ensures live { IsTable self.now.show.channels (level_now self.now) result.now }
        ensures all { (d : Desk) → StandsFor d self.now
            → IsTable d.show.channels (λ c. level d.show 0 d.all c d.playback.moment) result.now }
    {
        self.player.levels()
    }

    /// The slots of all dimmers at the present moment, 512 for each universe: those of the desk's
    /// frames.
    pub fn frames(&self) -> &[Level]
        ensures slots { IsTable SLOTS (dimmer_value self.now.show.patch (out_now self.now)) result.now }
        ensures frames { (d : Desk) (u : ℕ) → StandsFor d self.now → 1 ≤ u → u ≤ UNIVERSES → universe u result.now ≡ frame d u }
    {
        self.output.slots()
    }
}

impl Console {
    /// Plays a key, or sets a fader or the master.
    ///
    /// A key of the playback is refused with `NoCueAfter` or `NoCueBefore` of the position, or
    /// `AbsentCue` of the cue named, where there is no such cue, and then with `PlaybackFull` where 512
    /// runs are live; Settle never. A fader is refused with `AbsentSub` where the show has no such
    /// submaster, the master never. `Memory` never comes. A refusal changes nothing.
    pub fn press(&mut self, key: Key) -> Result<(), Refusal>
        ensures obeys { (d : Desk) → StandsFor d self.old → Obeys d (Command.Key key) result self.new }
        ensures unchanged { OnErr result (self.new ≡ self.old) }
        ensures memory { result ≢ Err Refusal.Memory }
    {
        let change = self.player.press(key)?;
        self.output.follow(change, &self.player);
        Ok(())
    }

    /// The moment grows by 2 hundredths of a second; a follow that is due starts the next cue, and where
    /// all is over the playback comes to rest. While nothing is live no level is looked at.
    ///
    /// Refused with `TickLimit`, and nothing changes, exactly where the moment is `TICK_END`.
    pub fn tick(&mut self) -> Result<(), Refusal>
        ensures obeys { (d : Desk) → StandsFor d self.old → Obeys d Command.Tick result self.new }
        ensures unchanged { OnErr result (self.new ≡ self.old) }
        ensures memory { result ≢ Err Refusal.Memory }
    {
        let change = self.player.tick()?;
        self.output.follow(change, &self.player);
        Ok(())
    }

    /// Lets ticks pass at which nothing starts or ends, all at once: no follow is due, and the playback doesn't
    /// come to rest. It is as by this many calls of `tick` that were accepted.
    ///
    /// It answers how many ticks there were, at most this many; none where the next tick is another or is refused.
    pub fn pass(&mut self, most: u32) -> u32
        ensures most { result ≤ most }
        ensures ticks { (d : Desk) → StandsFor d self.old → IsOkAnd (after_ticks result d) (λ next. StandsFor next self.new) }
        ensures state { self.new ≡ record self.old { playback = moments_later self.old.playback result } }
        ensures rest { self.old.playback.live ≡ [] → self.old.playback.pending ≡ None
            → result ≡ min most ((TICK_END - self.old.playback.moment) / TICK_STEP) }
    {
        let passed = self.player.pass(most);
        self.output.follow(passed.change, &self.player);
        passed.ticks
    }

    /// An edit of the show; or a key or a tick, as by `press` and `tick`.
    ///
    /// An edit is refused for what it names and the show lacks, or for a limit, and as out of memory only
    /// where nothing else refuses it. Rows, levels and slots are then those of the edited show, also where
    /// fades are under way. A refusal changes nothing.
    pub fn command(&mut self, command: &Command) -> Result<(), Refusal>
        requires { ValidCommand command.now }
        ensures answers { (d : Desk) → StandsFor d self.old → Answers d command.now result self.new }
        ensures unchanged { OnErr result (self.new ≡ self.old) }
        ensures memory { result ≡ Err Refusal.Memory → may_lack_memory command.now ≡ true }
    {
        let mut heap = SystemHeap::new(self.allocator());
        self.command_in(&mut heap, command)
    }

    /// The same, by a heap. An edit is refused with `Memory` only where the heap refused memory in this call. Keys and ticks take none, nor
    /// does a new cue or a row of the patch.
    pub fn command_in<H: Heap>(&mut self, heap: &mut H, command: &Command) -> Result<(), Refusal>
        requires { ValidCommand command.now }
        ensures answers { (d : Desk) → StandsFor d self.old → Answers d command.now result self.new }
        ensures unchanged { OnErr result (self.new ≡ self.old) }
        ensures memory { result ≡ Err Refusal.Memory → may_lack_memory command.now ≡ true }
        ensures cause { HasCauseOf Refusal.Memory (H.refusals heap.old) (H.refusals heap.new) result }
    {
        let change = self.player.command_in(heap, command)?;
        self.output.follow(change, &self.player);
        Ok(())
    }

    /// Applies a plan that was made for the show, and answers the plan that makes the show before of the one
    /// after. All else stays: the runs go on over the cues of the show that the plan makes. Rows, levels and
    /// slots are then those of that show; what the plan didn't touch isn't looked at. It takes no memory.
    pub fn apply(&mut self, plan: Plan) -> Plan
        requires { IsReady self.old.show plan }
        ensures now { self.new ≡ record self.old { show = planned self.old.show plan } }
        ensures undo { TakesBack self.old.show self.new.show result }
        ensures stands { (d : Desk) → StandsFor d self.old → StandsFor (record d { show = planned self.old.show plan }) self.new }
    {
        let Applied { change, undo } = self.player.apply(plan);
        self.output.follow(change, &self.player);
        undo
    }

    /// Exchanges the show for another of as many channels, and hands back the one that stood before, as a host does that
    /// loads a corrected show while cues run. All else stays: the runs go on over the cues of the given show, also over
    /// those that it lacks. Rows, levels and slots are then those of that show, also where fades are under way. It takes
    /// no memory, and costs what the whole show does.
    pub fn replace_show(&mut self, show: Show) -> Show
        requires { show.channels ≡ self.old.show.channels }
        ensures before { result ≡ self.old.show }
        ensures now { self.new ≡ record self.old { show = show } }
        ensures stands { (d : Desk) → StandsFor d self.old → StandsFor (record d { show = show }) self.new }
    {
        let before = self.player.replace_show(show);
        self.output.retake(self.player.levels(), &self.player);
        before
    }
}
