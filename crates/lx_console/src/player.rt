//! The player: a desk's state, with the levels that its playback gives.

ghost use Rattle.std.specs.Prelude.{◌≡◌, ◌≢◌, ℕ, ◌+◌, ◌-◌, ◌/◌, ◌≤◌, [], None, Err, false, length, min, option_map, slice_set, OnOk, OnErr};
ghost use Rattle.std.specs.Prelude.{IfOk, IfErr, IsOkAnd, IsTrue, IsFalse, true};
ghost use Rattle.std.specs.Option.{option_copied};
ghost use Rattle.lx_io.specs.Causes.{HasCause, HasCauseOf};
ghost use Rattle.lx_spec.specs.SortedList.{has_entry};
ghost use Rattle.lx_spec.specs.Show.{Valid};
ghost use Rattle.lx_spec.specs.Level.{level};
ghost use Rattle.lx_spec.specs.Playback.{position_of, press, tick};
ghost use Rattle.lx_spec.specs.TrackedLevel.{cue_of, tracked};
ghost use Rattle.lx_spec.specs.Replies.{row_of};
ghost use Rattle.lx_spec.specs.EditedShow.{edited};
ghost use Rattle.lx_spec.specs.ValidEdit.{ValidEdit, ValidCommand};
ghost use Rattle.lx_spec.specs.WantedMemory.{takes_memory, may_lack_memory};
ghost use Rattle.lx_spec.specs.Output.{contribution, fader};
ghost use Rattle.lx_spec.specs.Desk.{Desk, opened};
ghost use Rattle.lx_spec.specs.TwoLists.{is_tick};
ghost use Rattle.lx_playback.specs.QuietTicks.{moments_later};
ghost use Rattle.lx_edit.specs.PlanMeaning.{IsReady, IsRefusal, planned};
ghost use Rattle.lx_edit.specs.Undone.{TakesBack};
ghost use Rattle.lx_mixer.specs.Table.{IsTable};
ghost use Rattle.lx_subs.specs.Faders.{StandsForSubs};
ghost use Rattle.lx_console.specs.Changes.{Changes};
ghost use Rattle.lx_console.specs.ConsoleMeaning.{StandsFor, Obeys, Answers, level_now};
ghost use Rattle.lx_console.specs.Ticks.{after_ticks};
ghost use Rattle.lx_base.specs.declared.TheConstants.{TICK_END, TICK_STEP};

use crate::change::Change;
use crate::levels::{recompute_all, recompute_touched};
use crate::ticks::{press_key, tick_of};
use crate::unseen::{placed_alone, seen};
use lx_base::{Chan, CueNo, Level, Moment, SubNo};
use lx_edit::planning::plan;
use lx_edit::{Exchanged, Plan};
use lx_io::{Heap, SystemHeap};
use lx_levels::Levels;
use lx_playback::Playback;
use lx_sheet::Sheet;
use lx_show::{Command, Edit, Key, PlayKey, Refusal, Show};
use lx_subs::SubRack;
use std::alloc::{AllocError, Global};
use std::marker::Model;

/// What plays: a show in playback, the faders of its submasters and the master. The tracked row of each cue, the
/// level of each channel at the present moment, and what the submasters give it, are kept, and lent as they are.
/// A player puts nothing out: a `KeptOutput` does.
///
/// A player stands for a desk that also has the list of all runs since its opening. Edits, keys and ticks are
/// accepted, or refused, as that desk does. The rows are those of its show, the levels those over all its runs.
/// How levels follow from runs is our own rule. Each command tells what it changed of what goes out.
#[derive(Drop)]
pub struct Player {
    /// Where edits take their memory.
    alloc: Global,
    show: Show,
    /// The tracked row of each cue.
    sheet: Sheet,
    playback: Playback,
    /// The faders of the submasters, and what they give.
    rack: SubRack,
    master: Level,
    /// The level of each channel.
    levels: Levels,
}

impl Model for Player {
    ghost use Rattle.lx_spec.specs.Kept.{Kept};
    ghost use Rattle.lx_console.specs.KeptOutput.{IsKept};

    ghost Value = { Kept };

    ghost view = { λ c. record { show = c.show; playback = c.playback; faders = c.rack.faders; master = c.master } };

    ghost invariant = { λ c. IsKept (record { show = c.show; playback = c.playback; faders = c.rack.faders; master = c.master })
        c.sheet c.rack c.levels };
}

/// How many ticks passed at once, and what they changed of what goes out.
#[derive(Clone, Copy, PartialEq, Eq, Debug)]
pub struct Passed {
    pub ticks: u32,
    pub change: Change,
}

/// What an applied plan changed of what goes out, and the plan that takes it back.
#[derive(Drop)]
pub struct Applied {
    pub change: Change,
    pub undo: Plan,
}

impl Player {
    /// A desk over the show, as at the opening: at moment 0 before the first cue, with every fader at 0
    /// and the master at 255. It takes all the memory that keys and ticks need, and the room for the rows;
    /// where it runs out the show is lost. Edits take theirs from the same allocator.
    pub fn open(alloc: Global, show: Show) -> Result<Player, AllocError>
        ensures { IfOk result (StandsFor (opened show)) }
    {
        Player::open_in(&mut SystemHeap::new(alloc), show)
    }

    /// The same, by a heap. An error comes where the heap refuses memory.
    pub fn open_in<H: Heap>(heap: &mut H, show: Show) -> Result<Player, AllocError>
        ensures stands { IfOk result (StandsFor (opened show)) }
        ensures cause { HasCause (H.refusals heap.old) (H.refusals heap.new) result }
    {
        let sheet = Sheet::open_in(heap, &show)?;
        let playback = Playback::open_in(heap)?;
        let rack = SubRack::open_in(heap, &show)?;
        let mut levels = Levels::open_in(heap, &show)?;
        levels.settled(&sheet, &playback);
        Ok(Player {
            alloc: heap.allocator(),
            show,
            sheet,
            playback,
            rack,
            master: 255,
            levels,
        })
    }
}

impl Player {
    /// The show.
    pub fn show(&self) -> &Show
        ensures { result.now ≡ self.now.show }
    {
        &self.show
    }

    /// The playback: the moment, the live runs and the pending follow.
    pub fn playback(&self) -> &Playback
        ensures { result.now ≡ self.now.playback }
    {
        &self.playback
    }

    /// The present moment, in hundredths of a second since the opening.
    pub fn moment(&self) -> Moment
        ensures { result ≡ self.now.playback.moment }
    {
        self.playback.moment()
    }

    /// The cue of the newest live run, or the position at the last rest where none is live; 0 is before
    /// the first cue.
    pub fn position(&self) -> CueNo
        ensures { result ≡ position_of self.now.playback }
    {
        self.playback.position()
    }

    /// The master, 0 to 255.
    pub fn master(&self) -> Level
        ensures { result ≡ self.now.master }
    {
        self.master
    }

    /// The fader of the submaster, 0 to 255.
    pub fn fader(&self, sub: SubNo) -> Level
        ensures { result ≡ fader self.now.faders sub }
    {
        self.rack.fader(sub)
    }

    /// The tracked row of the cue: the tracked level of channel c at place c - 1. `None` exactly where there
    /// is no cue of the number.
    pub fn tracked_row(&self, n: CueNo) -> Option<&[Level]>
        ensures { option_copied result ≡ option_map (λ cue. row_of self.now.show n) (cue_of self.now.show n) }
    {
        self.sheet.row(n)
    }

    /// The channel's tracked level at the number, which need not be a cue's: as by the show, but read from the row
    /// of the last cue up to it. It is 0 above the channel count.
    pub fn tracked(&self, n: CueNo, c: Chan) -> Level
        ensures { result ≡ tracked self.now.show n c }
    {
        self.sheet.level_at(n, c)
    }

    /// Where edits take their memory.
    pub fn allocator(&self) -> Global {
        self.alloc
    }

    /// The level of each channel at the present moment, before submasters and master: that of channel c
    /// at place c - 1. It is the level over all runs since the opening.
    pub fn levels(&self) -> &[Level]
        ensures live { IsTable self.now.show.channels (level_now self.now) result.now }
        ensures all { (d : Desk) → StandsFor d self.now
            → IsTable d.show.channels (λ c. level d.show 0 d.all c d.playback.moment) result.now }
    {
        self.levels.row()
    }

    /// What the submasters give each channel at their faders: that of channel c at place c - 1.
    pub fn contribution(&self) -> &[Level]
        ensures table { IsTable self.now.show.channels (contribution self.now.show self.now.faders) result.now }
        ensures valid { Valid self.now.show }
    {
        self.rack.contribution()
    }
}

impl Player {
    /// Plays a key, or sets a fader or the master.
    ///
    /// A key of the playback is refused with `NoCueAfter` or `NoCueBefore` of the position, or
    /// `AbsentCue` of the cue named, where there is no such cue, and then with `PlaybackFull` where 512
    /// runs are live; Settle never. A fader is refused with `AbsentSub` where the show has no such
    /// submaster, the master never. `Memory` never comes. A refusal changes nothing.
    pub fn press(&mut self, key: Key) -> Result<Change, Refusal>
        ensures obeys { (d : Desk) → StandsFor d self.old → Obeys d (Command.Key key) result self.new }
        ensures unchanged { OnErr result (self.new ≡ self.old) }
        ensures changes { IfOk result (λ change. Changes change self.old self.new) }
        ensures moment { self.new.playback.moment ≡ self.old.playback.moment }
        ensures memory { result ≢ Err Refusal.Memory }
    {
        match key {
            Key::Play(key) => self.play(key),
            Key::Fader { sub, level } => self.set_fader(sub, level),
            Key::Master { level } => {
                self.master = level;
                Ok(Change::Levels)
            }
        }
    }

    /// The moment grows by 2 hundredths of a second; a follow that is due starts the next cue, and where
    /// all is over the playback comes to rest. While nothing is live no level is looked at.
    ///
    /// Refused with `TickLimit`, and nothing changes, exactly where the moment is `TICK_END`.
    pub fn tick(&mut self) -> Result<Change, Refusal>
        ensures obeys { (d : Desk) → StandsFor d self.old → Obeys d Command.Tick result self.new }
        ensures unchanged { OnErr result (self.new ≡ self.old) }
        ensures changes { IfOk result (λ change. Changes change self.old self.new) }
        ensures show { self.new.show ≡ self.old.show }
        ensures moment { OnOk result (self.new.playback.moment ≡ self.old.playback.moment + TICK_STEP) }
        ensures memory { result ≢ Err Refusal.Memory }
    {
        self.advance()
    }

    /// Lets ticks pass at which nothing starts or ends, all at once: no follow is due, and the playback doesn't
    /// come to rest. It is as by this many calls of `tick` that were accepted.
    ///
    /// It answers how many ticks there were, at most this many; none where the next tick is another or is refused.
    pub fn pass(&mut self, most: u32) -> Passed
        ensures most { result.ticks ≤ most }
        ensures ticks { (d : Desk) → StandsFor d self.old → IsOkAnd (after_ticks result.ticks d) (λ next. StandsFor next self.new) }
        ensures state { self.new ≡ record self.old { playback = moments_later self.old.playback result.ticks } }
        ensures rest { self.old.playback.live ≡ [] → self.old.playback.pending ≡ None
            → result.ticks ≡ min most ((TICK_END - self.old.playback.moment) / TICK_STEP) }
        ensures changes { Changes result.change self.old self.new }
    {
        let ticks = self.playback.pass(most);
        let changed = self.levels.to_moment(self.playback.moment());
        Passed {
            ticks,
            change: Change::of_levels(changed),
        }
    }

    /// An edit of the show; or a key or a tick, as by `press` and `tick`.
    ///
    /// An edit is refused for what it names and the show lacks, or for a limit, and as out of memory only
    /// where nothing else refuses it. Rows and levels are then those of the edited show, also where fades are
    /// under way. A refusal changes nothing.
    pub fn command(&mut self, command: &Command) -> Result<Change, Refusal>
        requires { ValidCommand command.now }
        ensures answers { (d : Desk) → StandsFor d self.old → Answers d command.now result self.new }
        ensures unchanged { OnErr result (self.new ≡ self.old) }
        ensures changes { IfOk result (λ change. Changes change self.old self.new) }
        ensures moment { is_tick command.now ≡ false → self.new.playback.moment ≡ self.old.playback.moment }
        ensures memory { result ≡ Err Refusal.Memory → may_lack_memory command.now ≡ true }
    {
        let mut heap = SystemHeap::new(self.allocator());
        self.command_in(&mut heap, command)
    }

    /// The same, by a heap. An edit is refused with `Memory` only where the heap refused memory in this call. Keys and ticks take none, nor
    /// does a new cue or a row of the patch.
    pub fn command_in<H: Heap>(
        &mut self,
        heap: &mut H,
        command: &Command,
    ) -> Result<Change, Refusal>
        requires { ValidCommand command.now }
        ensures answers { (d : Desk) → StandsFor d self.old → Answers d command.now result self.new }
        ensures unchanged { OnErr result (self.new ≡ self.old) }
        ensures changes { IfOk result (λ change. Changes change self.old self.new) }
        ensures moment { is_tick command.now ≡ false → self.new.playback.moment ≡ self.old.playback.moment }
        ensures memory { result ≡ Err Refusal.Memory → may_lack_memory command.now ≡ true }
        ensures cause { HasCauseOf Refusal.Memory (H.refusals heap.old) (H.refusals heap.new) result }
    {
        match command {
            Command::Edit(edit) => self.edit(heap, edit),
            Command::Key(key) => self.press(*key),
            Command::Tick => self.tick(),
        }
    }

    /// Applies a plan that was made for the show, and answers the plan that makes the show before of the one
    /// after. All else stays: the runs go on over the cues of the show that the plan makes. Rows and levels are then
    /// those of that show; what the plan didn't touch isn't looked at. It takes no memory.
    pub fn apply(&mut self, plan: Plan) -> Applied
        requires { IsReady self.old.show plan }
        ensures now { self.new ≡ record self.old { show = planned self.old.show plan } }
        ensures undo { TakesBack self.old.show self.new.show result.undo }
        ensures stands { (d : Desk) → StandsFor d self.old → StandsFor (record d { show = planned self.old.show plan }) self.new }
        ensures changes { Changes result.change self.old self.new }
    {
        let placed = placed_alone(&plan);
        let Exchanged { dirty, undo } = plan.exchange(&mut self.show, &mut self.sheet);
        let seen = seen(&self.show, &self.playback, placed, &dirty.chans);
        let leveled = recompute_touched(
            &mut self.levels,
            &self.show,
            &self.sheet,
            &self.playback,
            &seen,
        );
        mend_subs(&mut self.rack, &self.show, dirty.subs);
        Applied {
            change: Change::of_edit(&dirty, leveled),
            undo,
        }
    }

    /// Exchanges the show for another of as many channels, and hands back the one that stood before. All else stays: the
    /// runs go on over the cues of the given show. All rows and levels are then those of that show, also where fades are
    /// under way, and so is what the submasters give. It takes no memory, and costs what the whole show does.
    ///
    /// An output that showed the player takes up the whole patch again (`KeptOutput::retake`).
    pub fn replace_show(&mut self, show: Show) -> Show
        requires { show.channels ≡ self.old.show.channels }
        ensures before { result ≡ self.old.show }
        ensures now { self.new ≡ record self.old { show = show } }
        ensures stands { (d : Desk) → StandsFor d self.old → StandsFor (record d { show = show }) self.new }
    {
        let before = std::mem::replace(&mut self.show, show);
        self.sheet.refill(&self.show);
        self.rack.changed(&self.show);
        recompute_all(&mut self.levels, &self.show, &self.sheet, &self.playback);
        before
    }
}

impl Player {
    /// An edit, planned whole and applied whole.
    fn edit<H: Heap>(&mut self, heap: &mut H, edit: &Edit) -> Result<Change, Refusal>
        requires { ValidEdit edit.now }
        ensures ok { OnOk result (IsOkAnd (edited self.old.show edit.now) (λ show. self.new ≡ record self.old { show = show })) }
        ensures err { IfErr result (IsRefusal self.old.show edit.now) }
        ensures unchanged { OnErr result (self.new ≡ self.old) }
        ensures changes { IfOk result (λ change. Changes change self.old self.new) }
        ensures playback { self.new.playback ≡ self.old.playback }
        ensures memory { result ≡ Err Refusal.Memory → takes_memory edit.now ≡ true }
        ensures cause { HasCauseOf Refusal.Memory (H.refusals heap.old) (H.refusals heap.new) result }
    {
        let plan = plan(heap, &self.show, edit)?;
        Ok(self.apply(plan).change)
    }

    /// A tick of the playback.
    fn advance(&mut self) -> Result<Change, Refusal>
        ensures ok { OnOk result (IsOkAnd (tick self.old.show self.old.playback)
            (λ played. self.new ≡ record self.old { playback = played.playback })) }
        ensures err { IfErr result (λ refusal. tick self.old.show self.old.playback ≡ Err refusal) }
        ensures unchanged { OnErr result (self.new ≡ self.old) }
        ensures changes { IfOk result (λ change. Changes change self.old self.new) }
        ensures show { self.new.show ≡ self.old.show }
        ensures moment { OnOk result (self.new.playback.moment ≡ self.old.playback.moment + TICK_STEP) }
    {
        let changed = tick_of(
            &mut self.playback,
            &mut self.levels,
            &self.show,
            &self.sheet,
        )?;
        Ok(Change::of_levels(changed))
    }

    /// A key of the playback.
    fn play(&mut self, key: PlayKey) -> Result<Change, Refusal>
        ensures ok { OnOk result (IsOkAnd (press self.old.show self.old.playback key)
            (λ played. self.new ≡ record self.old { playback = played.playback })) }
        ensures err { IfErr result (λ refusal. press self.old.show self.old.playback key ≡ Err refusal) }
        ensures unchanged { OnErr result (self.new ≡ self.old) }
        ensures changes { IfOk result (λ change. Changes change self.old self.new) }
        ensures moment { self.new.playback.moment ≡ self.old.playback.moment }
    {
        press_key(
            &mut self.playback,
            &mut self.levels,
            &self.show,
            &self.sheet,
            key,
        )?;
        Ok(Change::Levels)
    }

    /// A submaster's fader. It is a function of its own, so that other keys don't pay for its loops.
    #[inline(never)]
    fn set_fader(&mut self, sub: SubNo, level: Level) -> Result<Change, Refusal>
        ensures ok { OnOk result (IsTrue (has_entry (λ x. x.number) sub self.old.show.subs)) }
        ensures state { OnOk result (self.new ≡ record self.old { faders = slice_set self.old.faders (sub - 1) level }) }
        ensures err { IfErr result (λ refusal. refusal ≡ Refusal.AbsentSub sub) }
        ensures absent { OnErr result (IsFalse (has_entry (λ x. x.number) sub self.old.show.subs)) }
        ensures unchanged { OnErr result (self.new ≡ self.old) }
        ensures changes { IfOk result (λ change. Changes change self.old self.new) }
        ensures playback { self.new.playback ≡ self.old.playback }
    {
        if self.show.sub(sub).is_none() {
            return Err(Refusal::AbsentSub(sub));
        }
        self.rack.set_fader(&self.show, sub, level);
        Ok(Change::Levels)
    }
}

/// Takes up the show's submasters, where one was changed: the faders stay.
fn mend_subs(rack: &mut SubRack, show: &Show, stale: bool)
    requires reach { length rack.old.contributions ≡ show.now.channels }
    requires contributions { stale ≡ false → StandsForSubs show.now rack.old }
    ensures stands { StandsForSubs show.now rack.new }
    ensures faders { rack.new.faders ≡ rack.old.faders }
{
    if stale {
        rack.changed(show);
    }
}
