//! Kept levels.

ghost use Rattle.std.specs.Prelude.{◌≡◌, ◌≢◌, ℕ, ◌+◌, ◌-◌, ◌<◌, ◌≤◌, [], ◌∷◌, true, false, List, length, slice_index, slice_set, IfOk};
ghost use Rattle.std.specs.Prelude.{IfSome};
ghost use Rattle.std.specs.Option.{option_copied, option_map_or};
ghost use Rattle.lx_io.specs.Causes.{HasCause};
ghost use Rattle.lx_spec.specs.Show.{Valid};
ghost use Rattle.lx_spec.specs.Level.{level, last_cue};
ghost use Rattle.lx_spec.specs.Playback.{at_opening};
ghost use Rattle.lx_sheet.specs.SheetMeaning.{RowsStandFor};
ghost use Rattle.lx_mixer.specs.Table.{IsTable};
ghost use Rattle.lx_playback.specs.Valid.{ValidRun};
ghost use Rattle.lx_levels.specs.Stacks.{stack_level, level_at, kept_stack};
ghost use Rattle.lx_levels.specs.CurrentFades.{AreAt, IsStill};
ghost use Rattle.lx_levels.specs.Acts.{IsValid, act_over};
ghost use Rattle.lx_levels.specs.LevelsMeaning.{LevelsStandFor, StackStandsAt, StandsBefore, IsElsewhere};
ghost use Rattle.lx_base.specs.declared.TheConstants.{RUNS, LANES, TICK_END};
ghost use Rattle.lx_spec.specs.Show.{Show as ShowData};
ghost use Rattle.lx_spec.specs.Run.{Run as RunData};
ghost use Rattle.lx_spec.specs.Playback.{Playback as PlaybackData};

use crate::channel::push_act;
use crate::current::Current;
use crate::hints::{Hint, NO_HINT};
use crate::motion::Motion;
use crate::racks::Racks;
use crate::replay::{Act, act_of, ground_of, replay};
use lx_base::{Chan, CueNo, LANES, Level, Moment, RUNS};
use lx_fade::NEVER;
use lx_io::{Heap, SystemHeap, filled};
use lx_playback::{Playback, Run};
use lx_sheet::Sheet;
use lx_show::Show;
use std::alloc::{AllocError, Global};
use std::marker::Model;

/// The level of each channel at a moment, and what is needed to follow it: a stack of fades for each
/// channel, the fade of it that governs, and the moment up to which the level stays. All memory is taken by `open`.
///
/// Contracts see the moment and the stacks.
#[derive(Drop)]
pub struct Levels {
    moment: Moment,
    /// The fades of each channel.
    stacks: Racks,
    motion: Motion,
    /// Where the cue of each live run, and a channel's move in it, was found last.
    hints: Vec<Hint>,
    /// What each live run does to the channel that is being made again.
    acts: Vec<Option<Act>>,
}

impl Model for Levels {
    ghost use Rattle.lx_levels.specs.Stacks.{KeptLevels};
    ghost use Rattle.lx_levels.specs.CurrentFades.{IsReadyAt};

    ghost Value = { KeptLevels };

    ghost view = { λ l. record { moment = l.moment; stacks = l.stacks } };

    ghost invariant = { λ l. IsReadyAt l.moment l.stacks l.motion l.hints.items l.acts.items };
}

impl Levels {
    /// Each channel of the show at level 0, at moment 0. An error comes where memory runs out.
    pub fn open(alloc: Global, show: &Show) -> Result<Levels, AllocError>
        ensures moment { IfOk result (λ levels. levels.moment ≡ 0) }
        ensures reach { IfOk result (λ levels. length levels.stacks ≡ show.now.channels) }
        ensures levels { IfOk result (λ levels. (k : ℕ) → level_at levels k ≡ 0) }
        ensures valid { Valid show.now }
    {
        Levels::open_in(&mut SystemHeap::new(alloc), show)
    }

    /// The same, by a heap. An error comes where the heap refuses memory.
    pub fn open_in<H: Heap>(heap: &mut H, show: &Show) -> Result<Levels, AllocError>
        ensures moment { IfOk result (λ levels. levels.moment ≡ 0) }
        ensures reach { IfOk result (λ levels. length levels.stacks ≡ show.now.channels) }
        ensures levels { IfOk result (λ levels. (k : ℕ) → level_at levels k ≡ 0) }
        ensures valid { Valid show.now }
        ensures cause { HasCause (H.refusals heap.old) (H.refusals heap.new) result }
    {
        let channels = show.channels() as usize;
        Ok(Levels {
            moment: 0,
            stacks: Racks::open(heap, channels)?,
            motion: Motion {
                currents: filled(heap, Current::still(0, NEVER), channels)?,
                levels: filled(heap, 0, channels)?,
                holds: filled(heap, NEVER, channels)?,
                due: NEVER,
            },
            hints: filled(heap, NO_HINT, RUNS)?,
            acts: filled(heap, None, RUNS)?,
        })
    }

    /// The level of channel c at place c - 1.
    pub fn row(&self) -> &[Level]
        ensures reach { length result.now ≡ length self.now.stacks }
        ensures levels { (k : ℕ) → k < length self.now.stacks → slice_index result.now k ≡ level_at self.now k }
        ensures stands { (show : ShowData) (p : PlaybackData) → LevelsStandFor show p self.now
            → IsTable show.channels (λ c. level show p.base p.live c p.moment) result.now }
    {
        self.motion.levels.as_slice()
    }

    /// The playback has another run, which starts at its moment. The levels stood for the playback before
    /// it.
    pub fn run_added(&mut self, show: &Show, sheet: &Sheet, playback: &Playback)
        requires rows { RowsStandFor show.now sheet.now }
        requires stood { StandsBefore show.now playback.now self.old }
        ensures { LevelsStandFor show.now playback.now self.new }
    {
        let Some(run) = last_run(playback) else {
            return;
        };
        let from = sheet.look_at(before_last(playback));
        let to = sheet.look_at(run.cue);
        let mut hint = NO_HINT;
        let channels = show.channels() as usize;
        let mut k = 0;
        while k < channels {
            let still = self.count_still(k, to);
            if still > 0 {
                k += still;
                continue;
            }
            let target = level_on(to, k);
            let c = Chan::at(k);
            if let Some(act) = act_of(show, run, c, level_on(from, k), target, &mut hint) {
                self.add_run(k, &act);
            }
            k += 1;
        }
    }

    /// No run is live any more: each channel is at its tracked level at the base.
    pub fn settled(&mut self, sheet: &Sheet, playback: &Playback)
        requires moment { self.old.moment ≡ playback.now.moment }
        requires rest { playback.now.live ≡ [] }
        ensures { (show : ShowData) → show.channels ≡ length self.old.stacks → RowsStandFor show sheet.now
            → LevelsStandFor show playback.now self.new }
    {
        let base = playback.base();
        let mut near = 0;
        for k in 0..self.motion.levels.len() {
            self.restart(k, sheet.level_near(base, Chan::at(k), &mut near));
        }
    }

    /// The levels at a later moment; answers whether one changed. Up to the moment at which the next one does it
    /// looks at no channel, and then at each level that has stayed as long as it was to.
    pub fn to_moment(&mut self, m: Moment) -> bool
        requires later { self.old.moment ≤ m }
        requires end { m ≤ TICK_END }
        ensures stands { (show : ShowData) (p : PlaybackData) → LevelsStandFor show p self.old
            → LevelsStandFor show (record p { moment = m }) self.new }
        ensures unchanged { result ≡ false → (k : ℕ) → k < length self.old.stacks → level_at self.new k ≡ level_at self.old k }
    {
        self.moment = m;
        if m < self.motion.due {
            return false;
        }
        self.motion.advance(m, &self.stacks)
    }

    /// The level and the fades of one channel are made again from the live runs; every other channel is
    /// left as it was.
    pub fn recompute(&mut self, show: &Show, sheet: &Sheet, playback: &Playback, chan: Chan)
        requires rows { RowsStandFor show.now sheet.now }
        requires moment { self.old.moment ≡ playback.now.moment }
        requires chan { chan ≤ length self.old.stacks }
        ensures here { StackStandsAt show.now playback.now self.new (chan - 1) }
        ensures others { IsElsewhere (chan - 1) self.old self.new }
    {
        let k = chan.get() as usize - 1;
        let live = playback.live();
        let oldest = ground_of(
            show,
            sheet,
            playback.base(),
            live,
            self.moment,
            chan,
            &mut self.hints,
            &mut self.acts,
        );
        replay(&mut self.stacks, k, live, &self.acts, oldest);
        self.motion.refresh(k, self.moment, &self.stacks);
    }
}

impl Levels {
    /// The channel at the place is at the level for ever, as it is: whatever times a run to that level has, it stays.
    fn stays_at(&self, k: usize, level: Level) -> bool
        requires { k < length self.now.stacks }
        ensures { result ≡ true → IsStill self.now.moment (kept_stack self.now k) level }
    {
        self.motion.levels[k] == level && self.motion.holds[k] == NEVER
    }

    /// How many channels from this one on are at their level of the look for ever, as far as is looked: a block of lanes, this one, or none.
    #[inline(always)]
    fn count_still(&self, k: usize, look: Option<&[Level]>) -> usize
        requires within { k < length self.now.stacks }
        requires reach { IfSome look (λ row. length row.now ≡ length self.now.stacks) }
        ensures most { k + result ≤ length self.now.stacks }
        ensures still { (i : ℕ) → k ≤ i → i < k + result
            → IsStill self.now.moment (kept_stack self.now i) (option_map_or (λ row. slice_index row.now i) look.entry 0) }
    {
        if k % LANES == 0 && self.block_stays(k, look) {
            LANES
        } else if self.stays_at(k, level_on(look, k)) {
            1
        } else {
            0
        }
    }

    /// The channels of a whole block of lanes are at their level of the look for ever.
    #[inline(always)]
    fn block_stays(&self, at: usize, look: Option<&[Level]>) -> bool
        requires within { at < length self.now.stacks }
        requires reach { IfSome look (λ row. length row.now ≡ length self.now.stacks) }
        ensures whole { result ≡ true → at + LANES ≤ length self.now.stacks }
        ensures still { result ≡ true → (i : ℕ) → at ≤ i → i < at + LANES
            → IsStill self.now.moment (kept_stack self.now i) (option_map_or (λ row. slice_index row.now i) look.entry 0) }
    {
        match look {
            Some(row) if at + LANES <= row.len() => {
                block_is_at(&self.motion.levels, &self.motion.holds, row, at)
            }
            _ => false,
        }
    }

    /// The fade of a run on the channel at a place, on which it acts.
    fn add_run(&mut self, k: usize, act: &Act)
        requires within { k < length self.old.stacks }
        requires room { length (kept_stack self.old k).fades < RUNS }
        requires valid { IsValid act.now }
        requires started { act.now.start ≤ self.old.moment }
        ensures level { (x : ℕ) → self.old.moment ≤ x → stack_level (kept_stack self.new k) x
            ≡ act_over act.now (stack_level (kept_stack self.old k)) x }
        ensures few { length (kept_stack self.new k).fades ≤ length (kept_stack self.old k).fades + 1 }
        ensures others { IsElsewhere k self.old self.new }
    {
        push_act(&mut self.stacks, k, act);
        self.motion.refresh(k, self.moment, &self.stacks);
    }

    /// No fade on the channel at a place.
    fn restart(&mut self, k: usize, bottom: Level)
        requires { k < length self.old.stacks }
        ensures { self.new ≡ record self.old { stacks = slice_set self.old.stacks k (record { bottom = bottom; fades = [] }) } }
    {
        self.stacks.restart(k, bottom);
        self.motion.refresh(k, self.moment, &self.stacks);
    }
}

/// The levels of a block of lanes are those of a row, and are held for ever. It is no loop that ends early, so that the compiler makes
/// lanes of it.
fn block_is_at(levels: &[Level], holds: &[Moment], row: &[Level], at: usize) -> bool
    requires levels { at + LANES ≤ length levels.now }
    requires holds { at + LANES ≤ length holds.now }
    requires row { at + LANES ≤ length row.now }
    ensures same { result ≡ true → AreAt levels.now holds.now row.now at (at + LANES) }
{
    let mut same = true;
    for i in at..at + LANES {
        same = same & (levels[i] == row[i]) & (holds[i] == NEVER);
    }
    same
}

/// The level at a place of a look: 0 where there is none.
#[inline(always)]
fn level_on(look: Option<&[Level]>, k: usize) -> Level
    requires { IfSome look (λ row. k < length row.now) }
    ensures { result ≡ option_map_or (λ row. slice_index row.now k) look.entry 0 }
{
    match look {
        Some(row) => row[k],
        None => 0,
    }
}

/// The last run.
fn last_run(playback: &Playback) -> Option<&Run>
    ensures last { (run : RunData) (older : List RunData) → playback.now.live ≡ run ∷ older → option_copied result ≡ Some run }
    ensures valid { IfSome result (λ run. ValidRun TICK_END run.now) }
    ensures started { IfSome result (λ run. run.now.start ≤ playback.now.moment) }
    ensures few { length playback.now.live ≤ RUNS }
{
    playback.live().last()
}

/// The position before the last run.
fn before_last(playback: &Playback) -> CueNo
    ensures { (run : RunData) (older : List RunData) → playback.now.live ≡ run ∷ older → result ≡ last_cue playback.now.base older }
{
    let live = playback.live();
    if live.len() < 2 {
        return playback.base();
    }
    let run = &live[live.len() - 2];
    run.cue
}
