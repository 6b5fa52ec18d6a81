//! The stacks of all channels.

ghost use Rattle.std.specs.Prelude.{◌≡◌, ◌≢◌, ℕ, ◌+◌, ◌-◌, ◌*◌, ◌<◌, ◌≤◌, [], ◌∷◌, List, drop, length, slice_index_or, slice_set};
ghost use Rattle.std.specs.Prelude.{vec_capacity, IfOk};
ghost use Rattle.std.specs.List.{All};
ghost use Rattle.lx_io.specs.Causes.{HasCause};
ghost use Rattle.lx_spec.specs.Level.{fade_over};
ghost use Rattle.lx_levels.specs.Stacks.{stack_level, no_stack};
ghost use Rattle.lx_levels.specs.CurrentFades.{Governs};
ghost use Rattle.lx_fade.specs.Row.{stack_column};
ghost use Rattle.lx_base.specs.declared.TheConstants.{CHANNELS, RUNS, TIME_MAX};
ghost use Rattle.lx_fade.specs.declared.held.TheConstants.{NEVER};

use crate::current::Current;
use lx_base::{Cs, Level, Moment, RUNS};
use lx_fade::{Column, Fade, NEVER, push_in, value_in};
use lx_io::{Heap, filled};
use std::alloc::AllocError;
use std::marker::Model;

/// The fades of each channel, over the level at which it is until one of them has begun. There is room for as many
/// a channel as runs may be live; of that only what is used is written.
#[derive(Drop)]
pub(crate) struct Racks {
    channels: usize,
    /// What each channel's fades stand on.
    feet: Vec<Foot>,
    /// Fade j of the channel at place k stands at j * channels + k.
    fades: Vec<Fade>,
}

/// The level below a channel's fades, and how many they are.
#[derive(Clone, Copy)]
struct Foot {
    bottom: Level,
    count: u16,
}

impl Model for Racks {
    ghost use Rattle.std.specs.Prelude.{List, vec_capacity};
    ghost use Rattle.lx_levels.specs.Stacks.{Stack as StackData};
    ghost use Rattle.lx_levels.specs.Columns.{stacks_of, IsLaidOut};

    ghost Value = { List StackData };

    ghost view = { λ r. stacks_of r.channels r.feet.items r.fades.items };

    ghost invariant = { λ r. IsLaidOut r.channels r.feet.items r.fades.items (vec_capacity r.fades) };
}

/// A fade of no use, in whose place another is written.
const NO_FADE: Fade = Fade {
    start: 0,
    time: 0,
    from: 0,
    target: 0,
};

impl Racks {
    /// No fade on any of this many channels, over level 0. An error comes where the heap refuses memory.
    pub(crate) fn open<H: Heap>(heap: &mut H, channels: usize) -> Result<Racks, AllocError>
        requires { channels ≤ CHANNELS }
        ensures reach { IfOk result (λ racks. length racks ≡ channels) }
        ensures empty { IfOk result (λ racks. (k : ℕ) → slice_index_or racks k no_stack ≡ no_stack) }
        ensures cause { HasCause (H.refusals heap.old) (H.refusals heap.new) result }
    {
        let nothing = Foot {
            bottom: 0,
            count: 0,
        };
        let feet = filled(heap, nothing, channels)?;
        let fades = heap.room(RUNS * channels)?;
        Ok(Racks {
            channels,
            feet,
            fades,
        })
    }

    /// No fade on the channel, over the level.
    pub(crate) fn restart(&mut self, k: usize, bottom: Level)
        requires { k < length self.old }
        ensures { self.new ≡ slice_set self.old k (record { bottom = bottom; fades = [] }) }
    {
        self.feet[k] = Foot { bottom, count: 0 };
    }

    /// The fade on this many of the channel's oldest ones, which are kept.
    pub(crate) fn put(&mut self, k: usize, kept: usize, fade: Fade)
        requires within { k < length self.old }
        requires kept { kept ≤ length (slice_index_or self.old k no_stack).fades }
        requires room { kept < RUNS }
        requires start { fade.start < NEVER }
        ensures { self.new ≡ slice_set self.old k (record (slice_index_or self.old k no_stack)
            { fades = fade ∷ drop (length (slice_index_or self.old k no_stack).fades - kept) (slice_index_or self.old k no_stack).fades }) }
    {
        write(&mut self.fades, self.channels, k, kept, fade);
        self.feet[k].count = kept as u16 + 1;
    }

    /// The channel's level at a moment.
    pub(crate) fn value(&self, k: usize, m: Moment) -> Level
        requires { k < length self.now }
        ensures { result ≡ stack_level (slice_index_or self.now k no_stack) m }
    {
        let foot = self.feet[k];
        let at = Column {
            step: self.channels,
            first: k,
            used: foot.count as usize,
        };
        value_in(&self.fades, at, foot.bottom, m)
    }

    /// Pushes a fade to the target that begins at `start` from the level there: the fades that would begin later are
    /// dropped.
    pub(crate) fn push(&mut self, k: usize, start: Moment, time: Cs, target: Level)
        requires within { k < length self.old }
        requires room { length (slice_index_or self.old k no_stack).fades < RUNS }
        requires start { start < NEVER }
        requires time { time ≤ TIME_MAX }
        ensures level { (m : ℕ) → stack_level (slice_index_or self.new k no_stack) m
            ≡ fade_over (stack_level (slice_index_or self.old k no_stack)) start time target m }
        ensures few { length (slice_index_or self.new k no_stack).fades ≤ length (slice_index_or self.old k no_stack).fades + 1 }
        ensures others { self.new ≡ slice_set self.old k (slice_index_or self.new k no_stack) }
    {
        let foot = self.feet[k];
        let at = Column {
            step: self.channels,
            first: k,
            used: foot.count as usize,
        };
        let push = push_in(&self.fades, at, foot.bottom, start, time, target);
        self.put(k, push.kept, push.fade);
    }

    /// The fade that gives the channel's level from the moment on, until a later one begins.
    pub(crate) fn governing(&self, k: usize, m: Moment) -> Current
        requires within { k < length self.now }
        requires moment { m < NEVER }
        ensures governs { Governs m (slice_index_or self.now k no_stack) result }
        ensures wake { m < result.wake }
    {
        let foot = self.feet[k];
        governing_in(
            &self.fades,
            self.channels,
            k,
            foot.count as usize,
            foot.bottom,
            m,
        )
    }
}

/// The fade of this many in a column that gives the level from the moment on, until a later one begins.
fn governing_in(
    block: &[Fade],
    channels: usize,
    k: usize,
    count: usize,
    bottom: Level,
    m: Moment,
) -> Current
    requires moment { m < NEVER }
    requires within { k < channels }
    requires reach { count * channels ≤ length block.now }
    requires begin { All (λ f. f.start < NEVER) block.now }
    ensures governs { Governs m (record { bottom = bottom; fades = stack_column block.now channels k count }) result }
    ensures wake { m < result.wake }
{
    let mut wake = NEVER;
    let mut left = count;
    while left > 0 {
        let newest = block[(left - 1) * channels + k];
        if newest.start <= m {
            return Current { fade: newest, wake };
        }
        wake = wake.min(newest.start);
        left -= 1;
    }
    Current::still(bottom, wake)
}

/// Writes the fade into a column on this many that are there. The block grows by a plane where it is too short.
fn write(block: &mut Vec<Fade>, channels: usize, k: usize, kept: usize, fade: Fade)
    requires few { channels ≤ CHANNELS }
    requires within { k < channels }
    requires kept { kept < RUNS }
    requires room { RUNS * channels ≤ vec_capacity block.old }
    requires start { fade.start < NEVER }
    ensures here { stack_column block.new.items channels k (kept + 1) ≡ fade ∷ stack_column block.old.items channels k kept }
    ensures others { (i n : ℕ) → i < channels → i ≢ k → stack_column block.new.items channels i n ≡ stack_column block.old.items channels i n }
    ensures reach { (kept + 1) * channels ≤ length block.new.items }
    ensures longer { length block.old.items ≤ length block.new.items }
    ensures begin { All (λ f. f.start < NEVER) block.old.items → All (λ f. f.start < NEVER) block.new.items }
    ensures room { vec_capacity block.old ≤ vec_capacity block.new }
{
    let end = (kept + 1) * channels;
    grow(block, end);
    block[kept * channels + k] = fade;
}

/// Makes the block so long at least, in the room that is there.
fn grow(block: &mut Vec<Fade>, end: usize)
    requires room { end ≤ vec_capacity block.old }
    ensures longer { length block.old.items ≤ length block.new.items }
    ensures end { end ≤ length block.new.items }
    ensures same { (i : ℕ) → slice_index_or block.new.items i (record { start = 0; time = 0; from = 0; target = 0 })
        ≡ slice_index_or block.old.items i (record { start = 0; time = 0; from = 0; target = 0 }) }
    ensures begin { All (λ f. f.start < NEVER) block.old.items → All (λ f. f.start < NEVER) block.new.items }
    ensures room { vec_capacity block.old ≤ vec_capacity block.new }
{
    if block.len() < end {
        match block.resize(end, NO_FADE) {
            Ok(()) => {}
            Err(_) => unreachable!(),
        }
    }
}
