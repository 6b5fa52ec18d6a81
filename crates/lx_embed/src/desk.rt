//! The desk that a host embeds.

ghost use Rattle.std.specs.Prelude.{◌≡◌, ◌≢◌, ◌≤◌, ◌<◌, ◌↔◌, ℕ, None, Some, true, false, length, IsSome, IfSome, IfOk, IfErr, OnErr};
ghost use Rattle.lx_embed.specs.Imports.{IsErr, HasCauseOf, Rose, Desk, step, fader, frame, on_stage, tracked, StandsFor, ByMemory};
ghost use Rattle.lx_embed.specs.Imports.{Answered, console_of, IsUntouched, OpensText, RefusesShow, reply_bytes, wants_of, taken_of};
ghost use Rattle.lx_embed.specs.Imports.{Stands, AcceptedTicks};
ghost use Rattle.lx_base.specs.declared.TheConstants.{CUE_MAX, SUBS, UNIVERSES, UNIVERSE_SLOTS};
ghost use Rattle.lx_spec.specs.declared.Command.TheVariants as Command;

use crate::engine::Engine;
use crate::open::open_text;
use crate::reply::ReplyText;
use crate::shown::{frame_of, is_universe};
use crate::state::{PlaybackState, state_of};
use crate::taken::Taken;
use lx_base::{Chan, CueNo, Level, SubNo, UNIVERSE_SLOTS};
use lx_io::{Heap, SinkFault, SystemHeap};
use lx_reader::ShowFault;
use lx_show::Form;
use std::alloc::Global;

/// A desk for a program that embeds it: what answers, the reply to the last line, what was taken last of each universe, and where its
/// lines take their memory, where they aren't given a heap.
#[derive(Drop)]
pub struct HostDesk {
    pub engine: Engine,
    pub reply: ReplyText,
    pub taken: Taken,
    pub heap: SystemHeap,
}

impl HostDesk {
    /// Opens a desk over a show's text: a plain one, or where a depth is given one that keeps the last n shows that edits and
    /// records replace. Its reply is empty, nothing of it was taken, and its heaps have refused nothing.
    ///
    /// The fault is that of the text, or that its lines up to ENDDATA are too long, or that memory runs out.
    pub fn open(
        alloc: Global,
        text: &[u8],
        form: Form,
        depth: Option<u32>,
    ) -> Result<HostDesk, ShowFault>
        ensures opens { IfOk result (λ desk. OpensText form depth text.now desk.engine) }
        ensures untouched { IfOk result IsUntouched }
        ensures refuses { IfErr result (RefusesShow form text.now) }
    {
        HostDesk::open_in(&mut SystemHeap::new(alloc), text, form, depth)
    }

    /// The same, by a heap: `Memory` comes only where the heap refused some in this call.
    pub fn open_in<H: Heap>(
        heap: &mut H,
        text: &[u8],
        form: Form,
        depth: Option<u32>,
    ) -> Result<HostDesk, ShowFault>
        ensures opens { IfOk result (λ desk. OpensText form depth text.now desk.engine) }
        ensures untouched { IfOk result IsUntouched }
        ensures refuses { IfErr result (RefusesShow form text.now) }
        ensures wanted { HasCauseOf ShowFault.Memory (H.refusals heap.old) (H.refusals heap.new) result }
    {
        let engine = open_text(heap, text, form, depth)?;
        let alloc = heap.allocator();
        Ok(HostDesk {
            engine,
            reply: ReplyText::new(alloc),
            taken: Taken::nothing(),
            heap: SystemHeap::new(alloc),
        })
    }

    /// Does one line of a script, and keeps its reply in the place of the last. It answers false exactly for `quit`. A line that is too
    /// long is bad. Where the desk's heap refused nothing in this call, no edit and no record was refused as out of memory.
    ///
    /// A fault comes only where memory was refused for the reply: the line was done, and of its reply a front is kept.
    pub fn command(&mut self, line: &[u8]) -> Result<bool, SinkFault>
        ensures answered { ByMemory self.old.heap.refusals self.new.heap.refusals
            (λ ample. Answered ample self.old.engine self.new.engine line.now result (reply_bytes self.new.reply)) }
        ensures wanted { OnErr result (Rose (wants_of self.old.reply) (wants_of self.new.reply)) }
        ensures taken { self.new.taken ≡ self.old.taken }
    {
        self.engine.answer_in(&mut self.heap, line, &mut self.reply)
    }

    /// The same, by a heap, which edits and records take their memory from: where it refused nothing in this call, none was refused
    /// as out of memory.
    pub fn command_in<H: Heap>(&mut self, heap: &mut H, line: &[u8]) -> Result<bool, SinkFault>
        ensures answered { ByMemory (H.refusals heap.old) (H.refusals heap.new)
            (λ ample. Answered ample self.old.engine self.new.engine line.now result (reply_bytes self.new.reply)) }
        ensures wanted { OnErr result (Rose (wants_of self.old.reply) (wants_of self.new.reply)) }
        ensures taken { self.new.taken ≡ self.old.taken }
        ensures heap { self.new.heap ≡ self.old.heap }
        ensures later { H.refusals heap.old ≤ H.refusals heap.new }
    {
        self.engine.answer_in(heap, line, &mut self.reply)
    }

    /// The reply to the last line.
    pub fn reply(&self) -> &[u8]
        ensures { result.now ≡ reply_bytes self.now.reply }
    {
        self.reply.as_slice()
    }

    /// Lets this many ticks go by, and says how many were accepted: all of them, unless the moment comes to its end.
    pub fn tick(&mut self, n: u32) -> u32
        ensures most { result ≤ n }
        ensures ticks { AcceptedTicks self.old.engine result self.new.engine }
        ensures end { result < n → (d : Desk) → StandsFor d (console_of self.new.engine) → IsErr (step d Command.Tick) }
        ensures kept { (self.new.reply ≡ self.old.reply) × ((self.new.taken ≡ self.old.taken) × (self.new.heap ≡ self.old.heap)) }
    {
        self.engine.tick(n)
    }

    /// Copies the slots of a universe, if there is one of the number and there is room for just these, and keeps them as taken.
    pub fn frame(&mut self, universe: u32, out: &mut [u8]) -> bool
        ensures frame { result ≡ true → (d : Desk) → StandsFor d (console_of self.old.engine) → out.new ≡ frame d universe }
        ensures taken { result ≡ true → taken_of self.new.taken universe ≡ Some out.new }
        ensures others { (u : ℕ) → 1 ≤ u → u ≢ universe → taken_of self.new.taken u ≡ taken_of self.old.taken u }
        ensures refused { result ≡ false → (out.new ≡ out.old) × (self.new ≡ self.old) }
        ensures given { (result ≡ true) ↔ (((1 ≤ universe) × (universe ≤ UNIVERSES)) × (length out.old ≡ UNIVERSE_SLOTS)) }
        ensures kept { (self.new.engine ≡ self.old.engine) × ((self.new.reply ≡ self.old.reply) × (self.new.heap ≡ self.old.heap)) }
    {
        if !is_universe(universe) || out.len() != UNIVERSE_SLOTS {
            return false;
        }
        let slots = frame_of(self.engine.console(), universe);
        out.copy_from_slice(slots);
        self.taken.take(universe, slots);
        true
    }

    /// Whether the slots of a universe are others than those that were taken last, or none were. `None` exactly where there is no
    /// universe of the number.
    pub fn changed(&self, universe: u32) -> Option<bool>
        ensures told { IsSome result ↔ ((1 ≤ universe) × (universe ≤ UNIVERSES)) }
        ensures changed { IfSome result (λ changed. (d : Desk) → StandsFor d (console_of self.now.engine)
            → (changed ≡ false) ↔ (taken_of self.now.taken universe ≡ Some (frame d universe))) }
    {
        if !is_universe(universe) {
            return None;
        }
        let slots = frame_of(self.engine.console(), universe);
        Some(!self.taken.are(universe, slots))
    }

    /// The level of a channel on stage: that of the playback, before submasters and master. `None` exactly where the show has no such
    /// channel.
    pub fn level(&self, channel: u32) -> Option<Level>
        ensures told { IsSome result ↔ ((1 ≤ channel) × (channel ≤ (console_of self.now.engine).show.channels)) }
        ensures level { IfSome result (λ level. (d : Desk) → StandsFor d (console_of self.now.engine) → level ≡ on_stage d channel) }
    {
        let levels = self.engine.console().levels();
        if channel < 1 || channel as usize > levels.len() {
            return None;
        }
        Some(levels[channel as usize - 1])
    }

    /// The tracked level of a channel at a cue number, in thousandths, which need not be a cue's. `None` exactly where the show has no
    /// such channel, or the number is too great.
    pub fn tracked(&self, cue: u32, channel: u32) -> Option<Level>
        ensures told { IsSome result ↔ ((cue ≤ CUE_MAX) × ((1 ≤ channel) × (channel ≤ (console_of self.now.engine).show.channels))) }
        ensures level { IfSome result (λ level. level ≡ tracked (console_of self.now.engine).show cue channel) }
    {
        let console = self.engine.console();
        if channel > console.show().channels() {
            return None;
        }
        Some(console.tracked(CueNo::new(cue)?, Chan::new(channel)?))
    }

    /// The fader of a submaster, which the show need not have. `None` exactly where there is no such number.
    pub fn fader(&self, sub: u32) -> Option<Level>
        ensures told { IsSome result ↔ ((1 ≤ sub) × (sub ≤ SUBS)) }
        ensures level { IfSome result (λ level. level ≡ fader (console_of self.now.engine).faders sub) }
    {
        Some(self.engine.console().fader(SubNo::new(sub)?))
    }

    /// Where the playback stands.
    pub fn state(&self) -> PlaybackState
        ensures { Stands (console_of self.now.engine) result }
    {
        state_of(self.engine.console())
    }
}
