//! What a tap reads from.
ghost use Rattle.std.specs.Prelude.{◌≡◌, ◌≤◌, ◌-◌, ◌*◌, ◌⊎◌, ℕ, List, None, IfSome, MatchOption, slice_range, [], IsTrue};
ghost use Rattle.std.specs.Prelude.{Bool, IsSome, is_some};
ghost use mathlib.Core.List.{IsPrefix};
ghost use Rattle.lx_io.specs.Causes.{Rose};
ghost use Rattle.lx_gate.specs.Frames.{IsVersion, IsFrame};
ghost use Rattle.lx_gate.specs.CommandLists.{IsChained, longest};
ghost use Rattle.lx_gate.specs.Notes.{IsNoteOf, commands_of_note};
ghost use Rattle.lx_spec.specs.Show.{Show};
ghost use Rattle.logbook.specs.Pages.{Book};
ghost use Rattle.lx_gate.specs.Readings.{IsReading, Told, HasMissed, HasLearnt};
ghost use Rattle.lx_base.specs.declared.TheConstants.{UNIVERSES, UNIVERSE_SLOTS};
ghost use Rattle.lx_spec.specs.declared.Command.{Command};

use crate::{GateRule, Note, Origin, Prefix, Shows, Stamp, Version};
use left_right::reader::Reader;
use lx_base::UNIVERSE_SLOTS;

/// What a tap reads from: one gate, whose versions it gives.
pub trait Port {
    /// The show of the gate that it reads.
    ghost show: { Show };

    /// The history of the gate that it reads.
    ghost book: { Book };

    /// What it was told.
    ghost told: { Self → Told };

    /// Whether it has what gives readings.
    ghost can_read: { Self → Bool };

    /// Gives the slots of a universe and the stamp, wholly of one version. None is a miss: `out` is as before.
    fn read(&mut self, universe: u8, out: &mut [u8; UNIVERSE_SLOTS]) -> Option<Stamp>
        requires low { 1 ≤ universe }
        requires high { universe ≤ UNIVERSES }
        ensures some { IfSome result (λ stamp. IsReading show universe (told self.old) (told self.new) out.new stamp) }
        ensures none { result ≡ None → HasMissed (told self.old) (told self.new) }
        ensures kept { result ≡ None → out.new ≡ out.old }
        ensures chained { IsChained (told self.new).seen (told self.new).learnt }
        ensures can_read { can_read self.new ≡ can_read self.old };

    /// Learns what a note has. Each later reading has at least that.
    fn learn(&mut self, note: Note)
        requires gate { IsNoteOf show book note }
        ensures learnt { HasLearnt (told self.old) (told self.new) (commands_of_note note) }
        ensures chained { IsChained (told self.new).seen (told self.new).learnt }
        ensures can_read { can_read self.new ≡ can_read self.old };
}

pub type GateReader<G> = Reader<Version<G>, (), GateRule<G>>;

pub type GatePort<G> = LrPort<G, GateReader<G>>;

/// The port over a reader of type `R` of `left_right`. It counts its readings and its misses. Without a reader each read is a miss.
#[derive(Drop)]
pub struct LrPort<G: Origin, R> {
    reader: Option<R>,
    seen: Prefix<G>,
    learnt: Prefix<G>,
    reads: u64,
    misses: u64,
}

impl<G: Origin> LrPort<G, GateReader<G>> {
    /// A port that has seen and learnt these lists.
    pub fn new(reader: Option<GateReader<G>>, seen: Prefix<G>, learnt: Prefix<G>) -> GatePort<G>
        ensures seen { (result.seen ≡ seen) × (result.learnt ≡ learnt) }
        ensures counts { (result.reads ≡ 0) × (result.misses ≡ 0) }
        ensures reader { result.reader ≡ reader }
    {
        LrPort {
            reader,
            seen,
            learnt,
            reads: 0,
            misses: 0,
        }
    }
}

impl<G: Origin> Port for LrPort<G, GateReader<G>> {
    ghost show = { G.show };

    ghost book = { G.book };

    ghost told = { λ p. record { seen = p.seen; learnt = p.learnt; reads = p.reads; misses = p.misses } };

    ghost can_read = { λ p. is_some p.reader };

    fn read(&mut self, universe: u8, out: &mut [u8; UNIVERSE_SLOTS]) -> Option<Stamp> {
        self.seen.chain(&self.learnt);
        let Some(reader) = self.reader.take() else {
            self.misses = self.misses.saturating_add(1);
            return None;
        };
        match reader.enter_as::<Shows<G>>() {
            Ok(reading) => {
                let list = reading.get().list.again();
                let answer = copy_later(reading.get(), &self.seen, &self.learnt, universe, out);
                self.reader = Some(reading.leave());
                match answer {
                    Some(stamp) => {
                        self.seen = list;
                        self.reads = self.reads.saturating_add(1);
                        Some(stamp)
                    }
                    None => {
                        self.misses = self.misses.saturating_add(1);
                        None
                    }
                }
            }
            Err(reader) => {
                self.reader = Some(reader);
                self.misses = self.misses.saturating_add(1);
                None
            }
        }
    }

    fn learn(&mut self, note: Note) {
        let learnt = self.learnt.longer(&note.list());
        self.seen.chain(&learnt);
        self.learnt = learnt;
    }
}

/// Copies the slots of a universe, of a version that goes on from two lists.
fn copy_later<G: Origin>(
    version: &Version<G>,
    seen: &Prefix<G>,
    learnt: &Prefix<G>,
    universe: u8,
    out: &mut [u8; UNIVERSE_SLOTS],
) -> Option<Stamp>
    requires low { 1 ≤ universe }
    requires high { universe ≤ UNIVERSES }
    requires version { IsVersion G.show version.now.list version.now.slots version.now.count version.now.moment }
    ensures none { result ≡ None → out.new ≡ out.old }
    ensures frame { IfSome result (λ stamp. IsFrame G.show version.now.list universe out.new stamp) }
    ensures seen { IfSome result (λ _. IsPrefix seen.now version.now.list) }
    ensures learnt { IfSome result (λ _. IsPrefix learnt.now version.now.list) }
    ensures goes_on { IsPrefix seen.now version.now.list → IsPrefix learnt.now version.now.list → IsSome result }
{
    if version.list.follows(seen) && version.list.follows(learnt) {
        return Some(copy_slots(version, universe, out));
    }
    None
}

/// Copies the slots of a universe.
fn copy_slots<G: Origin>(
    version: &Version<G>,
    universe: u8,
    out: &mut [u8; UNIVERSE_SLOTS],
) -> Stamp
    requires low { 1 ≤ universe }
    requires high { universe ≤ UNIVERSES }
    ensures slots { out.new ≡ slice_range version.now.slots (UNIVERSE_SLOTS * (universe - 1)) (UNIVERSE_SLOTS * universe) }
    ensures stamp { (result.count ≡ version.now.count) × (result.moment ≡ version.now.moment) }
{
    let end = UNIVERSE_SLOTS * universe as usize;
    out.copy_from_slice(&version.slots[end - UNIVERSE_SLOTS..end]);
    Stamp {
        count: version.count,
        moment: version.moment,
    }
}
