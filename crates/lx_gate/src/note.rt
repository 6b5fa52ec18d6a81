//! What a gate had published when the note was made.
use crate::history::{Batch, Law};
use crate::{Origin, Prefix};
use logbook::Seen;
use lx_base::SLOTS;

/// A version that a gate published, to be learnt by a tap. Only `Gate::note` makes one.
#[derive(Drop)]
pub struct Note {
    pub(crate) slots: [u8; SLOTS],
    pub(crate) count: u64,
    pub(crate) moment: u32,
    pub(crate) seen: Seen<Batch, u64, Law>,
}

impl Note {
    ghost use Rattle.std.specs.Prelude.{◌≡◌, length};
    ghost use Rattle.lx_gate.specs.Notes.{commands_of_note};

    /// How many commands led to it.
    pub fn count(&self) -> u64
        ensures { result ≡ self.now.count }
    {
        self.count
    }

    /// The commands that led to it.
    pub(crate) fn list<G: Origin>(&self) -> Prefix<G>
        requires book { self.now.seen.book ≡ G.book }
        requires counted { self.now.count ≡ length (commands_of_note self.now) }
        ensures { result ≡ commands_of_note self.now }
    {
        Prefix::of_parts(self.count, self.seen.again())
    }
}
