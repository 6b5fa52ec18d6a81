//! Entries that have lines of their own in the canonical text, one after another.
#![tactic(auto, using(lx_io::proofs::Chain::puts))]

ghost use Rattle.std.specs.Prelude.{flat_map};
ghost use Rattle.lx_io.specs.Puts.{Puts};

use lx_io::{Sink, SinkFault};

/// An entry that has lines of its own in the canonical text.
pub(crate) trait Written {
    ghost use Rattle.std.specs.Prelude.{ℕ, List};
    ghost use Rattle.lx_io.specs.Puts.{Puts};

    /// Its lines.
    ghost text: { Self → List ℕ };

    /// Appends its lines.
    fn write<K: Sink>(&self, sink: &mut K) -> Result<(), SinkFault>
        ensures { Puts K.Sink sink.old sink.new result (text self.now) };
}

/// Appends the lines of each entry, in order.
pub(crate) fn write_each<T: Written, K: Sink>(entries: &[T], sink: &mut K) -> Result<(), SinkFault>
    ensures { Puts K.Sink sink.old sink.new result (flat_map T.text entries.now) }
{
    for entry in entries {
        entry.write(sink)?;
    }
    Ok(())
}
