//! The canonical text of a whole show.
#![tactic(auto, using(lx_io::proofs::Chain::puts))]

ghost use Rattle.std.specs.Prelude.{◌++◌, [], ◌∷◌, codes, decimal};
ghost use Rattle.lx_io.specs.Puts.{Puts};
ghost use Rattle.lx_spec.specs.Show.{Valid};
ghost use Rattle.lx_spec.specs.ShowText.{line, show_text};

use crate::pieces::{Written, write_each};
use crate::record::{put_at_level, put_between};
use lx_io::{Sink, SinkFault, put_all};
use lx_show::{PatchRow, Show};

/// Appends the canonical text of a show, in the form of the ASCII text representation 3.0: the channel count, the
/// patch rows, the groups, the submasters and the cues, each sorted by number, and `ENDDATA`. It takes no memory. A
/// fault is the sink's own, and then a prefix of the text was appended.
pub fn write_show<K: Sink>(show: &Show, sink: &mut K) -> Result<(), SinkFault>
    ensures text { Puts K.Sink sink.old sink.new result (show_text show.now) }
    ensures valid { Valid show.now }
{
    put_head(show.channels(), sink)?;
    write_each(show.patch(), sink)?;
    write_each(show.groups(), sink)?;
    write_each(show.subs(), sink)?;
    write_each(show.cues(), sink)?;
    put_all(sink, b"ENDDATA\n")
}

/// Appends the line of the version and that of the channel count.
fn put_head<K: Sink>(channels: u32, sink: &mut K) -> Result<(), SinkFault>
    ensures { Puts K.Sink sink.old sink.new result
        (line (codes "IDENT" ∷ codes "3:0" ∷ []) ++ line (codes "SET" ∷ codes "CHANNELS" ∷ decimal channels ∷ [])) }
{
    put_between(b"IDENT 3:0\nSET CHANNELS ", channels, b'\n', sink)
}

impl Written for PatchRow {
    ghost use Rattle.lx_spec.specs.ShowText.{patch_text};

    ghost text = { patch_text };

    /// Appends the line of a patch row: the channel, and the dimmer at its level.
    fn write<K: Sink>(&self, sink: &mut K) -> Result<(), SinkFault> {
        put_between(b"PATCH 1 ", self.chan.get(), b'<', sink)?;
        put_at_level(self.dimmer.get(), self.level, sink)?;
        put_all(sink, b"\n")
    }
}
