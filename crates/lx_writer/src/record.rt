//! Groups and submasters, and the lines that they have in common with cues.
#![tactic(auto, using(lx_io::proofs::Chain::puts))]

ghost use Rattle.std.specs.Prelude.{[], ◌++◌, ◌∷◌, codes, decimal, flat_map};
ghost use Rattle.lx_io.specs.Puts.{Puts};
ghost use Rattle.lx_spec.specs.ShowText.{line, at_text, label_text, member_text};

use crate::pieces::{Written, write_each};
use lx_base::{Chan, Level};
use lx_io::{Sink, SinkFault, put_all};
use lx_lex::{put_count_and, put_level};
use lx_show::{Group, Member, Sub};

impl Written for Group {
    ghost use Rattle.lx_spec.specs.ShowText.{group_text};

    ghost text = { group_text };

    /// Appends a group: its number, its label and its members.
    fn write<K: Sink>(&self, sink: &mut K) -> Result<(), SinkFault> {
        put_between(b"GROUP ", self.number.get(), b'\n', sink)?;
        put_members(self.label.as_slice(), self.members.as_slice(), sink)
    }
}

impl Written for Sub {
    ghost use Rattle.lx_spec.specs.ShowText.{sub_text};

    ghost text = { sub_text };

    /// Appends a submaster: its number, its label and its members.
    fn write<K: Sink>(&self, sink: &mut K) -> Result<(), SinkFault> {
        put_between(b"SUB ", self.number.get(), b'\n', sink)?;
        put_members(self.label.as_slice(), self.members.as_slice(), sink)
    }
}

/// Appends what follows the number of a group or submaster: its label and its members.
fn put_members<K: Sink>(label: &[u8], members: &[Member], sink: &mut K) -> Result<(), SinkFault>
    ensures { Puts K.Sink sink.old sink.new result (label_text label.now ++ flat_map member_text members.now) }
{
    put_label(label, sink)?;
    write_each(members, sink)
}

impl Written for Member {
    ghost use Rattle.lx_spec.specs.ShowText.{member_text};

    ghost text = { member_text };

    /// Appends the line of a member.
    fn write<K: Sink>(&self, sink: &mut K) -> Result<(), SinkFault> {
        put_channel(self.chan, self.level, sink)
    }
}
/// Appends a whole number between what stands before and behind it.
pub(crate) fn put_between<K: Sink>(
    before: &[u8],
    number: u32,
    behind: u8,
    sink: &mut K,
) -> Result<(), SinkFault>
    ensures { Puts K.Sink sink.old sink.new result (before.now ++ decimal number ++ behind ∷ []) }
{
    put_all(sink, before)?;
    put_count_and(u64::from(number), behind, sink)
}

/// Appends the line of a label, where there is one.
pub(crate) fn put_label<K: Sink>(label: &[u8], sink: &mut K) -> Result<(), SinkFault>
    ensures { Puts K.Sink sink.old sink.new result (label_text label.now) }
{
    if label.is_empty() {
        return Ok(());
    }
    put_all(sink, b"TEXT ")?;
    put_all(sink, label)?;
    put_all(sink, b"\n")
}

/// Appends the line of a channel and its level.
pub(crate) fn put_channel<K: Sink>(chan: Chan, level: Level, sink: &mut K) -> Result<(), SinkFault>
    ensures { Puts K.Sink sink.old sink.new result (line (codes "CHAN" ∷ at_text chan level ∷ [])) }
{
    put_all(sink, b"CHAN ")?;
    put_at_level(chan.get(), level, sink)?;
    put_all(sink, b"\n")
}

/// Appends a number, `@` and a level.
pub(crate) fn put_at_level<K: Sink>(
    number: u32,
    level: Level,
    sink: &mut K,
) -> Result<(), SinkFault>
    ensures { Puts K.Sink sink.old sink.new result (at_text number level) }
{
    put_count_and(u64::from(number), b'@', sink)?;
    put_level(level, sink)
}
