//! The moves of a cue, and what becomes of them where a part is taken out.

ghost use Rattle.std.specs.Prelude.{◌≡◌, map};
ghost use Rattle.lx_spec.specs.EditedShow.{out_of_part};

use crate::list::SortedList;
use crate::sorted::Keyed;
use lx_base::PartNo;
use lx_spec::Move;

/// Moves sorted by channel, one for each channel.
pub type MoveList = SortedList<Move>;

impl Keyed for Move {
    ghost key = { λ m. m.chan };

    fn key(&self) -> u32 {
        self.chan.get()
    }
}

impl SortedList<Move> {
    /// Puts the moves of the part into part 1.
    pub fn leave_part(&mut self, part: PartNo)
        ensures { self.new ≡ map (out_of_part part) self.old }
    {
        leave_part(&mut self.entries, part);
    }
}

/// Puts the moves of the part into part 1.
fn leave_part(moves: &mut [Move], part: PartNo)
    ensures { moves.new ≡ map (out_of_part part) moves.old }
{
    for entry in moves.iter_mut() {
        *entry = out_of_part(entry, part);
    }
}

/// The move, in part 1 where it stood in the part.
fn out_of_part(entry: &Move, part: PartNo) -> Move
    ensures { result ≡ out_of_part part entry.now }
{
    let now = if entry.part.get() == part.get() {
        PartNo::BASE
    } else {
        entry.part
    };
    Move {
        chan: entry.chan,
        part: now,
        level: entry.level,
    }
}
