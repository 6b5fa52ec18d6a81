//! Changes to a cue where it stands in a show, without a copy.

ghost use Rattle.std.specs.Prelude.{◌≡◌, IsTrue, Some};
ghost use Rattle.lx_show.specs.Imports.{IsSomeAnd, AllByRecursion, has_entry, placed, Valid, ValidMove, cue_of, move_in, changed};

use crate::moves::MoveList;
use crate::show::Show;
use crate::sorted::place_of;
use lx_base::CueNo;
use lx_spec::Move;
use std::mem;

impl Show {
    /// Places the move in the cue, in the place of the one of its channel, which is there, and hands that one back. Its channel is
    /// within the count, and its part one of the cue's. It takes no memory.
    pub fn exchange_move_in(&mut self, n: CueNo, entry: Move) -> Move
        requires valid { IsSomeAnd (cue_of self.old n) (λ cue. ValidMove self.old.channels cue.parts entry) }
        requires there { IsSomeAnd (cue_of self.old n) (λ cue. IsTrue (has_entry (λ m. m.chan) entry.chan cue.moves)) }
        ensures valid { Valid self.old }
        ensures replaced { IsSomeAnd (cue_of self.old n) (λ cue. move_in cue entry.chan ≡ Some result) }
        ensures show { self.new ≡ record self.old {
          cues = changed (λ x. x.number) n
              (λ cue. record cue { moves = placed (λ m. m.chan) entry cue.moves }) self.old.cues;
        } }
    {
        let at = place_of(self.cues.as_slice(), n.get());
        let cue = &mut self.cues[at];
        cue.moves.exchange(entry)
    }

    /// Gives the cue these moves, and answers those that it had. Their channels are within the count, and
    /// their parts are the cue's.
    pub fn replace_moves(&mut self, n: CueNo, moves: MoveList) -> MoveList
        requires { IsSomeAnd (cue_of self.old n) (λ cue. AllByRecursion (ValidMove self.old.channels cue.parts) moves) }
        ensures valid { Valid self.old }
        ensures before { IsSomeAnd (cue_of self.old n) (λ cue. result ≡ cue.moves) }
        ensures after { self.new ≡ record self.old {
          cues = changed (λ x. x.number) n
              (λ cue. record cue { moves = moves }) self.old.cues;
        } }
    {
        // For its proof alone: the moves are sorted.
        let _ = moves.as_slice();
        let at = place_of(self.cues.as_slice(), n.get());
        let cue = &mut self.cues[at];
        mem::replace(&mut cue.moves, moves)
    }
}
