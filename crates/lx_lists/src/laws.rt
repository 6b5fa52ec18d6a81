//! Laws of two lists, each the contract of a function with nothing to do.

ghost use Rattle.lx_lists.specs.Laws.{LawOfTwoReplays};

/// After every list of commands of either list and of ticks, both lists stand for the replay of those that were accepted
/// from the opening on; where no memory ran out, for the replay of all. The slots are then the frames of both desks.
pub fn replays()
    ensures { LawOfTwoReplays }
{}
