//! Laws of consoles, each the contract of a function with nothing to do.

ghost use Rattle.lx_console.specs.Laws.{LawOfReplays};

/// After every list of commands a console that is all of the desk but its list of runs stands for it.
/// A console that obeys one more command, or is left unchanged by its refusal, stands for the desk
/// after that one too. One that answers a command does so where that is accepted, and else stands for
/// the desk before it.
pub fn replays()
    ensures { LawOfReplays }
{}
