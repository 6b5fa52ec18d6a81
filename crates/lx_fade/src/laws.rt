//! The law of stacks, the contract of a function with nothing to do.

ghost use Rattle.lx_fade.specs.RunStack.{LawOfStacks};

/// The stack of fades that runs push gives their level.
pub fn stacks()
    ensures { LawOfStacks }
{}
