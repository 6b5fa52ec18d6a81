//! Laws of undo and redo, each the contract of a function with nothing to do.

ghost use Rattle.lx_undo.specs.Laws.{LawOfUndo};

/// After an accepted edit or record, undo gives the desk before it, where the depth isn't 0. Redo after undo gives the
/// state before both, and so does undo after redo.
pub fn undo()
    ensures { LawOfUndo }
{}
