//! What a command changed of what goes out.

ghost use Rattle.std.specs.Prelude.{◌≡◌};
ghost use Rattle.lx_console.specs.Imports.{is_nothing, of_levels, IsChangeOf};

use lx_base::Dimmer;
use lx_edit::Dirty;

/// What a command changed of what goes out: no more than this, and never the channel count.
#[derive(Clone, Copy, PartialEq, Eq, Debug)]
pub enum Change {
    /// Nothing that goes out.
    Nothing,
    /// Levels, what the submasters give, or the master; the patch is the same.
    Levels,
    /// The dimmer's row of the patch, and maybe levels; the other rows are the same.
    Row(Dimmer),
}

impl Change {
    /// Nothing that goes out has changed.
    pub fn is_nothing(self) -> bool
        ensures { result ≡ is_nothing self }
    {
        matches!(self, Change::Nothing)
    }

    /// Levels, if those changed.
    pub(crate) fn of_levels(changed: bool) -> Change
        ensures { result ≡ of_levels changed }
    {
        if changed {
            Change::Levels
        } else {
            Change::Nothing
        }
    }

    /// What an edit touched, and whether levels changed by it.
    pub(crate) fn of_edit(dirty: &Dirty, leveled: bool) -> Change
        ensures { IsChangeOf dirty.now leveled result }
    {
        match dirty.dimmer {
            Some(dimmer) => Change::Row(dimmer),
            None => Change::of_levels(leveled || dirty.subs),
        }
    }
}
