//! What an edit touched.

ghost use Rattle.std.specs.Prelude.{◌≡◌, ◌≤◌, ℕ, true, false, Some, None};
ghost use Rattle.lx_edit.specs.Imports.{has_chan, Grows};
ghost use Rattle.lx_base.specs.declared.TheConstants.{CHANNELS};

use crate::chan_set::ChanSet;
use lx_base::Dimmer;

/// What an edit touched, for those who keep values that depend on the show.
#[derive(Clone, Copy, PartialEq, Eq, Debug)]
pub struct Dirty {
    /// A channel that is not among these has the same move in each cue, and the same tracked level at each
    /// number, and the same cues are asserted.
    pub chans: ChanSet,
    /// The dimmer whose patch row was changed.
    pub dimmer: Option<Dimmer>,
    /// A submaster was changed.
    pub subs: bool,
}

impl Dirty {
    /// No channel; perhaps the row of a dimmer, or a submaster.
    pub(crate) fn apart(dimmer: Option<Dimmer>, subs: bool) -> Dirty
        ensures chans { (c : ℕ) → has_chan result.chans c ≡ false }
        ensures dimmer { result.dimmer ≡ dimmer }
        ensures subs { result.subs ≡ subs }
    {
        Dirty {
            chans: ChanSet::empty(),
            dimmer,
            subs,
        }
    }

    /// These channels, in cues.
    pub(crate) fn of_cues(chans: ChanSet) -> Dirty
        ensures chans { result.chans ≡ chans }
        ensures dimmer { result.dimmer ≡ None }
        ensures subs { result.subs ≡ false }
    {
        Dirty {
            chans,
            dimmer: None,
            subs: false,
        }
    }

    /// The same, and all channels.
    pub(crate) fn with_all(self) -> Dirty
        ensures chans { (c : ℕ) → 1 ≤ c → c ≤ CHANNELS → has_chan result.chans c ≡ true }
        ensures grows { Grows self.chans result.chans }
        ensures dimmer { result.dimmer ≡ self.dimmer }
        ensures subs { result.subs ≡ self.subs }
    {
        Dirty {
            chans: ChanSet::all(),
            dimmer: self.dimmer,
            subs: self.subs,
        }
    }
}
