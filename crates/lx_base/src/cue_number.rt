//! Cue numbers.

ghost use Rattle.std.specs.Prelude.{◌≡◌, ◌≤◌, ◌↔◌, IsSome, IfSome};

use crate::CUE_MAX;
use std::marker::Model;

/// A cue number, in thousandths, from 0 to `CUE_MAX`: 1,000 is cue 1. 0 names no cue and means before the first.
#[derive(Clone, Copy, PartialEq, Eq, PartialOrd, Ord, Debug)]
pub struct CueNo {
    value: u32,
}

impl Model for CueNo {
    ghost use Rattle.std.specs.Prelude.{ℕ, ◌≤◌};
    ghost use Rattle.lx_base.specs.declared.TheConstants.{CUE_MAX};

    ghost Value = { ℕ };

    ghost view = { λ n. n.value };

    ghost invariant = { λ n. n.value ≤ CUE_MAX };

    ghost inverse = { λ n. record { value = n } };
}

impl CueNo {
    /// No cue: the position before the first one.
    pub const BEFORE_FIRST: CueNo = CueNo { value: 0 };

    /// The cue number of this many thousandths. `None` exactly where they are more than `CUE_MAX`.
    pub fn new(value: u32) -> Option<Self>
        ensures range { IsSome result ↔ (value ≤ CUE_MAX) }
        ensures value { IfSome result (λ n. n ≡ value) }
    {
        if value <= CUE_MAX {
            Some(CueNo { value })
        } else {
            None
        }
    }

    /// The number in thousandths, from 0 to `CUE_MAX`.
    pub fn get(self) -> u32
        ensures value { result ≡ self }
        ensures range { result ≤ CUE_MAX }
    {
        self.value
    }
}
