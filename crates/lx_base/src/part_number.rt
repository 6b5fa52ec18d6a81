//! Numbers of a cue's parts.

ghost use Rattle.std.specs.Prelude.{◌≡◌, ◌≤◌, ◌↔◌, IsSome, IfSome};

use crate::PARTS;
use std::marker::Model;

/// The number of a part of a cue, from 1 to `PARTS`. Part 1 is the base part.
#[derive(Clone, Copy, PartialEq, Eq, PartialOrd, Ord, Debug)]
pub struct PartNo {
    value: u8,
}

impl Model for PartNo {
    ghost use Rattle.std.specs.Prelude.{ℕ, ◌≤◌};
    ghost use Rattle.lx_base.specs.declared.TheConstants.{PARTS};

    ghost Value = { ℕ };

    ghost view = { λ n. n.value };

    ghost invariant = { λ n. (1 ≤ n.value) × (n.value ≤ PARTS) };

    ghost inverse = { λ n. record { value = n } };
}

/// The base part, 1.
impl Default for PartNo {
    ghost is_default = { λ n. n ≡ 1 };

    fn default() -> Self {
        PartNo::BASE
    }
}

impl PartNo {
    /// The base part, 1, which a cue has unless it names others.
    pub const BASE: PartNo = PartNo { value: 1 };

    /// The part number of this value. `None` exactly where it is 0 or above `PARTS`.
    pub fn new(value: u32) -> Option<Self>
        ensures range { IsSome result ↔ ((1 ≤ value) × (value ≤ PARTS)) }
        ensures value { IfSome result (λ n. n ≡ value) }
    {
        if 1 <= value && value <= PARTS {
            Some(PartNo { value: value as u8 })
        } else {
            None
        }
    }

    /// The number, from 1 to `PARTS`.
    pub fn get(self) -> u32
        ensures value { result ≡ self }
        ensures least { 1 ≤ result }
        ensures most { result ≤ PARTS }
    {
        self.value as u32
    }
}
