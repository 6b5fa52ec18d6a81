//! Numbers of groups.

ghost use Rattle.std.specs.Prelude.{◌≡◌, ◌≤◌, ◌↔◌, IsSome, IfSome};

use crate::GROUPS;
use std::marker::Model;

/// A group number, from 1 to `GROUPS`.
#[derive(Clone, Copy, PartialEq, Eq, PartialOrd, Ord, Debug)]
pub struct GroupNo {
    value: u32,
}

impl Model for GroupNo {
    ghost use Rattle.std.specs.Prelude.{ℕ, ◌≤◌};
    ghost use Rattle.lx_base.specs.declared.TheConstants.{GROUPS};

    ghost Value = { ℕ };

    ghost view = { λ n. n.value };

    ghost invariant = { λ n. (1 ≤ n.value) × (n.value ≤ GROUPS) };

    ghost inverse = { λ n. record { value = n } };
}

impl GroupNo {
    /// The group number of this value. `None` exactly where it is 0 or above `GROUPS`.
    pub fn new(value: u32) -> Option<Self>
        ensures range { IsSome result ↔ ((1 ≤ value) × (value ≤ GROUPS)) }
        ensures value { IfSome result (λ n. n ≡ value) }
    {
        if 1 <= value && value <= GROUPS {
            Some(GroupNo { value })
        } else {
            None
        }
    }

    /// The number, from 1 to `GROUPS`.
    pub fn get(self) -> u32
        ensures value { result ≡ self }
        ensures least { 1 ≤ result }
        ensures most { result ≤ GROUPS }
    {
        self.value
    }
}
