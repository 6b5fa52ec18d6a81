//! Numbers of submasters.

ghost use Rattle.std.specs.Prelude.{◌≡◌, ◌≤◌, ◌↔◌, IsSome, IfSome};

use crate::SUBS;
use std::marker::Model;

/// A submaster number, from 1 to `SUBS`.
#[derive(Clone, Copy, PartialEq, Eq, PartialOrd, Ord, Debug)]
pub struct SubNo {
    value: u32,
}

impl Model for SubNo {
    ghost use Rattle.std.specs.Prelude.{ℕ, ◌≤◌};
    ghost use Rattle.lx_base.specs.declared.TheConstants.{SUBS};

    ghost Value = { ℕ };

    ghost view = { λ n. n.value };

    ghost invariant = { λ n. (1 ≤ n.value) × (n.value ≤ SUBS) };

    ghost inverse = { λ n. record { value = n } };
}

impl SubNo {
    /// The submaster number of this value. `None` exactly where it is 0 or above `SUBS`.
    pub fn new(value: u32) -> Option<Self>
        ensures range { IsSome result ↔ ((1 ≤ value) × (value ≤ SUBS)) }
        ensures value { IfSome result (λ n. n ≡ value) }
    {
        if 1 <= value && value <= SUBS {
            Some(SubNo { value })
        } else {
            None
        }
    }

    /// The number, from 1 to `SUBS`.
    pub fn get(self) -> u32
        ensures value { result ≡ self }
        ensures least { 1 ≤ result }
        ensures most { result ≤ SUBS }
    {
        self.value
    }
}
