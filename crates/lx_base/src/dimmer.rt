//! Numbers of dimmers.

ghost use Rattle.std.specs.Prelude.{◌≡◌, ◌≤◌, ◌↔◌, IsSome, IfSome};

use crate::DIMMERS;
use std::marker::Model;

/// A dimmer number, from 1 to `DIMMERS`. Dimmers 1 to 512 are the slots of universe 1, the next 512 those of universe 2, and so on.
#[derive(Clone, Copy, PartialEq, Eq, PartialOrd, Ord, Debug)]
pub struct Dimmer {
    value: u16,
}

impl Model for Dimmer {
    ghost use Rattle.std.specs.Prelude.{ℕ, ◌≤◌};
    ghost use Rattle.lx_base.specs.declared.TheConstants.{DIMMERS};

    ghost Value = { ℕ };

    ghost view = { λ n. n.value };

    ghost invariant = { λ n. (1 ≤ n.value) × (n.value ≤ DIMMERS) };

    ghost inverse = { λ n. record { value = n } };
}

impl Dimmer {
    /// The dimmer of this number. `None` exactly where it is 0 or above `DIMMERS`.
    pub fn new(value: u32) -> Option<Self>
        ensures range { IsSome result ↔ ((1 ≤ value) × (value ≤ DIMMERS)) }
        ensures value { IfSome result (λ n. n ≡ value) }
    {
        if 1 <= value && value <= DIMMERS {
            Some(Dimmer {
                value: value as u16,
            })
        } else {
            None
        }
    }

    /// The number, from 1 to `DIMMERS`.
    pub fn get(self) -> u32
        ensures value { result ≡ self }
        ensures least { 1 ≤ result }
        ensures most { result ≤ DIMMERS }
    {
        self.value as u32
    }
}
