//! Numbers of channels, and ranges of them.

ghost use Rattle.std.specs.Prelude.{◌≡◌, ◌≤◌, ◌<◌, ◌+◌, ◌-◌, ◌↔◌, IsSome, IfSome};

use crate::CHANNELS;
use std::marker::Model;

/// A channel number, from 1 to `CHANNELS`.
#[derive(Clone, Copy, PartialEq, Eq, PartialOrd, Ord, Debug)]
pub struct Chan {
    value: u16,
}

impl Model for Chan {
    ghost use Rattle.std.specs.Prelude.{ℕ, ◌≤◌};
    ghost use Rattle.lx_base.specs.declared.TheConstants.{CHANNELS};

    ghost Value = { ℕ };

    ghost view = { λ n. n.value };

    ghost invariant = { λ n. (1 ≤ n.value) × (n.value ≤ CHANNELS) };

    ghost inverse = { λ n. record { value = n } };
}

impl Chan {
    /// The channel of this number. `None` exactly where it is 0 or above `CHANNELS`.
    pub fn new(value: u32) -> Option<Self>
        ensures range { IsSome result ↔ ((1 ≤ value) × (value ≤ CHANNELS)) }
        ensures value { IfSome result (λ n. n ≡ value) }
    {
        if 1 <= value && value <= CHANNELS {
            Some(Chan {
                value: value as u16,
            })
        } else {
            None
        }
    }

    /// The channel of a place in a row of all channels: channel 1 stands at place 0.
    pub fn at(place: usize) -> Self
        requires place { place < CHANNELS }
        ensures value { result ≡ place + 1 }
    {
        Chan {
            value: (place + 1) as u16,
        }
    }

    /// The channel's place in a row of all channels, from 0 on: one below its number.
    pub fn place(self) -> usize
        ensures value { result ≡ self - 1 }
        ensures back { result + 1 ≡ self }
        ensures within { result < CHANNELS }
    {
        self.value as usize - 1
    }

    /// The number, from 1 to `CHANNELS`.
    pub fn get(self) -> u32
        ensures value { result ≡ self }
        ensures least { 1 ≤ result }
        ensures most { result ≤ CHANNELS }
    {
        self.value as u32
    }
}

/// The channels from a first to a last, both among them. The first is not above the last.
#[derive(Clone, Copy, PartialEq, Eq, Debug)]
pub struct ChanRange {
    first: Chan,
    last: Chan,
}

impl Model for ChanRange {
    ghost use Rattle.std.specs.Prelude.{◌≤◌};
    ghost use Rattle.lx_base.specs.Numbers.{Span};

    ghost Value = { Span };

    ghost view = { λ r. record { first = r.first; last = r.last } };

    ghost invariant = { λ r. r.first ≤ r.last };

    ghost inverse = { λ r. record { first = r.first; last = r.last } };
}

impl ChanRange {
    /// The channels from `first` to `last`. `None` exactly where `first` is above `last`.
    pub fn new(first: Chan, last: Chan) -> Option<ChanRange>
        ensures some { IsSome result ↔ (first ≤ last) }
        ensures value { IfSome result (λ r. (r.first ≡ first) × (r.last ≡ last)) }
    {
        if first <= last {
            Some(ChanRange { first, last })
        } else {
            None
        }
    }

    /// The least channel of the range.
    pub fn first(self) -> Chan
        ensures value { result ≡ self.first }
        ensures ordered { result ≤ self.last }
    {
        self.first
    }

    /// The greatest channel of the range.
    pub fn last(self) -> Chan
        ensures value { result ≡ self.last }
        ensures ordered { self.first ≤ result }
    {
        self.last
    }
}
