//! The parts of a sorted list that stand below, up to and above a number, each found by halving.

ghost use Rattle.std.specs.Prelude.{◌≡◌};
ghost use Rattle.lx_show.specs.Imports.{IsStrictlySorted, entries_below, entries_above, entries_up_to};

use crate::sorted::{Keyed, index_of};

/// The entries below the number.
pub fn below<T: Keyed>(xs: &[T], n: u32) -> &[T]
    requires { IsStrictlySorted T.key xs.now }
    ensures { result.now ≡ entries_below T.key n xs.now }
{
    match index_of(xs, n) {
        Ok(at) => &xs[..at],
        Err(at) => &xs[..at],
    }
}

/// The entries up to the number.
pub fn up_to<T: Keyed>(xs: &[T], n: u32) -> &[T]
    requires { IsStrictlySorted T.key xs.now }
    ensures { result.now ≡ entries_up_to T.key n xs.now }
{
    match index_of(xs, n) {
        Ok(at) => &xs[..at + 1],
        Err(at) => &xs[..at],
    }
}

/// The entries above the number.
pub fn above<T: Keyed>(xs: &[T], n: u32) -> &[T]
    requires { IsStrictlySorted T.key xs.now }
    ensures { result.now ≡ entries_above T.key n xs.now }
{
    match index_of(xs, n) {
        Ok(at) => &xs[at + 1..],
        Err(at) => &xs[at..],
    }
}
