//! The rule of a gate: the value that taps are shown is the version of its list.
ghost use Rattle.lx_gate.specs.Frames.{IsVersion};

use crate::{Origin, Version};
use crossbeam_utils::rule::{Outcome, Protocol};
use std::marker::PhantomData;

pub struct GateRule<G>(PhantomData<G>);

impl<G: Origin> Protocol<Version<G>, ()> for GateRule<G> {
    ghost holds = { λ x _. IsVersion G.show x.list x.slots x.count x.moment };

    ghost first = { tt };
}

/// A reading, or a publish: the value is then the version of its list.
pub struct Shows<G>(PhantomData<G>);

impl<G: Origin> Outcome<Version<G>, ()> for Shows<G> {
    ghost then = { λ _ _ y _. IsVersion G.show y.list y.slots y.count y.moment };
}
