//! The rule of the queue, and what each of its steps tells.
ghost use Rattle.std.specs.Prelude.{◌≡◌, ◌+◌, ◌++◌, ◌∷◌, [], ℕ, List};
ghost use Rattle.lx_crew.specs.Rule.{Learned, AddsEntry, Takes};

use crate::entry::Message;
use crossbeam_queue::RuledArrayQueue;
use crossbeam_queue::protocol::{Join, Lesson, Outcome, Protocol, Split};
use std::collections::LinkedList;

/// What a pass of the queue knows. An operator's pass pushes, and has the entries that it pushed. The engine's pops, and has
/// the entries that it popped, how many operators were made, and the lists of those that were taken in. No value of it is
/// made.
pub struct View {
    pub pushes: bool,
    pub pops: bool,
    pub place: u64,
    pub made: u64,
    pub pushed: LinkedList<Message>,
    pub popped: LinkedList<Message>,
    pub kept: LinkedList<(u64, LinkedList<Message>)>,
}

/// The rule of the queue.
pub struct QueueLaw;

impl Protocol<Message, View> for QueueLaw {
    ghost use Rattle.std.specs.Prelude.{[]};
    ghost use Rattle.lx_crew.specs.Rule.{KeepsOrder, engine_view};

    ghost holds = { KeepsOrder };

    ghost first = { engine_view 0 [] [] };
}

/// A pass of the next operator is made.
pub struct Enters;

impl Split<View> for Enters {
    ghost use Rattle.std.specs.Prelude.{◌+◌, []};
    ghost use Rattle.lx_crew.specs.Rule.{operator_view};

    ghost left = { λ v. record v { made = v.made + 1 } };

    ghost right = { λ v. operator_view v.made [] };
}

/// The pass of an operator that ended is taken in.
pub struct Leaves;

impl Join<View> for Leaves {
    ghost use Rattle.std.specs.Prelude.{◌∷◌};
    ghost use Rattle.lx_crew.specs.Rule.{spent_view};

    ghost both = { λ v w. record v { kept = (w.place, w.pushed) ∷ v.kept } };

    ghost spent = { spent_view };
}

/// An entry is pushed.
pub struct Sends;

impl Outcome<Message, View> for Sends {
    ghost then = { AddsEntry };
}

/// An entry is popped.
pub struct Gets;

impl Outcome<Message, View> for Gets {
    ghost then = { Takes };
}

/// Where the queue is found empty, all that the operators pushed which were taken in was popped.
impl Lesson<Message, View> for Gets {
    ghost fact = { Learned };
}

/// What each operator pushed that was taken in was popped, or is in the queue.
pub struct Total;

impl Lesson<Message, View> for Total {
    ghost fact = { Learned };
}

/// The queue.
pub type Queue = RuledArrayQueue<Message, View, QueueLaw>;
