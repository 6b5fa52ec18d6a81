//! The plans that take edits and records back, and those that make again what was taken back.

ghost use Rattle.std.specs.Prelude.{◌≡◌, ◌-◌, ◌+◌, ◌<◌, ◌≤◌, ◌∷◌, ◌++◌, [], None, IfOk, IfSome, length, take, drop, slice_get};
ghost use Rattle.std.specs.VecDeque.{deque_capacity};
ghost use Rattle.lx_io.specs.Causes.{HasCause};
ghost use Rattle.lx_undo.specs.Shows.{KeptPlans};
ghost use Rattle.lx_spec.specs.Undo.{last_of};

use lx_edit::Plan;
use lx_io::Heap;
use std::alloc::AllocError;
use std::collections::VecDeque;
use std::marker::Model;

/// The plans that take edits and records back, the one for the oldest show first, and those that make again what was
/// taken back, the next one first: at most this many in both together.
#[derive(Drop)]
pub(crate) struct UndoPlans {
    back: VecDeque<Plan>,
    forth: VecDeque<Plan>,
}

impl Model for UndoPlans {
    ghost use Rattle.std.specs.VecDeque.{deque_capacity};
    ghost use Rattle.lx_undo.specs.Shows.{KeptPlans, FitsIn};

    ghost Value = { KeptPlans };

    ghost view = { λ h. record { back = h.back.items; forth = h.forth.items; depth = deque_capacity h.back } };

    ghost invariant = { λ h. FitsIn h.back.items h.forth.items (deque_capacity h.back) (deque_capacity h.forth) };
}

impl UndoPlans {
    /// No plans, and room for this many. An error comes where the heap refuses memory.
    pub(crate) fn open_in<H: Heap>(heap: &mut H, depth: usize) -> Result<UndoPlans, AllocError>
        ensures plans { IfOk result (λ h. h ≡ record { back = []; forth = []; depth = depth }) }
        ensures cause { HasCause (H.refusals heap.old) (H.refusals heap.new) result }
    {
        Ok(UndoPlans {
            back: VecDeque::from_vec(heap.room(depth)?),
            forth: VecDeque::from_vec(heap.room(depth)?),
        })
    }

    /// Keeps a plan that takes the last change back. The oldest is given up where there is no more room, and so are
    /// those of what was taken back.
    pub(crate) fn keep(&mut self, plan: Plan)
        ensures { self.new ≡ record self.old { back = last_of self.old.depth (self.old.back ++ plan ∷ []); forth = [] } }
    {
        self.forth.clear();
        keep_last(&mut self.back, plan);
    }

    /// Takes out the plan that takes the last change back. `None`, and nothing changes, exactly where there is none.
    pub(crate) fn take_back(&mut self) -> Option<Plan>
        ensures plan { result ≡ slice_get self.old.back (length self.old.back - 1) }
        ensures rest { self.new ≡ record self.old { back = take (length self.old.back - 1) self.old.back } }
        ensures room { IfSome result (λ plan. length self.new.back + length self.new.forth < self.new.depth) }
        ensures same { result ≡ None → self.new ≡ self.old }
    {
        self.back.pop_back()
    }

    /// Takes out the plan that makes again what was taken back last. `None`, and nothing changes, exactly where there is none.
    pub(crate) fn take_forth(&mut self) -> Option<Plan>
        ensures plan { result ≡ slice_get self.old.forth 0 }
        ensures rest { self.new ≡ record self.old { forth = drop 1 self.old.forth } }
        ensures room { IfSome result (λ plan. length self.new.back + length self.new.forth < self.new.depth) }
        ensures same { result ≡ None → self.new ≡ self.old }
    {
        self.forth.pop_front()
    }

    /// Puts a plan before all that make again what was taken back. There is room for it.
    pub(crate) fn put_forth(&mut self, plan: Plan)
        requires { length self.old.back + length self.old.forth < self.old.depth }
        ensures { self.new ≡ record self.old { forth = plan ∷ self.old.forth } }
    {
        self.forth.push_front_reserved(plan);
    }

    /// Puts a plan behind all that take back. There is room for it.
    pub(crate) fn put_back(&mut self, plan: Plan)
        requires { length self.old.back + length self.old.forth < self.old.depth }
        ensures { self.new ≡ record self.old { back = self.old.back ++ plan ∷ [] } }
    {
        self.back.push_back_reserved(plan);
    }
}

/// Appends the plan. The oldest is given up where there is no room for one more.
fn keep_last(plans: &mut VecDeque<Plan>, plan: Plan)
    ensures items { plans.new.items ≡ last_of (deque_capacity plans.old) (plans.old.items ++ plan ∷ []) }
    ensures capacity { deque_capacity plans.new ≡ deque_capacity plans.old }
{
    if plans.len() < plans.capacity() || plans.pop_front().is_some() {
        plans.push_back_reserved(plan);
    }
}
