//! A heap for tests, whose calls are refused where it is told to.

ghost use Rattle.std.specs.Prelude.{◌≡◌, ◌≤◌, ◌<◌, ◌+◌, ◌↔◌, [], OnOk, OnErr, IfOk, IsOk, IsErr, IsTrue, vec_len, vec_capacity};
ghost use Rattle.lx_io.specs.Causes.{HasCause, one_more};
ghost use Rattle.lx_io.specs.Memory.{is_failing, after_want};

use crate::Heap;
use std::alloc::{AllocError, Global};
use std::marker::Model;

/// A heap for tests, of whose calls for memory some are refused. Contracts see the numbers of these, how many calls for memory there were,
/// and how many were refused.
#[derive(Drop)]
pub struct TestHeap {
    alloc: Global,
    fails: Vec<u64>,
    calls: u64,
    refusals: u64,
}

impl Model for TestHeap {
    ghost use Rattle.lx_io.specs.Memory.{FailingHeap};

    ghost Value = { FailingHeap };

    ghost view = { λ h. record { fails = h.fails.items; calls = h.calls; refusals = h.refusals } };
}

impl TestHeap {
    /// A heap over the allocator. The calls for memory whose numbers, from 0, stand in `fails` are refused.
    pub fn new(alloc: Global, fails: Vec<u64>) -> TestHeap
        ensures { result ≡ record { fails = fails.items; calls = 0; refusals = 0 } }
    {
        TestHeap {
            alloc,
            fails,
            calls: 0,
            refusals: 0,
        }
    }

    /// How many calls for memory there were.
    pub fn calls(&self) -> u64
        ensures { result ≡ self.now.calls }
    {
        self.calls
    }

    /// How many calls were refused.
    pub fn refusals(&self) -> u64
        ensures count { result ≡ self.now.refusals }
        ensures meaning { result ≡ ⟦<TestHeap as Heap>⟧.refusals self.now }
    {
        self.refusals
    }

    /// A call for memory: it is counted, and refused where its number stands among those that are.
    fn want(&mut self) -> Result<(), AllocError>
        ensures fails { IsErr result ↔ IsTrue (is_failing self.old.fails self.old.calls) }
        ensures after { self.new ≡ after_want self.old result }
        ensures cause { HasCause self.old.refusals self.new.refusals result }
    {
        let call = self.calls;
        self.calls = call.saturating_add(1);
        if self.fails.contains(&call) {
            self.refuse();
            return Err(AllocError);
        }
        Ok(())
    }

    /// A call was refused.
    fn refuse(&mut self)
        ensures counted { self.new ≡ record self.old { refusals = one_more self.old.refusals } }
        ensures later { self.old.refusals ≤ self.new.refusals }
    {
        self.refusals = self.refusals.saturating_add(1);
    }
}

impl Heap for TestHeap {
    ghost refusals = { λ h. h.refusals };

    fn allocator(&self) -> Global {
        self.alloc
    }

    /// Where the room is there already, it does nothing. Else it is refused where the number of the call stands among those that are.
    fn reserve<T>(&mut self, xs: &mut Vec<T>, more: usize) -> Result<(), AllocError>
        ensures items { xs.new.items ≡ xs.old.items }
        ensures len { vec_len xs.new ≡ vec_len xs.old }
        ensures room { OnOk result (vec_len xs.new + more ≤ vec_capacity xs.new) }
        ensures capacity { vec_capacity xs.old ≤ vec_capacity xs.new }
        ensures same { OnErr result (vec_capacity xs.new ≡ vec_capacity xs.old) }
        ensures full { OnErr result (vec_capacity xs.old < vec_len xs.old + more) }
        ensures cause { HasCause self.old.refusals self.new.refusals result }
        ensures there { vec_len xs.old + more ≤ vec_capacity xs.old → self.new ≡ self.old }
        ensures wanted { vec_capacity xs.old < vec_len xs.old + more → self.new ≡ after_want self.old result }
        ensures fails { vec_capacity xs.old < vec_len xs.old + more → IsTrue (is_failing self.old.fails self.old.calls) → IsErr result }
    {
        if more <= xs.capacity() - xs.len() {
            return Ok(());
        }
        self.want()?;
        let reserved = xs.reserve(more);
        if reserved.is_err() {
            self.refuse();
        }
        reserved
    }

    /// For no entry it does nothing. Else it is refused where the number of the call stands among those that are.
    fn room<T>(&mut self, capacity: usize) -> Result<Vec<T>, AllocError>
        ensures items { IfOk result (λ xs. xs.items ≡ []) }
        ensures len { IfOk result (λ xs. vec_len xs ≡ 0) }
        ensures capacity { IfOk result (λ xs. vec_capacity xs ≡ capacity) }
        ensures none { capacity ≡ 0 → IsOk result }
        ensures cause { HasCause self.old.refusals self.new.refusals result }
        ensures there { capacity ≡ 0 → self.new ≡ self.old }
        ensures wanted { 0 < capacity → self.new ≡ after_want self.old result }
        ensures fails { 0 < capacity → IsTrue (is_failing self.old.fails self.old.calls) → IsErr result }
    {
        if capacity == 0 {
            return Ok(Vec::new(self.alloc));
        }
        self.want()?;
        match Vec::with_capacity(self.alloc, capacity) {
            Ok(xs) => Ok(xs),
            Err(refusal) => {
                self.refuse();
                Err(refusal)
            }
        }
    }

    /// It is refused where the number of the call stands among those that are.
    fn boxed<T: Drop>(&mut self, x: T) -> Result<Box<T>, AllocError>
        ensures value { IfOk result (λ kept. kept.value ≡ x) }
        ensures cause { HasCause self.old.refusals self.new.refusals result }
        ensures wanted { self.new ≡ after_want self.old result }
        ensures fails { IsTrue (is_failing self.old.fails self.old.calls) → IsErr result }
    {
        self.want()?;
        match Box::new(self.alloc, x) {
            Ok(kept) => Ok(kept),
            Err(_) => {
                self.refuse();
                Err(AllocError)
            }
        }
    }
}
