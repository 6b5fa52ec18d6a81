//! Where memory comes from.

ghost use Rattle.std.specs.Prelude.{◌≡◌, ◌≤◌, ◌<◌, ◌+◌, ◌++◌, ◌∷◌, ℕ, [], length, OnOk, OnErr, IfOk, IsOk, vec_len, vec_capacity};
ghost use Rattle.lx_io.specs.Causes.{HasCause, one_more};

use std::alloc::{AllocError, Global};

/// A place from which memory comes.
///
/// A heap has a meaning for contracts: how many of its calls were refused (`refusals`). The count never falls, and a call that is Ok
/// leaves it as it was. A call is refused only where the count rose in it, and only where it asked for memory. So a caller's clause can
/// say that it is out of memory only where the heap itself refused some. A count that stands at 18,446,744,073,709,551,615 is taken as one
/// that rose.
///
/// Whoever grows a vector asks its heap for room first: what is put into that room then can't fail.
pub trait Heap {
    /// How often a call was refused.
    ghost refusals: { Self → ℕ };

    /// The allocator of what the heap hands out, for a vector that has no room yet.
    fn allocator(&self) -> Global;

    /// Makes room in the vector for so many more entries. Where it is there already, no memory is taken. An error comes where the heap
    /// refuses, and leaves the vector and its room as they were.
    fn reserve<T>(&mut self, xs: &mut Vec<T>, more: usize) -> Result<(), AllocError>
        ensures items { xs.new.items ≡ xs.old.items }
        ensures len { vec_len xs.new ≡ vec_len xs.old }
        ensures room { OnOk result (vec_len xs.new + more ≤ vec_capacity xs.new) }
        ensures capacity { vec_capacity xs.old ≤ vec_capacity xs.new }
        ensures same { OnErr result (vec_capacity xs.new ≡ vec_capacity xs.old) }
        ensures full { OnErr result (vec_capacity xs.old < vec_len xs.old + more) }
        ensures cause { HasCause (refusals self.old) (refusals self.new) result };

    /// An empty vector with room for so many entries. For none it takes no memory. An error comes where the heap refuses.
    fn room<T>(&mut self, capacity: usize) -> Result<Vec<T>, AllocError>
        ensures items { IfOk result (λ xs. xs.items ≡ []) }
        ensures len { IfOk result (λ xs. vec_len xs ≡ 0) }
        ensures capacity { IfOk result (λ xs. vec_capacity xs ≡ capacity) }
        ensures none { capacity ≡ 0 → IsOk result }
        ensures cause { HasCause (refusals self.old) (refusals self.new) result };

    /// The value in memory of its own. An error comes where the heap refuses, and the value is let go then.
    fn boxed<T: Drop>(&mut self, x: T) -> Result<Box<T>, AllocError>
        ensures value { IfOk result (λ kept. kept.value ≡ x) }
        ensures cause { HasCause (refusals self.old) (refusals self.new) result };

    /// Appends the entry, and takes memory where there is no room for it. An error comes where the heap refuses, only where the room is
    /// full, and leaves the vector as it was. The entry is let go then.
    fn push<T: Drop>(&mut self, xs: &mut Vec<T>, x: T) -> Result<(), AllocError>
        ensures ok { OnOk result (xs.new.items ≡ xs.old.items ++ x ∷ []) }
        ensures err { OnErr result (xs.new.items ≡ xs.old.items) }
        ensures full { OnErr result (vec_capacity xs.old ≤ vec_len xs.old) }
        ensures cause { HasCause (refusals self.old) (refusals self.new) result }
    {
        self.reserve(xs, 1)?;
        xs.push_reserved(x);
        Ok(())
    }

    /// Appends the entries, and takes memory where there is no room for them. An error comes where the heap refuses, and leaves the
    /// vector as it was.
    fn append<T: Copy + Drop>(&mut self, xs: &mut Vec<T>, more: &[T]) -> Result<(), AllocError>
        ensures ok { OnOk result (xs.new.items ≡ xs.old.items ++ more.now) }
        ensures err { OnErr result (xs.new.items ≡ xs.old.items) }
        ensures full { OnErr result (vec_capacity xs.old < vec_len xs.old + length more.now) }
        ensures cause { HasCause (refusals self.old) (refusals self.new) result }
    {
        self.reserve(xs, more.len())?;
        match xs.extend_from_slice(more) {
            Ok(()) => Ok(()),
            Err(_) => unreachable!(),
        }
    }

    /// The same entries in a vector of their own, with room for them alone. An error comes where the heap refuses.
    fn copy_of<T: Copy + Drop>(&mut self, xs: &[T]) -> Result<Vec<T>, AllocError>
        ensures items { IfOk result (λ copy. copy.items ≡ xs.now) }
        ensures cause { HasCause (refusals self.old) (refusals self.new) result }
    {
        let mut copy = self.room(xs.len())?;
        match copy.extend_from_slice(xs) {
            Ok(()) => Ok(copy),
            Err(_) => unreachable!(),
        }
    }
}

/// The heap of the process: it refuses where the system does, and counts that.
#[derive(Drop)]
pub struct SystemHeap {
    alloc: Global,
    refusals: u64,
}

impl SystemHeap {
    /// The heap of this allocator. It has refused nothing yet.
    pub fn new(alloc: Global) -> SystemHeap
        ensures { ⟦<SystemHeap as Heap>⟧.refusals result ≡ 0 }
    {
        SystemHeap { alloc, refusals: 0 }
    }

    /// How many calls were refused.
    pub fn refusals(&self) -> u64
        ensures { result ≡ ⟦<SystemHeap as Heap>⟧.refusals self.now }
    {
        self.refusals
    }

    /// A call was refused.
    fn refuse(&mut self)
        ensures counted { self.new.refusals ≡ one_more self.old.refusals }
        ensures later { self.old.refusals ≤ self.new.refusals }
    {
        self.refusals = self.refusals.saturating_add(1);
    }
}

impl Heap for SystemHeap {
    ghost refusals = { λ heap. heap.refusals };

    fn allocator(&self) -> Global {
        self.alloc
    }

    fn reserve<T>(&mut self, xs: &mut Vec<T>, more: usize) -> Result<(), AllocError> {
        let reserved = xs.reserve(more);
        if reserved.is_err() {
            self.refuse();
        }
        reserved
    }

    fn room<T>(&mut self, capacity: usize) -> Result<Vec<T>, AllocError> {
        match Vec::with_capacity(self.alloc, capacity) {
            Ok(xs) => Ok(xs),
            Err(refusal) => {
                self.refuse();
                Err(refusal)
            }
        }
    }

    fn boxed<T: Drop>(&mut self, x: T) -> Result<Box<T>, AllocError> {
        match Box::new(self.alloc, x) {
            Ok(kept) => Ok(kept),
            Err(_) => {
                self.refuse();
                Err(AllocError)
            }
        }
    }
}
