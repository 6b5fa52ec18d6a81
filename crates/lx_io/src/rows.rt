//! Vectors that are filled as they are made.

ghost use Rattle.std.specs.Prelude.{◌≡◌, length, replicate, IfOk};
ghost use Rattle.lx_io.specs.Causes.{HasCause};

use crate::Heap;
use std::alloc::AllocError;

/// A vector of so many equal entries, with room for them alone. For none it takes no memory. An error comes where the heap refuses.
pub fn filled<H: Heap, T: Copy + Drop>(
    heap: &mut H,
    x: T,
    count: usize,
) -> Result<Vec<T>, AllocError>
    ensures items { IfOk result (λ xs. xs.items ≡ replicate count x) }
    ensures long { IfOk result (λ xs. length xs.items ≡ count) }
    ensures cause { HasCause (H.refusals heap.old) (H.refusals heap.new) result }
{
    let mut xs = heap.room(count)?;
    match xs.resize(count, x) {
        Ok(()) => Ok(xs),
        Err(_) => unreachable!(),
    }
}
