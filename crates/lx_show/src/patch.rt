//! Rows of the patch, sorted by dimmer.

use crate::list::Copied;
use crate::sorted::Keyed;
use lx_io::Heap;
use lx_spec::PatchRow;
use std::alloc::AllocError;

impl Keyed for PatchRow {
    ghost key = { λ row. row.dimmer };

    fn key(&self) -> u32 {
        self.dimmer.get()
    }
}

impl Copied for PatchRow {
    fn copied<H: Heap>(&self, _heap: &mut H) -> Result<PatchRow, AllocError> {
        Ok(*self)
    }
}
