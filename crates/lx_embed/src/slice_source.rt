//! A source over bytes that are lent.

ghost use Rattle.std.specs.Prelude.{Some};

use lx_io::{Failed, Source};

/// A source of lent bytes, which never fails.
#[derive(Drop)]
pub(crate) struct SliceSource<'a> {
    /// What is left.
    pub(crate) rest: &'a [u8],
    /// How many bytes the last read gave.
    pub(crate) given: usize,
}

impl<'a> Source for SliceSource<'a> {
    ghost left = { λ s. Some s.rest.now };

    ghost faults = { λ _. 0 };

    ghost given = { λ s. s.given };

    fn read(&mut self, buf: &mut [u8]) -> Result<usize, Failed> {
        let count = self.rest.len().min(buf.len());
        buf[..count].copy_from_slice(&self.rest[..count]);
        self.rest = &self.rest[count..];
        self.given = count;
        Ok(count)
    }
}
