//! The reply to a line, as it is kept.
#![tactic(auto, using(lx_io::proofs::Chain::puts))]

ghost use Rattle.std.specs.Prelude.{◌≡◌, ◌≤◌, ◌<◌, ◌+◌, ◌^◌, ◌++◌, [], Some, length, IsOk, IfOk, OnOk, OnErr};
ghost use Rattle.std.specs.Io.KnownBytes.{WriteAppends, Keeps};
ghost use Rattle.lx_io.specs.Causes.{HasCause};
ghost use Rattle.lx_io.specs.SinkCalls.{HasSinkCauseBy};

use lx_io::{Heap, Sink, SinkFault, SystemHeap, TEXT_ROOM, Text, write_behind};
use std::alloc::{AllocError, Global};

/// How much room the first reply opens.
const FIRST: usize = 8_192;

/// The reply to a line. Its room is used again for the next, so that few lines take memory. A write fails only where its room is full, and
/// the heap refuses more.
#[derive(Drop)]
pub struct ReplyText {
    /// The room that was opened so far, of which the first bytes are the reply.
    room: Vec<u8>,
    len: usize,
    /// Where its room comes from, which counts what it refused.
    heap: SystemHeap,
    ghost within: { len ≤ length room.items },
}

impl ReplyText {
    ghost use Rattle.lx_embed.specs.ReplyBytes.{reply_bytes, wants_of};

    /// The empty reply, whose heap has refused nothing.
    pub(crate) fn new(alloc: Global) -> ReplyText
        ensures bytes { reply_bytes result ≡ [] }
        ensures wants { wants_of result ≡ 0 }
    {
        ReplyText {
            room: Vec::new(alloc),
            len: 0,
            heap: SystemHeap::new(alloc),
        }
    }

    /// Makes it empty again.
    pub(crate) fn clear(&mut self)
        ensures bytes { reply_bytes self.new ≡ [] }
        ensures wants { wants_of self.new ≡ wants_of self.old }
    {
        self.len = 0;
    }

    /// Its bytes.
    pub(crate) fn as_slice(&self) -> &[u8]
        ensures { result.now ≡ reply_bytes self.now }
    {
        &self.room[..self.len]
    }

    /// Appends a text for which there is room.
    #[inline(always)]
    fn keep(&mut self, text: &[u8])
        requires { self.old.len + length text.now ≤ length self.old.room.items }
        ensures bytes { reply_bytes self.new ≡ reply_bytes self.old ++ text.now }
        ensures wants { wants_of self.new ≡ wants_of self.old }
    {
        let end = self.len + text.len();
        self.room[self.len..end].copy_from_slice(text);
        self.len = end;
    }

    /// Sees to room for this many bytes behind the reply.
    #[inline(always)]
    fn ensure_room(&mut self, count: usize) -> Result<(), SinkFault>
        requires { count < 2 ^ 63 }
        ensures bytes { reply_bytes self.new ≡ reply_bytes self.old }
        ensures room { OnOk result (self.new.len + count ≤ length self.new.room.items) }
        ensures full { OnErr result (length self.old.room.items < self.old.len + count) }
        ensures cause { HasSinkCauseBy (λ _. 0) wants_of self.old self.new result }
    {
        if self.len + count > self.room.len() {
            return self.make_room(count);
        }
        Ok(())
    }

    /// Opens so much more room.
    #[cold]
    #[inline(never)]
    fn make_room(&mut self, count: usize) -> Result<(), SinkFault>
        requires { count < 2 ^ 63 }
        ensures bytes { reply_bytes self.new ≡ reply_bytes self.old }
        ensures room { OnOk result (self.new.len + count ≤ length self.new.room.items) }
        ensures cause { HasSinkCauseBy (λ _. 0) wants_of self.old self.new result }
    {
        match self.open(self.len + count) {
            Ok(()) => Ok(()),
            Err(_) => Err(SinkFault::Memory),
        }
    }

    /// Opens at least so much room in all, twice what there was where that is more. An error comes where the heap refuses it.
    fn open(&mut self, least: usize) -> Result<(), AllocError>
        requires { self.old.len ≤ least }
        ensures bytes { reply_bytes self.new ≡ reply_bytes self.old }
        ensures len { self.new.len ≡ self.old.len }
        ensures room { OnOk result (least ≤ length self.new.room.items) }
        ensures cause { HasCause (wants_of self.old) (wants_of self.new) result }
    {
        let there = self.room.len();
        let opened = there.saturating_mul(2).max(FIRST).max(least);
        self.heap.reserve(&mut self.room, opened - there)?;
        match self.room.resize(opened, 0) {
            Ok(()) => Ok(()),
            Err(_) => unreachable!(),
        }
    }
}

impl Sink for ReplyText {
    ghost use Rattle.lx_embed.specs.ReplyBytes.{reply_bytes, wants_of};

    ghost holds = { λ s. Some (reply_bytes s) };

    ghost back = { λ _. [] };

    ghost faults = { λ _. 0 };

    ghost wants = { wants_of };

    /// Takes the whole piece.
    fn write(&mut self, piece: &[u8]) -> Result<usize, SinkFault>
        requires { 0 < length piece.now }
        ensures bound { IfOk result (λ n. (0 < n) × (n ≤ length piece.now)) }
        ensures bytes { WriteAppends (Some (reply_bytes self.old)) (Some (reply_bytes self.new)) result piece.now }
        ensures cause { HasSinkCauseBy (λ _. 0) wants_of self.old self.new result }
        ensures whole { IfOk result (λ n. n ≡ length piece.now) }
        ensures full { OnErr result (length self.old.room.items < self.old.len + length piece.now) }
    {
        self.ensure_room(piece.len())?;
        self.keep(piece);
        Ok(piece.len())
    }

    /// Nothing is kept back.
    fn flush(&mut self) -> Result<(), SinkFault>
        ensures holds { Keeps (Some (reply_bytes self.old)) (Some (reply_bytes self.new)) }
        ensures cause { HasSinkCauseBy (λ _. 0) wants_of self.old self.new result }
        ensures ok { IsOk result }
    {
        Ok(())
    }

    #[inline(always)]
    fn put(&mut self, text: &[u8]) -> Result<(), SinkFault> {
        self.ensure_room(text.len())?;
        self.keep(text);
        Ok(())
    }

    /// The text writes itself behind the reply.
    #[inline(always)]
    fn put_text<T: Text>(&mut self, text: &T) -> Result<(), SinkFault> {
        self.ensure_room(TEXT_ROOM)?;
        self.len = write_behind(text, &mut self.room, self.len);
        Ok(())
    }
}
