//! A sink that keeps bytes back until there are many of them.
#![tactic(auto, using(crate::proofs::Chain::puts))]

ghost use Rattle.std.specs.Prelude.{◌≡◌, ◌≤◌, ◌+◌, ◌-◌, ◌++◌, [], length, take, slice_range, IfOk, MatchBool, OnOk};
ghost use Rattle.std.specs.Bool.{OnTrue};
ghost use Rattle.std.specs.Io.KnownBytes.{Appends, Keeps};
ghost use Rattle.lx_io.specs.Puts.{HasSinkCause, Puts};
ghost use Rattle.lx_io.specs.SinkCalls.{HasSinkCauseBy, PutsBy};
ghost use Rattle.lx_io.specs.declared.buffered.TheConstants.{ROOM};

use crate::room::write_behind;
use crate::{Sink, SinkFault, TEXT_ROOM, Text};
use std::alloc::Global;

/// How many bytes are kept back at most.
const ROOM: usize = 65_536;

/// How much of the room is opened at first.
const FIRST: usize = 4_096;

/// A sink that keeps bytes back, at most 65,536, and hands them on together: where there is no room for more, and at a
/// flush. Bytes that couldn't be handed on stay, so that a later flush tries them again. Where there was no memory for
/// the room nothing is kept back.
#[derive(Drop)]
pub struct BufferedSink<K> {
    sink: K,
    /// The part of the room that was opened so far. Its memory was taken whole at the start, and is touched first where
    /// it is opened, so that a run that writes little touches little.
    room: Vec<u8>,
    len: usize,
    ghost within: { len ≤ length room.items },
    ghost most: { length room.items ≤ ROOM },
}

impl<K: Sink> BufferedSink<K> {
    ghost use Rattle.lx_io.specs.Kept.{kept_back, with_kept};

    /// Keeps back what goes to the sink. Nothing is kept yet.
    pub fn new(alloc: Global, sink: K) -> BufferedSink<K>
        ensures holds { ⟦<BufferedSink<K> as Sink>⟧.holds result ≡ with_kept (K.holds sink) [] }
        ensures back { ⟦<BufferedSink<K> as Sink>⟧.back result ≡ K.back sink ++ [] }
        ensures faults { ⟦<BufferedSink<K> as Sink>⟧.faults result ≡ K.faults sink }
        ensures wants { ⟦<BufferedSink<K> as Sink>⟧.wants result ≡ K.wants sink }
    {
        let mut room = Vec::new(alloc);
        // Where there is no memory for it the sink does without.
        let _ = room.reserve_exact(ROOM);
        BufferedSink { sink, room, len: 0 }
    }

    /// Hands on what is kept.
    #[inline(never)]
    fn hand_on(&mut self) -> Result<(), SinkFault>
        ensures holds { Keeps (with_kept (K.holds self.old.sink) (kept_back self.old))
            (with_kept (K.holds self.new.sink) (kept_back self.new)) }
        ensures cause { HasSinkCause K.Sink self.old.sink self.new.sink result }
        ensures empty { OnOk result (self.new.len ≡ 0) }
    {
        let (count, passed) = pass_on(&self.room[..self.len], &mut self.sink);
        self.keep_from(count);
        passed
    }

    /// Goes on keeping what stands behind a place, and no more.
    fn keep_from(&mut self, from: usize)
        requires { from ≤ self.old.len }
        ensures sink { self.new.sink ≡ self.old.sink }
        ensures len { self.new.len ≡ self.old.len - from }
        ensures kept { kept_back self.new ≡ slice_range self.old.room.items from self.old.len }
    {
        self.room.copy_within(from..self.len, 0);
        self.len -= from;
    }

    /// Keeps a text back, for which there is room.
    #[inline(always)]
    fn keep(&mut self, text: &[u8])
        requires { self.old.len + length text.now ≤ length self.old.room.items }
        ensures sink { self.new.sink ≡ self.old.sink }
        ensures len { self.new.len ≡ self.old.len + length text.now }
        ensures kept { kept_back self.new ≡ kept_back self.old ++ text.now }
    {
        let end = self.len + text.len();
        self.room[self.len..end].copy_from_slice(text);
        self.len = end;
    }

    /// Appends a text for which there is no room as it stands.
    #[cold]
    #[inline(never)]
    fn put_far(&mut self, text: &[u8]) -> Result<(), SinkFault>
        ensures { PutsBy (λ s. with_kept (K.holds s.sink) (kept_back s)) (λ s. K.faults s.sink) (λ s. K.wants s.sink)
            self.old self.new result text.now }
    {
        if !self.make_room(text.len())? {
            return self.sink.put(text);
        }
        self.keep(text);
        Ok(())
    }

    /// Sees to room for this many bytes, and says whether there is. Where there is none nothing is kept any more.
    #[inline(always)]
    fn ensure_room(&mut self, count: usize) -> Result<bool, SinkFault>
        ensures holds { Keeps (with_kept (K.holds self.old.sink) (kept_back self.old))
            (with_kept (K.holds self.new.sink) (kept_back self.new)) }
        ensures cause { HasSinkCause K.Sink self.old.sink self.new.sink result }
        ensures room { IfOk result (λ there. MatchBool there (self.new.len + count ≤ length self.new.room.items) (self.new.len ≡ 0)) }
    {
        if self.room.len() - self.len < count {
            return self.make_room(count);
        }
        Ok(true)
    }

    /// Opens more of the room, and where that doesn't do hands on what is kept. It says as `ensure_room` does whether
    /// there is room then.
    #[cold]
    #[inline(never)]
    fn make_room(&mut self, count: usize) -> Result<bool, SinkFault>
        ensures holds { Keeps (with_kept (K.holds self.old.sink) (kept_back self.old))
            (with_kept (K.holds self.new.sink) (kept_back self.new)) }
        ensures cause { HasSinkCause K.Sink self.old.sink self.new.sink result }
        ensures room { IfOk result (λ there. MatchBool there (self.new.len + count ≤ length self.new.room.items) (self.new.len ≡ 0)) }
    {
        if self.open(count) {
            return Ok(true);
        }
        self.hand_on()?;
        Ok(self.open(count))
    }

    /// Opens at least so much of the room behind what is kept, within the memory that was taken for it, and says whether
    /// there is so much.
    fn open(&mut self, count: usize) -> bool
        ensures sink { self.new.sink ≡ self.old.sink }
        ensures len { self.new.len ≡ self.old.len }
        ensures kept { kept_back self.new ≡ kept_back self.old }
        ensures room { OnTrue result (self.new.len + count ≤ length self.new.room.items) }
    {
        let most = self.room.capacity().min(ROOM);
        if count > most - self.len {
            return false;
        }
        let least = self.len + count;
        let opened = (2 * self.room.len()).max(FIRST).max(least).min(most);
        self.room.resize(opened, 0).is_ok()
    }
}

/// Appends a text that writes itself, for which there is no room. It is handed a copy, so that a text that writes itself
/// into room needn't stand in memory before.
#[cold]
#[inline(never)]
fn put_text_far<T: Text, K: Sink>(text: T, sink: &mut K) -> Result<(), SinkFault>
    ensures { Puts K.Sink sink.old sink.new result (T.bytes text) }
{
    sink.put_text(&text)
}

/// Hands bytes on until all of them are taken, or there is a fault. It says how many were taken.
fn pass_on<K: Sink>(bytes: &[u8], sink: &mut K) -> (usize, Result<(), SinkFault>)
    ensures within { result.0 ≤ length bytes.now }
    ensures bytes { Appends (K.holds sink.old) (K.holds sink.new) (take result.0 bytes.now) }
    ensures whole { OnOk result.1 (result.0 ≡ length bytes.now) }
    ensures cause { HasSinkCause K.Sink sink.old sink.new result.1 }
{
    let mut taken = 0;
    'rest: while taken < bytes.len() {
        match sink.write(&bytes[taken..]) {
            Ok(count) => taken += count,
            Err(fault) => return (taken, Err(fault)),
        }
    }
    (taken, Ok(()))
}

impl<K: Sink> Sink for BufferedSink<K> {
    ghost use Rattle.lx_io.specs.Kept.{kept_back, with_kept};

    ghost holds = { λ s. with_kept (K.holds s.sink) (kept_back s) };

    ghost back = { λ s. K.back s.sink ++ kept_back s };

    ghost faults = { λ s. K.faults s.sink };

    ghost wants = { λ s. K.wants s.sink };

    /// Takes the whole piece, or as much of it as is kept back at most. Where there is no room the sink below takes it.
    fn write(&mut self, piece: &[u8]) -> Result<usize, SinkFault> {
        let count = piece.len().min(ROOM);
        if !self.ensure_room(count)? {
            return self.sink.write(piece);
        }
        self.keep(&piece[..count]);
        Ok(count)
    }

    /// Hands on what is kept, and has the sink below hand on what it keeps. With Ok nothing is kept any more.
    fn flush(&mut self) -> Result<(), SinkFault>
        ensures holds { Keeps (with_kept (K.holds self.old.sink) (kept_back self.old))
            (with_kept (K.holds self.new.sink) (kept_back self.new)) }
        ensures cause { HasSinkCauseBy (λ s. K.faults s.sink) (λ s. K.wants s.sink) self.old self.new result }
        ensures handed_on { OnOk result (K.back self.new.sink ++ kept_back self.new ≡ []) }
    {
        self.hand_on()?;
        self.sink.flush()
    }

    #[inline(always)]
    fn put(&mut self, text: &[u8]) -> Result<(), SinkFault> {
        if text.len() > self.room.len() - self.len {
            return self.put_far(text);
        }
        self.keep(text);
        Ok(())
    }

    /// The text writes itself behind what is kept.
    #[inline(always)]
    fn put_text<T: Text>(&mut self, text: &T) -> Result<(), SinkFault> {
        if !self.ensure_room(TEXT_ROOM)? {
            return put_text_far(*text, &mut self.sink);
        }
        self.len = write_behind(text, &mut self.room, self.len);
        Ok(())
    }
}
