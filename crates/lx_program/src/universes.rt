//! The outlets of the program's live runs: a file for each universe.

ghost use Rattle.std.specs.Prelude.{◌≡◌, ◌≤◌, ◌↔◌, [], length, IfOk, IfSome, None, IsSome};
ghost use Rattle.std.specs.IoError.{error_kind};
ghost use Rattle.lx_io.specs.Causes.{Rose};
ghost use Rattle.lx_base.specs.declared.TheConstants.{UNIVERSES};
ghost use Rattle.lx_program.specs.Places.{AreFilled, OfEachNumbered, OfEachPlace};

use lx_base::UNIVERSES;
use lx_io::{Sink, SinkFault};
use std::alloc::Global;
use std::fs::File;
use std::io::{BufWriter, ErrorKind, Write};
use std::rt::Files;
use std::{fs, io};

/// Room for the longest line of an outlet: 512 slots of at most 8 bytes each, and less than 100 bytes before them.
const LINE_ROOM: usize = 8_192;

/// A place for each universe.
pub const OUTLETS: usize = UNIVERSES as usize;

/// The file `universe-U.txt` in the current folder. It is made again at its first write, so that a named pipe of that name is
/// opened then; and each line, which a worker flushes, is handed on by one write.
#[derive(Drop)]
pub struct UniverseFile<'r, R> {
    rt: &'r R,
    alloc: Global,
    universe: u8,
    writer: Option<BufWriter<File>>,
    faults: u64,
    wants: u64,
}

impl<'r, R: Files<File = File>> UniverseFile<'r, R> {
    /// The file of a universe, from 1 to `UNIVERSES`. Nothing is opened yet, and no fault was told.
    pub fn new(rt: &'r R, alloc: Global, universe: u8) -> UniverseFile<'r, R>
        ensures faults { ⟦<UniverseFile<'r, R> as Sink>⟧.faults result ≡ 0 }
        ensures wants { ⟦<UniverseFile<'r, R> as Sink>⟧.wants result ≡ 0 }
        ensures universe { result.universe ≡ universe }
    {
        UniverseFile {
            rt,
            alloc,
            universe,
            writer: None,
            faults: 0,
            wants: 0,
        }
    }

    /// Makes the file.
    fn open(&self) -> io::Result<BufWriter<File>> {
        let path = format!(in self.alloc; "universe-{}.txt", self.universe)?;
        let file = fs::create(self.rt, path)?;
        BufWriter::with_capacity(self.alloc, LINE_ROOM, file)
    }

    /// Takes a piece, which waits in the file's own room until it is handed on.
    fn put(&mut self, piece: &[u8]) -> io::Result<usize>
        ensures bound { IfOk result (λ n. n ≤ length piece.now) }
        ensures faults { self.new.faults ≡ self.old.faults }
        ensures wants { self.new.wants ≡ self.old.wants }
    {
        let mut writer = match self.writer.take() {
            Some(writer) => writer,
            None => self.open()?,
        };
        let written = writer.write(piece);
        self.writer = Some(writer);
        written
    }

    /// Hands on what waits.
    fn hand_on(&mut self) -> io::Result<()>
        ensures faults { self.new.faults ≡ self.old.faults }
        ensures wants { self.new.wants ≡ self.old.wants }
    {
        match self.writer.take() {
            Some(mut writer) => {
                let handed_on = writer.flush();
                self.writer = Some(writer);
                handed_on
            }
            None => Ok(()),
        }
    }

    /// Counts an error that the file told, and says which it is.
    fn fail(&mut self, error: &io::Error) -> SinkFault
        ensures later { self.old.faults ≤ self.new.faults }
        ensures wants_later { self.old.wants ≤ self.new.wants }
        ensures failed { result ≡ SinkFault.Failed → Rose self.old.faults self.new.faults }
        ensures memory { result ≡ SinkFault.Memory → Rose self.old.wants self.new.wants }
        ensures kind { (result ≡ SinkFault.Memory) ↔ (error_kind error.now ≡ ErrorKind.OutOfMemory) }
    {
        if error.kind() == ErrorKind::OutOfMemory {
            self.wants = self.wants.saturating_add(1);
            return SinkFault::Memory;
        }
        self.faults = self.faults.saturating_add(1);
        SinkFault::Failed
    }
}

impl<R: Files<File = File>> Sink for UniverseFile<'_, R> {
    ghost holds = { λ _. None };

    // What waits in the file's own room no contract sees: `flush` has it handed on.
    ghost back = { λ _. [] };

    ghost faults = { λ s. s.faults };

    ghost wants = { λ s. s.wants };

    fn write(&mut self, piece: &[u8]) -> Result<usize, SinkFault> {
        match self.put(piece) {
            Ok(count) if count > 0 => Ok(count),
            Ok(_) => {
                self.faults = self.faults.saturating_add(1);
                Err(SinkFault::Failed)
            }
            Err(error) => Err(self.fail(&error)),
        }
    }

    fn flush(&mut self) -> Result<(), SinkFault> {
        match self.hand_on() {
            Ok(()) => Ok(()),
            Err(error) => Err(self.fail(&error)),
        }
    }
}

/// The files of all universes, each at its place. None has told a fault.
pub fn files<R: Files<File = File>>(rt: &R, alloc: Global) -> [Option<UniverseFile<'_, R>>; OUTLETS]
    ensures count { length result ≡ UNIVERSES }
    ensures full { AreFilled result }
    ensures faults { OfEachPlace result (λ outlet. outlet.faults ≡ 0) }
    ensures wants { OfEachPlace result (λ outlet. outlet.wants ≡ 0) }
    ensures place { OfEachNumbered 1 result (λ universe outlet. outlet.universe ≡ universe) }
{
    [
        file(rt, alloc, 1),
        file(rt, alloc, 2),
        file(rt, alloc, 3),
        file(rt, alloc, 4),
        file(rt, alloc, 5),
        file(rt, alloc, 6),
        file(rt, alloc, 7),
        file(rt, alloc, 8),
        file(rt, alloc, 9),
        file(rt, alloc, 10),
        file(rt, alloc, 11),
        file(rt, alloc, 12),
        file(rt, alloc, 13),
        file(rt, alloc, 14),
        file(rt, alloc, 15),
        file(rt, alloc, 16),
        file(rt, alloc, 17),
        file(rt, alloc, 18),
        file(rt, alloc, 19),
        file(rt, alloc, 20),
        file(rt, alloc, 21),
        file(rt, alloc, 22),
        file(rt, alloc, 23),
        file(rt, alloc, 24),
        file(rt, alloc, 25),
        file(rt, alloc, 26),
        file(rt, alloc, 27),
        file(rt, alloc, 28),
        file(rt, alloc, 29),
        file(rt, alloc, 30),
        file(rt, alloc, 31),
        file(rt, alloc, 32),
    ]
}

/// The file of a universe.
fn file<R: Files<File = File>>(rt: &R, alloc: Global, universe: u8) -> Option<UniverseFile<'_, R>>
    ensures some { IsSome result }
    ensures faults { IfSome result (λ outlet. outlet.faults ≡ 0) }
    ensures wants { IfSome result (λ outlet. outlet.wants ≡ 0) }
    ensures universe { IfSome result (λ outlet. outlet.universe ≡ universe) }
{
    Some(UniverseFile::new(rt, alloc, universe))
}
