//! The scripts of the program's operators: a file for each.

ghost use Rattle.std.specs.Prelude.{◌≡◌, length, IfSome, None, IsSome};
ghost use Rattle.std.specs.Io.{ReadsAtMost};
ghost use Rattle.lx_base.specs.declared.TheConstants.{OPERATORS};
ghost use Rattle.lx_program.specs.Places.{AreFilled, OfEachPlace};

use lx_base::OPERATORS;
use lx_io::{Failed, Source};
use std::fs::File;
use std::io::Read;
use std::rt::Files;
use std::{fs, io};

/// A place for each operator.
pub const PLACES: usize = OPERATORS as usize;

/// A file of this name in the current folder. It is opened at its first read, so that a named pipe of that name is
/// awaited then, by the operator alone; one that can't be opened is a read that failed.
#[derive(Drop)]
pub struct OperatorFile<'r, R> {
    rt: &'r R,
    name: &'static str,
    file: Option<File>,
    faults: u64,
    given: usize,
}

impl<'r, R: Files<File = File>> OperatorFile<'r, R> {
    /// The file of this name. Nothing is opened yet, and no fault was told.
    pub fn new(rt: &'r R, name: &'static str) -> OperatorFile<'r, R>
        ensures faults { ⟦<OperatorFile<'r, R> as Source>⟧.faults result ≡ 0 }
    {
        OperatorFile {
            rt,
            name,
            file: None,
            faults: 0,
            given: 0,
        }
    }

    /// Reads a piece, from the file's beginning on.
    fn take(&mut self, buf: &mut [u8]) -> io::Result<usize>
        ensures bound { ReadsAtMost result buf.new }
        ensures faults { self.new.faults ≡ self.old.faults }
    {
        let mut file = match self.file.take() {
            Some(file) => file,
            None => fs::open(self.rt, self.name)?,
        };
        let count = file.read(buf);
        self.file = Some(file);
        count
    }
}

impl<R: Files<File = File>> Source for OperatorFile<'_, R> {
    ghost left = { λ _. None };

    ghost faults = { λ s. s.faults };

    ghost given = { λ s. s.given };

    fn read(&mut self, buf: &mut [u8]) -> Result<usize, Failed> {
        match self.take(buf) {
            Ok(count) => {
                self.given = count;
                Ok(count)
            }
            Err(_) => {
                self.faults = self.faults.saturating_add(1);
                Err(Failed)
            }
        }
    }
}

/// The files of all operators: `operator-1.txt` and so on. None has told a fault.
pub fn scripts<R: Files<File = File>>(rt: &R) -> [Option<OperatorFile<'_, R>>; PLACES]
    ensures count { length result ≡ OPERATORS }
    ensures full { AreFilled result }
    ensures faults { OfEachPlace result (λ script. script.faults ≡ 0) }
{
    [
        script(rt, "operator-1.txt"),
        script(rt, "operator-2.txt"),
        script(rt, "operator-3.txt"),
        script(rt, "operator-4.txt"),
    ]
}

/// An operator's file.
fn script<'r, R: Files<File = File>>(rt: &'r R, name: &'static str) -> Option<OperatorFile<'r, R>>
    ensures some { IsSome result }
    ensures faults { IfSome result (λ script. script.faults ≡ 0) }
{
    Some(OperatorFile::new(rt, name))
}
