//! Where the memory comes from by which the words are read.

ghost use Rattle.std.specs.Prelude.{◌≡◌, false, map, string_bytes, IfOk, IfErr};
ghost use Rattle.std.specs.List.{list_any};
ghost use Rattle.clap.specs.Words.{kind_of};
ghost use Rattle.lx_io.specs.Causes.{HasCause};
ghost use Rattle.lx_program.specs.Words.{begins_with_dash, values_of};

use clap::error::ErrorKind;
use clap::{Arg, ArgAction, ArgMatches, Command, Error};
use std::alloc::{AllocError, Global};
use std::marker::Model;

/// The name of the argument that has the words as its values.
pub(crate) const WORD: &str = "word";

/// The memory that `clap` takes to read words. It asks the allocator itself, so what it is refused is counted here. Contracts see the
/// count of refusals. It never falls, and stops at 18,446,744,073,709,551,615.
#[derive(Drop)]
pub struct WordsHeap {
    alloc: Global,
    refusals: u64,
}

impl Model for WordsHeap {
    ghost use Rattle.std.specs.Prelude.{ℕ};

    ghost Value = { ℕ };

    ghost view = { λ heap. heap.refusals };
}

impl WordsHeap {
    /// The memory of this allocator. It has refused nothing yet.
    pub fn new(alloc: Global) -> WordsHeap
        ensures { result ≡ 0 }
    {
        WordsHeap { alloc, refusals: 0 }
    }

    /// How often memory was refused.
    pub fn refusals(&self) -> u64
        ensures { result ≡ self.now }
    {
        self.refusals
    }

    /// The words as the values of one argument. An error means that memory was refused.
    pub(crate) fn matches<'a>(&mut self, words: &'a [String]) -> Result<ArgMatches<'a>, AllocError>
        requires { list_any begins_with_dash (map string_bytes words.now) ≡ false }
        ensures values { IfOk result (λ matches. values_of matches ≡ map string_bytes words.now) }
        ensures cause { HasCause self.old self.new result }
    {
        match matches_of(self.alloc, words) {
            Ok(matches) => Ok(matches),
            Err(_) => {
                self.refusals = self.refusals.saturating_add(1);
                Err(AllocError)
            }
        }
    }
}

/// The words as the values of one argument. Out of memory is the one error.
fn matches_of<'a>(alloc: Global, words: &'a [String]) -> Result<ArgMatches<'a>, Error>
    requires { list_any begins_with_dash (map string_bytes words.now) ≡ false }
    ensures { IfOk result (λ matches. values_of matches ≡ map string_bytes words.now)
        × IfErr result (λ error. kind_of error ≡ ErrorKind.OutOfMemory) }
{
    let count = words.len();
    prove!(count <= usize::MAX);
    let word = Arg::new(alloc, WORD)
        .num_args(1..)
        .action(ArgAction::Append);
    let command = Command::new(alloc, "cuedesk")
        .no_binary_name(true)
        .arg(word)?;
    command.try_get_matches_from(words)
}
