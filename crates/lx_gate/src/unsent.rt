//! Accepted commands that aren't published yet.
ghost use Rattle.std.specs.Prelude.{◌≡◌, ◌+◌, ◌<◌, ◌^◌, [], ◌∷◌, ◌++◌, length};

use crate::history::Entered;
use logbook::{Opening, Rule, Seen, Start};
use lx_spec::Command;
use std::marker::Model;

/// The rule of a list that stays as it was opened.
struct Fixed;

impl Rule<Entered, u64> for Fixed {
    ghost use Rattle.std.specs.Prelude.{[]};
    ghost use base.Fml.{ftrue};

    ghost holds = { λ cells log. Unit {0} };

    ghost first = { [] };

    ghost hinted = { λ n log. Unit {0} };

    ghost shows = { λ log. [] };

    ghost keeps = { λ names log. ftrue };

    ghost moves = { λ asked before after answer. Unit {0} };
}

/// Accepted commands that aren't published yet, in order. They are there in proofs alone, so they take no memory; what is kept
/// is how many they are. Contracts see them.
#[derive(Drop)]
pub struct Unsent {
    count: u64,
    list: Seen<Entered, u64, Fixed>,
}

impl Model for Unsent {
    ghost use Rattle.std.specs.Prelude.{◌≡◌, List, length};
    ghost use Rattle.lx_spec.specs.declared.Command.{Command};

    ghost Value = { List Command };

    ghost view = { λ u. u.list.log };

    ghost invariant = { λ u. u.count ≡ length u.list.log };
}

/// The commands of a list, and one more.
#[derive(Drop)]
struct OneMore<'a, 'l> {
    before: &'a Seen<Entered, u64, Fixed>,
    command: &'a Command<'l>,
}

impl Opening<OneMore<'_, '_>, Entered> for Fixed {
    ghost use Rattle.std.specs.Prelude.{[], ◌∷◌, ◌++◌};

    ghost log = { λ words more. more.before.now.log ++ more.command.now ∷ [] };
}

impl Unsent {
    /// No commands.
    pub fn new() -> Unsent
        ensures { result ≡ [] }
    {
        let (list, _first, _second) = Seen::open(Start::alone(), 0, 0);
        Unsent { count: 0, list }
    }

    /// Adds a command.
    pub fn push(&mut self, command: &Command)
        requires { length self.old + 1 < 2 ^ 64 }
        ensures { self.new ≡ self.old ++ command.now ∷ [] }
    {
        let more = OneMore {
            before: &self.list,
            command,
        };
        self.list = Seen::open_row::<OneMore<'_, '_>, Fixed>(&more, Start::alone(), 0).0;
        self.count += 1;
    }

    /// How many commands wait.
    pub fn len(&self) -> u64
        ensures { result ≡ length self.now }
    {
        self.count
    }
}
