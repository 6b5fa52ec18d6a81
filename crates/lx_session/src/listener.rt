//! What listens to a session: it may refuse to admit a command, and hears of each that is accepted.

ghost use Rattle.std.specs.Prelude.{◌≡◌, ◌++◌, ◌∷◌, [], Bool, true, false, List};
ghost use Rattle.lx_spec.specs.Kept.{Kept};
ghost use Rattle.lx_session.specs.Attempts.{AcceptedStep};
ghost use Rattle.lx_spec.specs.declared.Command.{Command};

use lx_console::Console;
use lx_spec::Command;

/// What listens to a session. Before each attempt at a command it is asked whether it admits it, and it hears of
/// each command that was accepted, with the console after it.
///
/// A listener has four meanings for contracts. What it keeps true of itself together with the console is `keeps`, and
/// which accepted commands it heard of between two of its states `heard`. Two more are whether it admitted every command so far
/// (`admitted_all`), and what it has ready for a command that it admitted (`ready`).
pub trait Listener {
    /// What it keeps true of itself together with the console.
    ghost keeps: { Self → Kept → Type 0 };

    /// From the first state to the second it heard of these accepted commands, in order.
    ghost heard: { Self → Self → List Command → Type 0 };

    /// Whether it admitted every command up to this state.
    ghost admitted_all: { Self → Bool };

    /// What it keeps from admitting this command until it hears of it.
    ghost ready: { Self → Command → Type 0 };

    /// Whether the command may be attempted. One that isn't admitted is refused with `Memory`.
    fn admit(&mut self, command: &Command) -> bool
        ensures keeps { (console : Kept) → keeps self.old console → keeps self.new console }
        ensures heard { heard self.old self.new [] }
        ensures all { admitted_all self.new ≡ true → (result ≡ true) × (admitted_all self.old ≡ true) }
        ensures ready { result ≡ true → ready self.new command.now };

    /// Hears of a command that was accepted; the console is the one after it. The listener is as `admit` left it.
    fn hear(&mut self, command: &Command, console: &Console)
        requires { (before : Kept) × (keeps self.old before × (AcceptedStep before command.now console.now × ready self.old command.now)) }
        ensures keeps { keeps self.new console.now }
        ensures heard { heard self.old self.new (command.now ∷ []) }
        ensures all { admitted_all self.new ≡ true → admitted_all self.old ≡ true };

    /// Whether it is asked about each tick, and hears of it. If not, ticks may pass it by: what it keeps doesn't
    /// depend on the console.
    fn hears_ticks(&self) -> bool
        ensures heard { result ≡ false → heard self.now self.now (Command.Tick ∷ []) }
        ensures keeps { result ≡ false → (before after : Kept) → keeps self.now before → keeps self.now after };

    ghost nothing: { (state : Self) → heard state state [] };

    ghost both: { (first middle last : Self) (before after : List Command) → heard first middle before → heard middle last after
        → heard first last (before ++ after) };
}

/// Listens to nothing, and admits every command.
#[derive(Drop)]
pub struct NoListener;

impl Listener for NoListener {
    ghost keeps = { λ _ _. Unit {0} };

    ghost heard = { λ _ _ _. Unit {0} };

    ghost admitted_all = { λ _. true };

    ghost ready = { λ _ _. Unit {0} };

    ghost nothing = { λ state. tt };

    ghost both = { λ first middle last before after one two. tt };

    fn admit(&mut self, _command: &Command) -> bool {
        true
    }

    fn hear(&mut self, _command: &Command, _console: &Console) {}

    fn hears_ticks(&self) -> bool {
        false
    }
}
