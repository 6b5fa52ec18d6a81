//! What comes after an entry.

ghost use Rattle.std.specs.Prelude.{◌≡◌};
ghost use Rattle.lx_crew.specs.SentLines.{follows};

use crate::entry::Sent;
use crate::fault::OperatorFault;
use lx_session::is_quit;

/// What an operator sends after an entry.
#[derive(Clone, Copy, Debug, PartialEq, Eq)]
pub enum Follows {
    /// What is next in its source.
    Lines,
    /// Its end, since the line is `quit`.
    End,
    /// Nothing, since the entry is its last: its end, or this fault.
    Nothing(Option<OperatorFault>),
}

/// What follows this.
pub(crate) fn what_follows(sent: &Sent) -> Follows
    ensures { result ≡ follows sent.now }
{
    match sent {
        Sent::Line(line) if is_quit(line.bytes()) => Follows::End,
        Sent::Line(_) => Follows::Lines,
        Sent::LongLine => Follows::Lines,
        Sent::End => Follows::Nothing(None),
        Sent::ReadFault => Follows::Nothing(Some(OperatorFault::ReadFault)),
        Sent::InputTooLong => Follows::Nothing(Some(OperatorFault::InputTooLong)),
    }
}
