//! The exit status of the program.

ghost use Rattle.std.specs.Prelude.{◌≡◌};
ghost use Rattle.lx_program.specs.Exits.{exit_status};

use lx_desk::Status;

/// The exit status of a program that ended so. `Live` is that of words that name no job: a program answers it by a live run or a crew.
pub fn exit_of(status: Status) -> u8
    ensures { result ≡ exit_status status }
{
    match status {
        Status::Ok => 0,
        Status::ShowRefused => 1,
        Status::Usage | Status::Live => 2,
        Status::ReadFault => 3,
        Status::WriteFault => 4,
        Status::Memory => 5,
        Status::InputTooLong => 6,
    }
}
