//! Why a session ended before its script did.

ghost use Rattle.std.specs.Prelude.{◌≡◌};
ghost use Rattle.lx_session.specs.SessionFaults.{fault_of};

use lx_io::SinkFault;

/// Why a session ended before its script did.
#[derive(Clone, Copy, Debug, PartialEq, Eq, thiserror::Error)]
pub enum SessionFault {
    /// The source failed at a read.
    #[error("reading the script failed")]
    ReadFault,
    /// The sink failed at a write.
    #[error("writing the replies failed")]
    WriteFault,
    /// The input has a line with a byte past the 67,108,864th.
    #[error("the input is too long")]
    InputTooLong,
    /// The sink ran out of memory.
    #[error("the output is out of memory")]
    Memory,
}

impl From<SinkFault> for SessionFault {
    ghost from_gives = { λ fault own. own ≡ fault_of fault };

    fn from(fault: SinkFault) -> SessionFault {
        match fault {
            SinkFault::Failed => SessionFault::WriteFault,
            SinkFault::Memory => SessionFault::Memory,
        }
    }
}
