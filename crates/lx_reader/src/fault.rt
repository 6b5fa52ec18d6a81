//! Why a show text is refused.

use lx_spec::TextFault;
use std::alloc::AllocError;
use thiserror::Error;

/// Why a show wasn't read.
#[derive(Clone, Copy, Debug, PartialEq, Eq, Drop, Error)]
pub enum ShowFault {
    /// The text has the fault, which carries the number of the first line that has one, from 1.
    #[error("the show text has a fault: {0:?}")]
    Text(TextFault),
    /// A read failed. Only where the source's count of faults rose.
    #[error("the input could not be read")]
    ReadFault,
    /// The input is longer than 67,108,864 bytes.
    #[error("the input is too long")]
    InputTooLong,
    /// There was no memory. Only where the heap refused some.
    #[error("out of memory")]
    Memory,
}

impl From<TextFault> for ShowFault {
    ghost use Rattle.std.specs.Prelude.{◌≡◌};
    ghost use Rattle.lx_reader.specs.declared.fault.ShowFault.TheVariants.{Text};

    ghost from_gives = { λ text fault. fault ≡ Text text };

    fn from(fault: TextFault) -> ShowFault {
        ShowFault::Text(fault)
    }
}

impl From<AllocError> for ShowFault {
    ghost use Rattle.std.specs.Prelude.{◌≡◌};
    ghost use Rattle.lx_reader.specs.declared.fault.ShowFault.TheVariants.{Memory};

    ghost from_gives = { λ _ fault. fault ≡ Memory };

    fn from(_: AllocError) -> ShowFault {
        ShowFault::Memory
    }
}
