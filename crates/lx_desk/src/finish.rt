//! How the telling of a text ends.

ghost use Rattle.std.specs.Prelude.{◌≡◌, [], ℕ, List, OnOk};
ghost use Rattle.lx_desk.specs.Imports.{Puts, Tells, status_of_sink, IsDone};

use crate::desk::Status;
use lx_io::{Sink, SinkFault};

/// Flushes the output where a text was put, and tells how that ended: by the good status, or by that of the fault.
pub(crate) fn finish<K: Sink>(put: Result<(), SinkFault>, good: Status, output: &mut K) -> Status
    requires { IsDone good }
    ensures { (refusals : ℕ) (before : K) (text : List ℕ) → Puts K.Sink before output.old put text
        → Tells K.Sink refusals refusals good text before output.new result }
{
    match flush_behind(put, output) {
        Ok(()) => good,
        Err(fault) => status_of_sink(fault),
    }
}

/// Flushes the output, unless there was a fault before.
fn flush_behind<K: Sink>(put: Result<(), SinkFault>, output: &mut K) -> Result<(), SinkFault>
    ensures puts { (before : K) (text : List ℕ) → Puts K.Sink before output.old put text → Puts K.Sink before output.new result text }
    ensures handed_on { OnOk result (K.back output.new ≡ []) }
{
    match put {
        Ok(()) => output.flush(),
        Err(fault) => Err(fault),
    }
}

/// The status of a fault of the output.
pub(crate) fn status_of_sink(fault: SinkFault) -> Status
    ensures { result ≡ status_of_sink fault }
{
    match fault {
        SinkFault::Failed => Status::WriteFault,
        SinkFault::Memory => Status::Memory,
    }
}
