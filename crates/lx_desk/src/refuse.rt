//! A show that is refused, or couldn't be read.
#![tactic(auto, using(lx_io::proofs::Chain::puts))]

ghost use Rattle.std.specs.Prelude.{◌∷◌, [], codes, decimal};
ghost use Rattle.lx_desk.specs.Imports.{Puts, line as text_line, fault_text, Refuses};

use crate::desk::Status;
use crate::finish::finish;
use lx_io::{Sink, SinkFault, put_all};
use lx_lex::put_whole;
use lx_reader::ShowFault;
use lx_spec::TextFault;

/// Writes the line of a show whose text has a fault; any other fault gives its status, and nothing is written.
pub(crate) fn refuse<K: Sink>(fault: ShowFault, output: &mut K) -> Status
    ensures { Refuses K.Sink fault output.old output.new result }
{
    match fault {
        ShowFault::Text(fault) => finish(put_fault(fault, output), Status::ShowRefused, output),
        ShowFault::ReadFault => Status::ReadFault,
        ShowFault::InputTooLong => Status::InputTooLong,
        ShowFault::Memory => Status::Memory,
    }
}

/// Appends the line of a refused show.
fn put_fault<K: Sink>(fault: TextFault, output: &mut K) -> Result<(), SinkFault>
    ensures { Puts K.Sink output.old output.new result (fault_text fault) }
{
    match fault {
        TextFault::NoIdent(line) => put_cause(b"NoIdent", line, output),
        TextFault::BadNumber(line) => put_cause(b"BadNumber", line, output),
        TextFault::OutOfRange(line) => put_cause(b"OutOfRange", line, output),
        TextFault::NotInRecord(line) => put_cause(b"NotInRecord", line, output),
        TextFault::LineTooLong(line) => put_cause(b"LineTooLong", line, output),
        TextFault::ShortList(line) => put_cause(b"ShortList", line, output),
        TextFault::NoEndData(line) => put_cause(b"NoEndData", line, output),
    }
}

/// Appends `show CAUSE LINE`.
fn put_cause<K: Sink>(cause: &[u8], line: u32, output: &mut K) -> Result<(), SinkFault>
    ensures { Puts K.Sink output.old output.new result (text_line (codes "show" ∷ cause.now ∷ decimal line ∷ [])) }
{
    put_all(output, b"show ")?;
    put_all(output, cause)?;
    put_all(output, b" ")?;
    put_whole(line, output)?;
    put_all(output, b"\n")
}
