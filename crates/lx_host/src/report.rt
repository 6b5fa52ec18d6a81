//! How a refused show and the state of a playback are told to C.

ghost use Rattle.std.specs.Prelude.{◌≡◌};
ghost use Rattle.lx_host.specs.Told.{fault_status, show_report, playback_of};

use crate::status::{MEMORY, PlaybackReport, SHOW_REFUSED, ShowReport, TOO_LONG};
use lx_base::CueNo;
use lx_embed::{PlaybackState, RunSpan};
use lx_reader::ShowFault;
use lx_spec::TextFault;

/// The status of a fault, and its report. A read never fails here.
pub(crate) fn tell_fault(fault: ShowFault, report: &mut ShowReport) -> u32
    ensures status { result ≡ fault_status fault }
    ensures report { report.new ≡ show_report fault }
{
    match fault {
        ShowFault::Text(fault) => {
            *report = report_for(fault);
            SHOW_REFUSED
        }
        ShowFault::InputTooLong | ShowFault::ReadFault => {
            *report = ShowReport { fault: 0, line: 0 };
            TOO_LONG
        }
        ShowFault::Memory => {
            *report = ShowReport { fault: 0, line: 0 };
            MEMORY
        }
    }
}

/// The report of a text's fault.
fn report_for(fault: TextFault) -> ShowReport
    ensures { result ≡ show_report (ShowFault.Text fault) }
{
    let (fault, line) = match fault {
        TextFault::NoIdent(line) => (1, line),
        TextFault::BadNumber(line) => (2, line),
        TextFault::OutOfRange(line) => (3, line),
        TextFault::NotInRecord(line) => (4, line),
        TextFault::LineTooLong(line) => (5, line),
        TextFault::ShortList(line) => (6, line),
        TextFault::NoEndData(line) => (7, line),
    };
    ShowReport { fault, line }
}

/// The state of a playback, with 0 for what isn't there.
pub(crate) fn playback_for(state: PlaybackState) -> PlaybackReport
    ensures { result ≡ playback_of state }
{
    let next = state.next.unwrap_or(CueNo::BEFORE_FIRST);
    let newest = state.newest.unwrap_or(RunSpan { began: 0, ends: 0 });
    PlaybackReport {
        moment: state.moment,
        position: state.position.get(),
        next: next.get(),
        live: state.live,
        over_at: state.over_at,
        began: newest.began,
        ends: newest.ends,
        follow_at: state.follow_at.unwrap_or(0),
        channels: state.channels,
        cues: state.cues,
        master: state.master,
        follows: state.follow_at.is_some(),
    }
}
