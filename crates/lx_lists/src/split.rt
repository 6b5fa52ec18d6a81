//! A show's cues in two lists.

ghost use Rattle.std.specs.Prelude.{◌≡◌, ◌≤◌, ◌<◌, None, IfOk, IfSome, IsTrue};
ghost use Rattle.lx_lists.specs.Imports.{HasCause, has_entry, first_show, second_show};
ghost use Rattle.lx_base.specs.declared.TheConstants.{SECOND_LIST};

use lx_base::{CueNo, SECOND_LIST};
use lx_io::Heap;
use lx_show::Show;
use std::alloc::AllocError;

/// A copy of the show with the cues of the second list. An error comes where the heap refuses memory.
pub(crate) fn second_of<H: Heap>(heap: &mut H, show: &Show) -> Result<Show, AllocError>
    ensures second { IfOk result (λ second. second ≡ second_show show.now) }
    ensures cause { HasCause (H.refusals heap.old) (H.refusals heap.new) result }
{
    let mut second = show.copy_in(heap)?;
    leave_second(&mut second);
    Ok(second)
}

/// Leaves the cues of the second list.
fn leave_second(show: &mut Show)
    ensures { show.new ≡ second_show show.old }
{
    while let Some(n) = lowest_of_first(show) {
        let _ = show.take_cue(n);
    }
}

/// Leaves the cues of the first list.
pub(crate) fn leave_first(show: &mut Show)
    ensures { show.new ≡ first_show show.old }
{
    while let Some(n) = highest_of_second(show) {
        let _ = show.take_cue(n);
    }
}

/// The lowest cue of the show, where it is one of the first list.
fn lowest_of_first(show: &Show) -> Option<CueNo>
    ensures there { IfSome result (λ n. IsTrue (has_entry (λ x. x.number) n show.now.cues)) }
    ensures below { IfSome result (λ n. n < SECOND_LIST) }
    ensures none { result ≡ None → second_show show.now ≡ show.now }
{
    let Some(cue) = show.cues().first() else {
        return None;
    };
    if cue.number.get() < SECOND_LIST {
        Some(cue.number)
    } else {
        None
    }
}

/// The highest cue of the show, where it is one of the second list.
fn highest_of_second(show: &Show) -> Option<CueNo>
    ensures there { IfSome result (λ n. IsTrue (has_entry (λ x. x.number) n show.now.cues)) }
    ensures from { IfSome result (λ n. SECOND_LIST ≤ n) }
    ensures none { result ≡ None → first_show show.now ≡ show.now }
{
    let Some(cue) = show.cues().last() else {
        return None;
    };
    let number = cue.number;
    if number.get() < SECOND_LIST {
        None
    } else {
        Some(number)
    }
}
