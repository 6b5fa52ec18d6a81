//! The record of the stage as a cue.

ghost use Rattle.std.specs.Prelude.{◌≡◌, ◌≢◌, IfOk, IfSome, MatchResult, Ok, Some, false};
ghost use Rattle.lx_record.specs.Imports.{HasCauseOf, with_cue, recorded, with_recorded, Desk, StandsFor, level_now, CanPlace, IsReady};
ghost use Rattle.lx_record.specs.Imports.{with_above, Records, PlansRecord, IsRefused};

use crate::kept::kept_above;
use crate::staged::staged;
use lx_base::CueNo;
use lx_console::Console;
use lx_edit::Plan;
use lx_io::{Heap, SystemHeap};
use lx_show::{Cue, Refusal, Show};

/// The show after a record of the stage as cue `n`, which is made where it is absent: each channel whose level on
/// stage isn't its tracked level there moves in it to that level. The level on stage is that of the playback, before
/// submasters and master. A move that was there stays in its part; a new one is in part 1. With `only` the next cue
/// keeps the levels that it had.
///
/// The console stays as it is. Refused with `CueLimit` exactly where the cue is absent and the show has as many cues
/// as it may have; with `Memory` only where memory runs out and the record isn't refused.
pub fn recorded(console: &Console, n: CueNo, only: bool) -> Result<Show, Refusal>
    requires { n ≢ 0 }
    ensures { (d : Desk) → StandsFor d console.now → Records (recorded d n only) result }
{
    let mut heap = SystemHeap::new(console.allocator());
    recorded_in(&mut heap, console, n, only)
}

/// The same, by a heap. `Memory` comes only where the heap refused some in this call and the record isn't refused.
pub fn recorded_in<H: Heap>(
    heap: &mut H,
    console: &Console,
    n: CueNo,
    only: bool,
) -> Result<Show, Refusal>
    requires { n ≢ 0 }
    ensures records { (d : Desk) → StandsFor d console.now → Records (recorded d n only) result }
    ensures cause { HasCauseOf Refusal.Memory (H.refusals heap.old) (H.refusals heap.new) result }
{
    recorded_now(heap, console, n, only)
}

/// The plan of that record: it makes the show that `recorded` answers, without a copy of the show. `Memory` comes only where the heap
/// refused some in this call and the record isn't refused.
pub fn plan_record_in<H: Heap>(
    heap: &mut H,
    console: &Console,
    n: CueNo,
    only: bool,
) -> Result<Plan, Refusal>
    requires { n ≢ 0 }
    ensures ready { IfOk result (IsReady console.now.show) }
    ensures plans { (d : Desk) → StandsFor d console.now → PlansRecord console.now.show (recorded d n only) result }
    ensures cause { HasCauseOf Refusal.Memory (H.refusals heap.old) (H.refusals heap.new) result }
{
    let cues = recorded_cues(heap, console, n, only)?;
    Ok(plan_of(n, cues))
}

/// The same show, of the levels over the live runs.
fn recorded_now<H: Heap>(
    heap: &mut H,
    console: &Console,
    n: CueNo,
    only: bool,
) -> Result<Show, Refusal>
    requires { n ≢ 0 }
    ensures records { Records (with_recorded (level_now console.now) console.now.show n only) result }
    ensures cause { HasCauseOf Refusal.Memory (H.refusals heap.old) (H.refusals heap.new) result }
{
    let cues = recorded_cues(heap, console, n, only)?;
    Ok(placed(console.show().copy_in(heap)?, cues))
}

/// The cues that a record places.
#[derive(Drop)]
struct RecordedCues {
    /// The recorded one.
    cue: Cue,
    /// The one above it, where that is to keep its levels.
    above: Option<Cue>,
}

/// The cues that the record of the levels over the live runs places.
fn recorded_cues<H: Heap>(
    heap: &mut H,
    console: &Console,
    n: CueNo,
    only: bool,
) -> Result<RecordedCues, Refusal>
    requires { n ≢ 0 }
    ensures ready { IfOk result (λ cues. IsReady console.now.show (Plan.Cue n (Some cues.cue) cues.above false)) }
    ensures records { MatchResult result
        (λ cues. with_recorded (level_now console.now) console.now.show n only
        ≡ Ok (with_above cues.above (with_cue console.now.show cues.cue)))
        (IsRefused (with_recorded (level_now console.now) console.now.show n only)) }
    ensures cause { HasCauseOf Refusal.Memory (H.refusals heap.old) (H.refusals heap.new) result }
{
    let before = console.show();
    if !before.has_room_for(n) {
        return Err(Refusal::CueLimit);
    }
    let cue = staged(heap, console, n)?;
    let above = kept_above(heap, console, n, only)?;
    Ok(RecordedCues { cue, above })
}

/// The plan that places the cues, of which the recorded one has the number.
fn plan_of(number: CueNo, cues: RecordedCues) -> Plan
    ensures { result ≡ Plan.Cue number (Some cues.cue) cues.above false }
{
    let RecordedCues { cue, above } = cues;
    Plan::Cue {
        number,
        to: Some(cue),
        above,
        keeps: false,
    }
}

/// The show with the cues. There is room for them.
fn placed(show: Show, cues: RecordedCues) -> Show
    requires cue { CanPlace show cues.cue }
    requires above { IfSome cues.above (CanPlace (with_cue show cues.cue)) }
    ensures { result ≡ with_above cues.above (with_cue show cues.cue) }
{
    let RecordedCues { cue, above } = cues;
    let mut after = show;
    after.put_cue(cue);
    if let Some(above) = above {
        after.put_cue(above);
    }
    after
}
