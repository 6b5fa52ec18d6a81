//! Edits of one cue that leave its levels: its times, parts, follow and label, that it is asserted, and a new cue.

ghost use Rattle.std.specs.Prelude.{◌≡◌, ◌≢◌, Err, IfSome};
ghost use Rattle.lx_edit.specs.Imports.{HasCauseOf, IsTime, with_time, Plans};

use crate::absent::{the_cue, the_part};
use crate::plans::Plan;
use lx_base::{CUES, Cs, CueNo, PartNo};
use lx_io::Heap;
use lx_show::{Cue, Edit, Part, Refusal, Show, facts, new_part};
use lx_spec::LabelText;
use std::alloc::Global;

/// A new cue with part 1 and nothing else; nothing where it is there.
pub(crate) fn make_cue(alloc: Global, show: &Show, n: CueNo) -> Result<Plan, Refusal>
    requires { n ≢ 0 }
    ensures plan { Plans show.now (Edit.MakeCue n) result }
    ensures memory { result ≢ Err Refusal.Memory }
{
    if show.cue(n).is_some() {
        return Ok(Plan::Nothing);
    }
    if show.cues().len() < CUES {
        Ok(Plan::Cue {
            number: n,
            to: Some(Cue::new(alloc, n)),
            above: None,
            keeps: false,
        })
    } else {
        Err(Refusal::CueLimit)
    }
}

/// The part has the time and the delay, for rising channels or for falling ones.
pub(crate) fn time<H: Heap>(
    heap: &mut H,
    show: &Show,
    n: CueNo,
    p: PartNo,
    rising: bool,
    time: Cs,
    delay: Cs,
) -> Result<Plan, Refusal>
    requires time { IsTime time }
    requires delay { IsTime delay }
    ensures plan { Plans show.now (Edit.Time n p rising time delay) result }
    ensures cause { HasCauseOf Refusal.Memory (H.refusals heap.old) (H.refusals heap.new) result }
{
    let old = the_cue(show, n)?;
    let part = the_part(old, p)?;
    let mut cue = old.copy(heap)?;
    cue.put_part(with_time(part, rising, time, delay));
    Ok(Plan::Cue {
        number: n,
        to: Some(cue),
        above: None,
        keeps: false,
    })
}

/// The part with the times of one direction.
fn with_time(part: Part, rising: bool, time: Cs, delay: Cs) -> Part
    ensures { result ≡ with_time part rising time delay }
{
    if rising {
        Part {
            up: time,
            up_delay: delay,
            ..part
        }
    } else {
        Part {
            down: time,
            down_delay: delay,
            ..part
        }
    }
}

/// A new part of the cue; nothing where it is there.
pub(crate) fn add_part<H: Heap>(
    heap: &mut H,
    show: &Show,
    n: CueNo,
    p: PartNo,
) -> Result<Plan, Refusal>
    ensures plan { Plans show.now (Edit.AddPart n p) result }
    ensures cause { HasCauseOf Refusal.Memory (H.refusals heap.old) (H.refusals heap.new) result }
{
    let old = the_cue(show, n)?;
    if old.part(p).is_some() {
        return Ok(Plan::Nothing);
    }
    let mut cue = old.copy(heap)?;
    let _ = p.get();
    cue.put_part(new_part(p));
    Ok(Plan::Cue {
        number: n,
        to: Some(cue),
        above: None,
        keeps: false,
    })
}

/// The part goes, and its moves go to part 1, which stays.
pub(crate) fn delete_part<H: Heap>(
    heap: &mut H,
    show: &Show,
    n: CueNo,
    p: PartNo,
) -> Result<Plan, Refusal>
    ensures plan { Plans show.now (Edit.DeletePart n p) result }
    ensures cause { HasCauseOf Refusal.Memory (H.refusals heap.old) (H.refusals heap.new) result }
{
    let old = the_cue(show, n)?;
    the_part(old, p)?;
    if p.get() == 1 {
        return Err(Refusal::BasePart);
    }
    let mut cue = old.copy(heap)?;
    let _ = cue.drop_part(p);
    Ok(Plan::Cue {
        number: n,
        to: Some(cue),
        above: None,
        keeps: false,
    })
}

/// The cue is asserted, or it is not.
pub(crate) fn assert<H: Heap>(
    heap: &mut H,
    show: &Show,
    n: CueNo,
    on: bool,
) -> Result<Plan, Refusal>
    ensures plan { Plans show.now (Edit.Asserted n on) result }
    ensures cause { HasCauseOf Refusal.Memory (H.refusals heap.old) (H.refusals heap.new) result }
{
    let mut cue = the_cue(show, n)?.copy(heap)?;
    cue.asserted = on;
    Ok(Plan::Cue {
        number: n,
        to: Some(cue),
        above: None,
        keeps: false,
    })
}

/// The cue above starts by itself so long after the cue, or not.
pub(crate) fn follow<H: Heap>(
    heap: &mut H,
    show: &Show,
    n: CueNo,
    after: Option<Cs>,
) -> Result<Plan, Refusal>
    requires { IfSome after IsTime }
    ensures plan { Plans show.now (Edit.Follow n after) result }
    ensures cause { HasCauseOf Refusal.Memory (H.refusals heap.old) (H.refusals heap.new) result }
{
    let mut cue = the_cue(show, n)?.copy(heap)?;
    cue.follow = after;
    Ok(Plan::Cue {
        number: n,
        to: Some(cue),
        above: None,
        keeps: false,
    })
}

/// The cue has the label.
pub(crate) fn name<H: Heap>(
    heap: &mut H,
    show: &Show,
    n: CueNo,
    label: &LabelText,
) -> Result<Plan, Refusal>
    ensures plan { Plans show.now (Edit.Name n label.now) result }
    ensures cause { HasCauseOf Refusal.Memory (H.refusals heap.old) (H.refusals heap.new) result }
{
    let mut cue = the_cue(show, n)?.copy(heap)?;
    let label = label.label();
    facts::of_label(&label);
    cue.label = label;
    Ok(Plan::Cue {
        number: n,
        to: Some(cue),
        above: None,
        keeps: false,
    })
}
