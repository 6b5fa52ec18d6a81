//! Laws of records, each the contract of a function with nothing to do.

ghost use Rattle.lx_record.specs.Laws.{LawOfRecords};

/// After a record each channel's tracked level at the cue is its level on stage; moves come only where they differed;
/// and a record of one cue alone leaves the tracked levels of every other cue.
pub fn records()
    ensures { LawOfRecords }
{}
