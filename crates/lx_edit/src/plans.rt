//! What an edit changes of a show, made whole before anything is changed; and what takes it back.

use lx_base::{ChanRange, CueNo, Dimmer, GroupNo, SubNo};
use lx_show::{Cue, Group, Move, MoveList, PatchRow, Sub};

/// What an edit changes of a show. It names a thing by its number, and holds what stands there afterwards, or nothing where that goes.
/// Applied, it is exchanged for what stood there: a plan of the same kind, which takes it back. It holds all the memory that the change
/// needs.
#[derive(Drop)]
pub enum Plan {
    /// The show stays as it is: what the edit makes is there already.
    Nothing,
    /// The cue of the number; and then the cue above it, where that is given. With `keeps` both are given, and from the cue above on each
    /// channel keeps its level.
    Cue {
        number: CueNo,
        to: Option<Cue>,
        above: Option<Cue>,
        keeps: bool,
    },
    /// The move that the cue has of the channel.
    Move {
        cue: CueNo,
        to: Move,
    },
    /// The moves of the cue. Channels outside the range have the same in both.
    Moves {
        cue: CueNo,
        to: MoveList,
        within: ChanRange,
    },
    /// The group of the number.
    Group {
        number: GroupNo,
        to: Option<Group>,
    },
    /// The submaster of the number.
    Sub {
        number: SubNo,
        to: Option<Sub>,
    },
    /// The dimmer's row.
    Row {
        dimmer: Dimmer,
        to: Option<PatchRow>,
    },
}
