//! What a call answers, and what it fills in.

/// It was done.
pub const OK: u32 = 0;
/// The desk is closed.
pub const CLOSED: u32 = 1;
/// The desk is open already.
pub const OPEN: u32 = 2;
/// Out of memory.
pub const MEMORY: u32 = 3;
/// The text of the show has a fault.
pub const SHOW_REFUSED: u32 = 4;
/// The text of the show up to its line ENDDATA, or to its first fault, is longer than 67,108,864 bytes.
pub const TOO_LONG: u32 = 5;
/// The bytes aren't one line: there is a LF or a CR among them.
pub const NOT_A_LINE: u32 = 6;
/// There is no such universe, channel, submaster or cue number, or not just 512 slots are asked for.
pub const OUT_OF_RANGE: u32 = 7;
/// The line is `quit`: nothing was done.
pub const QUIT: u32 = 8;
/// Fewer ticks were accepted: the moment is at its end.
pub const AT_END: u32 = 9;
/// The line was done, and its reply is longer than the room.
pub const MORE: u32 = 10;

/// The version of the header for which these calls are.
pub const VERSION: u32 = 1;

/// The fault of a show text, and the number of its line, from 1.
#[repr(C)]
#[derive(Drop)]
pub struct ShowReport {
    /// 0 is no fault; 1 to 7 are NoIdent, BadNumber, OutOfRange, NotInRecord, LineTooLong, ShortList and NoEndData.
    pub fault: u32,
    /// Its line, or 0.
    pub line: u32,
}

/// Where the playback of a desk stands.
#[repr(C)]
#[derive(Drop)]
pub struct PlaybackReport {
    /// The present moment, in hundredths of a second since the opening.
    pub moment: u32,
    /// The cue of the newest live run, or the position at the last rest, in thousandths.
    pub position: u32,
    /// The cue that a `go` would run, or 0.
    pub next: u32,
    /// How many runs are live.
    pub live: u32,
    /// From this moment on every live run is over; 0 where none is live.
    pub over_at: u32,
    /// When the newest live run began, or 0.
    pub began: u32,
    /// From this moment on it is over, or 0.
    pub ends: u32,
    /// When the pending follow is due, or 0.
    pub follow_at: u32,
    /// How many channels the show has.
    pub channels: u32,
    /// How many cues the show has.
    pub cues: u32,
    /// The master.
    pub master: u8,
    /// A follow is pending.
    pub follows: bool,
}
