//! Tokens that are numbers of a desk's channels, dimmers, parts, groups and submasters.

ghost use Rattle.std.specs.Prelude.{◌≡◌};
ghost use Rattle.lx_base.specs.declared.TheConstants.{CHANNELS, DIMMERS, GROUPS, PARTS, SUBS};
ghost use Rattle.lx_spec.specs.Numerals.{read_whole};

use crate::read::read_whole;
use lx_base::{CHANNELS, Chan, DIMMERS, Dimmer, GROUPS, GroupNo, PARTS, PartNo, SUBS, SubNo};
use lx_spec::Bad;

/// A channel number.
pub fn read_channel(token: &[u8]) -> Result<Chan, Bad>
    ensures { result ≡ read_whole 1 CHANNELS token.now }
{
    Chan::new(read_whole(token, 1, CHANNELS)?).ok_or(Bad::Range)
}

/// A dimmer number.
pub fn read_dimmer(token: &[u8]) -> Result<Dimmer, Bad>
    ensures { result ≡ read_whole 1 DIMMERS token.now }
{
    Dimmer::new(read_whole(token, 1, DIMMERS)?).ok_or(Bad::Range)
}

/// A part number.
pub fn read_part(token: &[u8]) -> Result<PartNo, Bad>
    ensures { result ≡ read_whole 1 PARTS token.now }
{
    PartNo::new(read_whole(token, 1, PARTS)?).ok_or(Bad::Range)
}

/// A group number.
pub fn read_group(token: &[u8]) -> Result<GroupNo, Bad>
    ensures { result ≡ read_whole 1 GROUPS token.now }
{
    GroupNo::new(read_whole(token, 1, GROUPS)?).ok_or(Bad::Range)
}

/// A submaster number.
pub fn read_sub(token: &[u8]) -> Result<SubNo, Bad>
    ensures { result ≡ read_whole 1 SUBS token.now }
{
    SubNo::new(read_whole(token, 1, SUBS)?).ok_or(Bad::Range)
}
