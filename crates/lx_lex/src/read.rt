//! Number texts: whole numbers, levels, times and cue numbers, as the ASCII text representation 3.0 has them.
//!
//! A malformed text is `Bad::Shape`, and one whose number is out of range `Bad::Range`. Leading
//! zeros are allowed, and a number may have any number of digits.

ghost use Rattle.std.specs.Prelude.{◌≡◌, ◌≤◌, ◌<◌, ◌^◌};
ghost use Rattle.lx_lex.specs.Imports.{desk_limits, hex_value, ranged, read_cue_no, read_hex, read_level, read_minutes, read_seconds};
ghost use Rattle.lx_lex.specs.Imports.{read_time, read_whole};

use crate::decimal::Decimal;
use crate::digits::{cut_at, whole};
use crate::hex::hex_value;
use crate::word::word_is;
use lx_base::{CUE_MAX, CUE_UNIT, Cs, CueNo, Level, TIME_MAX, of_percent};
use lx_spec::Bad;

/// Hundredths of a second in a second.
const SECOND: u32 = 100;

/// A whole number from `least` to `most`.
pub fn read_whole(token: &[u8], least: u32, most: u32) -> Result<u32, Bad>
    ensures { result ≡ read_whole least most token.now }
{
    match whole(token) {
        Some(number) => ranged(number, least, most),
        None => Err(Bad::Shape),
    }
}

/// A level: a percentage, `FL`, or `H` and two hexadecimal digits.
pub fn read_level(token: &[u8]) -> Result<Level, Bad>
    ensures { result ≡ read_level token.now }
{
    match whole(token) {
        Some(percent) if percent <= 100 => Ok(of_percent(percent as u8)),
        Some(_) => Err(Bad::Range),
        None if word_is(token, b"FL") => Ok(255),
        None => read_hex(token),
    }
}

/// A time in hundredths of a second, at most 99:59.99: seconds, or minutes and seconds with a colon between.
/// Decimals past the second are cut off.
pub fn read_time(token: &[u8]) -> Result<Cs, Bad>
    ensures { result ≡ read_time token.now }
{
    match cut_at(token, b':') {
        Some((minutes, seconds)) => read_minutes(minutes, seconds),
        None => read_seconds(token),
    }
}

/// A cue number: no more decimals than its smallest steps have, and no cue 0.
pub fn read_cue_no(token: &[u8]) -> Result<CueNo, Bad>
    ensures { result ≡ read_cue_no desk_limits token.now }
{
    let Some(number) = Decimal::read(token, CUE_UNIT) else {
        return Err(Bad::Shape);
    };
    if number.step == 0 {
        return Err(Bad::Shape);
    }
    let value = ranged(number.value(CUE_UNIT), 1, CUE_MAX)?;
    CueNo::new(value).ok_or(Bad::Range)
}

/// The number, if it is from `least` to `most`.
fn ranged(number: u64, least: u32, most: u32) -> Result<u32, Bad>
    ensures { result ≡ ranged least most number }
{
    if u64::from(least) <= number && number <= u64::from(most) {
        Ok(number as u32)
    } else {
        Err(Bad::Range)
    }
}

/// `H` and two hexadecimal digits.
fn read_hex(token: &[u8]) -> Result<Level, Bad>
    ensures { result ≡ read_hex token.now }
{
    match token {
        [b'H' | b'h', high, low] => match (hex_value(*high), hex_value(*low)) {
            (Some(high), Some(low)) => Ok(16 * high + low),
            _ => Err(Bad::Shape),
        },
        _ => Err(Bad::Shape),
    }
}

/// Seconds, in hundredths.
#[tactic(auto, using(crate::proofs::Fractions::hundred))]
fn read_seconds(token: &[u8]) -> Result<Cs, Bad>
    ensures { result ≡ read_seconds token.now }
{
    match Decimal::read(token, SECOND) {
        Some(seconds) => ranged(seconds.value(SECOND), 0, TIME_MAX),
        None => Err(Bad::Shape),
    }
}

#[tactic(auto, using(crate::proofs::Fractions::hundred))]
/// Minutes and seconds, in hundredths of a second: at most 99 minutes, and 59 whole seconds of one or two digits.
fn read_minutes(minutes: &[u8], seconds: &[u8]) -> Result<Cs, Bad>
    ensures { result ≡ read_minutes minutes.now seconds.now }
{
    match (whole(minutes), Decimal::read(seconds, SECOND)) {
        (Some(minutes), Some(seconds)) if 1 <= seconds.digits && seconds.digits <= 2 => {
            if minutes <= 99 && seconds.whole <= 59 {
                Ok((u64::from(60 * SECOND) * minutes + seconds.value(SECOND)) as u32)
            } else {
                Err(Bad::Range)
            }
        }
        _ => Err(Bad::Shape),
    }
}
