//! The numbers of a line, by their ranges, and the faults of those that it lacks.

ghost use Rattle.std.specs.Prelude.{◌≡◌, ◌∷◌, [], IfOk, MatchOption};
ghost use Rattle.lx_reader.specs.Imports.{desk_limits, read_cue_no, read_time, read_whole, delay_at, is_page_one, number, IsTime, left};
ghost use Rattle.lx_reader.specs.Imports.{token_fault, FirstIsPage, next_number, next_times, record_number};
ghost use Rattle.lx_base.specs.declared.TheConstants.{CHANNELS, GROUPS, PARTS, SUBS};

use lx_base::{Chan, Cs, CueNo, GroupNo, PartNo, SubNo};
use lx_lex::{
    Bad, Tokens, read_channel, read_cue_no, read_group, read_part, read_sub, read_time, read_whole,
};
use lx_spec::TextFault;

/// The fault of a token at a line.
pub(crate) fn token_fault(i: u32, bad: Bad) -> TextFault
    ensures { result ≡ token_fault i bad }
{
    match bad {
        Bad::Shape => TextFault::BadNumber(i),
        Bad::Range => TextFault::OutOfRange(i),
    }
}

/// The channel number that comes next.
pub(crate) fn next_channel(i: u32, mut tokens: Tokens) -> Result<Chan, TextFault>
    ensures { result ≡ next_number i (read_whole 1 CHANNELS) (left tokens.entry) }
{
    let Some(token) = tokens.next() else {
        return Err(TextFault::ShortList(i));
    };
    read_channel(token).map_err(|bad| token_fault(i, bad))
}

/// The part number that comes next.
pub(crate) fn next_part(i: u32, mut tokens: Tokens) -> Result<PartNo, TextFault>
    ensures { result ≡ next_number i (read_whole 1 PARTS) (left tokens.entry) }
{
    let Some(token) = tokens.next() else {
        return Err(TextFault::ShortList(i));
    };
    read_part(token).map_err(|bad| token_fault(i, bad))
}

/// The time that comes next.
pub(crate) fn next_time(i: u32, mut tokens: Tokens) -> Result<Cs, TextFault>
    ensures number { result ≡ next_number i read_time (left tokens.entry) }
    ensures time { IfOk result IsTime }
{
    let Some(token) = tokens.next() else {
        return Err(TextFault::ShortList(i));
    };
    time_at(i, token)
}

/// The time that a token of line i spells.
fn time_at(i: u32, token: &[u8]) -> Result<Cs, TextFault>
    ensures number { result ≡ number i (read_time token.now) }
    ensures time { IfOk result IsTime }
{
    match read_time(token) {
        Ok(time) => Ok(time),
        Err(bad) => Err(token_fault(i, bad)),
    }
}

/// The cue number that comes next.
pub(crate) fn next_cue_no(i: u32, mut tokens: Tokens) -> Result<CueNo, TextFault>
    ensures { result ≡ next_number i (read_cue_no desk_limits) (left tokens.entry) }
{
    let Some(token) = tokens.next() else {
        return Err(TextFault::ShortList(i));
    };
    read_cue_no(token).map_err(|bad| token_fault(i, bad))
}

/// The time that comes next and the delay after it.
pub(crate) fn next_times(i: u32, mut tokens: Tokens) -> Result<(Cs, Cs), TextFault>
    ensures numbers { result ≡ next_times i (left tokens.entry) }
    ensures times { IfOk result (λ t. IsTime t.0 × IsTime t.1) }
{
    let Some(token) = tokens.next() else {
        return Err(TextFault::ShortList(i));
    };
    let time = time_at(i, token)?;
    let delay = delay(i, tokens)?;
    Ok((time, delay))
}

/// A delay; 0 where no token is left.
fn delay(i: u32, mut tokens: Tokens) -> Result<Cs, TextFault>
    ensures number { result ≡ delay_at i (left tokens.entry) }
    ensures time { IfOk result IsTime }
{
    match tokens.next() {
        Some(token) => time_at(i, token),
        None => Ok(0),
    }
}

/// The record is of page 1: no page is named, or page 1.
fn is_page_one(mut tokens: Tokens) -> bool
    ensures { result ≡ is_page_one (left tokens.entry) }
{
    match tokens.next() {
        Some(page) => is_one(page),
        None => true,
    }
}

/// Takes the page of a line, and says whether it is page 1. None where no token is left.
#[inline(always)]
pub(crate) fn take_page(tokens: &mut Tokens) -> Option<bool>
    ensures { MatchOption result (left tokens.old ≡ []) (λ one. FirstIsPage (left tokens.old) one (left tokens.new)) }
{
    match tokens.take_number() {
        Some(page) => Some(page == 1),
        None => Some(is_one(tokens.next()?)),
    }
}

/// The token is the page 1.
fn is_one(page: &[u8]) -> bool
    ensures { result ≡ is_page_one (page.now ∷ []) }
{
    read_whole(page, 1, 1).is_ok()
}

/// The number of a cue that a record names; None where it is of another page.
pub(crate) fn cue_of_record(i: u32, mut tokens: Tokens) -> Result<Option<CueNo>, TextFault>
    ensures { result ≡ record_number i (read_cue_no desk_limits) (left tokens.entry) }
{
    let Some(token) = tokens.next() else {
        return Err(TextFault::ShortList(i));
    };
    if !is_page_one(tokens) {
        return Ok(None);
    }
    match read_cue_no(token) {
        Ok(number) => Ok(Some(number)),
        Err(bad) => Err(token_fault(i, bad)),
    }
}

/// The number of a group that a record names; None where it is of another page.
pub(crate) fn group_of_record(i: u32, mut tokens: Tokens) -> Result<Option<GroupNo>, TextFault>
    ensures { result ≡ record_number i (read_whole 1 GROUPS) (left tokens.entry) }
{
    let Some(token) = tokens.next() else {
        return Err(TextFault::ShortList(i));
    };
    if !is_page_one(tokens) {
        return Ok(None);
    }
    match read_group(token) {
        Ok(number) => Ok(Some(number)),
        Err(bad) => Err(token_fault(i, bad)),
    }
}

/// The number of a submaster that a record names; None where it is of another page.
pub(crate) fn sub_of_record(i: u32, mut tokens: Tokens) -> Result<Option<SubNo>, TextFault>
    ensures { result ≡ record_number i (read_whole 1 SUBS) (left tokens.entry) }
{
    let Some(token) = tokens.next() else {
        return Err(TextFault::ShortList(i));
    };
    if !is_page_one(tokens) {
        return Ok(None);
    }
    match read_sub(token) {
        Ok(number) => Ok(Some(number)),
        Err(bad) => Err(token_fault(i, bad)),
    }
}
