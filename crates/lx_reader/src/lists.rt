//! The lists of a line, pair by pair and triple by triple.

ghost use Rattle.std.specs.Prelude.{◌≡◌, ◌∷◌, Ok, ◌+◌, ◌≤◌, min, IfSome, MatchOption};
ghost use Rattle.lx_reader.specs.Imports.{left, FirstIsLevel, FirstIsNumber, FirstIsMember, FirstIsRow, IsNext, TakesSome, fault_in};
ghost use Rattle.lx_reader.specs.Imports.{all_pairs, all_triples};
ghost use Rattle.lx_base.specs.declared.TheConstants.{CHANNELS};
ghost use Rattle.lx_base.specs.Numbers.{percent as percent_level};

use crate::numbers::token_fault;
use crate::percents::PERCENTS;
use lx_base::{Chan, Dimmer, Level};
use lx_lex::{Bad, Tokens, read_channel, read_dimmer, read_level};
use lx_spec::{Member, PatchRow, TextFault};

/// The fault of a token in a list at a line: that of the list, where it isn't whole.
fn fault_in(i: u32, bad: Bad, whole: bool) -> TextFault
    ensures { result ≡ fault_in i bad whole }
{
    if whole {
        token_fault(i, bad)
    } else {
        TextFault::ShortList(i)
    }
}

/// Channel 1, which is guessed where a list begins.
#[inline(always)]
pub(crate) fn first_guess() -> Chan
    ensures { result ≡ 1 }
{
    match Chan::new(1) {
        Some(chan) => chan,
        None => unreachable!(),
    }
}

/// The channel behind this one, which is guessed next, since most of a list's channels follow one another. The last one has none behind it.
#[inline(always)]
pub(crate) fn guess_behind(chan: Chan) -> Chan
    ensures { result ≡ min (chan + 1) CHANNELS }
{
    match Chan::new(chan.get() + 1) {
        Some(next) => next,
        None => chan,
    }
}

/// The next channel and level where `@` and a space end them and nothing else stands before them, as in most lists, and
/// both are within their ranges. Else no token is taken. The channel is first looked for as the one that is guessed.
#[inline(always)]
pub(crate) fn near_member(guess: Chan, tokens: &mut Tokens) -> Option<Member>
    ensures { MatchOption result (tokens.new ≡ tokens.old) (λ m. FirstIsMember (left tokens.old) m (left tokens.new)) }
{
    let mut rest = *tokens;
    let chan = near_channel(guess, &mut rest)?;
    let level = near_level(&mut rest)?;
    *tokens = rest;
    Some(Member { chan, level })
}

/// The channel that comes next, with `@` behind it and nothing before it. None where it isn't a number of at most four digits. Most often
/// it is the one that is guessed.
#[inline(always)]
fn near_channel(guess: Chan, tokens: &mut Tokens) -> Option<Chan>
    ensures { IfSome result (λ chan. FirstIsNumber (left tokens.old) chan (left tokens.new)) }
{
    if tokens.take_channel(guess) {
        return Some(guess);
    }
    Chan::new(tokens.take_number_before(b'@')?)
}

/// The level that comes next, with nothing before it. None where it isn't a percentage or `H` and two digits.
#[inline(always)]
fn near_level(tokens: &mut Tokens) -> Option<Level>
    ensures { IfSome result (λ level. FirstIsLevel (left tokens.old) level (left tokens.new)) }
{
    if let Some(percent) = tokens.take_number_before(b' ') {
        return plain_level(percent);
    }
    if let Some(level) = tokens.take_hex() {
        return Some(level);
    }
    plain_level(tokens.take_last_number()?)
}

/// The next channel and level of a list of pairs, where the tokens stand in another way; none at its end. A fault is that of the whole list.
#[inline(never)]
#[tactic(auto, using(crate::proofs::Pairs::member_first))]
pub(crate) fn far_member(i: u32, tokens: &mut Tokens) -> Result<Option<Member>, TextFault>
    ensures fewer { TakesSome (left tokens.old) (left tokens.new) result }
    ensures list { IsNext (all_pairs i) (left tokens.old) (left tokens.new) result }
{
    if tokens.is_at_end() {
        return Ok(None);
    }
    match plain_member(tokens) {
        Some(member) => Ok(Some(member)),
        None => any_member(i, tokens),
    }
}

/// The next channel and level where the channel is a number of digits alone, as most are, and both are within their
/// ranges. Else no token is taken.
#[inline(always)]
fn plain_member(tokens: &mut Tokens) -> Option<Member>
    ensures { MatchOption result (tokens.new ≡ tokens.old) (λ m. FirstIsMember (left tokens.old) m (left tokens.new)) }
{
    let mut rest = *tokens;
    let chan = Chan::new(rest.take_number()?)?;
    let level = next_level(&mut rest)?;
    *tokens = rest;
    Some(Member { chan, level })
}

/// The level that comes next. None where no token is left, or the token isn't a level.
#[inline(always)]
fn next_level(tokens: &mut Tokens) -> Option<Level>
    ensures { IfSome result (λ level. FirstIsLevel (left tokens.old) level (left tokens.new)) }
{
    match tokens.take_number() {
        Some(percent) => plain_level(percent),
        None => other_level(tokens),
    }
}

/// The same. It is quicker where the level is `FL`, as in most rows, and where it is a percentage with nothing before it and a space
/// behind it.
#[inline(always)]
fn row_level(tokens: &mut Tokens) -> Option<Level>
    ensures { IfSome result (λ level. FirstIsLevel (left tokens.old) level (left tokens.new)) }
{
    match tokens.take_number_before(b' ') {
        Some(percent) => plain_level(percent),
        None => other_level(tokens),
    }
}

/// The same. It is quickest where the level is `FL` or `H` and two digits, with nothing before it.
#[inline(always)]
fn other_level(tokens: &mut Tokens) -> Option<Level>
    ensures { IfSome result (λ level. FirstIsLevel (left tokens.old) level (left tokens.new)) }
{
    if let Some(level) = tokens.take_full() {
        return Some(level);
    }
    if let Some(level) = tokens.take_hex() {
        return Some(level);
    }
    read_level(tokens.next()?).ok()
}

/// The level of this many percent; none above 100.
#[inline(always)]
#[tactic(auto, using(crate::proofs::PercentLevels::percent_at))]
fn plain_level(percent: u32) -> Option<Level>
    ensures { IfSome result (λ level. (percent ≤ 100) × (level ≡ percent_level percent)) }
{
    if percent <= 100 {
        Some(PERCENTS[percent as usize])
    } else {
        None
    }
}

/// The same, in whatever form the tokens are.
fn any_member(i: u32, tokens: &mut Tokens) -> Result<Option<Member>, TextFault>
    ensures fewer { TakesSome (left tokens.old) (left tokens.new) result }
    ensures list { IsNext (all_pairs i) (left tokens.old) (left tokens.new) result }
{
    let Some(first) = tokens.next() else {
        return Ok(None);
    };
    let chan = match read_channel(first) {
        Ok(chan) => chan,
        Err(bad) => return Err(fault_in(i, bad, tokens.count_left() % 2 == 1)),
    };
    let Some(second) = tokens.next() else {
        return Err(TextFault::ShortList(i));
    };
    match read_level(second) {
        Ok(level) => Ok(Some(Member { chan, level })),
        Err(bad) => Err(fault_in(i, bad, tokens.count_left() % 2 == 0)),
    }
}

/// The next channel, dimmer and level of a list of triples; none at its end. A fault is that of the whole list.
#[inline(always)]
#[tactic(auto, using(crate::proofs::Pairs::row_first))]
pub(crate) fn next_row(i: u32, tokens: &mut Tokens) -> Result<Option<PatchRow>, TextFault>
    ensures fewer { TakesSome (left tokens.old) (left tokens.new) result }
    ensures list { IsNext (all_triples i) (left tokens.old) (left tokens.new) result }
{
    match near_row(tokens) {
        Some(row) => Ok(Some(row)),
        None => far_row(i, tokens),
    }
}

/// The next channel, dimmer and level where `<` and `@` end the first two and nothing else stands before them, as in most lists, and
/// all are within their ranges. Else no token is taken.
#[inline(always)]
fn near_row(tokens: &mut Tokens) -> Option<PatchRow>
    ensures { MatchOption result (tokens.new ≡ tokens.old) (λ row. FirstIsRow (left tokens.old) row (left tokens.new)) }
{
    let mut rest = *tokens;
    let chan = Chan::new(rest.take_number_before(b'<')?)?;
    let dimmer = Dimmer::new(rest.take_number_before(b'@')?)?;
    let level = row_level(&mut rest)?;
    *tokens = rest;
    Some(PatchRow {
        dimmer,
        chan,
        level,
    })
}

/// The same as `next_row`, where the tokens stand in another way.
#[inline(never)]
#[tactic(auto, using(crate::proofs::Pairs::row_first))]
fn far_row(i: u32, tokens: &mut Tokens) -> Result<Option<PatchRow>, TextFault>
    ensures fewer { TakesSome (left tokens.old) (left tokens.new) result }
    ensures list { IsNext (all_triples i) (left tokens.old) (left tokens.new) result }
{
    if tokens.is_at_end() {
        return Ok(None);
    }
    match plain_row(tokens) {
        Some(row) => Ok(Some(row)),
        None => any_row(i, tokens),
    }
}

/// The next channel, dimmer and level where the first two are numbers of digits alone, as most are, and all are within their
/// ranges. Else no token is taken.
#[inline(always)]
fn plain_row(tokens: &mut Tokens) -> Option<PatchRow>
    ensures { MatchOption result (tokens.new ≡ tokens.old) (λ row. FirstIsRow (left tokens.old) row (left tokens.new)) }
{
    let mut rest = *tokens;
    let chan = Chan::new(rest.take_number()?)?;
    let dimmer = Dimmer::new(rest.take_number()?)?;
    let level = next_level(&mut rest)?;
    *tokens = rest;
    Some(PatchRow {
        dimmer,
        chan,
        level,
    })
}

/// The same as `next_row`, in whatever form the tokens are.
fn any_row(i: u32, tokens: &mut Tokens) -> Result<Option<PatchRow>, TextFault>
    ensures fewer { TakesSome (left tokens.old) (left tokens.new) result }
    ensures list { IsNext (all_triples i) (left tokens.old) (left tokens.new) result }
{
    let Some(first) = tokens.next() else {
        return Ok(None);
    };
    let chan = match read_channel(first) {
        Ok(chan) => chan,
        Err(bad) => return Err(fault_in(i, bad, tokens.count_left() % 3 == 2)),
    };
    let Some(second) = tokens.next() else {
        return Err(TextFault::ShortList(i));
    };
    let dimmer = match read_dimmer(second) {
        Ok(dimmer) => dimmer,
        Err(bad) => return Err(fault_in(i, bad, tokens.count_left() % 3 == 1)),
    };
    let Some(third) = tokens.next() else {
        return Err(TextFault::ShortList(i));
    };
    match read_level(third) {
        Ok(level) => Ok(Some(PatchRow {
            dimmer,
            chan,
            level,
        })),
        Err(bad) => Err(fault_in(i, bad, tokens.count_left() % 3 == 0)),
    }
}
