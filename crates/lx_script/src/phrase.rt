//! Phrases of a script line. Each takes its tokens from the front of those that are left, and is `None` where they
//! aren't there.

ghost use Rattle.std.specs.Prelude.{◌≡◌, false, option_map, if◌then◌else◌};
ghost use Rattle.lx_script.specs.Imports.{option_map_or, str_to_ascii_uppercase, Span, read_whole, read_level, read_time, word, value};
ghost use Rattle.lx_script.specs.Imports.{value_or, ended, channel, channels, at_level, in_part, only_or_end, cue_number, time, left};
ghost use Rattle.lx_base.specs.declared.TheConstants.{CHANNELS, DIMMERS, GROUPS, PARTS, SUBS};

use lx_base::{Chan, ChanRange, Cs, CueNo, Dimmer, GroupNo, Level, PartNo, SubNo};
use lx_lex::{
    Tokens, read_channel, read_cue_no, read_dimmer, read_group, read_level, read_part, read_sub,
    read_time, word_is,
};

/// The word, in either case.
pub(crate) fn word(rest: &mut Tokens, text: &[u8]) -> Option<()>
    ensures { option_map (λ _. left rest.new) result ≡ word (str_to_ascii_uppercase text.now) (left rest.old) }
{
    if word_is(rest.next()?, text) {
        Some(())
    } else {
        None
    }
}

/// Whether the word is next; then it is taken.
pub(crate) fn takes(rest: &mut Tokens, text: &[u8]) -> bool
    ensures taken { word (str_to_ascii_uppercase text.now) (left rest.old) ≡ (if result then Some (left rest.new) else None) }
    ensures left { result ≡ false → left rest.new ≡ left rest.old }
{
    let mut ahead = *rest;
    match ahead.next() {
        Some(token) if word_is(token, text) => {
            *rest = ahead;
            true
        }
        _ => false,
    }
}

/// A cue number, which names a cue.
pub(crate) fn cue_number(rest: &mut Tokens) -> Option<CueNo>
    ensures { option_map (λ n. (n, left rest.new)) result ≡ cue_number (left rest.old) }
{
    read_cue_no(rest.next()?).ok()
}

/// A part number.
pub(crate) fn part(rest: &mut Tokens) -> Option<PartNo>
    ensures { option_map (λ p. (p, left rest.new)) result ≡ value (read_whole 1 PARTS) (left rest.old) }
{
    read_part(rest.next()?).ok()
}

/// A group number.
pub(crate) fn group(rest: &mut Tokens) -> Option<GroupNo>
    ensures { option_map (λ g. (g, left rest.new)) result ≡ value (read_whole 1 GROUPS) (left rest.old) }
{
    read_group(rest.next()?).ok()
}

/// A submaster number.
pub(crate) fn sub(rest: &mut Tokens) -> Option<SubNo>
    ensures { option_map (λ s. (s, left rest.new)) result ≡ value (read_whole 1 SUBS) (left rest.old) }
{
    read_sub(rest.next()?).ok()
}

/// A dimmer.
pub(crate) fn dimmer(rest: &mut Tokens) -> Option<Dimmer>
    ensures { option_map (λ e. (e, left rest.new)) result ≡ value (read_whole 1 DIMMERS) (left rest.old) }
{
    read_dimmer(rest.next()?).ok()
}

/// A time in hundredths of a second.
pub(crate) fn time(rest: &mut Tokens) -> Option<Cs>
    ensures { option_map (λ t. (t, left rest.new)) result ≡ time (left rest.old) }
{
    read_time(rest.next()?).ok()
}

/// `[d]`, and nothing else: a delay in hundredths of a second, none where it is absent.
pub(crate) fn delay_or_end(mut rest: Tokens) -> Option<Cs>
    ensures { result ≡ value_or read_time 0 (left rest.entry) }
{
    match rest.next() {
        None => Some(0),
        Some(token) => ended(rest, read_time(token).ok()?),
    }
}

/// A channel.
pub(crate) fn channel(rest: &mut Tokens) -> Option<Chan>
    ensures { option_map (λ c. (c, left rest.new)) result ≡ channel (left rest.old) }
{
    read_channel(rest.next()?).ok()
}

/// `a` or `a thru b`: a channel alone, or those from a first to a last.
pub(crate) fn channels(rest: &mut Tokens) -> Option<ChanRange>
    ensures { option_map (λ range. (range, left rest.new)) result ≡ channels (left rest.old) }
{
    let first = channel(rest)?;
    let last = if takes(rest, b"THRU") {
        channel(rest)?
    } else {
        first
    };
    ChanRange::new(first, last)
}

/// `at L`: a level.
pub(crate) fn at_level(rest: &mut Tokens) -> Option<Level>
    ensures { option_map (λ l. (l, left rest.new)) result ≡ at_level (left rest.old) }
{
    word(rest, b"AT")?;
    read_level(rest.next()?).ok()
}

/// `[part p]`: a part, where one is named.
pub(crate) fn in_part(rest: &mut Tokens) -> Option<Option<PartNo>>
    ensures { option_map (λ p. (p, left rest.new)) result ≡ in_part (left rest.old) }
{
    if takes(rest, b"PART") {
        Some(Some(part(rest)?))
    } else {
        Some(None)
    }
}

/// `[only]`, and nothing else.
pub(crate) fn only_or_end(mut rest: Tokens) -> Option<bool>
    ensures { result ≡ only_or_end (left rest.entry) (λ only. only) }
{
    let Some(token) = rest.next() else {
        return Some(false);
    };
    if word_is(token, b"ONLY") {
        ended(rest, true)
    } else {
        None
    }
}

/// Nothing else: the answer.
pub(crate) fn ended<A: Drop>(mut rest: Tokens, answer: A) -> Option<A>
    ensures { result ≡ ended (left rest.entry) answer }
{
    match rest.next() {
        None => Some(answer),
        Some(_) => None,
    }
}
