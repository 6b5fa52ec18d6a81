//! Numbers of digits alone, read in one pass over their bytes.
#![tactic(auto, using(crate::proofs::PlainNumbers::number_first))]

ghost use Rattle.std.specs.Prelude.{◌≡◌, ◌<◌, ◌≤◌, ◌+◌, ◌*◌, true, length, IfSome, List, ℕ};
ghost use Rattle.lx_lex.specs.Imports.{is_separator, after_all, tokens, BeginsWithDigits, EndsToken, FirstIsLevel, FirstIsNumber};

use crate::digits::digit;
use crate::hex::hex_value;
use crate::scan::{is_separator, past_separators};
use lx_base::Level;

/// The number that the first token is, and what follows it and the separator that ends it. None where it isn't digits
/// alone, or has more digits than any number within its limit, but for zeros before it.
#[inline(always)]
pub(crate) fn first_number(line: &[u8]) -> Option<(u32, &[u8])>
    ensures { IfSome result (λ p. FirstIsNumber (tokens line.now) p.0 (tokens p.1.now)) }
{
    if let Some((number, rest)) = front_digits(line) {
        let others = past_end(rest)?;
        return Some((number, others));
    }
    if line.is_empty() {
        return None;
    }
    number_behind(line)
}

/// The same where the token stands behind separators, or isn't a number.
#[inline(never)]
fn number_behind(line: &[u8]) -> Option<(u32, &[u8])>
    ensures { IfSome result (λ p. FirstIsNumber (tokens line.now) p.0 (tokens p.1.now)) }
{
    let (number, rest) = front_digits(past_separators(line))?;
    let others = past_end(rest)?;
    Some((number, others))
}

/// The same where the token is at most four digits at the front of the line, and ends with this separator.
#[inline(always)]
pub(crate) fn number_before(line: &[u8], separator: u8) -> Option<(u32, &[u8])>
    requires { is_separator separator ≡ true }
    ensures { IfSome result (λ p. FirstIsNumber (tokens line.now) p.0 (tokens p.1.now)) }
{
    if line.len() < 5 {
        return None;
    }
    let (number, rest) = four_digits(line)?;
    let others = past_byte(rest, separator)?;
    Some((number, others))
}

/// The level that the first token is where it is `H` and two hexadecimal digits, and what follows it and the separator that
/// ends it. None where the token isn't that, or stands behind a separator.
#[inline(always)]
pub(crate) fn first_hex(line: &[u8]) -> Option<(Level, &[u8])>
    ensures { IfSome result (λ p. FirstIsLevel (tokens line.now) p.0 (tokens p.1.now)) }
{
    let [first, high, low, rest @ ..] = line else {
        return None;
    };
    if *first != b'H' {
        return None;
    }
    let high = hex_value(*high)?;
    let low = hex_value(*low)?;
    let others = past_end(rest)?;
    Some((16 * high + low, others))
}

/// The same where the token is `FL`.
#[inline(always)]
pub(crate) fn first_full(line: &[u8]) -> Option<(Level, &[u8])>
    ensures { IfSome result (λ p. FirstIsLevel (tokens line.now) p.0 (tokens p.1.now)) }
{
    let [first, second, rest @ ..] = line else {
        return None;
    };
    if *first != b'F' {
        return None;
    }
    if *second != b'L' {
        return None;
    }
    let others = past_end(rest)?;
    Some((255, others))
}

/// The number that the digits at the front spell, the first four of them, and what follows these. None where no digit stands there.
#[inline(always)]
fn front_digits(text: &[u8]) -> Option<(u32, &[u8])>
    ensures digits { IfSome result (λ p. BeginsWithDigits text.now p.0 p.1.now) }
    ensures some { IfSome result (λ p. length p.1.now < length text.now) }
{
    if text.len() < 4 {
        few_digits(text)
    } else {
        four_digits(text)
    }
}

/// The same where fewer than four bytes are left. Only here it is asked whether there is another byte.
#[inline(never)]
fn few_digits(text: &[u8]) -> Option<(u32, &[u8])>
    ensures digits { IfSome result (λ p. BeginsWithDigits text.now p.0 p.1.now) }
    ensures some { IfSome result (λ p. length p.1.now < length text.now) }
{
    four_digits(text)
}

/// The same of any text.
#[inline(always)]
fn four_digits(text: &[u8]) -> Option<(u32, &[u8])>
    ensures digits { IfSome result (λ p. BeginsWithDigits text.now p.0 p.1.now) }
    ensures some { IfSome result (λ p. length p.1.now < length text.now) }
{
    let (one, first) = digit_more(0, text)?;
    let Some((two, second)) = digit_more(one, first) else {
        return Some((one, first));
    };
    let Some((three, third)) = digit_more(two, second) else {
        return Some((two, second));
    };
    match digit_more(three, third) {
        Some(four) => Some(four),
        None => Some((three, third)),
    }
}

/// The number with the digit at the front of the text behind it, and what follows that. None where no digit stands there.
#[inline(always)]
fn digit_more(number: u32, text: &[u8]) -> Option<(u32, &[u8])>
    requires { number < 1000 }
    ensures digits { IfSome result (λ p. (line : List ℕ) → BeginsWithDigits line number text.now → BeginsWithDigits line p.0 p.1.now) }
    ensures some { IfSome result (λ p. length p.1.now < length text.now) }
    ensures bound { IfSome result (λ p. p.0 ≤ 10 * number + 9) }
{
    let [b, rest @ ..] = text else {
        return None;
    };
    let digit = digit(*b)?;
    Some((10 * number + u32::from(digit), rest))
}

/// What follows this separator, before which a token ends. None where another byte or nothing is there.
#[inline(always)]
pub(crate) fn past_byte(rest: &[u8], separator: u8) -> Option<&[u8]>
    requires { is_separator separator ≡ true }
    ensures { IfSome result (λ others. EndsToken rest.now others.now) }
{
    match rest {
        [b, others @ ..] if *b == separator => Some(others),
        _ => None,
    }
}

/// What follows the separator before which a token ends; all of the text where the comment or nothing is there. None
/// where the token goes on.
#[inline(always)]
fn past_end(rest: &[u8]) -> Option<&[u8]>
    ensures { IfSome result (λ others. EndsToken rest.now others.now) }
{
    match rest {
        [] | [b'!', ..] => Some(rest),
        [b, others @ ..] if is_separator(*b) => Some(others),
        _ => None,
    }
}
