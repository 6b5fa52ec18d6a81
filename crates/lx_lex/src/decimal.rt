//! Numbers with decimals, in parts of a unit.

ghost use Rattle.std.specs.Prelude.{◌≡◌, ◌+◌, ◌*◌, ◌/◌, ◌^◌, ◌<◌, ◌≤◌, true, false, ◌&&◌, length, MatchOption};
ghost use Rattle.lx_lex.specs.Imports.{list_all, is_digit, is_decimal, number_of, whole_part, decimals, IsPowerOfTen, IsDecimal};

use crate::digits::{TOO_GREAT, cut_at, digit, number};

/// A number with decimals, in parts of a unit.
#[derive(Clone, Copy, Debug)]
pub(crate) struct Decimal {
    /// The number of its value, or `TOO_GREAT` units and more.
    pub(crate) whole: u64,
    /// How many digits stand before the point.
    pub(crate) digits: usize,
    /// What stands after the point, in parts of the unit, rounded down.
    pub(crate) part: u32,
    /// How many parts the last decimal's place is; 0 where the decimals are finer than the parts.
    pub(crate) step: u32,
}

impl Decimal {
    /// The digits with at most one point among or before them; None where the text hasn't that form.
    pub(crate) fn read(text: &[u8], unit: u32) -> Option<Decimal>
        requires { IsPowerOfTen unit }
        ensures { MatchOption result (is_decimal text.now ≡ false) (λ d. (is_decimal text.now ≡ true) × IsDecimal unit text.now d) }
    {
        let (before, after) = parts(text)?;
        let (part, step) = fraction(after, unit)?;
        Some(Decimal {
            whole: number(before)?,
            digits: before.len(),
            part,
            step,
        })
    }

    /// The number in parts of the unit.
    pub(crate) fn value(self, unit: u32) -> u64
        requires whole { self.whole ≤ TOO_GREAT }
        ensures { result ≡ unit * self.whole + self.part }
    {
        u64::from(unit) * self.whole + u64::from(self.part)
    }
}

/// What stands before and after the point. None where the text is empty, or nothing stands after its point.
fn parts(text: &[u8]) -> Option<(&[u8], &[u8])>
    ensures { MatchOption result (is_decimal text.now ≡ false)
        (λ p. (p.0.now ≡ whole_part text.now) × (p.1.now ≡ decimals text.now)
        × (is_decimal text.now ≡ (list_all is_digit p.0.now && list_all is_digit p.1.now))) }
{
    match cut_at(text, b'.') {
        Some((_, [])) => None,
        Some(parts) => Some(parts),
        None if text.is_empty() => None,
        None => Some((text, &[])),
    }
}

/// What decimals come to in parts of a unit, rounded down, and how many parts the last one's place is.
fn fraction(digits: &[u8], unit: u32) -> Option<(u32, u32)>
    requires { IsPowerOfTen unit }
    ensures { MatchOption result (list_all is_digit digits.now ≡ false)
        (λ f. (list_all is_digit digits.now ≡ true)
        × (f.0 ≡ number_of digits.now * unit / 10 ^ length digits.now)
        × (f.1 ≡ unit / 10 ^ length digits.now)
        × (f.0 < unit)) }
{
    let mut part = 0;
    let mut step = unit;
    for b in digits {
        step /= 10;
        part += u32::from(digit(*b)?) * step;
    }
    Some((part, step))
}
