//! Decimal digits, and a text cut at a mark.

ghost use Rattle.std.specs.Prelude.{◌≡◌, ◌-◌, ◌==◌, ◌≤◌, true, false, min, MatchOption};
ghost use Rattle.lx_lex.specs.Imports.{list_all, list_any, before_first, after_first, position, is_digit, is_number, number_of};

/// Numbers from here on aren't told apart: each is above every limit.
pub(crate) const TOO_GREAT: u64 = 0x1_0000_0000;

/// The value of a digit.
pub(crate) fn digit(b: u8) -> Option<u8>
    ensures { MatchOption result (is_digit b ≡ false) (λ d. (is_digit b ≡ true) × (d ≡ b - 48) × (d ≤ 9)) }
{
    match b {
        b'0'..=b'9' => Some(b - b'0'),
        _ => None,
    }
}

/// The number that digits spell, or `TOO_GREAT` where it is at least that; 0 where there are none. None where
/// a byte is no digit.
pub(crate) fn number(digits: &[u8]) -> Option<u64>
    ensures { MatchOption result (list_all is_digit digits.now ≡ false)
        (λ n. (list_all is_digit digits.now ≡ true) × (n ≡ min (number_of digits.now) TOO_GREAT)) }
{
    let mut number = 0;
    for b in digits {
        number = (10 * number + u64::from(digit(*b)?)).min(TOO_GREAT);
    }
    Some(number)
}

/// The whole number that a text spells, or `TOO_GREAT` where it is at least that. None where it isn't digits,
/// one or more.
pub(crate) fn whole(text: &[u8]) -> Option<u64>
    ensures { MatchOption result (is_number text.now ≡ false) (λ n. (is_number text.now ≡ true)
        × (n ≡ min (number_of text.now) TOO_GREAT)) }
{
    if text.is_empty() { None } else { number(text) }
}

/// What stands before and after the first byte that is the mark. None where no byte is.
pub(crate) fn cut_at(text: &[u8], mark: u8) -> Option<(&[u8], &[u8])>
    ensures { MatchOption result (list_any (λ b. b == mark) text.now ≡ false)
        (λ p. (list_any (λ b. b == mark) text.now ≡ true)
        × (p.0.now ≡ before_first (λ b. b == mark) text.now) × (p.1.now ≡ after_first (λ b. b == mark) text.now)) }
{
    let place = index_of_mark(text, mark)?;
    Some((&text[..place], &text[place + 1..]))
}

/// The index of the first byte that is the mark.
fn index_of_mark(text: &[u8], mark: u8) -> Option<usize>
    ensures { result ≡ position (λ b. b == mark) text.now }
{
    text.iter().position(|b| *b == mark)
}
