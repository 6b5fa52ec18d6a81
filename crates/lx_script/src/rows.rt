//! The ready parts of texts: each number that has at most three digits, behind a byte.
#![tactic(auto)]

use lx_lex::{numbers, pairs};

/// A byte, a number and spaces up to four bytes.
macro_rules! row {
    ($before:literal [$a:literal]) => { [$before, $a, b' ', b' '] };
    ($before:literal [$a:literal $b:literal]) => { [$before, $a, $b, b' '] };
    ($before:literal [$a:literal $b:literal $c:literal]) => { [$before, $a, $b, $c] };
}

/// How many bytes a level's cell is, behind a number by which the cell of one digit is so long. A level of 0 has none.
macro_rules! count {
    ($least:literal [b'0']) => { 0 };
    ($least:literal [$a:literal]) => { $least };
    ($least:literal [$a:literal $b:literal]) => { $least + 1 };
    ($least:literal [$a:literal $b:literal $c:literal]) => { $least + 2 };
}

/// Two digits.
macro_rules! pair {
    ($first:literal $second:literal) => { [$first, $second] };
}

/// `=` and a level, at the front of four bytes. The last rows are of no level.
pub(crate) static LEVELS: [[u8; 4]; 300] = numbers! { row b'=': [b'1'] [b'2'] };

/// A space and a number below 1,000, at the front of four bytes.
pub(crate) static NUMBERS: [[u8; 4]; 1000] =
    numbers! { row b' ': [b'1'] [b'2'] [b'3'] [b'4'] [b'5'] [b'6'] [b'7'] [b'8'] [b'9'] };

/// How many bytes the cell of a level is: a row for numbers of one digit, and so on up to four digits.
pub(crate) static COUNTS: [[u8; 300]; 4] = [
    numbers! { count 4: [b'1'] [b'2'] },
    numbers! { count 5: [b'1'] [b'2'] },
    numbers! { count 6: [b'1'] [b'2'] },
    numbers! { count 7: [b'1'] [b'2'] },
];

/// The last two digits of a number, with zeros.
pub(crate) static PAIRS: [[u8; 2]; 100] =
    pairs! { pair: b'0' b'1' b'2' b'3' b'4' b'5' b'6' b'7' b'8' b'9' };
