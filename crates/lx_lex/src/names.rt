//! Ready tables, a row for each number: what writes them, and the channels' numbers.
#![tactic(auto)]

/// A table with a row for each number: those of one digit and of two, and then a hundred for each number whose digits are given. A row is
/// what `row!(with [its digits])` is.
#[macro_export]
macro_rules! numbers {
    ($row:ident $with:tt: $($hundred:tt)*) => {
        $crate::numbers! {
            @each_digit {@hundreds $row $with {$($hundred)*}}
            {[b'0'] [b'1'] [b'2'] [b'3'] [b'4'] [b'5'] [b'6'] [b'7'] [b'8'] [b'9']}
            [b'1'] [b'2'] [b'3'] [b'4'] [b'5'] [b'6'] [b'7'] [b'8'] [b'9']
        }
    };
    // What is kept goes on, and each number once more with each digit behind it.
    (@each_digit {$($then:tt)*} $kept:tt $([$($digit:literal)*])*) => {
        $crate::numbers! { $($then)* $kept $(
            [$($digit)* b'0'] [$($digit)* b'1'] [$($digit)* b'2'] [$($digit)* b'3'] [$($digit)* b'4']
            [$($digit)* b'5'] [$($digit)* b'6'] [$($digit)* b'7'] [$($digit)* b'8'] [$($digit)* b'9']
        )* }
    };
    (@hundreds $row:ident $with:tt {$($hundred:tt)*} {$($kept:tt)*} $($number:tt)*) => {
        $crate::numbers! { @each_digit {@tens $row $with} {$($kept)* $($number)*} $($hundred)* }
    };
    (@tens $row:ident $with:tt $kept:tt $($ten:tt)*) => {
        $crate::numbers! { @each_digit {@rows $row $with} $kept $($ten)* }
    };
    (@rows $row:ident $with:tt {$($kept:tt)*} $($number:tt)*) => {
        [$($row!($with $kept),)* $($row!($with $number)),*]
    };
}

/// A table with a row for each two digits of those that are given. A row is what `row!(first second)` is.
#[macro_export]
macro_rules! pairs {
    ($row:ident: $($digit:literal)*) => { $crate::pairs! { @behind_each $row {$($digit)*} $($digit)* } };
    (@behind_each $row:ident $digits:tt $($first:literal)*) => { $crate::pairs! { @rows $row $([$first $digits])* } };
    (@rows $row:ident $([$first:literal {$($second:literal)*}])*) => { [$($($row!($first $second)),*),*] };
}

/// A number, what stands behind it, and spaces up to four bytes.
macro_rules! row {
    ($behind:literal [$a:literal]) => { [$a, $behind, b' ', b' '] };
    ($behind:literal [$a:literal $b:literal]) => { [$a, $b, $behind, b' '] };
    ($behind:literal [$a:literal $b:literal $c:literal]) => { [$a, $b, $c, $behind] };
    ($behind:literal [$a:literal $b:literal $c:literal $d:literal]) => { [$a, $b, $c, $d] };
}

/// How many digits a number has.
macro_rules! digits {
    (() [$a:literal]) => { 1 };
    (() [$a:literal $b:literal]) => { 2 };
    (() [$a:literal $b:literal $c:literal]) => { 3 };
    (() [$a:literal $b:literal $c:literal $d:literal]) => { 4 };
}

/// A table with a row for each channel's number, and for three that are of no channel.
macro_rules! channels {
    ($row:ident $with:tt) => {
        numbers! { $row $with:
            [b'1'] [b'2'] [b'3'] [b'4'] [b'5'] [b'6'] [b'7'] [b'8'] [b'9'] [b'1' b'0'] [b'1' b'1'] [b'1' b'2'] [b'1' b'3'] [b'1' b'4']
            [b'1' b'5'] [b'1' b'6'] [b'1' b'7'] [b'1' b'8'] [b'1' b'9'] [b'2' b'0'] [b'2' b'1'] [b'2' b'2'] [b'2' b'3'] [b'2' b'4']
            [b'2' b'5'] [b'2' b'6'] [b'2' b'7'] [b'2' b'8'] [b'2' b'9'] [b'3' b'0'] [b'3' b'1'] [b'3' b'2'] [b'3' b'3'] [b'3' b'4']
            [b'3' b'5'] [b'3' b'6'] [b'3' b'7'] [b'3' b'8'] [b'3' b'9'] [b'4' b'0']
        }
    };
}

/// A channel's number at the front of four bytes, and `@` behind it where there is room.
pub(crate) static NUMBERS: [[u8; 4]; 4100] = channels! { row b'@' };

/// How many digits a channel's number has.
pub(crate) static DIGITS: [u8; 4100] = channels! { digits () };
