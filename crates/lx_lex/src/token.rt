//! An iterator over the tokens of a line.
#![tactic(auto, unfolding(crate::specs::Left::left))]

use crate::plain::{first_full, first_hex, first_number, number_before};
use crate::ready::past_channel;
use crate::scan::first_token;
use lx_base::{Chan, Level};

/// The tokens of a line that are left, each a slice of the line, in order.
///
/// A token is a longest run of bytes that are no separators (space, tab and `, ; / < = > @`), before the
/// first `!` of the line, which begins a comment (the ASCII text representation 3.0).
#[derive(Clone, Copy, Debug, Drop)]
pub struct Tokens<'a> {
    pub(crate) rest: &'a [u8],
}

impl<'a> Tokens<'a> {
    ghost use Rattle.std.specs.Prelude.{◌≡◌, true, false, length, MatchOption};
    ghost use Rattle.lx_spec.specs.Text.{is_separator, tokens};
    ghost use Rattle.lx_lex.specs.Left.{left};
    ghost use Rattle.lx_lex.specs.PlainNumber.{FirstIsLevel, FirstIsNumber};

    /// All tokens of a line.
    pub(crate) fn of(line: &'a [u8]) -> Tokens<'a>
        ensures { left result ≡ tokens line.now }
    {
        Tokens { rest: line }
    }

    /// How many tokens are left.
    pub fn count_left(&self) -> usize
        ensures { result ≡ length (left self.now) }
    {
        (*self).count()
    }

    /// Takes the next token where it is a number of digits alone, of no more digits than any number within its limit has,
    /// and answers the number. Else it takes none, and answers None: this is the short way for tokens of the usual form.
    #[inline(always)]
    pub fn take_number(&mut self) -> Option<u32>
        ensures { MatchOption result (self.new ≡ self.old) (λ n. FirstIsNumber (left self.old) n (left self.new)) }
    {
        let (number, rest) = first_number(self.rest)?;
        self.rest = rest;
        Some(number)
    }

    /// Takes the next token where it is a number of one to four digits, with nothing before it and this separator behind it,
    /// and answers the number. Else it takes none, and answers None.
    #[inline(always)]
    pub fn take_number_before(&mut self, separator: u8) -> Option<u32>
        requires { is_separator separator ≡ true }
        ensures { MatchOption result (self.new ≡ self.old) (λ n. FirstIsNumber (left self.old) n (left self.new)) }
    {
        let (number, rest) = number_before(self.rest, separator)?;
        self.rest = rest;
        Some(number)
    }

    /// Takes the next token where it is this channel's number, with nothing before it and `@` behind it, and says whether it did. Else it
    /// takes none; so it may also do where the number has fewer than three digits. To know a number again is less than to read it, so this
    /// is for a list in which the next channel can be guessed.
    #[inline(always)]
    pub fn take_channel(&mut self, chan: Chan) -> bool
        ensures taken { result ≡ true → FirstIsNumber (left self.old) chan (left self.new) }
        ensures none { result ≡ false → self.new ≡ self.old }
    {
        match past_channel(self.rest, chan) {
            Some(rest) => {
                self.rest = rest;
                true
            }
            None => false,
        }
    }

    /// Takes the next token where it is `H` and two hexadecimal digits, and answers the level. Else it takes none, and
    /// answers None; so it may also do where a separator stands before the token.
    #[inline(always)]
    pub fn take_hex(&mut self) -> Option<Level>
        ensures { MatchOption result (self.new ≡ self.old) (λ level. FirstIsLevel (left self.old) level (left self.new)) }
    {
        let (level, rest) = first_hex(self.rest)?;
        self.rest = rest;
        Some(level)
    }

    /// The same where the token is `FL`.
    #[inline(always)]
    pub fn take_full(&mut self) -> Option<Level>
        ensures { MatchOption result (self.new ≡ self.old) (λ level. FirstIsLevel (left self.old) level (left self.new)) }
    {
        let (level, rest) = first_full(self.rest)?;
        self.rest = rest;
        Some(level)
    }
}

impl<'a> Iterator for Tokens<'a> {
    type Item = &'a [u8];

    ghost use Rattle.std.specs.Iterator.{item_count, YieldsFirstBy};
    ghost use Rattle.lx_lex.specs.Left.{left};

    ghost next_gives = { YieldsFirstBy (λ t. t.now) left };

    ghost remaining = { item_count left };

    fn next(&mut self) -> Option<&'a [u8]> {
        let (token, rest) = first_token(self.rest)?;
        self.rest = rest;
        Some(token)
    }
}
