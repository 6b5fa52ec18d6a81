//! The end of a line's tokens.
#![tactic(auto, unfolding(crate::specs::Left::left))]

ghost use Rattle.std.specs.Prelude.{[], IfSome};
ghost use Rattle.lx_lex.specs.Imports.{tokens, FirstIsNumber};

use crate::digits::{TOO_GREAT, whole};
use crate::token::Tokens;

impl<'a> Tokens<'a> {
    ghost use Rattle.std.specs.Prelude.{◌≡◌, true, [], MatchOption};
    ghost use Rattle.lx_lex.specs.Left.{left};
    ghost use Rattle.lx_lex.specs.PlainNumber.{FirstIsNumber};

    /// Whether the line is at its end, where no token is left.
    #[inline(always)]
    pub fn is_at_end(&self) -> bool
        ensures { result ≡ true → left self.now ≡ [] }
    {
        self.rest.is_empty()
    }

    /// Takes the last token where it is a number of digits alone, with nothing before it and nothing behind it, and answers
    /// the number. Else it takes none, and answers None.
    #[inline(always)]
    pub fn take_last_number(&mut self) -> Option<u32>
        ensures { MatchOption result (self.new ≡ self.old) (λ n. FirstIsNumber (left self.old) n (left self.new)) }
    {
        let number = last_number(self.rest)?;
        self.rest = &[];
        Some(number)
    }
}

/// The number that a line of digits alone is.
#[tactic(auto, using(crate::proofs::PlainNumbers::digits_alone))]
#[inline(always)]
fn last_number(line: &[u8]) -> Option<u32>
    ensures { IfSome result (λ n. FirstIsNumber (tokens line.now) n []) }
{
    match whole(line) {
        Some(number) if number < TOO_GREAT => Some(number as u32),
        _ => None,
    }
}
