//! A line cut into its tokens, and its rest after some of them.

ghost use Rattle.std.specs.Prelude.{◌≡◌, ◌≤◌};
ghost use Rattle.lx_lex.specs.Imports.{tokens, rest_after, left};

use crate::scan::{first_token, past_blanks, past_separator};
use crate::token::Tokens;

/// The tokens of a line, in order, found as they are asked for.
pub fn tokens(line: &[u8]) -> Tokens<'_>
    ensures { left result ≡ tokens line.now }
{
    Tokens::of(line)
}

/// What follows the first `count` tokens of a line, its comment included: without one separator that may
/// stand there, and without the spaces and tabs after it (our own rule, for the texts of labels). It is empty
/// where the line has fewer tokens.
pub fn rest_after(line: &[u8], count: usize) -> &[u8]
    requires { 1 ≤ count }
    ensures { result.now ≡ rest_after line.now count }
{
    let mut rest = line;
    for _ in 0..count {
        match first_token(rest) {
            Some((_, after)) => rest = after,
            None => return &[],
        }
    }
    past_blanks(past_separator(rest))
}
