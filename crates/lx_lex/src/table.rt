//! Words looked up in a table.

ghost use Rattle.std.specs.Prelude.{◌≡◌};
ghost use Rattle.lx_lex.specs.WordTable.{in_capitals, looked_up};

use crate::word::word_is;

/// What a table has for the first of its words that a token is, whatever the case of the ASCII letters of both.
pub fn find_word<T: Copy>(table: &[(&'static [u8], T)], token: &[u8]) -> Option<T>
    ensures { result ≡ looked_up (in_capitals table.now) token.now }
{
    for (word, meaning) in table {
        if word_is(token, word) {
            return Some(*meaning);
        }
    }
    None
}
