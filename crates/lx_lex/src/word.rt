//! Words of a line.

ghost use Rattle.std.specs.Prelude.{◌≡◌, false};
ghost use Rattle.lx_lex.specs.Imports.{str_to_ascii_uppercase, is_word};

/// Whether a token is a word, whatever the case of the ASCII letters of both.
#[inline(always)]
pub fn word_is(token: &[u8], word: &[u8]) -> bool
    ensures { result ≡ is_word (str_to_ascii_uppercase word.now) token.now }
{
    begins_alike(token, word) && token.eq_ignore_ascii_case(word)
}

/// Whether a token has as many bytes as a word and the same one at its front, but for its case. Most tokens that are
/// another word are told by that, without a call.
#[inline(always)]
fn begins_alike(token: &[u8], word: &[u8]) -> bool
    ensures { result ≡ false → is_word (str_to_ascii_uppercase word.now) token.now ≡ false }
{
    if token.len() != word.len() {
        return false;
    }
    match (token, word) {
        ([first, ..], [other, ..]) => first.eq_ignore_ascii_case(other),
        _ => true,
    }
}
