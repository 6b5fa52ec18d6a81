//! The first word of a line.

ghost use Rattle.std.specs.Prelude.{◌≡◌, ◌∷◌, [], codes, IfSome, MatchOption};
ghost use Rattle.lx_reader.specs.Imports.{dollar_word, word_of, tokens, left, FirstIsWord};

use lx_lex::{Tokens, find_word, tokens};
use lx_spec::Word;

/// How the words are spelled, in capitals.
static SPELLINGS: [(&[u8], Word); 19] = [
    (b"IDENT", Word::Ident),
    (b"MANUFACTURER", Word::Maker),
    (b"CONSOLE", Word::Maker),
    (b"CLEAR", Word::Clear),
    (b"SET", Word::Set),
    (b"PATCH", Word::Patch),
    (b"CUE", Word::Cue),
    (b"GROUP", Word::Group),
    (b"SUB", Word::Sub),
    (b"ENDDATA", Word::EndData),
    (b"CHAN", Word::Chan),
    (b"PART", Word::Part),
    (b"UP", Word::Up),
    (b"DOWN", Word::Down),
    (b"FOLLOWON", Word::FollowOn),
    (b"LINK", Word::Link),
    (b"TEXT", Word::Text),
    (b"$$BLOCK", Word::Block),
    (b"$$ASSERT", Word::Assert),
];

/// The word that a line begins with and the tokens behind it. None where the line has no token.
#[inline(always)]
pub(crate) fn first_word(line: &[u8]) -> Option<(Word, Tokens<'_>)>
    ensures { MatchOption result (tokens line.now ≡ []) (λ p. FirstIsWord (tokens line.now) p.0 (left p.1)) }
{
    if let Some(rows) = rows_of(line) {
        return Some((Word::Patch, rows));
    }
    let mut tokens = tokens(line);
    let first = tokens.next()?;
    Some((word_of(first), tokens))
}

/// The tokens behind the first one where that is PATCH in capitals and a space follows at once, as in most lines of rows.
#[inline(always)]
fn rows_of(line: &[u8]) -> Option<Tokens<'_>>
    ensures { IfSome result (λ rows. tokens line.now ≡ codes "PATCH" ∷ left rows) }
{
    if line.starts_with(b"PATCH ") {
        Some(tokens(&line[6..]))
    } else {
        None
    }
}

/// The word that a token is, whatever the case of its letters.
fn word_of(token: &[u8]) -> Word
    ensures { result ≡ word_of token.now }
{
    match find_word(&SPELLINGS, token) {
        Some(word) => word,
        None => dollar_word(token),
    }
}

/// A word that isn't known, by the dollars that it begins with.
fn dollar_word(token: &[u8]) -> Word
    ensures { result ≡ dollar_word token.now }
{
    match token {
        [b'$', b'$', ..] => Word::TwoDollars,
        [b'$', ..] => Word::OneDollar,
        _ => Word::Unknown,
    }
}
