//! The front of a line: separators, a token, blanks.

ghost use Rattle.std.specs.Prelude.{◌≡◌, ◌∷◌, [], ◌≤◌, ◌||◌, not, length, MatchOption};
ghost use Rattle.lx_spec.specs.Text.{is_separator, is_blank, begins_comment, after_all, after_token, past_separator, tokens};

/// The first token and what follows it, if there is a token before the comment.
pub(crate) fn first_token(line: &[u8]) -> Option<(&[u8], &[u8])>
    ensures { MatchOption result (tokens line.now ≡ []) (λ p. (tokens line.now ≡ p.0.now ∷ tokens p.1.now)
        × (p.1.now ≡ after_token line.now)) }
{
    let start = past_separators(line);
    let [b, tail @ ..] = start else {
        return None;
    };
    if *b == b'!' {
        return None;
    }
    let rest = past_token(tail);
    Some((&start[..start.len() - rest.len()], rest))
}

/// Space, tab and `, ; / < = > @`.
pub(crate) fn is_separator(b: u8) -> bool
    ensures { result ≡ is_separator b }
{
    matches!(
        b,
        b' ' | b'\t' | b',' | b';' | b'/' | b'<' | b'=' | b'>' | b'@'
    )
}

/// What follows the separators at the front.
pub(crate) fn past_separators(line: &[u8]) -> &[u8]
    ensures { result.now ≡ after_all is_separator line.now }
{
    let mut rest = line;
    while let [b, tail @ ..] = rest {
        if !is_separator(*b) {
            break;
        }
        rest = tail;
    }
    rest
}

/// What follows the bytes at the front that are of a token: a separator, the comment or nothing.
fn past_token(line: &[u8]) -> &[u8]
    ensures rest { result.now ≡ after_all (λ b. not (is_separator b || begins_comment b)) line.now }
    ensures within { length result.now ≤ length line.now }
{
    let mut rest = line;
    while let [b, tail @ ..] = rest {
        if is_separator(*b) || *b == b'!' {
            break;
        }
        rest = tail;
    }
    rest
}

/// What follows one separator, if the line begins with one.
pub(crate) fn past_separator(line: &[u8]) -> &[u8]
    ensures { result.now ≡ past_separator line.now }
{
    match line {
        [b, tail @ ..] if is_separator(*b) => tail,
        _ => line,
    }
}

/// What follows the spaces and tabs at the front.
pub(crate) fn past_blanks(line: &[u8]) -> &[u8]
    ensures { result.now ≡ after_all is_blank line.now }
{
    let mut rest = line;
    while let [b' ' | b'\t', tail @ ..] = rest {
        rest = tail;
    }
    rest
}
