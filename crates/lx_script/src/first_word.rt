//! The first word of a script line.

ghost use Rattle.std.specs.Prelude.{◌≡◌};
ghost use Rattle.lx_script.specs.Imports.{looked_up, first_words};

use lx_lex::find_word;

/// The first words that a script line may have, in either case.
#[derive(Clone, Copy)]
pub(crate) enum FirstWord {
    Go,
    Back,
    Goto,
    Settle,
    Fader,
    Master,
    Tick,
    Cue,
    Delete,
    Set,
    Release,
    Time,
    Part,
    Unpart,
    Block,
    Unblock,
    Assert,
    Unassert,
    Follow,
    Label,
    Group,
    Sub,
    Patch,
    Unpatch,
    Frame,
    Sheet,
    Save,
    Quit,
}

/// How the first words of two letters are spelled, in capitals.
static OF_TWO: [(&[u8], FirstWord); 1] = [(b"GO", FirstWord::Go)];

/// Those of three letters.
static OF_THREE: [(&[u8], FirstWord); 3] = [
    (b"CUE", FirstWord::Cue),
    (b"SET", FirstWord::Set),
    (b"SUB", FirstWord::Sub),
];

/// Those of four letters.
static OF_FOUR: [(&[u8], FirstWord); 7] = [
    (b"BACK", FirstWord::Back),
    (b"GOTO", FirstWord::Goto),
    (b"TICK", FirstWord::Tick),
    (b"TIME", FirstWord::Time),
    (b"PART", FirstWord::Part),
    (b"SAVE", FirstWord::Save),
    (b"QUIT", FirstWord::Quit),
];

/// Those of five letters.
static OF_FIVE: [(&[u8], FirstWord); 7] = [
    (b"FADER", FirstWord::Fader),
    (b"BLOCK", FirstWord::Block),
    (b"LABEL", FirstWord::Label),
    (b"GROUP", FirstWord::Group),
    (b"PATCH", FirstWord::Patch),
    (b"FRAME", FirstWord::Frame),
    (b"SHEET", FirstWord::Sheet),
];

/// Those of six letters.
static OF_SIX: [(&[u8], FirstWord); 6] = [
    (b"SETTLE", FirstWord::Settle),
    (b"MASTER", FirstWord::Master),
    (b"DELETE", FirstWord::Delete),
    (b"UNPART", FirstWord::Unpart),
    (b"ASSERT", FirstWord::Assert),
    (b"FOLLOW", FirstWord::Follow),
];

/// Those of seven letters.
static OF_SEVEN: [(&[u8], FirstWord); 3] = [
    (b"RELEASE", FirstWord::Release),
    (b"UNBLOCK", FirstWord::Unblock),
    (b"UNPATCH", FirstWord::Unpatch),
];

/// Those of eight letters.
static OF_EIGHT: [(&[u8], FirstWord); 1] = [(b"UNASSERT", FirstWord::Unassert)];

/// The first word that a token is. It is compared with those of as many letters.
pub(crate) fn first_word(token: &[u8]) -> Option<FirstWord>
    ensures { result ≡ looked_up first_words token.now }
{
    match token.len() {
        2 => find_word(&OF_TWO, token),
        3 => find_word(&OF_THREE, token),
        4 => find_word(&OF_FOUR, token),
        5 => find_word(&OF_FIVE, token),
        6 => find_word(&OF_SIX, token),
        7 => find_word(&OF_SEVEN, token),
        8 => find_word(&OF_EIGHT, token),
        _ => None,
    }
}
