//! How many replies there were of each kind.

/// The replies of a session, by kind. Frame lines, row lines and saved texts are counted in none.
#[derive(Clone, Copy, Debug, PartialEq, Eq)]
pub struct Tally {
    /// Replies `ok`.
    pub ok: u64,
    /// Replies `refused`.
    pub refused: u64,
    /// Replies `bad`.
    pub bad: u64,
}

impl Tally {
    ghost use Rattle.std.specs.Prelude.{◌≡◌};
    ghost use Rattle.lx_session.specs.LineReply.{counts_in};

    /// Nothing was counted yet.
    pub fn new() -> Tally
        ensures { counts_in result ≡ record { ok = 0; refused = 0; bad = 0 } }
    {
        Tally {
            ok: 0,
            refused: 0,
            bad: 0,
        }
    }
}
