//! The lines that stand outside of records.

ghost use Rattle.std.specs.Prelude.{◌≡◌, ◌≢◌, ◌==◌, ◌<◌, ◌+◌, Ok, Err, true, [], OnOk, if◌then◌else◌};
ghost use Rattle.lx_reader.specs.Imports.{desk_limits, is_next, entry_by_word, str_to_ascii_uppercase, left, CanGoOn, facts_of, Outcome};
ghost use Rattle.lx_spec.specs.declared.Section.TheVariants.{NoRecord, Skipping};
ghost use Rattle.lx_spec.specs.declared.Word.TheVariants as words;

use crate::fault::ShowFault;
use crate::numbers::{next_channel, take_page};
use crate::reader::Reader;
use crate::rows::put_rows;
use lx_lex::{Tokens, word_is};
use lx_spec::{Section, TextFault};

/// The next token is the word.
fn is_next(mut tokens: Tokens, word: &[u8]) -> bool
    ensures { result ≡ is_next (str_to_ascii_uppercase word.now) (left tokens.entry) }
{
    match tokens.next() {
        Some(token) => word_is(token, word),
        None => false,
    }
}

impl Reader {
    /// Line i is skipped, and what follows up to the next record.
    pub(crate) fn skip_record(&mut self, i: u32)
        requires { self.old.skipped < i }
        ensures { self.new ≡ record self.old {
          section = Skipping;
          part = 1;
          skipped = self.old.skipped + 1;
          first_skipped = if self.old.skipped == 0 then i else self.old.first_skipped;
        } }
    {
        self.enter(Section::Skipping);
        self.skip(i);
    }

    /// `IDENT 3:0`
    pub(crate) fn ident_line(&mut self, i: u32, tokens: Tokens) -> Result<(), ShowFault>
        requires { CanGoOn self.old i }
        ensures outcome { Outcome self.old self.new i result (entry_by_word (facts_of self.old i) [] words.Ident (left tokens.entry)) }
        ensures memory { result ≢ Err ShowFault.Memory }
    {
        if !is_next(tokens, b"3:0") {
            return Err(ShowFault::Text(TextFault::NoIdent(i)));
        }
        self.enter(Section::NoRecord);
        self.identified = true;
        Ok(())
    }

    /// `CLEAR ALL`
    pub(crate) fn clear_line(&mut self, i: u32, tokens: Tokens)
        requires ready { CanGoOn self.old i }
        requires identified { self.old.identified ≡ true }
        ensures { Outcome self.old self.new i (Ok tt) (entry_by_word (facts_of self.old i) [] words.Clear (left tokens.entry)) }
    {
        self.enter(Section::NoRecord);
        if is_next(tokens, b"ALL") {
            self.show.clear(1);
            self.channels_set = None;
        } else {
            self.skip(i);
        }
    }

    /// `SET CHANNELS n`
    pub(crate) fn set_line(&mut self, i: u32, mut tokens: Tokens) -> Result<(), ShowFault>
        requires ready { CanGoOn self.old i }
        requires identified { self.old.identified ≡ true }
        ensures outcome { Outcome self.old self.new i result (entry_by_word (facts_of self.old i) [] words.Set (left tokens.entry)) }
        ensures memory { result ≢ Err ShowFault.Memory }
    {
        self.enter(Section::NoRecord);
        match tokens.next() {
            Some(what) if word_is(what, b"CHANNELS") => {
                self.channels_set = Some(next_channel(i, tokens)?);
            }
            _ => self.skip(i),
        }
        Ok(())
    }

    /// `PATCH 1` with rows
    pub(crate) fn patch_line(&mut self, i: u32, mut tokens: Tokens) -> Result<(), ShowFault>
        requires ready { CanGoOn self.old i }
        requires identified { self.old.identified ≡ true }
        ensures outcome { Outcome self.old self.new i result (entry_by_word (facts_of self.old i) [] words.Patch (left tokens.entry)) }
        ensures section { OnOk result (self.new.section ≡ NoRecord) }
        ensures memory { result ≢ Err ShowFault.Memory }
    {
        let Some(one) = take_page(&mut tokens) else {
            return Err(ShowFault::Text(TextFault::ShortList(i)));
        };
        self.enter(Section::NoRecord);
        if !one {
            self.skip(i);
            return Ok(());
        }
        put_rows(&mut self.show, i, tokens)
    }
}
