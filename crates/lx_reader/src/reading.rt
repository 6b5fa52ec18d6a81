//! A pass over the lines of a show text. The record that is open is kept apart from the show, and its levels apart from it, by channel, until
//! the next record begins.

ghost use Rattle.std.specs.Prelude.{◌≡◌, ◌≤◌, ◌∷◌, ◌&&◌, None, [], false, true, codes, length, OnOk, IfSome};
ghost use Rattle.lx_reader.specs.Imports.{HasCause, HasCauseOf, is_inner, desk_limits, levels, entry_by_word, entry_of, inner_entry};
ghost use Rattle.lx_reader.specs.Imports.{is_makers_line, tokens, left, CanGoOn, Outcome, Said, facts_of, is_known, is_outer, new_reader};
ghost use Rattle.lx_reader.specs.Imports.{is_levels, IsBetween, IsReady, PassFits, is_open, is_record, settled};
ghost use Rattle.lx_base.specs.declared.TheConstants.{LINE_BYTES};
ghost use Rattle.lx_spec.specs.declared.Word.TheVariants as words;
ghost use Rattle.lx_reader.specs.declared.open_record.Open.TheVariants as open_records;

use crate::fault::ShowFault;
use crate::numbers::{cue_of_record, group_of_record, sub_of_record};
use crate::open_moves::OpenMoves;
use crate::open_record::{Open, open_cue, open_group, open_sub, put_record};
use crate::reader::Reader;
use crate::record_lines::{line_of_cue, line_of_set};
use crate::word::first_word;
use lx_io::Heap;
use lx_lex::{Tokens, tokens};
use lx_show::Show;
use lx_spec::{Section, TextFault, Word};
use std::alloc::{AllocError, Global};
use std::mem;

/// A show that is being read, and the record that is open.
#[derive(Drop)]
pub(crate) struct ShowPass {
    /// What the lines say, but for the open record.
    pub(crate) reader: Reader,
    /// The record of the section, but for the levels of its lines.
    held: Open,
    /// Those, as moves.
    moves: OpenMoves,
}

impl ShowPass {
    /// Nothing was read yet.
    pub(crate) fn new(alloc: Global, show: Show) -> ShowPass
        ensures reader { settled result ≡ new_reader show }
        ensures fits { PassFits result }
    {
        ShowPass {
            reader: Reader::new(show),
            held: Open::None,
            moves: OpenMoves::new(alloc),
        }
    }

    /// Puts the open record into the show, with its levels.
    pub(crate) fn settle<H: Heap>(&mut self, heap: &mut H) -> Result<(), AllocError>
        requires { PassFits self.old }
        ensures reader { OnOk result (self.new.reader ≡ settled self.old) }
        ensures none { OnOk result (self.new.held ≡ open_records.None) }
        ensures empty { OnOk result (self.new.moves ≡ []) }
        ensures cause { HasCause (H.refusals heap.old) (H.refusals heap.new) result }
    {
        match self.held {
            Open::None => Ok(()),
            _ => self.put_held(heap),
        }
    }

    /// The same, where a record is open.
    #[inline(never)]
    fn put_held<H: Heap>(&mut self, heap: &mut H) -> Result<(), AllocError>
        requires { PassFits self.old }
        ensures reader { OnOk result (self.new.reader ≡ settled self.old) }
        ensures none { OnOk result (self.new.held ≡ open_records.None) }
        ensures empty { OnOk result (self.new.moves ≡ []) }
        ensures cause { HasCause (H.refusals heap.old) (H.refusals heap.new) result }
    {
        let held = mem::replace(&mut self.held, Open::None);
        put_record(heap, &mut self.reader.show, held, &mut self.moves)?;
        self.moves.clear();
        Ok(())
    }

    /// Goes on with line i, which isn't too long. Most lines are levels of the open record: they go straight to them, and all that any
    /// other line needs stands apart.
    #[inline(always)]
    pub(crate) fn step<H: Heap>(
        &mut self,
        heap: &mut H,
        i: u32,
        line: &[u8],
    ) -> Result<(), ShowFault>
        requires short { length line.now ≤ LINE_BYTES }
        requires pass { IsReady self.old i }
        ensures outcome { Outcome (settled self.old) (settled self.new) i result (entry_of (facts_of (settled self.old) i) line.now) }
        ensures fits { OnOk result (PassFits self.new) }
        ensures cause { HasCauseOf ShowFault.Memory (H.refusals heap.old) (H.refusals heap.new) result }
    {
        match levels_of(line) {
            Some(levels) if self.takes_levels() => self.levels_line(heap, i, levels),
            _ => self.line_by_word(heap, i, line),
        }
    }

    /// A line of levels is one of the open record.
    #[inline(always)]
    fn takes_levels(&self) -> bool
        ensures { result ≡ (self.now.reader.identified && is_open self.now.held) }
    {
        self.reader.identified && self.held.is_some()
    }

    /// The same, where the line's first word has to be found.
    #[inline(never)]
    fn line_by_word<H: Heap>(&mut self, heap: &mut H, i: u32, line: &[u8]) -> Result<(), ShowFault>
        requires short { length line.now ≤ LINE_BYTES }
        requires pass { IsReady self.old i }
        ensures outcome { Outcome (settled self.old) (settled self.new) i result (entry_of (facts_of (settled self.old) i) line.now) }
        ensures fits { OnOk result (PassFits self.new) }
        ensures cause { HasCauseOf ShowFault.Memory (H.refusals heap.old) (H.refusals heap.new) result }
    {
        match first_word(line) {
            Some((word, tokens)) => self.line_of_word(heap, i, line, word, tokens),
            None => Ok(()),
        }
    }

    /// A line of this word, which these tokens follow. The rules are tried in their order.
    fn line_of_word<H: Heap>(
        &mut self,
        heap: &mut H,
        i: u32,
        line: &[u8],
        word: Word,
        tokens: Tokens,
    ) -> Result<(), ShowFault>
        requires { IsReady self.old i }
        ensures outcome { Outcome (settled self.old) (settled self.new) i result
            (entry_by_word (facts_of (settled self.old) i) line.now word (left tokens.entry)) }
        ensures fits { OnOk result (PassFits self.new) }
        ensures cause { HasCauseOf ShowFault.Memory (H.refusals heap.old) (H.refusals heap.new) result }
    {
        match word {
            Word::TwoDollars => {
                self.reader.skip(i);
                Ok(())
            }
            Word::Unknown => {
                self.reader.skip(i);
                Ok(())
            }
            Word::EndData if self.reader.identified => {
                self.reader.ended = true;
                Ok(())
            }
            Word::EndData => Err(ShowFault::Text(TextFault::NoIdent(i))),
            _ if is_inner(word) => self.inner_line(heap, i, line, word, tokens),
            _ => self.outer_line(heap, i, word, tokens),
        }
    }

    /// A line that ends a record, and maybe begins one. The open one is put into the show before.
    fn outer_line<H: Heap>(
        &mut self,
        heap: &mut H,
        i: u32,
        word: Word,
        tokens: Tokens,
    ) -> Result<(), ShowFault>
        requires pass { IsReady self.old i }
        requires outer { is_outer word ≡ true }
        ensures outcome { Outcome (settled self.old) (settled self.new) i result
            (entry_by_word (facts_of (settled self.old) i) [] word (left tokens.entry)) }
        ensures fits { OnOk result (PassFits self.new) }
        ensures cause { HasCauseOf ShowFault.Memory (H.refusals heap.old) (H.refusals heap.new) result }
    {
        self.settle(heap)?;
        self.line_outside(heap, i, word, tokens)
    }

    /// The same, where no record is open.
    fn line_outside<H: Heap>(
        &mut self,
        heap: &mut H,
        i: u32,
        word: Word,
        tokens: Tokens,
    ) -> Result<(), ShowFault>
        requires ready { CanGoOn self.old.reader i }
        requires none { self.old.held ≡ open_records.None }
        requires empty { self.old.moves ≡ [] }
        requires outer { is_outer word ≡ true }
        ensures outcome { Outcome self.old.reader (settled self.new) i result
            (entry_by_word (facts_of self.old.reader i) [] word (left tokens.entry)) }
        ensures fits { OnOk result (PassFits self.new) }
        ensures cause { HasCauseOf ShowFault.Memory (H.refusals heap.old) (H.refusals heap.new) result }
    {
        match word {
            Word::OneDollar => {
                self.reader.skip_record(i);
                Ok(())
            }
            Word::Ident => self.reader.ident_line(i, tokens),
            Word::Maker => {
                self.reader.enter(Section::NoRecord);
                Ok(())
            }
            _ if self.reader.identified => self.known_line(heap, i, word, tokens),
            _ => Err(ShowFault::Text(TextFault::NoIdent(i))),
        }
    }

    /// The same, once IDENT was read.
    fn known_line<H: Heap>(
        &mut self,
        heap: &mut H,
        i: u32,
        word: Word,
        tokens: Tokens,
    ) -> Result<(), ShowFault>
        requires between { IsBetween self.old i }
        requires known { is_known word ≡ true }
        ensures outcome { Outcome self.old.reader (settled self.new) i result
            (entry_by_word (facts_of self.old.reader i) [] word (left tokens.entry)) }
        ensures fits { OnOk result (PassFits self.new) }
        ensures cause { HasCauseOf ShowFault.Memory (H.refusals heap.old) (H.refusals heap.new) result }
    {
        match word {
            Word::Cue => self.cue_line(heap, i, tokens),
            Word::Group => self.group_line(heap, i, tokens),
            Word::Sub => self.sub_line(heap, i, tokens),
            Word::Clear => {
                self.reader.clear_line(i, tokens);
                Ok(())
            }
            Word::Set => self.reader.set_line(i, tokens),
            Word::Patch => self.reader.patch_line(i, tokens),
            _ => unreachable!(),
        }
    }

    /// `CUE n`
    fn cue_line<H: Heap>(&mut self, heap: &mut H, i: u32, tokens: Tokens) -> Result<(), ShowFault>
        requires { IsBetween self.old i }
        ensures outcome { Outcome self.old.reader (settled self.new) i result
            (entry_by_word (facts_of self.old.reader i) [] words.Cue (left tokens.entry)) }
        ensures fits { OnOk result (PassFits self.new) }
        ensures cause { HasCauseOf ShowFault.Memory (H.refusals heap.old) (H.refusals heap.new) result }
    {
        let Some(n) = cue_of_record(i, tokens)? else {
            self.reader.skip_record(i);
            return Ok(());
        };
        if !self.reader.show.has_room_for(n) {
            return Err(ShowFault::Text(TextFault::OutOfRange(i)));
        }
        self.held = Open::Cue(open_cue(heap.allocator(), &mut self.reader.show, n));
        self.reader.enter(Section::InCue(n));
        Ok(())
    }

    /// `GROUP n`
    fn group_line<H: Heap>(&mut self, heap: &mut H, i: u32, tokens: Tokens) -> Result<(), ShowFault>
        requires { IsBetween self.old i }
        ensures outcome { Outcome self.old.reader (settled self.new) i result
            (entry_by_word (facts_of self.old.reader i) [] words.Group (left tokens.entry)) }
        ensures fits { OnOk result (PassFits self.new) }
        ensures cause { HasCauseOf ShowFault.Memory (H.refusals heap.old) (H.refusals heap.new) result }
    {
        let Some(g) = group_of_record(i, tokens)? else {
            self.reader.skip_record(i);
            return Ok(());
        };
        self.held = Open::Group(open_group(heap.allocator(), &mut self.reader.show, g));
        self.reader.enter(Section::InGroup(g));
        Ok(())
    }

    /// `SUB n`
    fn sub_line<H: Heap>(&mut self, heap: &mut H, i: u32, tokens: Tokens) -> Result<(), ShowFault>
        requires { IsBetween self.old i }
        ensures outcome { Outcome self.old.reader (settled self.new) i result
            (entry_by_word (facts_of self.old.reader i) [] words.Sub (left tokens.entry)) }
        ensures fits { OnOk result (PassFits self.new) }
        ensures cause { HasCauseOf ShowFault.Memory (H.refusals heap.old) (H.refusals heap.new) result }
    {
        let Some(s) = sub_of_record(i, tokens)? else {
            self.reader.skip_record(i);
            return Ok(());
        };
        self.held = Open::Sub(open_sub(heap.allocator(), &mut self.reader.show, s));
        self.reader.enter(Section::InSub(s));
        Ok(())
    }

    /// A line of a word that belongs within a record.
    fn inner_line<H: Heap>(
        &mut self,
        heap: &mut H,
        i: u32,
        line: &[u8],
        word: Word,
        tokens: Tokens,
    ) -> Result<(), ShowFault>
        requires pass { IsReady self.old i }
        requires inner { is_inner word ≡ true }
        ensures outcome { Outcome (settled self.old) (settled self.new) i result
            (entry_by_word (facts_of (settled self.old) i) line.now word (left tokens.entry)) }
        ensures fits { OnOk result (PassFits self.new) }
        ensures cause { HasCauseOf ShowFault.Memory (H.refusals heap.old) (H.refusals heap.new) result }
    {
        if is_makers_line(self.reader.section, word) {
            self.reader.skip(i);
            return Ok(());
        }
        if !self.reader.identified {
            return Err(ShowFault::Text(TextFault::NoIdent(i)));
        }
        match self.reader.section {
            Section::NoRecord => match word {
                Word::Text => {
                    self.reader.skip(i);
                    Ok(())
                }
                _ => Err(ShowFault::Text(TextFault::NotInRecord(i))),
            },
            Section::Skipping => {
                self.reader.skip(i);
                Ok(())
            }
            _ => self.line_of_record(heap, i, line, word, tokens),
        }
    }

    /// Such a line within a record.
    fn line_of_record<H: Heap>(
        &mut self,
        heap: &mut H,
        i: u32,
        line: &[u8],
        word: Word,
        tokens: Tokens,
    ) -> Result<(), ShowFault>
        requires pass { IsReady self.old i }
        requires inside { is_record self.old.reader.section ≡ true }
        ensures outcome { Outcome (settled self.old) (settled self.new) i result
            (inner_entry self.old.reader.section (facts_of (settled self.old) i) line.now word (left tokens.entry)) }
        ensures fits { OnOk result (PassFits self.new) }
        ensures cause { HasCauseOf ShowFault.Memory (H.refusals heap.old) (H.refusals heap.new) result }
    {
        if is_levels(word) {
            return self.levels_line(heap, i, tokens);
        }
        if !self.says(i, line, word, tokens)? {
            self.reader.skip(i);
        }
        Ok(())
    }

    /// What the line says goes to the open record. It answers whether it says something.
    fn says(&mut self, i: u32, line: &[u8], word: Word, tokens: Tokens) -> Result<bool, TextFault>
        requires pass { IsReady self.old i }
        requires inside { is_record self.old.reader.section ≡ true }
        requires other { is_levels word ≡ false }
        ensures said { Said (settled self.old) (settled self.new) i result
            (inner_entry self.old.reader.section (facts_of (settled self.old) i) line.now word (left tokens.entry)) }
        ensures fits { OnOk result (PassFits self.new) }
    {
        match &mut self.held {
            Open::Cue(cue) => line_of_cue(cue, &mut self.reader.part, i, line, word, tokens),
            Open::Group(group) => Ok(line_of_set(&mut group.label, line, word)),
            Open::Sub(sub) => Ok(line_of_set(&mut sub.label, line, word)),
            Open::None => Ok(false),
        }
    }

    /// `CHAN` with levels of the open record.
    #[inline(always)]
    fn levels_line<H: Heap>(
        &mut self,
        heap: &mut H,
        i: u32,
        tokens: Tokens,
    ) -> Result<(), ShowFault>
        requires pass { IsReady self.old i }
        requires open_one { is_open self.old.held ≡ true }
        ensures outcome { Outcome (settled self.old) (settled self.new) i result (levels desk_limits i (left tokens.entry)) }
        ensures fits { OnOk result (PassFits self.new) }
        ensures cause { HasCauseOf ShowFault.Memory (H.refusals heap.old) (H.refusals heap.new) result }
    {
        let channels = self.reader.show.channels();
        let greatest = self
            .moves
            .put_line(heap, i, tokens, self.reader.part, channels)?;
        self.reader.show.widen(greatest);
        Ok(())
    }
}

/// Whether it is `CHAN`.
fn is_levels(word: Word) -> bool
    ensures { result ≡ is_levels word }
{
    matches!(word, Word::Chan)
}

/// A word that belongs within a record.
fn is_inner(word: Word) -> bool
    ensures { result ≡ is_inner word }
{
    matches!(
        word,
        Word::Chan
            | Word::Part
            | Word::Up
            | Word::Down
            | Word::FollowOn
            | Word::Link
            | Word::Text
            | Word::Block
            | Word::Assert
    )
}

/// A manufacturer's own line: outside of cues `$$BLOCK` and `$$ASSERT` are such lines, too.
fn is_makers_line(section: Section, word: Word) -> bool
    requires { is_inner word ≡ true }
    ensures { result ≡ is_makers_line section word }
{
    !matches!(section, Section::InCue(_)) && matches!(word, Word::Block | Word::Assert)
}

/// The tokens behind the first one where that is CHAN in capitals and a space follows at once, as in most lines.
#[inline]
fn levels_of(line: &[u8]) -> Option<Tokens<'_>>
    ensures { IfSome result (λ levels. tokens line.now ≡ codes "CHAN" ∷ left levels) }
{
    match line {
        [b'C', b'H', b'A', b'N', b' ', levels @ ..] => Some(tokens(levels)),
        _ => None,
    }
}
