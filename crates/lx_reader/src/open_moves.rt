//! The levels of the record that is open, as moves by channel: a level takes one write, however many the record has.

ghost use Rattle.std.specs.Prelude.{◌≡◌, ◌≤◌, ℕ, ◌<◌, ◌+◌, ◌++◌, ◌∷◌, [], Err, false, true, is_some, length, max, slice_get, take};
ghost use Rattle.std.specs.Prelude.{if◌then◌else◌, IfOk, IfErr, IfSome, OnOk, vec_capacity};
ghost use Rattle.std.specs.List.{AllByRecursion};
ghost use Rattle.std.specs.Option.{option_map_or};
ghost use Rattle.lx_io.specs.Causes.{HasCause, HasCauseOf};
ghost use Rattle.lx_spec.specs.Show.{ValidMember};
ghost use Rattle.lx_spec.specs.SortedList.{IsStrictlySorted, all_placed, placed};
ghost use Rattle.lx_lex.specs.Left.{left};
ghost use Rattle.lx_reader.specs.FieldLists.{all_pairs};
ghost use Rattle.lx_reader.specs.LineFaults.{IsFaultOf};
ghost use Rattle.lx_reader.specs.OpenMoves.{ReadsLevels, members_of, moves_there};
ghost use Rattle.lx_base.specs.declared.TheConstants.{CHANNELS};

use crate::fault::ShowFault;
use crate::lists::{far_member, first_guess, guess_behind, near_member};
use lx_base::{CHANNELS, Chan, PartNo};
use lx_io::Heap;
use lx_lex::Tokens;
use lx_show::{MemberList, MoveList};
use lx_spec::{Member, Move, TextFault};
use std::alloc::{AllocError, Global};
use std::marker::Model;

/// How many channels there can be.
const SLOTS: usize = CHANNELS as usize;

/// How many channels are looked at together: where none of them has a move, they are passed over.
const BLOCK: usize = 64;

/// How many blocks there are.
const BLOCKS: usize = SLOTS / BLOCK;

/// A row with a move for each channel in turn, of which some are there. Contracts see those.
#[derive(Drop)]
struct MoveRow {
    moves: [Move; SLOTS],
    /// Whether the channel's move is there.
    there: [bool; SLOTS],
}

impl Model for MoveRow {
    ghost use Rattle.std.specs.Prelude.{List};
    ghost use Rattle.lx_spec.specs.declared.Move.{Move};
    ghost use Rattle.lx_reader.specs.OpenMoves.{IsRow, moves_there};

    ghost Value = { List Move };

    ghost view = { λ r. moves_there r.moves r.there };

    ghost invariant = { λ r. IsRow r.moves r.there };
}

/// The moves of a record. Contracts see them as a list sorted by channel.
#[derive(Drop)]
pub(crate) struct OpenMoves {
    /// Their row, once a record had any: many of a small show's records have none, and a row is some pages of memory.
    row: Option<Box<MoveRow>>,
    /// The moves of the row are this record's. Else the record has none, and those are an earlier one's.
    used: bool,
    /// Room for them as a list, once a record had any.
    list: Vec<Move>,
}

impl Model for OpenMoves {
    ghost use Rattle.std.specs.Prelude.{◌≡◌, List, [], is_some, true, if◌then◌else◌};
    ghost use Rattle.std.specs.Option.{option_map_or};
    ghost use Rattle.lx_spec.specs.declared.Move.{Move};

    ghost Value = { List Move };

    ghost view = { λ o. if o.used then option_map_or (λ row. row.value) o.row [] else [] };

    ghost invariant = { λ o. o.used ≡ true → is_some o.row ≡ true };
}

impl OpenMoves {
    /// No moves. It takes no memory yet.
    pub(crate) fn new(alloc: Global) -> OpenMoves
        ensures { result ≡ [] }
    {
        OpenMoves {
            row: None,
            used: false,
            list: Vec::new(alloc),
        }
    }

    /// Takes all moves out, at no cost: the row is emptied once a further record has any.
    pub(crate) fn clear(&mut self)
        ensures { self.new ≡ [] }
    {
        self.used = false;
    }

    /// Places the levels of a line as moves in a part, each in place of the one of its channel, and answers the greatest of
    /// their channels and this number. A line with a fault leaves those before it here.
    pub(crate) fn put_line<H: Heap>(
        &mut self,
        heap: &mut H,
        i: u32,
        tokens: Tokens,
        part: PartNo,
        least: u32,
    ) -> Result<u32, ShowFault>
        ensures levels { IfOk result (λ greatest. ReadsLevels i part least (left tokens.entry) [] greatest self.old self.new) }
        ensures fault { IfErr result (λ stop. IsFaultOf stop (all_pairs i (left tokens.entry))) }
        ensures cause { HasCauseOf ShowFault.Memory (H.refusals heap.old) (H.refusals heap.new) result }
    {
        if !self.used {
            begin(heap, &mut self.row)?;
            self.used = true;
        }
        match &mut self.row {
            Some(row) => Ok(put_line(row, i, tokens, part, least)?),
            None => unreachable!(),
        }
    }

    /// Places the moves in a cue's. None is of a channel above this one.
    pub(crate) fn put_in_cue<H: Heap>(
        &mut self,
        heap: &mut H,
        channels: u32,
        list: &mut MoveList,
    ) -> Result<(), AllocError>
        requires most { channels ≤ CHANNELS }
        requires within { AllByRecursion (λ m. m.chan ≤ channels) self.old }
        ensures list { OnOk result (list.new ≡ all_placed (λ m. m.chan) self.old list.old) }
        ensures cause { HasCause (H.refusals heap.old) (H.refusals heap.new) result }
    {
        match &self.row {
            Some(row) if self.used => put_row(heap, row, channels as usize, &mut self.list, list),
            _ => Ok(()),
        }
    }

    /// Places their levels in those of a group or submaster.
    pub(crate) fn put_in_set<H: Heap>(
        &mut self,
        heap: &mut H,
        list: &mut MemberList,
    ) -> Result<(), AllocError>
        ensures list { OnOk result (list.new ≡ all_placed (λ m. m.chan) (members_of self.old) list.old) }
        ensures cause { HasCause (H.refusals heap.old) (H.refusals heap.new) result }
    {
        match &self.row {
            Some(row) if self.used => {
                let len = gather(heap, row, &mut self.list)?;
                put_members(heap, &self.list[..len], list)
            }
            _ => Ok(()),
        }
    }
}

impl MoveRow {
    /// A row of which no move is there.
    fn new() -> MoveRow
        ensures { result ≡ [] }
    {
        let mut moves = [any_move(0); SLOTS];
        for index in 0..SLOTS {
            moves[index] = any_move(index);
        }
        MoveRow {
            moves,
            there: [false; SLOTS],
        }
    }

    /// Takes all moves out.
    fn clear(&mut self)
        ensures { self.new ≡ [] }
    {
        let none = [false; SLOTS];
        self.there = none;
    }

    /// The moves where each of the first channels has one: they stand side by side then. No channel behind these has any.
    fn whole(&self, count: usize) -> Option<&[Move]>
        requires most { count ≤ CHANNELS }
        requires within { AllByRecursion (λ m. m.chan ≤ count) self.now }
        ensures moves { IfSome result (λ all. all.now ≡ self.now) }
        ensures rise { IsStrictlySorted (λ m. m.chan) self.now }
    {
        if are_there(&self.there[..count]) {
            Some(&self.moves[..count])
        } else {
            None
        }
    }

    /// Places one level as a move, and answers the greater of its channel and this number.
    #[inline(always)]
    fn put(&mut self, member: Member, part: PartNo, least: u32) -> u32
        ensures greater { result ≡ max least member.chan }
        ensures valid { ValidMember CHANNELS member }
        ensures moves { self.new ≡ placed (λ m. m.chan) (record { chan = member.chan; part = part; level = member.level }) self.old }
    {
        let number = member.chan.get();
        let index = (number - 1) as usize;
        self.moves[index] = Move {
            chan: member.chan,
            part,
            level: member.level,
        };
        self.there[index] = true;
        least.max(number)
    }
}

/// Makes the row where there is none, and empties the one that there is.
#[inline(never)]
fn begin<H: Heap>(heap: &mut H, row: &mut Option<Box<MoveRow>>) -> Result<(), AllocError>
    ensures made { OnOk result (is_some row.new ≡ true) }
    ensures empty { OnOk result (option_map_or (λ r. r.value) row.new [] ≡ []) }
    ensures cause { HasCause (H.refusals heap.old) (H.refusals heap.new) result }
{
    if let Some(row) = row {
        row.clear();
        return Ok(());
    }
    *row = Some(made_row(heap)?);
    Ok(())
}

/// A row of which no move is there. It is made apart, so that no line pays for room on the stack that would hold one.
#[inline(never)]
fn made_row<H: Heap>(heap: &mut H) -> Result<Box<MoveRow>, AllocError>
    ensures empty { IfOk result (λ row. row.value ≡ []) }
    ensures cause { HasCause (H.refusals heap.old) (H.refusals heap.new) result }
{
    heap.boxed(MoveRow::new())
}

/// Whether all of them are there. It has no early end, so that the compiler looks at many at once.
fn are_there(flags: &[bool]) -> bool
    ensures { result ≡ true → (k : ℕ) → k < length flags.now → IfSome (slice_get flags.now k) (λ there. there ≡ true) }
{
    let mut all = true;
    for there in flags {
        all &= *there;
    }
    all
}

/// Whether any of them is there. It has no early end either.
fn any_there(flags: &[bool]) -> bool
    ensures { result ≡ false → (k : ℕ) → k < length flags.now → IfSome (slice_get flags.now k) (λ there. there ≡ false) }
{
    let mut any = false;
    for there in flags {
        any |= *there;
    }
    any
}

/// Writes those of a row's moves that are there at the front of a list, and says how many they are.
fn gather_blocks(moves: &[Move], there: &[bool], list: &mut [Move]) -> usize
    requires moves { length moves.now ≡ CHANNELS }
    requires there { length there.now ≡ CHANNELS }
    requires room { CHANNELS ≤ length list.old }
    ensures long { length list.new ≡ length list.old }
    ensures most { result ≤ CHANNELS }
    ensures list { take result list.new ≡ moves_there moves.now there.now }
{
    let mut len = 0;
    for block in 0..BLOCKS {
        let from = block * BLOCK;
        let end = from + BLOCK;
        len = gather_block(&moves[from..end], &there[from..end], list, len);
    }
    len
}

/// Writes those of a block's moves that are there into a list, from a place on, and says where the next one goes.
fn gather_block(moves: &[Move], there: &[bool], list: &mut [Move], at: usize) -> usize
    requires same { length there.now ≡ length moves.now }
    requires room { at + length moves.now ≤ length list.old }
    ensures long { length list.new ≡ length list.old }
    ensures most { result ≤ at + length moves.now }
    ensures list { take result list.new ≡ take at list.old ++ moves_there moves.now there.now }
{
    let mut len = at;
    if any_there(there) {
        for index in 0..moves.len() {
            len = keep(moves[index], there[index], list, len);
        }
    }
    len
}

/// Writes a row's moves at the front of a list, and says how many they are.
fn gather<H: Heap>(heap: &mut H, row: &MoveRow, list: &mut Vec<Move>) -> Result<usize, AllocError>
    ensures most { IfOk result (λ len. len ≤ length list.new.items) }
    ensures list { IfOk result (λ len. take len list.new.items ≡ row.now) }
    ensures cause { HasCause (H.refusals heap.old) (H.refusals heap.new) result }
{
    if list.len() < SLOTS {
        heap.reserve(list, SLOTS - list.len())?;
        lengthen(list);
    }
    Ok(gather_blocks(&row.moves[..], &row.there[..], list))
}

/// Makes the list as long as there are channels. There is room for that.
fn lengthen(list: &mut Vec<Move>)
    requires { CHANNELS ≤ vec_capacity list.old }
    ensures { CHANNELS ≤ length list.new.items }
{
    match list.resize(SLOTS, any_move(0)) {
        Ok(()) => {}
        Err(_) => unreachable!(),
    }
}

/// Places a row's moves in a list. None is of a channel behind the first ones.
fn put_row<H: Heap>(
    heap: &mut H,
    row: &MoveRow,
    count: usize,
    room: &mut Vec<Move>,
    list: &mut MoveList,
) -> Result<(), AllocError>
    requires most { count ≤ CHANNELS }
    requires within { AllByRecursion (λ m. m.chan ≤ count) row.now }
    ensures list { OnOk result (list.new ≡ all_placed (λ m. m.chan) row.now list.old) }
    ensures cause { HasCause (H.refusals heap.old) (H.refusals heap.new) result }
{
    if let Some(all) = row.whole(count) {
        return put_moves(heap, all, list);
    }
    let len = gather(heap, row, room)?;
    put_moves(heap, &room[..len], list)
}

/// Places moves, which are sorted by channel, in a list: they become the list where it was empty.
fn put_moves<H: Heap>(heap: &mut H, moves: &[Move], list: &mut MoveList) -> Result<(), AllocError>
    requires { IsStrictlySorted (λ m. m.chan) moves.now }
    ensures list { OnOk result (list.new ≡ all_placed (λ m. m.chan) moves.now list.old) }
    ensures cause { HasCause (H.refusals heap.old) (H.refusals heap.new) result }
{
    if !list.as_slice().is_empty() {
        return list.put_each(heap, moves);
    }
    *list = MoveList::of_sorted(heap, moves)?;
    Ok(())
}

/// Places the levels of moves in a list.
fn put_members<H: Heap>(
    heap: &mut H,
    moves: &[Move],
    list: &mut MemberList,
) -> Result<(), AllocError>
    ensures list { OnOk result (list.new ≡ all_placed (λ m. m.chan) (members_of moves.now) list.old) }
    ensures cause { HasCause (H.refusals heap.old) (H.refusals heap.new) result }
{
    for entry in moves {
        let member = Member {
            chan: entry.chan,
            level: entry.level,
        };
        list.put(heap, member)?;
    }
    Ok(())
}

/// Places the levels of a line as moves in a part, and answers the greatest of their channels and this number.
fn put_line(
    row: &mut MoveRow,
    i: u32,
    mut tokens: Tokens,
    part: PartNo,
    least: u32,
) -> Result<u32, TextFault>
    ensures levels { IfOk result (λ greatest. ReadsLevels i part least (left tokens.entry) [] greatest row.old row.new) }
    ensures fault { IfErr result (λ fault. all_pairs i (left tokens.entry) ≡ Err fault) }
{
    let mut greatest = least;
    loop {
        (tokens, greatest) = put_near(row, tokens, part, greatest);
        if tokens.is_at_end() {
            return Ok(greatest);
        }
        match far_member(i, &mut tokens) {
            Ok(Some(member)) => greatest = row.put(member, part, greatest),
            Ok(None) => return Ok(greatest),
            Err(fault) => return Err(fault),
        }
    }
}

/// The same for the levels at the front of a line that stand in the usual form. It answers the tokens that are left, too. Of a line's
/// channels most follow one another, so each is first looked for as the one behind the last.
fn put_near<'a>(
    row: &mut MoveRow,
    mut tokens: Tokens<'a>,
    part: PartNo,
    least: u32,
) -> (Tokens<'a>, u32)
    ensures levels { (i : ℕ) → ReadsLevels i part least (left tokens.entry) (left result.0) result.1 row.old row.new }
    ensures fewer { length (left result.0) ≤ length (left tokens.entry) }
{
    let mut greatest = least;
    let mut guess = first_guess();
    while let Some(member) = near_member(guess, &mut tokens) {
        guess = guess_behind(member.chan);
        greatest = row.put(member, part, greatest);
    }
    (tokens, greatest)
}

/// Writes a move at a place, and says where the next one goes. Where it isn't there it is written too and the place stays, so that no
/// branch asks for it.
#[inline(always)]
fn keep(entry: Move, there: bool, list: &mut [Move], at: usize) -> usize
    requires { at < length list.old }
    ensures long { length list.new ≡ length list.old }
    ensures list { take result list.new ≡ take at list.old ++ (if there then entry ∷ [] else []) }
    ensures most { result ≤ at + 1 }
{
    list[at] = entry;
    at + usize::from(there)
}

/// A move of the channel of an index, to fill a row with.
fn any_move(index: usize) -> Move
    requires { index < CHANNELS }
    ensures { result.chan ≡ index + 1 }
{
    Move {
        chan: Chan::at(index),
        part: PartNo::BASE,
        level: 0,
    }
}
