//! The texts of the show and of the script.
#![tactic(auto, using(lx_io::proofs::Chain::puts))]

ghost use Rattle.std.specs.Prelude.{◌≡◌, ◌<◌, ◌*◌, ◌∷◌, ◌++◌, [], codes, decimal, flat_map, IfOk, IfSome, OnOk};
ghost use Rattle.lx_desk.specs.Imports.{range_with_len, HasCause, Puts, line, drawn_from, made_cue, made_patch, made_turn, made_input, chan_text};
ghost use Rattle.lx_desk.specs.Imports.{cue_head, drawn_cue_text, go_text, made_show, patched_text, set_text, turn_text};

use crate::draws::{DrawnCue, DrawnTurn, Draws, Setting};
use crate::room_sink::RoomSink;
use lx_io::{Heap, Sink, SinkFault, put_all};
use lx_lex::put_whole;
use std::alloc::AllocError;

/// How many channels the show is patched to, each to the dimmer of its number.
const PATCHED: u32 = 512;

/// How many bytes of the input there are at most besides the lines of cues and turns.
const PATCH_BYTES: usize = 10_496;

/// How many bytes a cue and a turn have at most together.
const CUE_BYTES: usize = 128;

/// The input: a show of this many cues, and a script of as many turns. An error comes where the heap refuses memory.
pub(crate) fn made_input<H: Heap>(heap: &mut H, cues: u32) -> Result<Vec<u8>, AllocError>
    ensures input { IfOk result (λ input. input.items ≡ made_input cues) }
    ensures cause { HasCause (H.refusals heap.old) (H.refusals heap.new) result }
{
    let mut capacity = bytes_for(cues);
    'rooms: loop {
        let room = heap.room(capacity)?;
        if let Some(input) = input_in(room, cues) {
            return Ok(input);
        }
        capacity *= 2;
    }
}

/// The room that is made for the input at first.
fn bytes_for(cues: u32) -> usize
    ensures { 0 < result }
{
    PATCH_BYTES + cues as usize * CUE_BYTES
}

/// The input in this room, if there is enough of it.
fn input_in(room: Vec<u8>, cues: u32) -> Option<Vec<u8>>
    requires { room.items ≡ [] }
    ensures { IfSome result (λ input. input.items ≡ made_input cues) }
{
    let mut sink = RoomSink::new(room);
    match put_input(cues, &mut sink) {
        Ok(()) => Some(sink.into_bytes()),
        Err(_) => None,
    }
}

/// Appends the input.
fn put_input<K: Sink>(cues: u32, sink: &mut K) -> Result<(), SinkFault>
    ensures { Puts K.Sink sink.old sink.new result (made_input cues) }
{
    let mut draws = Draws::new(cues);
    put_show(cues, &mut draws, sink)?;
    put_script(cues, &mut draws, sink)
}

/// Appends the show.
fn put_show<K: Sink>(cues: u32, draws: &mut Draws, sink: &mut K) -> Result<(), SinkFault>
    requires { draws.old.number ≡ cues }
    ensures text { Puts K.Sink sink.old sink.new result (made_show cues) }
    ensures draws { OnOk result (draws.new.number ≡ drawn_from cues (9 * cues)) }
{
    put_all(sink, b"IDENT 3:0\n")?;
    put_patch(sink)?;
    put_cues(cues, draws, sink)?;
    put_all(sink, b"ENDDATA\n")
}

/// Appends the patch: each channel to the dimmer of its number, in full.
fn put_patch<K: Sink>(sink: &mut K) -> Result<(), SinkFault>
    ensures { Puts K.Sink sink.old sink.new result (flat_map made_patch (range_with_len 1 512)) }
{
    for before in 0..PATCHED {
        put_patched(before + 1, before + 1, sink)?;
    }
    Ok(())
}

/// Appends the patch line of a channel and a dimmer.
fn put_patched<K: Sink>(channel: u32, dimmer: u32, sink: &mut K) -> Result<(), SinkFault>
    ensures { Puts K.Sink sink.old sink.new result (patched_text channel dimmer) }
{
    put_number(b"PATCH 1 ", channel, sink)?;
    put_number(b"<", dimmer, sink)?;
    put_all(sink, b"@100\n")
}

/// Appends the cues, each of the draws that follow.
fn put_cues<K: Sink>(cues: u32, draws: &mut Draws, sink: &mut K) -> Result<(), SinkFault>
    requires { draws.old.number ≡ cues }
    ensures text { Puts K.Sink sink.old sink.new result (flat_map (made_cue cues) (range_with_len 1 cues)) }
    ensures draws { OnOk result (draws.new.number ≡ drawn_from cues (9 * cues)) }
{
    for before in 0..cues {
        put_cue(before + 1, &draws.cue(), sink)?;
    }
    Ok(())
}

/// Appends the lines of a cue.
fn put_cue<K: Sink>(number: u32, cue: &DrawnCue, sink: &mut K) -> Result<(), SinkFault>
    ensures { Puts K.Sink sink.old sink.new result (drawn_cue_text number cue.now) }
{
    put_cue_head(number, cue.up, sink)?;
    put_settings(&cue.settings, sink)
}

/// Appends the levels of a cue.
fn put_settings<K: Sink>(settings: &[Setting], sink: &mut K) -> Result<(), SinkFault>
    ensures { Puts K.Sink sink.old sink.new result (flat_map chan_text settings.now) }
{
    for setting in settings {
        put_setting(*setting, sink)?;
    }
    Ok(())
}

/// Appends the number and the time of a cue.
fn put_cue_head<K: Sink>(number: u32, up: u32, sink: &mut K) -> Result<(), SinkFault>
    ensures { Puts K.Sink sink.old sink.new result (cue_head number up) }
{
    put_number(b"CUE ", number, sink)?;
    put_number(b"\nUP ", up, sink)?;
    put_all(sink, b"\n")
}

/// Appends the line of a channel's level.
fn put_setting<K: Sink>(setting: Setting, sink: &mut K) -> Result<(), SinkFault>
    ensures { Puts K.Sink sink.old sink.new result (chan_text setting) }
{
    put_number(b"CHAN ", setting.channel, sink)?;
    put_number(b"@", setting.percent, sink)?;
    put_all(sink, b"\n")
}

/// Appends the script.
fn put_script<K: Sink>(cues: u32, draws: &mut Draws, sink: &mut K) -> Result<(), SinkFault>
    requires { draws.old.number ≡ drawn_from cues (9 * cues) }
    ensures { Puts K.Sink sink.old sink.new result
        (flat_map (made_turn cues) (range_with_len 1 cues) ++ line (codes "quit" ∷ [])) }
{
    put_turns(cues, draws, sink)?;
    put_all(sink, b"quit\n")
}

/// Appends the turns of the script, each of the draws that follow.
fn put_turns<K: Sink>(cues: u32, draws: &mut Draws, sink: &mut K) -> Result<(), SinkFault>
    requires { draws.old.number ≡ drawn_from cues (9 * cues) }
    ensures { Puts K.Sink sink.old sink.new result (flat_map (made_turn cues) (range_with_len 1 cues)) }
{
    for before in 0..cues {
        put_turn(before + 1, &draws.turn(), sink)?;
    }
    Ok(())
}

/// Appends the lines of a turn.
fn put_turn<K: Sink>(number: u32, turn: &DrawnTurn, sink: &mut K) -> Result<(), SinkFault>
    ensures { Puts K.Sink sink.old sink.new result (turn_text number turn.now) }
{
    put_go(turn.ticks, sink)?;
    put_set(number, turn.setting, sink)?;
    put_all(sink, b"frame\n")
}

/// Appends the key and the ticks after it.
fn put_go<K: Sink>(ticks: u32, sink: &mut K) -> Result<(), SinkFault>
    ensures { Puts K.Sink sink.old sink.new result (go_text ticks) }
{
    put_number(b"go\ntick ", ticks, sink)?;
    put_all(sink, b"\n")
}

/// Appends the line that sets a level in a cue.
fn put_set<K: Sink>(number: u32, setting: Setting, sink: &mut K) -> Result<(), SinkFault>
    ensures { Puts K.Sink sink.old sink.new result (set_text number setting) }
{
    put_number(b"set ", number, sink)?;
    put_number(b" chan ", setting.channel, sink)?;
    put_last(b" at ", setting.percent, sink)
}

/// Appends a text, a number and a line end.
pub(crate) fn put_last<K: Sink>(text: &[u8], number: u32, sink: &mut K) -> Result<(), SinkFault>
    ensures { Puts K.Sink sink.old sink.new result (text.now ++ decimal number ++ 10 ∷ []) }
{
    put_number(text, number, sink)?;
    put_all(sink, b"\n")
}

/// Appends a text and a number.
pub(crate) fn put_number<K: Sink>(text: &[u8], number: u32, sink: &mut K) -> Result<(), SinkFault>
    ensures { Puts K.Sink sink.old sink.new result (text.now ++ decimal number) }
{
    put_all(sink, text)?;
    put_whole(number, sink)
}
