//! The desk for programs in C: one call for each thing that they want of it, as `host/cuedesk.h` declares them.
//!
//! A desk is a `CueDesk` that the caller keeps, closed at first (all zero bytes), and passes by its address. What it leads to
//! is taken from the C library's heap, and given back by `cuedesk_close`. Each other call but `cuedesk_version` answers a
//! status.
#![tactic(auto)]

mod desk;
mod handle;
mod parts;
mod report;
mod status;

ghost use Rattle.std.specs.Prelude.{◌≡◌, ◌≢◌, ◌≤◌, ◌<◌, ◌↔◌, ◌⊎◌, IfSome, IfOk, IfErr, None, Some, is_some, true, false, length};
ghost use Rattle.lx_base.specs.declared.TheConstants.{CUE_MAX, INPUT_BYTES, SUBS, UNIVERSES, UNIVERSE_SLOTS};
ghost use Rattle.lx_io.specs.Causes.{HasCauseOf, Rose};
ghost use Rattle.lx_spec.specs.Job.{show_wanted};
ghost use Rattle.lx_embed.specs.Answered.{is_bare};
ghost use Rattle.lx_embed.specs.Opened.{RefusesShow};
ghost use Rattle.lx_embed.specs.ReplyBytes.{reply_bytes};
ghost use Rattle.lx_host.specs.declared.status.TheConstants.{OK, CLOSED, OPEN, MEMORY, SHOW_REFUSED, TOO_LONG, NOT_A_LINE, AT_END, OUT_OF_RANGE, VERSION};
ghost use Rattle.lx_host.specs.Calls.{form_of_flag, answer_status, put_in_front, IsOpening, OpensDesk, Opens, Refused, SetsReport, Did, HasNone, HasPart};
ghost use Rattle.lx_host.specs.Calls.{Ticks, IsOver, ShowsFrame, IsChannel, TellsRange, TellsChange, TellsLevel, TellsTracked, TellsFader, TellsState};

use desk::CueDesk;
use lx_embed::{HostDesk, is_line};
use lx_io::{Heap, SinkFault, SystemHeap};
use lx_reader::ShowFault;
use lx_show::Form;
use report::{playback_for, tell_fault};
use status::{
    AT_END, CLOSED, MEMORY, MORE, NOT_A_LINE, OK, OPEN, OUT_OF_RANGE, PlaybackReport, QUIT,
    ShowReport, VERSION,
};
use std::alloc::Global;

/// The version of the header for which these calls are.
#[unsafe(no_mangle)]
pub extern "C" fn cuedesk_version() -> u32
    ensures { result ≡ VERSION }
{
    VERSION
}

/// Opens a closed desk over a show text, whose levels are moves, or where `states` is true whole looks.
///
/// OK: the desk is the one that is opened over the show of the text. SHOW_REFUSED: the report tells the text's first fault and its
/// line. TOO_LONG, MEMORY, and OPEN where the desk isn't closed. Unless it is OK the desk is as it was.
#[unsafe(no_mangle)]
pub extern "C" fn cuedesk_open(
    alloc: Global,
    desk: &mut CueDesk,
    text: &[u8],
    states: bool,
    report: &mut ShowReport,
) -> u32
    ensures opens { result ≡ OK → Opens (form_of_flag states) None text.now desk.new.handle.held }
    ensures refused { result ≡ SHOW_REFUSED → Refused (form_of_flag states) text.now report.new }
    ensures long { result ≡ TOO_LONG → INPUT_BYTES < length (show_wanted text.now) }
    ensures open { (result ≡ OPEN) ↔ (is_some desk.old.handle.held ≡ true) }
    ensures statuses { IsOpening result }
    ensures report { SetsReport result report.old report.new }
    ensures same { result ≢ OK → desk.new.handle.held ≡ desk.old.handle.held }
{
    let mut heap = SystemHeap::new(alloc);
    open_with(&mut heap, desk, text, states, None, report)
}

/// The same, of a desk that keeps the last `depth` shows that edits and records replace, and knows `undo`, `redo` and `record`.
#[unsafe(no_mangle)]
pub extern "C" fn cuedesk_open_undo(
    alloc: Global,
    desk: &mut CueDesk,
    text: &[u8],
    states: bool,
    depth: u32,
    report: &mut ShowReport,
) -> u32
    ensures opens { result ≡ OK → Opens (form_of_flag states) (Some depth) text.now desk.new.handle.held }
    ensures refused { result ≡ SHOW_REFUSED → Refused (form_of_flag states) text.now report.new }
    ensures long { result ≡ TOO_LONG → INPUT_BYTES < length (show_wanted text.now) }
    ensures open { (result ≡ OPEN) ↔ (is_some desk.old.handle.held ≡ true) }
    ensures statuses { IsOpening result }
    ensures report { SetsReport result report.old report.new }
    ensures same { result ≢ OK → desk.new.handle.held ≡ desk.old.handle.held }
{
    let mut heap = SystemHeap::new(alloc);
    open_with(&mut heap, desk, text, states, Some(depth), report)
}

/// Opens a closed desk, plain or with a history. MEMORY comes only where the heap refused some.
fn open_with<H: Heap>(
    heap: &mut H,
    desk: &mut CueDesk,
    text: &[u8],
    states: bool,
    depth: Option<u32>,
    report: &mut ShowReport,
) -> u32
    ensures opens { result ≡ OK → Opens (form_of_flag states) depth text.now desk.new.handle.held }
    ensures refused { result ≡ SHOW_REFUSED → Refused (form_of_flag states) text.now report.new }
    ensures long { result ≡ TOO_LONG → INPUT_BYTES < length (show_wanted text.now) }
    ensures open { (result ≡ OPEN) ↔ (is_some desk.old.handle.held ≡ true) }
    ensures statuses { IsOpening result }
    ensures report { SetsReport result report.old report.new }
    ensures same { result ≢ OK → desk.new.handle.held ≡ desk.old.handle.held }
    ensures wanted { result ≡ MEMORY → Rose (H.refusals heap.old) (H.refusals heap.new) }
{
    if desk.is_open() {
        return OPEN;
    }
    match opened(heap, text, form_for(states), depth) {
        Ok(host) => {
            *desk = CueDesk::of(host);
            OK
        }
        Err(fault) => tell_fault(fault, report),
    }
}

/// A desk over a show text, in a box. `Memory` comes only where the heap refused some.
fn opened<H: Heap>(
    heap: &mut H,
    text: &[u8],
    form: Form,
    depth: Option<u32>,
) -> Result<Box<HostDesk, Global>, ShowFault>
    ensures opens { IfOk result (λ host. OpensDesk form depth text.now host.value) }
    ensures refuses { IfErr result (RefusesShow form text.now) }
    ensures wanted { HasCauseOf ShowFault.Memory (H.refusals heap.old) (H.refusals heap.new) result }
{
    let desk = HostDesk::open_in(heap, text, form, depth)?;
    match heap.boxed(desk) {
        Ok(host) => Ok(host),
        Err(_) => Err(ShowFault::Memory),
    }
}

/// How levels are read.
fn form_for(states: bool) -> Form
    ensures { result ≡ form_of_flag states }
{
    if states { Form::States } else { Form::Moves }
}

/// Gives all that the desk leads to back, and closes it. A closed desk stays so.
#[unsafe(no_mangle)]
pub extern "C" fn cuedesk_close(alloc: Global, desk: &mut CueDesk)
    ensures { desk.new.handle.held ≡ None }
{
    if desk.is_open() {
        drop(desk.take(alloc));
    }
}

/// Does one script line, as a session does: an edit, a key, a fader, ticks, or a line that asks for a frame, a row or the show's
/// text. What fits of the reply is put into the front of `reply`, and `len` tells how long it is; `cuedesk_reply` gives the rest.
///
/// OK: the line was done, and its whole reply fits. MORE: it was done, and its reply is longer. MEMORY: it was done, and memory was
/// refused for its reply. QUIT: the line is `quit`. CLOSED or NOT_A_LINE: nothing was done.
#[unsafe(no_mangle)]
pub extern "C" fn cuedesk_command(
    alloc: Global,
    desk: &mut CueDesk,
    line: &[u8],
    reply: &mut [u8],
    len: &mut usize,
) -> u32
    ensures did { is_some desk.old.handle.held ≡ true → is_bare line.now ≡ true
        → Did result desk.old.handle.held line.now desk.new.handle.held reply.old reply.new len.new }
    ensures not_a_line { is_some desk.old.handle.held ≡ true → is_bare line.now ≡ false
        → (result ≡ NOT_A_LINE) × ((desk.new.handle.held ≡ desk.old.handle.held) × HasNone reply.old reply.new len.new) }
    ensures closed { desk.old.handle.held ≡ None
        → (result ≡ CLOSED) × ((desk.new.handle.held ≡ None) × HasNone reply.old reply.new len.new) }
{
    if !desk.is_open() {
        *len = 0;
        return CLOSED;
    }
    if !is_line(line) {
        *len = 0;
        return NOT_A_LINE;
    }
    let mut host = desk.take(alloc);
    let answered = host.command(line);
    let count = copy_front(host.reply(), reply);
    desk.put(host);
    *len = count;
    answer_status(answered, count <= reply.len())
}

/// Copies the bytes to the front of `out`, as many as fit, and says how many bytes there are. Behind them `out` is as it was. Most
/// replies are `ok` and the line's end, and are copied at once.
#[inline(always)]
fn copy_front(bytes: &[u8], out: &mut [u8]) -> usize
    ensures count { result ≡ length bytes.now }
    ensures put { out.new ≡ put_in_front bytes.now out.old }
{
    if bytes.len() == 3 && out.len() >= 3 {
        out[0] = bytes[0];
        out[1] = bytes[1];
        out[2] = bytes[2];
    } else {
        copy_part(bytes, 0, out);
    }
    bytes.len()
}

/// How the answer to a line is told, whose reply fits or doesn't.
fn answer_status(answered: Result<bool, SinkFault>, fits: bool) -> u32
    ensures { result ≡ answer_status answered fits }
{
    match answered {
        Ok(true) if fits => OK,
        Ok(true) => MORE,
        Ok(false) => QUIT,
        Err(_) => MEMORY,
    }
}

/// Puts the bytes of the last reply from a place on into the front of `out`, as many as there are and fit, and tells how many.
#[unsafe(no_mangle)]
pub extern "C" fn cuedesk_reply(
    alloc: Global,
    desk: &mut CueDesk,
    from: usize,
    out: &mut [u8],
    len: &mut usize,
) -> u32
    ensures part { IfSome desk.old.handle.held (λ host. (result ≡ OK) × HasPart (reply_bytes host.reply) from out.old out.new len.new) }
    ensures closed { desk.old.handle.held ≡ None → (result ≡ CLOSED) × HasNone out.old out.new len.new }
    ensures same { desk.new.handle.held ≡ desk.old.handle.held }
{
    *len = 0;
    if !desk.is_open() {
        return CLOSED;
    }
    let host = desk.take(alloc);
    *len = copy_part(host.reply(), from, out);
    *desk = CueDesk::of(host);
    OK
}

/// Lets ticks of 2 hundredths of a second go by, and tells how many were accepted.
///
/// OK: all of them. AT_END: fewer, since the moment is at its end. CLOSED.
#[unsafe(no_mangle)]
pub extern "C" fn cuedesk_tick(alloc: Global, desk: &mut CueDesk, n: u32, accepted: &mut u32) -> u32
    ensures ticks { Ticks desk.old.handle.held accepted.new desk.new.handle.held }
    ensures all { result ≡ OK → accepted.new ≡ n }
    ensures end { result ≡ AT_END → (accepted.new < n) × IsOver desk.new.handle.held }
    ensures closed { (result ≡ CLOSED) ↔ (desk.old.handle.held ≡ None) }
    ensures statuses { (result ≡ OK) ⊎ ((result ≡ AT_END) ⊎ (result ≡ CLOSED)) }
{
    *accepted = 0;
    if !desk.is_open() {
        return CLOSED;
    }
    let mut host = desk.take(alloc);
    let ticks = host.tick(n);
    *desk = CueDesk::of(host);
    *accepted = ticks;
    if ticks == n { OK } else { AT_END }
}

/// Puts the 512 slots of a universe, from 1 to 32, at the present moment into `out`. They are taken.
///
/// OK; OUT_OF_RANGE where there is no such universe or `out` hasn't 512 bytes; CLOSED.
#[unsafe(no_mangle)]
pub extern "C" fn cuedesk_frame(
    alloc: Global,
    desk: &mut CueDesk,
    universe: u32,
    out: &mut [u8],
) -> u32
    ensures frame { result ≡ OK → ShowsFrame desk.old.handle.held universe out.new desk.new.handle.held }
    ensures given { is_some desk.old.handle.held ≡ true
        → ((result ≡ OK) ↔ (((1 ≤ universe) × (universe ≤ UNIVERSES)) × (length out.old ≡ UNIVERSE_SLOTS))) }
    ensures statuses { TellsRange result }
    ensures refused { result ≢ OK → (desk.new.handle.held ≡ desk.old.handle.held) × (out.new ≡ out.old) }
    ensures closed { (result ≡ CLOSED) ↔ (desk.old.handle.held ≡ None) }
{
    if !desk.is_open() {
        return CLOSED;
    }
    let mut host = desk.take(alloc);
    let copied = host.frame(universe, out);
    *desk = CueDesk::of(host);
    if copied { OK } else { OUT_OF_RANGE }
}

/// Tells whether the slots of a universe are others than those that were taken last, or none were.
///
/// OK; OUT_OF_RANGE where there is no such universe; CLOSED.
#[unsafe(no_mangle)]
pub extern "C" fn cuedesk_changed(
    alloc: Global,
    desk: &mut CueDesk,
    universe: u32,
    changed: &mut bool,
) -> u32
    ensures changed { result ≡ OK → TellsChange desk.old.handle.held universe changed.new }
    ensures given { is_some desk.old.handle.held ≡ true → ((result ≡ OK) ↔ ((1 ≤ universe) × (universe ≤ UNIVERSES))) }
    ensures statuses { TellsRange result }
    ensures refused { result ≢ OK → changed.new ≡ changed.old }
    ensures closed { (result ≡ CLOSED) ↔ (desk.old.handle.held ≡ None) }
    ensures same { desk.new.handle.held ≡ desk.old.handle.held }
{
    if !desk.is_open() {
        return CLOSED;
    }
    let host = desk.take(alloc);
    let told = host.changed(universe);
    *desk = CueDesk::of(host);
    match told {
        Some(told) => {
            *changed = told;
            OK
        }
        None => OUT_OF_RANGE,
    }
}

/// Tells the level of a channel on stage: that of the playback, before submasters and master.
///
/// OK; OUT_OF_RANGE where the show has no such channel; CLOSED.
#[unsafe(no_mangle)]
pub extern "C" fn cuedesk_level(
    alloc: Global,
    desk: &mut CueDesk,
    channel: u32,
    level: &mut u8,
) -> u32
    ensures level { result ≡ OK → TellsLevel desk.old.handle.held channel level.new }
    ensures given { (result ≡ OK) ↔ IsChannel desk.old.handle.held channel }
    ensures statuses { TellsRange result }
    ensures refused { result ≢ OK → level.new ≡ level.old }
    ensures closed { (result ≡ CLOSED) ↔ (desk.old.handle.held ≡ None) }
    ensures same { desk.new.handle.held ≡ desk.old.handle.held }
{
    if !desk.is_open() {
        return CLOSED;
    }
    let host = desk.take(alloc);
    let told = host.level(channel);
    *desk = CueDesk::of(host);
    tell(told, level)
}

/// Tells the tracked level of a channel at a cue number, in thousandths, which need not be a cue's.
///
/// OK; OUT_OF_RANGE where the show has no such channel, or the number is too great; CLOSED.
#[unsafe(no_mangle)]
pub extern "C" fn cuedesk_tracked(
    alloc: Global,
    desk: &mut CueDesk,
    cue: u32,
    channel: u32,
    level: &mut u8,
) -> u32
    ensures level { result ≡ OK → TellsTracked desk.old.handle.held cue channel level.new }
    ensures given { (result ≡ OK) ↔ ((cue ≤ CUE_MAX) × IsChannel desk.old.handle.held channel) }
    ensures statuses { TellsRange result }
    ensures refused { result ≢ OK → level.new ≡ level.old }
    ensures closed { (result ≡ CLOSED) ↔ (desk.old.handle.held ≡ None) }
    ensures same { desk.new.handle.held ≡ desk.old.handle.held }
{
    if !desk.is_open() {
        return CLOSED;
    }
    let host = desk.take(alloc);
    let told = host.tracked(cue, channel);
    *desk = CueDesk::of(host);
    tell(told, level)
}

/// Tells the fader of a submaster, which the show need not have.
///
/// OK; OUT_OF_RANGE where there is no such number; CLOSED.
#[unsafe(no_mangle)]
pub extern "C" fn cuedesk_fader(alloc: Global, desk: &mut CueDesk, sub: u32, level: &mut u8) -> u32
    ensures level { result ≡ OK → TellsFader desk.old.handle.held sub level.new }
    ensures given { is_some desk.old.handle.held ≡ true → ((result ≡ OK) ↔ ((1 ≤ sub) × (sub ≤ SUBS))) }
    ensures statuses { TellsRange result }
    ensures refused { result ≢ OK → level.new ≡ level.old }
    ensures closed { (result ≡ CLOSED) ↔ (desk.old.handle.held ≡ None) }
    ensures same { desk.new.handle.held ≡ desk.old.handle.held }
{
    if !desk.is_open() {
        return CLOSED;
    }
    let host = desk.take(alloc);
    let told = host.fader(sub);
    *desk = CueDesk::of(host);
    tell(told, level)
}

/// Tells where the playback stands.
///
/// OK; CLOSED.
#[unsafe(no_mangle)]
pub extern "C" fn cuedesk_state(
    alloc: Global,
    desk: &mut CueDesk,
    state: &mut PlaybackReport,
) -> u32
    ensures state { TellsState desk.old.handle.held state.new }
    ensures closed { desk.old.handle.held ≡ None → (result ≡ CLOSED) × (state.new ≡ state.old) }
    ensures given { is_some desk.old.handle.held ≡ true → result ≡ OK }
    ensures same { desk.new.handle.held ≡ desk.old.handle.held }
{
    if !desk.is_open() {
        return CLOSED;
    }
    let host = desk.take(alloc);
    *state = playback_for(host.state());
    *desk = CueDesk::of(host);
    OK
}

/// Tells a level, or that there is none.
fn tell(told: Option<u8>, level: &mut u8) -> u32
    ensures told { IfSome told (λ value. (result ≡ OK) × (level.new ≡ value)) }
    ensures none { told ≡ None → (result ≡ OUT_OF_RANGE) × (level.new ≡ level.old) }
{
    match told {
        Some(value) => {
            *level = value;
            OK
        }
        None => OUT_OF_RANGE,
    }
}

/// Copies the bytes from a place on to the front of `out`, as many as there are and fit, and says how many. Behind them `out` is as it
/// was.
fn copy_part(bytes: &[u8], from: usize, out: &mut [u8]) -> usize
    ensures { HasPart bytes.now from out.old out.new result }
{
    if from > bytes.len() {
        return 0;
    }
    let rest = &bytes[from..];
    let count = rest.len().min(out.len());
    out[..count].copy_from_slice(&rest[..count]);
    count
}
