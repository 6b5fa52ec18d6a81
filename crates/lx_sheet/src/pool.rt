//! The order of the cues, each with the row that is its own, and the rows that are free. No call takes memory.

ghost use Rattle.std.specs.Prelude.{◌≡◌, ◌≤◌, ◌-◌, ℕ, None, IfSome, length, map, insert, remove, reverse, vec_capacity};
ghost use Rattle.lx_sheet.specs.Imports.{range_with_len, entry_at, StandsAt, GoesAt, IsOrder, placed_from, row_at_place};
ghost use Rattle.lx_base.specs.declared.TheConstants.{CUES};

use crate::sheet::Place;
use lx_base::{CUES, CueNo};
use lx_show::Cue;
use lx_show::sorted::index_of;

/// Gives the cue a free row, and answers its place in the order. `None` where it has a row, or none is free.
pub(crate) fn add_place(order: &mut Vec<Place>, free: &mut Vec<usize>, n: CueNo) -> Option<usize>
    requires { IsOrder order.old.items (vec_capacity order.old) free.old.items (vec_capacity free.old) }
    ensures kept { IsOrder order.new.items (vec_capacity order.new) free.new.items (vec_capacity free.new) }
    ensures goes { IfSome result (GoesAt (λ p. p.cue) n order.old.items) }
    ensures added { IfSome result (λ at. order.new.items
        ≡ insert order.old.items at (record { cue = n; row = row_at_place order.new.items at })) }
    ensures none { result ≡ None → entry_at (λ p. p.cue) n order.old.items ≡ None → CUES ≤ length order.old.items }
    ensures same { result ≡ None → order.new.items ≡ order.old.items }
{
    match index_of(order.as_slice(), n.get()) {
        Ok(_) => None,
        Err(at) => {
            let row = free.pop()?;
            match order.insert(at, Place { cue: n, row }) {
                Ok(()) => Some(at),
                Err(_) => unreachable!(),
            }
        }
    }
}

/// The place in the order that a cue had, and the row of the block.
#[derive(Clone, Copy)]
pub(crate) struct Freed {
    pub(crate) at: usize,
    pub(crate) row: usize,
}

/// Frees the row of the cue, and answers it. `None` where it has no row.
pub(crate) fn drop_place(order: &mut Vec<Place>, free: &mut Vec<usize>, n: CueNo) -> Option<Freed>
    requires { IsOrder order.old.items (vec_capacity order.old) free.old.items (vec_capacity free.old) }
    ensures kept { IsOrder order.new.items (vec_capacity order.new) free.new.items (vec_capacity free.new) }
    ensures stands { IfSome result (λ freed. StandsAt (λ p. p.cue) n order.old.items freed.at) }
    ensures dropped { IfSome result (λ freed. order.new.items ≡ remove order.old.items freed.at) }
    ensures row { IfSome result (λ freed. freed.row ≡ row_at_place order.old.items freed.at) }
    ensures absent { result ≡ None → entry_at (λ p. p.cue) n order.old.items ≡ None }
    ensures none { result ≡ None → order.new.items ≡ order.old.items }
{
    match index_of(order.as_slice(), n.get()) {
        Ok(at) => {
            let place = order.remove(at);
            free.push_reserved(place.row);
            Some(Freed { at, row: place.row })
        }
        Err(_) => None,
    }
}

/// Gives each cue the row of its own place, in the room that is there.
pub(crate) fn list_cues(order: &mut Vec<Place>, cues: &[Cue])
    requires { length cues.now ≤ vec_capacity order.old }
    ensures order { order.new.items ≡ placed_from 0 cues.now }
    ensures room { vec_capacity order.new ≡ vec_capacity order.old }
{
    order.clear();
    for (row, cue) in cues.iter().enumerate() {
        order.push_reserved(Place {
            cue: cue.number,
            row,
        });
    }
}

/// Frees the rows from this one on, in the room that is there: the first of them is taken next.
pub(crate) fn list_free(free: &mut Vec<usize>, from: usize)
    requires room { CUES ≤ vec_capacity free.old }
    requires from { from ≤ CUES }
    ensures free { free.new.items ≡ reverse (range_with_len from (CUES - from)) }
    ensures room { vec_capacity free.new ≡ vec_capacity free.old }
{
    free.clear();
    for row in from..CUES {
        free.push_reserved(row);
    }
    free.reverse();
}
