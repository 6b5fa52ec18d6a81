//! Several entries put into a list that is sorted by number, in turn. Those that rise and go between the same two
//! neighbours are put there in one shift.

ghost use Rattle.std.specs.Prelude.{◌≡◌, ◌<◌, ◌≤◌, ◌+◌, ◌-◌, ◌++◌, IfSome, length, take, drop, slice_get, vec_capacity, OnOk, OnErr};
ghost use Rattle.lx_show.specs.Imports.{AllByRecursion, HasCause, IsStrictlySorted, all_placed, GoesAt};

use crate::sorted::{Keyed, index_near, stands_at};
use lx_io::Heap;
use std::alloc::AllocError;

/// Places each of the entries in turn, in place of the one of its number. They are looked for first at the index after
/// the entry that was placed last, which is kept in `next`. The room for all of them is taken before, and an error comes only where
/// the heap refuses it.
pub fn put_each<H: Heap, T: Keyed + Copy + Drop>(
    heap: &mut H,
    xs: &mut Vec<T>,
    next: &mut usize,
    more: &[T],
) -> Result<(), AllocError>
    requires { IsStrictlySorted T.key xs.old.items }
    ensures ok { OnOk result (xs.new.items ≡ all_placed T.key more.now xs.old.items) }
    ensures sorted { IsStrictlySorted T.key xs.new.items }
    ensures err { OnErr result (xs.new.items ≡ xs.old.items) }
    ensures cause { HasCause (H.refusals heap.old) (H.refusals heap.new) result }
{
    heap.reserve(xs, more.len())?;
    let mut rest = more;
    while !rest.is_empty() {
        let count = put_front(xs, next, rest);
        rest = &rest[count..];
    }
    Ok(())
}

/// Places the first of the entries, and with it those that rise behind it and go to the same place. It says how many.
fn put_front<T: Keyed + Copy + Drop>(xs: &mut Vec<T>, next: &mut usize, more: &[T]) -> usize
    requires some { 0 < length more.now }
    requires sorted { IsStrictlySorted T.key xs.old.items }
    requires room { length xs.old.items + length more.now ≤ vec_capacity xs.old }
    ensures some { 0 < result }
    ensures most { result ≤ length more.now }
    ensures items { xs.new.items ≡ all_placed T.key (take result more.now) xs.old.items }
    ensures room { length xs.new.items + (length more.now - result) ≤ vec_capacity xs.new }
{
    let first = more[0];
    match index_near(xs.as_slice(), next, first.key()) {
        Ok(at) => {
            xs[at] = first;
            let count = put_over(xs, at.wrapping_add(1), &more[1..]) + 1;
            *next = at.saturating_add(count);
            count
        }
        Err(at) => {
            let count = stretch(xs.as_slice(), at, more);
            insert_all(xs, at, &more[..count]);
            *next = at.saturating_add(count);
            count
        }
    }
}

/// Puts the entries in place of those from the index on, as long as the numbers are the same. It says how many.
fn put_over<T: Keyed + Copy + Drop>(xs: &mut Vec<T>, at: usize, more: &[T]) -> usize
    requires { IsStrictlySorted T.key xs.old.items }
    ensures most { result ≤ length more.now }
    ensures items { xs.new.items ≡ all_placed T.key (take result more.now) xs.old.items }
    ensures same { length xs.new.items ≡ length xs.old.items }
    ensures capacity { vec_capacity xs.new ≡ vec_capacity xs.old }
{
    let mut count = 0;
    let mut place = at;
    while count < more.len() {
        let entry = more[count];
        if stands_at(xs.as_slice(), place, entry.key()) {
            xs[place] = entry;
            count += 1;
            place = place.wrapping_add(1);
        } else {
            break;
        }
    }
    count
}

/// How many entries at the front rise from the first one on, and go to the index as that one does.
fn stretch<T: Keyed>(xs: &[T], at: usize, more: &[T]) -> usize
    requires some { 0 < length more.now }
    requires sorted { IsStrictlySorted T.key xs.now }
    requires goes { IfSome (slice_get more.now 0) (λ x. GoesAt T.key (T.key x) xs.now at) }
    ensures some { 0 < result }
    ensures most { result ≤ length more.now }
    ensures items { all_placed T.key (take result more.now) xs.now ≡ take at xs.now ++ (take result more.now ++ drop at xs.now) }
{
    let end = end_of_gap(xs, at);
    let mut least = u64::from(more[0].key()) + 1;
    let mut count = 1;
    while count < more.len() {
        let number = u64::from(more[count].key());
        if number < least || end <= number {
            break;
        }
        least = number + 1;
        count += 1;
    }
    count
}

/// The number of the entry at the index, or 2^32 where there is none.
fn end_of_gap<T: Keyed>(xs: &[T], at: usize) -> u64
    requires { IsStrictlySorted T.key xs.now }
    ensures { AllByRecursion (λ y. result ≤ T.key y) (drop at xs.now) }
{
    if at < xs.len() {
        u64::from(xs[at].key())
    } else {
        0x1_0000_0000
    }
}

/// Puts the entries in at the index, in one shift. There is room for them.
fn insert_all<T: Copy + Drop>(xs: &mut Vec<T>, at: usize, more: &[T])
    requires within { at ≤ length xs.old.items }
    requires room { length xs.old.items + length more.now ≤ vec_capacity xs.old }
    ensures items { xs.new.items ≡ take at xs.old.items ++ (more.now ++ drop at xs.old.items) }
    ensures capacity { vec_capacity xs.old ≤ vec_capacity xs.new }
{
    match xs.extend_from_slice(more) {
        Ok(()) => {}
        Err(_) => unreachable!(),
    }
    let end = xs.len() - more.len();
    xs.copy_within(at..end, at + more.len());
    let gap = &mut xs[at..at + more.len()];
    gap.copy_from_slice(more);
}
