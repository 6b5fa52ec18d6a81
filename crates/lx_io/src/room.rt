//! A text that writes itself into a part of some room.

ghost use Rattle.std.specs.Prelude.{◌≡◌, ◌≤◌, ◌+◌, ◌++◌, length, take};

use crate::{TEXT_ROOM, Text};

/// Has a text write itself into room behind the first `len` bytes, which stay, and says where it ends.
#[tactic(auto, using(crate::proofs::Rooms::take_of_part))]
#[inline(always)]
pub fn write_behind<T: Text>(text: &T, room: &mut [u8], len: usize) -> usize
    requires { len + TEXT_ROOM ≤ length room.old }
    ensures within { result ≤ length room.old }
    ensures text { take result room.new ≡ take len room.old ++ T.bytes text.now }
{
    len + write_text(text, &mut room[len..len + TEXT_ROOM])
}

/// Has a text write itself into a part of the room, and says where it ends there.
#[inline(always)]
fn write_text<T: Text>(text: &T, part: &mut [u8]) -> usize
    requires { length part.old ≡ TEXT_ROOM }
    ensures within { result ≤ TEXT_ROOM }
    ensures text { take result part.new ≡ T.bytes text.now }
{
    match part.as_mut_array() {
        Some(room) => text.write_into(room),
        None => unreachable!(),
    }
}
