//! How the sources in memory hand out their bytes.

ghost use Rattle.std.specs.Prelude.{◌≡◌, ◌≤◌, ◌+◌, ◌-◌, take, drop, length, min};

/// Moves the first bytes from a place on, at most `piece`, into the front of `buf`, and says how many.
pub(crate) fn move_front(bytes: &[u8], at: usize, piece: usize, buf: &mut [u8]) -> usize
    requires { at ≤ length bytes.now }
    ensures count { result ≡ min (min (length bytes.now - at) (length buf.old)) piece }
    ensures bytes { take result buf.new ≡ take result (drop at bytes.now) }
{
    let rest = &bytes[at..];
    let count = rest.len().min(buf.len()).min(piece);
    buf[..count].copy_from_slice(&rest[..count]);
    count
}
