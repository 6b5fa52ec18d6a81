//! Whether bytes are one line.

ghost use Rattle.std.specs.Prelude.{◌≡◌, ◌≤◌, ◌+◌, length};
ghost use Rattle.lx_embed.specs.Imports.{is_bare, ends_line, TellsEnd};

/// Whether the bytes are one line without its end: no LF and no CR is among them.
///
/// Most lines are short. Their bytes are looked at once, in a few runs that may overlap.
#[tactic(auto, using(crate::proofs::LineEndRuns::bare_is))]
pub fn is_line(bytes: &[u8]) -> bool
    ensures { result ≡ is_bare bytes.now }
{
    match bytes.len() {
        4..=8 => !has_end_in_halves(bytes, 4),
        9..=16 => !has_end_in_halves(bytes, 8),
        17..=32 => !has_end_in_quarters(bytes),
        _ => !bytes.contains(&b'\n') && !bytes.contains(&b'\r'),
    }
}

/// Whether one of the bytes ends a line, of which there are at least so many and at most twice so many.
#[inline(always)]
fn has_end_in_halves(bytes: &[u8], half: usize) -> bool
    requires low { half ≤ length bytes.now }
    requires high { length bytes.now ≤ half + half }
    ensures { TellsEnd bytes.now 0 (length bytes.now) result }
{
    has_end(bytes, 0, half) | has_end(bytes, bytes.len() - half, half)
}

/// Whether one of eight to 32 bytes ends a line.
#[inline(always)]
fn has_end_in_quarters(bytes: &[u8]) -> bool
    requires low { 8 ≤ length bytes.now }
    requires high { length bytes.now ≤ 32 }
    ensures { TellsEnd bytes.now 0 (length bytes.now) result }
{
    let last = bytes.len() - 8;
    has_end(bytes, 0, 8)
        | has_end(bytes, last.min(8), 8)
        | has_end(bytes, last.min(16), 8)
        | has_end(bytes, last, 8)
}

/// Whether one of so many bytes from a place on ends a line. It has no early exit, so that it can become vector code.
#[inline(always)]
fn has_end(bytes: &[u8], from: usize, count: usize) -> bool
    requires { from + count ≤ length bytes.now }
    ensures { TellsEnd bytes.now from (from + count) result }
{
    let mut found = false;
    for k in 0..count {
        found |= ends_line(bytes[from + k]);
    }
    found
}

/// LF or CR.
#[inline(always)]
fn ends_line(byte: u8) -> bool
    ensures { result ≡ ends_line byte }
{
    (byte == b'\n') | (byte == b'\r')
}
