//! Levels, and how one is scaled by another.

ghost use Rattle.std.specs.Prelude.{◌≡◌, ◌≤◌};
ghost use Rattle.lx_base.specs.Numbers.{percent, scaled};

/// A level, from 0 (out) to 255 (full).
pub type Level = u8;

/// The level of this many percent, to the nearest, halves up: 0 is out, 100 is 255.
pub fn of_percent(p: u8) -> Level
    requires { p ≤ 100 }
    ensures { result ≡ percent p }
{
    ((255 * p as u16 + 50) / 100) as u8
}

/// A level in the proportion that another has to full, rounded down: at 255 it is the level itself, at 0 it is 0.
pub fn scale(a: Level, b: Level) -> Level
    ensures { result ≡ scaled a b }
{
    (a as u16 * b as u16 / 255) as u8
}
