//! The line that ends a script.

ghost use Rattle.std.specs.Prelude.{◌≡◌};
ghost use Rattle.lx_spec.specs.Session.{ends_script};

use lx_script::read_line;
use lx_spec::Line;

/// Whether the line is `quit`, which ends its script.
pub fn is_quit(line: &[u8]) -> bool
    ensures { result ≡ ends_script line.now }
{
    matches!(read_line(line), Some(Line::Quit))
}
