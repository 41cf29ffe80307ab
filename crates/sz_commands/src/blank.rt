//! Blank lines.

ghost use Rattle.std.specs.Prelude.{◌≡◌};
ghost use Rattle.sz_commands.specs.Terms.{is_blank};

/// Whether a line is of spaces, tabs and bytes 13 alone.
pub fn is_blank(line: &[u8]) -> bool
    ensures { result ≡ is_blank line.now }
{
    line.iter()
        .all(|b| *b == b' ' || *b == b'\t' || *b == b'\r')
}
