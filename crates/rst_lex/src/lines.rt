//! Lines of a text.
ghost use Rattle.std.specs.Prelude.{◌≡◌, ◌+◌, ◌≤◌, length};
ghost use Rattle.rst_lex.specs.Lines.{newlines_before};

/// The line of a byte, counted from 1: one more than the number of newlines before `at`.
pub fn line_of(text: &[u8], at: u32) -> u32
    requires short { length text.now ≤ 1048576 }
    requires inside { at ≤ length text.now }
    ensures { result ≡ 1 + newlines_before text.now at }
{
    let newlines = text[..at as usize].iter().filter(|b| **b == b'\n').count();
    1 + newlines as u32
}
