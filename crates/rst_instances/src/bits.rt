// Widths of ranges.

ghost use Rattle.std.specs.Prelude.{◌<◌, ◌≤◌};

/// How many bits a range has.
#[derive(Clone, Copy)]
pub struct Bits {
    pub count: u8,
    pub ghost some_bits: { 0 < count },
    pub ghost at_most_64: { count ≤ 64 },
}
