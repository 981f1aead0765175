/// An operation that joins two bits, a word's bits one by one, or all bits of a word.
#[derive(Clone, Copy, Debug, PartialEq, Eq)]
pub enum Connective {
    And,
    Or,
    Xor,
}

/// Where a shift moves the bits: up to the higher places, or down.
#[derive(Clone, Copy, Debug, PartialEq, Eq)]
pub enum Direction {
    Up,
    Down,
}
