ghost use Rattle.std.specs.Prelude.{ℕ, ◌^◌, ◌<◌, ◌≤◌};

use crate::arithmetic::{cut, has_top_bit, ones};

/// A value of 1 to 64 bits, read as signed or as unsigned.
#[derive(Clone, Copy, Debug, PartialEq, Eq)]
pub struct Word {
    /// How many bits, 1 to 64.
    pub width: u8,
    /// Whether the number is read in two's complement.
    pub signed: bool,
    /// The number that the bits spell in base two, below 2 to the power of the width.
    pub value: u64,
    pub ghost some_bits: { 0 < width },
    pub ghost at_most_64: { width ≤ 64 },
    pub ghost fits: { value < 2 ^ width },
}

impl Word {
    ghost use Rattle.std.specs.Prelude.{◌≡◌, ◌+◌, ◌-◌, ◌≤◌, ◌<◌, IsTrue, ◌↔◌, ◌≢◌};
    ghost use Rattle.rst_word.specs.Words.{PlainWord, extended, truncated, part_of, joined, number_of, read_as, top_bit, bit_word};
    ghost use Rattle.rst_word.specs.Plain.{plain_word};

    /// The word of `width` bits with the number `value`.
    pub fn new(width: u8, signed: bool, value: u64) -> Word
        requires some_bits { 0 < width }
        requires at_most_64 { width ≤ 64 }
        requires fits { value < 2 ^ width }
        ensures { plain_word result ≡ record { width = width; signed = signed; value = value } }
    {
        Word {
            width,
            signed,
            value,
        }
    }

    /// The word at `width` bits, at least its own. The new bits copy the top bit where `signed` is true, and are 0 where it
    /// is false; the result has that sign (IEEE 1364-2001, clause 4.5.2).
    pub fn extend(self, width: u8, signed: bool) -> Word
        requires wider { self.width ≤ width }
        requires at_most_64 { width ≤ 64 }
        ensures { plain_word result ≡ extended width signed (plain_word self) }
    {
        let fill = signed && has_top_bit(self.value, self.width);
        Word {
            width,
            signed,
            value: self.value + ones(fill, self.width, width),
        }
    }

    /// The lowest `width` bits, at most its own, with the same sign.
    pub fn truncate(self, width: u8) -> Word
        requires some_bits { 0 < width }
        requires narrower { width ≤ self.width }
        ensures { plain_word result ≡ truncated width (plain_word self) }
    {
        Word {
            width,
            signed: self.signed,
            value: cut(self.value as u128, width),
        }
    }

    /// The `width` bits from bit `low` on. A part-select is unsigned (IEEE 1364-2001, clause 4.5.1).
    pub fn select(self, low: u8, width: u8) -> Word
        requires some_bits { 0 < width }
        requires inside { low + width ≤ self.width }
        ensures { plain_word result ≡ part_of low width (plain_word self) }
    {
        Word::new(width, false, cut((self.value >> low) as u128, width))
    }

    /// The bits of `high` above those of `low`, together at most 64. A join is unsigned.
    pub fn concat2(high: Word, low: Word) -> Word
        requires { high.width + low.width ≤ 64 }
        ensures { plain_word result ≡ joined (plain_word high) (plain_word low) }
    {
        Word {
            width: high.width + low.width,
            signed: false,
            value: (high.value << low.width) + low.value,
        }
    }
}
