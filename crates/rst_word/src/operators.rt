//! What each operator gives.

use crate::arithmetic::{cut, has_top_bit, ones, signed_number, wrap};
use crate::{BinaryOp, UnaryOp, Word};

impl Word {
    ghost use Rattle.std.specs.Prelude.{◌≡◌, ◌+◌, ◌-◌, ◌≤◌, ◌<◌, ◌^◌, ◌%◌, Bool, ◌&&◌, cond, not, count_ones, nat_eq, ◌≢◌, neg_ℤ, ℤ, pos, ◌<ℤ◌, ◌≤ℤ◌, int_lt, int_le};
    ghost use Rattle.rst_word.specs.Words.{PlainWord, read_as, bit_word};
    ghost use Rattle.rst_word.specs.Unary.{unary_word, is_true, all_ones, odd_ones};
    ghost use Rattle.rst_word.specs.Binary.{binary_word, both_signed, sized_word, left_number, right_number, moved_up, moved_down, HasWidths, HasDivisor};
    ghost use Rattle.rst_word.specs.Plain.{plain_word};

    /// What the operator gives of `a`. `+ - ~` have the width and the sign of `a`; `!` and the reductions give one unsigned
    /// bit (IEEE 1364-2001, clauses 4.1.5, 4.1.9 and 4.1.11).
    pub fn unary(op: UnaryOp, a: Word) -> Word
        ensures { plain_word result ≡ unary_word op (plain_word a) }
    {
        match op {
            UnaryOp::Plus => a,
            UnaryOp::Minus => a.with_value(cut((1u128 << a.width) - a.value as u128, a.width)),
            UnaryOp::Invert => a.with_value(ones(true, 0, a.width) - a.value),
            UnaryOp::Not => Word::bit(!a.is_true()),
            UnaryOp::And => Word::bit(a.has_all_ones()),
            UnaryOp::Nand => Word::bit(!a.has_all_ones()),
            UnaryOp::Or => Word::bit(a.is_true()),
            UnaryOp::Nor => Word::bit(!a.is_true()),
            UnaryOp::Xor => Word::bit(a.has_odd_ones()),
            UnaryOp::Xnor => Word::bit(!a.has_odd_ones()),
        }
    }

    /// What the operator gives of `a` and `b` (IEEE 1364-2001, clause 4.1).
    ///
    /// All operators but shifts, `&&` and `||` take operands of one width, and `/` and `%` a divisor that is not 0. Sums,
    /// differences, products, quotients and remainders are modulo 2 to the power of the width; they, the bitwise operators and
    /// comparisons read their operands as signed where both are. A shift has the width and sign of `a`, and reads `b` as
    /// unsigned; `>>>` of a signed `a` copies its top bit. Comparisons, `&&` and `||` give one unsigned bit.
    pub fn binary(op: BinaryOp, a: Word, b: Word) -> Word
        requires widths { HasWidths op (plain_word a) (plain_word b) }
        requires divisor { HasDivisor op (plain_word b) }
        ensures { plain_word result ≡ binary_word op (plain_word a) (plain_word b) }
    {
        match op {
            BinaryOp::Mul => a.sized(b, cut(a.value as u128 * b.value as u128, a.width)),
            BinaryOp::Div => a.sized(b, wrap(a.left_number(b) / a.right_number(b), a.width)),
            BinaryOp::Rem => a.sized(b, wrap(a.left_number(b) % a.right_number(b), a.width)),
            BinaryOp::Add => a.sized(b, cut(a.value as u128 + b.value as u128, a.width)),
            BinaryOp::Sub => a.sized(
                b,
                cut(
                    a.value as u128 + ((1u128 << a.width) - b.value as u128),
                    a.width,
                ),
            ),
            BinaryOp::Shl | BinaryOp::ArithShl => a.moved_up(b.value),
            BinaryOp::Shr => a.moved_down(false, b.value),
            BinaryOp::ArithShr => a.moved_down(a.signed && has_top_bit(a.value, a.width), b.value),
            BinaryOp::Lt => Word::bit(a.left_number(b) < a.right_number(b)),
            BinaryOp::Le => Word::bit(a.left_number(b) <= a.right_number(b)),
            BinaryOp::Gt => Word::bit(a.left_number(b) > a.right_number(b)),
            BinaryOp::Ge => Word::bit(a.left_number(b) >= a.right_number(b)),
            BinaryOp::Eq => Word::bit(a.value == b.value),
            BinaryOp::Ne => Word::bit(a.value != b.value),
            BinaryOp::And => a.sized(b, a.value & b.value),
            BinaryOp::Xor => a.sized(b, a.value ^ b.value),
            BinaryOp::Xnor => a.sized(b, ones(true, 0, a.width) - (a.value ^ b.value)),
            BinaryOp::Or => a.sized(b, a.value | b.value),
            BinaryOp::LogicAnd => Word::bit(a.is_true() && b.is_true()),
            BinaryOp::LogicOr => Word::bit(a.is_true() || b.is_true()),
        }
    }

    /// Whether a bit of the word is 1.
    pub fn is_true(self) -> bool
        ensures { result ≡ is_true (plain_word self) }
    {
        self.value != 0
    }

    /// The number that the word stands for by its own sign.
    pub fn number(self) -> i128
        ensures { result ≡ read_as self.signed (plain_word self) }
    {
        self.read_as(self.signed)
    }

    fn has_all_ones(self) -> bool
        ensures { result ≡ all_ones (plain_word self) }
    {
        self.value == ones(true, 0, self.width)
    }

    fn has_odd_ones(self) -> bool
        ensures { result ≡ odd_ones (plain_word self) }
    {
        self.value.count_ones() % 2 == 1
    }

    fn bit(test: bool) -> Word
        ensures { plain_word result ≡ bit_word test }
    {
        Word {
            width: 1,
            signed: false,
            value: test as u64,
        }
    }

    fn with_value(self, value: u64) -> Word
        requires { value < 2 ^ self.width }
        ensures { plain_word result ≡ record { width = self.width; signed = self.signed; value = value } }
    {
        Word {
            width: self.width,
            signed: self.signed,
            value,
        }
    }

    fn sized(self, other: Word, value: u64) -> Word
        requires { value < 2 ^ self.width }
        ensures { plain_word result ≡ sized_word (plain_word self) (plain_word other) value }
    {
        Word {
            width: self.width,
            signed: self.signed && other.signed,
            value,
        }
    }

    fn read_as(self, signed: bool) -> i128
        ensures exact { result ≡ read_as signed (plain_word self) }
        ensures low { neg_ℤ (pos (2 ^ 63)) ≤ℤ result }
        ensures high { result <ℤ pos (2 ^ 64) }
        ensures zero { self.value ≢ 0 → result ≢ pos 0 }
    {
        if signed {
            signed_number(self.value, self.width)
        } else {
            self.value as i128
        }
    }

    fn left_number(self, other: Word) -> i128
        ensures exact { result ≡ left_number (plain_word self) (plain_word other) }
        ensures low { neg_ℤ (pos (2 ^ 63)) ≤ℤ result }
        ensures high { result <ℤ pos (2 ^ 64) }
    {
        self.read_as(self.signed && other.signed)
    }

    fn right_number(self, other: Word) -> i128
        ensures exact { result ≡ right_number (plain_word self) (plain_word other) }
        ensures low { neg_ℤ (pos (2 ^ 63)) ≤ℤ result }
        ensures high { result <ℤ pos (2 ^ 64) }
        ensures zero { 0 < other.value → result ≢ pos 0 }
    {
        other.read_as(self.signed && other.signed)
    }

    fn moved_up(self, places: u64) -> Word
        ensures { plain_word result ≡ moved_up (plain_word self) places }
    {
        if places < self.width as u64 {
            self.with_value(cut((self.value as u128) << places, self.width))
        } else {
            self.with_value(0)
        }
    }

    fn moved_down(self, fill: bool, places: u64) -> Word
        ensures { plain_word result ≡ moved_down fill (plain_word self) places }
    {
        if places < self.width as u64 {
            let from = self.width - places as u8;
            self.with_value((self.value >> places) + ones(fill, from, self.width))
        } else {
            self.with_value(ones(fill, 0, self.width))
        }
    }
}
