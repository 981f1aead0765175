//! Tokens and what they carry.

ghost use Rattle.std.specs.Prelude.{◌≡◌, ◌≤◌, ◌<◌, ◌^◌, bit_and};

/// A literal as a word with bits that match anything.
///
/// `width` is the number of bits, from 1 to 64. `value` and `mask` fit in it. A bit of `mask` is set where
/// the literal has `z` or `?`, and `value` is 0 there.
#[derive(Clone, Copy, PartialEq, Eq, Debug)]
pub struct Literal {
    pub width: u8,
    pub signed: bool,
    pub value: u64,
    pub mask: u64,
    pub ghost not_empty: { 1 ≤ width },
    pub ghost in_word: { width ≤ 64 },
    pub ghost value_fits: { value < 2 ^ width },
    pub ghost mask_fits: { mask < 2 ^ width },
    pub ghost masked_are_zero: { bit_and value mask ≡ 0 },
}

/// What a token is.
///
/// A `Name` is an identifier that is no keyword, a `Keyword` one that is in either list of keywords. A `System`
/// token begins with `$`. A `Mark` is an operator or a sign of punctuation.
#[derive(Clone, Copy, PartialEq, Eq, Debug)]
pub enum TokenKind {
    Name,
    System,
    Keyword,
    Number(Literal),
    Mark,
}

/// A token of a text: the bytes from `start` up to and without `end`.
#[derive(Clone, Copy, PartialEq, Eq, Debug)]
pub struct Token {
    pub kind: TokenKind,
    pub start: u32,
    pub end: u32,
}
