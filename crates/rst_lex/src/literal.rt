// What numbers are worth.
ghost use Rattle.std.specs.Prelude.{◌≡◌, ◌≢◌, ◌≤◌, ◌<◌, ◌+◌, ◌-◌, ◌*◌, ◌^◌, ◌%◌, length, min, MatchResult, IsTrue, bit_and};
ghost use Rattle.std.specs.Int.{bit_not, w64};
ghost use Rattle.std.specs.List.{list_any};
ghost use Rattle.rst_lex.specs.Literals.{digit_value, digit_count, number, decimal_number, digit_bits, radix_of, is_masked, is_unknown, begins_masked, width_of, missing_bits, mask_digit, mask_of, IsPlain, LiteralOf};
ghost use Rattle.rst_lex.specs.Pieces.{IsBasedAnswer};

use crate::bytes::is_digit;
use crate::front::Cause;
use crate::token::Literal;

fn digit_value(b: u8) -> u64
    ensures value { result ≡ digit_value b }
    ensures small { result < 16 }
{
    if is_digit(b) {
        (b - b'0') as u64
    } else if b'A' <= b && b <= b'F' {
        (b - b'A' + 10) as u64
    } else if b'a' <= b && b <= b'f' {
        (b - b'a' + 10) as u64
    } else {
        0
    }
}

fn is_masked(b: u8) -> bool
    ensures { result ≡ is_masked b }
{
    b == b'z' || b == b'Z' || b == b'?'
}

fn begins_masked(digits: &[u8]) -> bool
    ensures { result ≡ begins_masked digits.now }
{
    match digits {
        [] => false,
        [b, ..] => is_masked(*b),
    }
}

fn has_unknown(digits: &[u8]) -> bool
    ensures { result ≡ list_any is_unknown digits.now }
{
    digits.iter().any(|b| *b == b'x' || *b == b'X')
}

fn digit_count(digits: &[u8]) -> usize
    ensures value { result ≡ digit_count digits.now }
    ensures within { result ≤ length digits.now }
{
    digits.iter().filter(|b| **b != b'_').count()
}

fn digit_bits(letter: u8) -> usize
    ensures value { result ≡ digit_bits letter }
    ensures small { result ≤ 4 }
{
    match letter {
        b'b' | b'B' => 1,
        b'o' | b'O' => 3,
        _ => 4,
    }
}

fn radix_of(letter: u8) -> u64
    ensures value { result ≡ radix_of letter }
    ensures some { 1 ≤ result }
{
    match letter {
        b'd' | b'D' => 10,
        b'b' | b'B' => 2,
        b'o' | b'O' => 8,
        _ => 16,
    }
}

fn mask_digit(radix: u64, b: u8) -> u64
    requires { 1 ≤ radix }
    ensures { result ≡ mask_digit radix b }
{
    if is_masked(b) { radix - 1 } else { 0 }
}

fn number_modulo(radix: u64, digits: &[u8]) -> u64
    ensures { result ≡ number radix digit_value digits.now % 2 ^ 64 }
{
    let mut value: u64 = 0;
    for b in digits {
        if *b != b'_' {
            value = value.wrapping_mul(radix).wrapping_add(digit_value(*b));
        }
    }
    value
}

fn mask_modulo(radix: u64, digits: &[u8]) -> u64
    requires { 1 ≤ radix }
    ensures { result ≡ number radix (mask_digit radix) digits.now % 2 ^ 64 }
{
    let mut value: u64 = 0;
    for b in digits {
        if *b != b'_' {
            value = value
                .wrapping_mul(radix)
                .wrapping_add(mask_digit(radix, *b));
        }
    }
    value
}

// A size, or 65 where it is greater.
fn capped_width(size: &[u8]) -> u64
    ensures { result ≡ min 65 (width_of size.now) }
{
    if size.is_empty() {
        return 32;
    }
    let mut value: u64 = 0;
    for b in size {
        if *b != b'_' {
            value = (value * 10 + digit_value(*b)).min(65);
        }
    }
    value
}

fn ones(count: usize) -> u64
    requires { count ≤ 64 }
    ensures { result ≡ 2 ^ count - 1 }
{
    if count == 64 {
        u64::MAX
    } else {
        (1 << count) - 1
    }
}

fn cut(value: u64, width: u8) -> u64
    requires { width ≤ 64 }
    ensures { result ≡ value % 2 ^ width }
{
    value & ones(width as usize)
}

fn missing_bits(letter: u8, digits: &[u8], width: u8) -> u64
    requires wide { width ≤ 64 }
    requires short { length digits.now ≤ 2 ^ 32 }
    ensures { result ≡ missing_bits letter digits.now width }
{
    if !begins_masked(digits) {
        return 0;
    }
    let given = digit_count(digits) * digit_bits(letter);
    if given >= width as usize {
        return 0;
    }
    ones(width as usize) - ones(given)
}

fn mask_of(letter: u8, digits: &[u8], width: u8) -> u64
    requires wide { width ≤ 64 }
    requires short { length digits.now ≤ 2 ^ 32 }
    ensures { result ≡ mask_of letter digits.now width }
{
    let mask = mask_modulo(radix_of(letter), digits);
    cut(
        mask.wrapping_add(missing_bits(letter, digits, width)),
        width,
    )
}

fn literal(width: u8, signed: bool, letter: u8, digits: &[u8]) -> Literal
    requires some { 1 ≤ width }
    requires wide { width ≤ 64 }
    requires short { length digits.now ≤ 2 ^ 32 }
    ensures { LiteralOf result width signed letter digits.now }
{
    let mask = mask_of(letter, digits, width);
    let value = cut(number_modulo(radix_of(letter), digits), width) & !mask;
    Literal {
        width,
        signed,
        value,
        mask,
    }
}

pub(crate) fn plain(digits: &[u8]) -> Literal
    ensures { IsPlain result digits.now }
{
    Literal {
        width: 32,
        signed: true,
        value: cut(number_modulo(10, digits), 32),
        mask: 0,
    }
}

pub(crate) fn based(size: &[u8], signed: bool, letter: u8, digits: &[u8]) -> Result<Literal, Cause>
    requires { length digits.now ≤ 2 ^ 32 }
    ensures { IsBasedAnswer result size.now signed letter digits.now }
{
    let width = capped_width(size);
    if width == 0 || has_unknown(digits) {
        return Err(Cause::BadNumber);
    }
    if width > 64 {
        return Err(Cause::NumberTooWide);
    }
    Ok(literal(width as u8, signed, letter, digits))
}
