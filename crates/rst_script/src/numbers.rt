// Numbers of any length.
ghost use Rattle.std.specs.Prelude.{◌≡◌, ◌≤◌, ◌-◌, ◌^◌, length};
ghost use Rattle.rst_script.specs.Numbers.{digit_value, number, at_most, within, repetition, value_number};

// What a digit of base 16 is worth, or 16.
fn digit_value(b: u8) -> u64
    ensures value { result ≡ digit_value b }
    ensures small { result ≤ 16 }
{
    if b'0' <= b && b <= b'9' {
        (b - b'0') as u64
    } else if b'a' <= b && b <= b'f' {
        (b - b'a' + 10) as u64
    } else if b'A' <= b && b <= b'F' {
        (b - b'A' + 10) as u64
    } else {
        16
    }
}

// The number that the digits write, where it is below 2^64.
fn read_number(radix: u64, digits: &[u8]) -> Option<u64>
    requires { 1 ≤ radix }
    ensures { result ≡ at_most (2 ^ 64 - 1) (number radix digits.now) }
{
    if digits.is_empty() {
        return None;
    }
    let mut value: u64 = 0;
    for b in digits {
        let digit = digit_value(*b);
        if digit >= radix {
            return None;
        }
        value = value.checked_mul(radix)?.checked_add(digit)?;
    }
    Some(value)
}

// The decimal number, where it lies between the two.
pub(crate) fn read_within(least: u32, most: u32, digits: &[u8]) -> Option<u32>
    ensures { result ≡ within least most (number 10 digits.now) }
{
    let value = read_number(10, digits)?;
    if u64::from(least) <= value && value <= u64::from(most) {
        Some(value as u32)
    } else {
        None
    }
}

// How often a step is repeated, by a word `xN`.
pub(crate) fn read_repetition(word: &[u8]) -> Option<u32>
    ensures { result ≡ repetition word.now }
{
    match word {
        [b'x', digits @ ..] if digits.len() <= 6 => read_within(1, 999_999, digits),
        _ => None,
    }
}

// A value: decimal, or behind `0x` or `0b` to the base 16 or 2.
pub(crate) fn read_value(text: &[u8]) -> Option<u64>
    ensures { result ≡ at_most (2 ^ 64 - 1) (value_number text.now) }
{
    match text {
        [b'0', b'x', digits @ ..] => read_number(16, digits),
        [b'0', b'b', digits @ ..] => read_number(2, digits),
        _ => read_number(10, text),
    }
}
