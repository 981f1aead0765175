//! Numbers modulo a power of two.

ghost use Rattle.std.specs.Prelude.{◌≡◌, ◌+◌, ◌-◌, ◌*◌, ◌/◌, ◌%◌, ◌^◌, ◌<◌, ◌≤◌, pos, ◌≤ℤ◌, ◌<ℤ◌, neg_ℤ};
ghost use Rattle.rst_word.specs.Words.{top_bit, signed_value, filled, modulo};

/// The lowest `width` bits.
pub fn cut(value: u128, width: u8) -> u64
    requires { width ≤ 64 }
    ensures { result ≡ value % 2 ^ width }
{
    (value % (1u128 << width)) as u64
}

/// Whether the bit at the top of `width` bits is 1.
pub fn has_top_bit(value: u64, width: u8) -> bool
    requires some_bits { 0 < width }
    requires at_most_64 { width ≤ 64 }
    ensures { result ≡ top_bit width value }
{
    1u64 << (width - 1) <= value
}

/// The bit `fill` at each place from `from` up to `to`, which is left out.
pub fn ones(fill: bool, from: u8, to: u8) -> u64
    requires order { from ≤ to }
    requires at_most_64 { to ≤ 64 }
    ensures { result ≡ filled fill from to }
{
    if fill {
        ((1u128 << to) - (1u128 << from)) as u64
    } else {
        0
    }
}

/// The number that `width` bits stand for in two's complement.
pub fn signed_number(value: u64, width: u8) -> i128
    requires some_bits { 0 < width }
    requires at_most_64 { width ≤ 64 }
    requires fits { value < 2 ^ width }
    ensures exact { result ≡ signed_value width value }
    ensures low { neg_ℤ (pos (2 ^ 63)) ≤ℤ result }
    ensures high { result <ℤ pos (2 ^ 64) }
{
    let number = value as i128;
    if has_top_bit(value, width) {
        number - (1i128 << width)
    } else {
        number
    }
}

/// The number modulo 2 to the power of `width`.
pub fn wrap(number: i128, width: u8) -> u64
    requires { width ≤ 64 }
    ensures { result ≡ modulo width number }
{
    number.rem_euclid(1i128 << width) as u64
}
