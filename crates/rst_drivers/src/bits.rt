// Bits of signals as numbers of 64 bits.

ghost use Rattle.std.specs.Prelude.{◌≡◌, ◌≤◌, not};
ghost use Rattle.rst_drivers.specs.Drives.{any_below, is_set};
ghost use Rattle.rst_drivers.specs.Counts.{ones, bits_of};

use rst_net::Slice;

// So many ones, at most 64.
pub fn ones(width: u8) -> u64
    ensures { result ≡ ones width }
{
    if width >= 64 {
        u64::MAX
    } else {
        (1u64 << width) - 1
    }
}

// The bits of a slice below 64.
pub fn bits_of(slice: Slice) -> u64
    ensures { result ≡ bits_of slice }
{
    if slice.low >= 64 {
        0
    } else {
        ones(slice.width) << slice.low
    }
}

// Whether one of the lowest bits is 1.
pub fn has_one(bits: u64, width: u8) -> bool
    requires { width ≤ 64 }
    ensures { result ≡ any_below width (is_set bits) }
{
    bits & ones(width) != 0
}

// Whether one of the lowest bits is 0.
pub fn has_zero(bits: u64, width: u8) -> bool
    requires { width ≤ 64 }
    ensures { result ≡ any_below width (λ bit. not (is_set bits bit)) }
{
    let ones = ones(width);
    bits & ones != ones
}
