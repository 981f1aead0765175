// Places of cubes, and the bits that agree with them.

ghost use Rattle.std.specs.Prelude.{◌≡◌, ◌↔◌, length, IsTrue};
ghost use Rattle.std.specs.List.{AllZip};
ghost use Rattle.rst_value.specs.Terns.{StandsFor};

use rst_value::Tern;

fn stands(a: Tern, bit: bool) -> bool
    ensures { IsTrue result ↔ StandsFor a bit }
{
    match a {
        Tern::Zero => !bit,
        Tern::One => bit,
        Tern::Unknown => true,
    }
}

// Whether the bits agree with every known place.
pub(crate) fn holds(xs: &[Tern], bits: &[bool]) -> bool
    requires { length xs.now ≡ length bits.now }
    ensures { IsTrue result ↔ AllZip StandsFor xs.now bits.now }
{
    for i in 0..xs.len() {
        if !stands(xs[i], bits[i]) {
            return false;
        }
    }
    true
}
