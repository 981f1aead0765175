// Places of cubes: what two of them say of each other.

ghost use Rattle.std.specs.Prelude.{◌≡◌, length};
ghost use Rattle.rst_pair.specs.Aims.{are_opposite, contradicts, agrees, is_within};

use rst_value::Tern;

fn opposite(a: Tern, b: Tern) -> bool
    ensures { result ≡ are_opposite a b }
{
    match (a, b) {
        (Tern::Zero, Tern::One) | (Tern::One, Tern::Zero) => true,
        _ => false,
    }
}

fn agree(a: Tern, b: Tern) -> bool
    ensures { result ≡ agrees a b }
{
    match (a, b) {
        (Tern::Zero, Tern::Zero) | (Tern::One, Tern::One) | (Tern::Unknown, _) => true,
        _ => false,
    }
}

// Whether some place is known and different in both.
pub(crate) fn contradict(xs: &[Tern], ys: &[Tern]) -> bool
    requires { length xs.now ≡ length ys.now }
    ensures { result ≡ contradicts xs.now ys.now }
{
    for i in 0..xs.len() {
        if opposite(xs[i], ys[i]) {
            return true;
        }
    }
    false
}

// Whether the second cube lies within the first.
pub(crate) fn lies_within(xs: &[Tern], ys: &[Tern]) -> bool
    requires { length xs.now ≡ length ys.now }
    ensures { result ≡ is_within xs.now ys.now }
{
    for i in 0..xs.len() {
        if !agree(xs[i], ys[i]) {
            return false;
        }
    }
    true
}
