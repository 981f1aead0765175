// Where a hop's input is to lead, and whether three-valued cycles show that it does.

ghost use Rattle.std.specs.Prelude.{◌≡◌, ◌+◌, ◌++◌, length};
ghost use Rattle.std.specs.List.{All};
ghost use Rattle.rst_pair.specs.Aims.{contradicts, contradicts_all, is_within, shows};
ghost use Rattle.rst_pair.specs.Hops.{cubes_of};
ghost use Rattle.rst_widen.specs.Widening.{plain_aim, AimFits, shown_by};

use crate::places::{contradict, lies_within};
use rst_gate::{Cube, Frame};
use rst_pair::Hop;
use rst_value::Tern;

// To different outputs, into a cube, or into none of the cubes of these hops.
#[derive(Clone, Copy)]
pub(crate) enum Aim<'a> {
    Differ,
    Inside(&'a Cube),
    Outside(&'a [Hop]),
}

// Whether the cube of the two successors lies within the cube.
fn inside(cube: &[Tern], left: &[Tern], right: &[Tern]) -> bool
    requires { length cube.now ≡ length left.now + length right.now }
    ensures { result ≡ is_within cube.now (left.now ++ right.now) }
{
    let count = left.len();
    let first = lies_within(&cube[..count], left);
    let second = lies_within(&cube[count..], right);
    first && second
}

// Whether the cube of the two successors contradicts the cube of each hop.
fn outside(hops: &[Hop], left: &[Tern], right: &[Tern]) -> bool
    requires { All (λ cube. length cube ≡ length left.now + length right.now) (cubes_of hops.now) }
    ensures { result ≡ contradicts_all (cubes_of hops.now) (left.now ++ right.now) }
{
    for hop in hops {
        let cube = hop.cube.as_slice();
        if !contradict_both(cube, left, right) {
            return false;
        }
    }
    true
}

// Whether the cube contradicts that of the two successors.
fn contradict_both(cube: &[Tern], left: &[Tern], right: &[Tern]) -> bool
    requires { length cube.now ≡ length left.now + length right.now }
    ensures { result ≡ contradicts cube.now (left.now ++ right.now) }
{
    let count = left.len();
    let first = contradict(&cube[..count], left);
    let second = contradict(&cube[count..], right);
    first || second
}

// Whether the cycles of both sides show that the input leads there.
pub(crate) fn show(aim: Aim, left: &Frame<Tern>, right: &Frame<Tern>) -> bool
    requires fits { AimFits (length left.now.nexts + length right.now.nexts) aim }
    requires outs { length left.now.outs ≡ length right.now.outs }
    ensures { result ≡ shows (plain_aim aim.entry) (shown_by left.now right.now) }
{
    match aim {
        Aim::Differ => contradict(left.outs.as_slice(), right.outs.as_slice()),
        Aim::Inside(cube) => inside(
            cube.as_slice(),
            left.nexts.as_slice(),
            right.nexts.as_slice(),
        ),
        Aim::Outside(hops) => outside(hops, left.nexts.as_slice(), right.nexts.as_slice()),
    }
}
