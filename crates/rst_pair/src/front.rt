ghost use Rattle.std.specs.Prelude.{◌≡◌, ◌↔◌, ℕ, ◌+◌, true, false, length, take, drop, slice_index_or, IsTrue};
ghost use Rattle.std.specs.List.{All};
ghost use Rattle.rst_gate.specs.ClosedSets.{AgreeOn};
ghost use Rattle.rst_pair.specs.Aims.{LiesInSome};
ghost use Rattle.rst_pair.specs.Hops.{cubes_of};
ghost use Rattle.rst_pair.specs.Fronts.{IsRelated};

use crate::Hop;
use crate::places::holds;
use rst_gate::Bits;
use std::marker::Model;

/// Marked registers of the left side, one bit for each, and the hops found so far.
///
/// Its relation is the set of pairs that are equal on the marked registers and lie in no blocked
/// cube.
#[derive(Debug, Drop)]
pub struct Front {
    pub equal: Bits,
    pub blocked: Vec<Hop>,
    pub freed: Vec<Hop>,
}

impl Model for Front {
    ghost use Rattle.rst_pair.specs.Fronts.{Front'};

    ghost Value = { Front' };

    ghost view = { λ f. record { equal = f.equal; blocked = f.blocked.items; freed = f.freed.items } };
}

// Whether the halves have the same bit in each marked place.
fn agree_on(equal: &[bool], both: &[bool]) -> bool
    requires { (i : ℕ) → slice_index_or equal.now i false ≡ true → length both.now ≡ length equal.now + length equal.now }
    ensures { IsTrue result ↔ AgreeOn equal.now (take (length equal.now) both.now) (drop (length equal.now) both.now) }
{
    let count = equal.len();
    for i in 0..count {
        if equal[i] {
            let left = both[i];
            let right = both[count + i];
            if left != right {
                return false;
            }
        }
    }
    true
}

// Whether a cube of the hops holds the pair.
fn in_some(hops: &[Hop], both: &[bool], count: usize) -> bool
    requires { All (λ cube. length cube ≡ length both.now) (cubes_of hops.now) }
    ensures { IsTrue result ↔ LiesInSome (cubes_of hops.now) (take count both.now) (drop count both.now) }
{
    for hop in hops {
        if holds(hop.cube.as_slice(), both) {
            return true;
        }
    }
    false
}

/// Whether a pair is one of the front's relation.
///
/// The pair is given as the left state's bits, then the right one's, as many as each blocked cube
/// has places; where a register is marked, both states have as many registers. It takes no memory.
pub fn in_relation(front: &Front, both: &Bits) -> bool
    requires cubes { All (λ cube. length cube ≡ length both.now) (cubes_of front.now.blocked) }
    requires marked { (i : ℕ) → slice_index_or front.now.equal i false ≡ true → length both.now ≡ length front.now.equal + length front.now.equal }
    ensures { IsTrue result ↔ IsRelated front.now (take (length front.now.equal) both.now) (drop (length front.now.equal) both.now) }
{
    let equal = front.equal.as_slice();
    let blocked = front.blocked.as_slice();
    let pair = both.as_slice();
    let count = equal.len();
    let agreed = agree_on(equal, pair);
    let found = in_some(blocked, pair, count);
    agreed && !found
}
