ghost use Rattle.std.specs.Prelude.{◌≡◌, ◌&&◌, List, Bool, length, IfOk};
ghost use Rattle.rst_gate.specs.ClosedSets.{IsWithin, IsClosedSet};
ghost use Rattle.rst_sim.specs.Supports.{narrowed, members};

use crate::support::support;
use rst_gate::{Bits, Gates};
use rst_outside::NoMemory;
use std::alloc::Global;

/// The largest subset of the known registers whose next values depend, in the gates, on inputs and
/// on registers of the subset alone.
///
/// `known` has a bit for each register, true where the register is in the set, and so has the
/// answer. Every subset of the known registers that is closed in this way lies in it. It is refused
/// for want of memory alone.
pub fn closed_equal(alloc: Global, gates: &Gates, known: &Bits) -> Result<Bits, NoMemory>
    requires { length known.now ≡ gates.now.states }
    ensures within { IfOk result (λ set. IsWithin set known.now) }
    ensures closed { IfOk result (λ set. IsClosedSet gates.now set) }
    ensures largest { IfOk result (λ set. (other : List Bool) → IsWithin other known.now → IsClosedSet gates.now other → IsWithin other set) }
{
    let mut set = Bits::from_slice(alloc, known.as_slice())?;
    'narrowing: loop {
        let below = support(alloc, gates, set.as_slice())?;
        let smaller = narrow(alloc, set.as_slice(), below.as_slice())?;
        if count(smaller.as_slice()) == count(set.as_slice()) {
            return Ok(set);
        }
        set = smaller;
    }
}

// The members of the set that are also in the other.
fn narrow(alloc: Global, set: &[bool], other: &[bool]) -> Result<Bits, NoMemory>
    requires { length set.now ≡ length other.now }
    ensures { IfOk result (λ smaller. smaller ≡ narrowed set.now other.now) }
{
    let mut smaller = Bits::new(alloc);
    for i in 0..set.len() {
        smaller.push(in_both(set[i], other[i]))?;
    }
    Ok(smaller)
}

fn in_both(a: bool, b: bool) -> bool
    ensures { result ≡ (a && b) }
{
    a && b
}

// How many members the set has.
fn count(set: &[bool]) -> usize
    ensures { result ≡ members set.now }
{
    let mut total = 0;
    for member in set {
        if *member {
            total += 1;
        }
    }
    total
}
