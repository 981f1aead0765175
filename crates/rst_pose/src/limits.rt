// Whether a query is within the limits of every call.

ghost use Rattle.std.specs.Prelude.{◌≡◌, ◌↔◌, ◌<◌, ◌≤◌, IsTrue, length};
ghost use Rattle.std.specs.List.{AllByRecursion};
ghost use Rattle.std.specs.Option.{ForSome};
ghost use Rattle.rst_pair.specs.Hops.{IsHop, AreHops};
ghost use Rattle.rst_pair.specs.Fronts.{IsFront};
ghost use Rattle.rst_pose.specs.Posing.{IsQueryOf, cycles_of, IsSmall, IsWithin, IsPosable};

use rst_gate::{Bits, Cube, Gates};
use rst_pair::{Front, Hop, Pair, Query};

const MOST_GATES: usize = 16_384;

const MOST_STATES: u32 = 512;

const MOST_INPUTS: u32 = 256;

const MOST_OUTPUTS: usize = 256;

const MOST_HOPS: usize = 100_000;

const MOST_CYCLES: usize = 128;

// Whether gates are within the limits.
fn is_small(gates: &Gates) -> bool
    ensures { IsTrue result ↔ IsSmall gates.now }
{
    gates.gates.len() <= MOST_GATES
        && gates.states <= MOST_STATES
        && gates.inputs <= MOST_INPUTS
        && gates.outs.len() <= MOST_OUTPUTS
}

// Whether the next hop, if any, is one of so many.
fn is_before(next: Option<u32>, before: usize) -> bool
    ensures { IsTrue result ↔ ForSome next (λ k. k < before) }
{
    match next {
        None => true,
        Some(next) => (next as usize) < before,
    }
}

// Whether the hop is one of the pair, with one of so many hops as its next.
fn is_hop(pair: &Pair, hop: &Hop, before: usize) -> bool
    ensures { IsTrue result ↔ IsHop pair.now before hop.now }
{
    let left = pair.left;
    let right = pair.right;
    let places = left.states as usize + right.states as usize;
    hop.cube.len() == places
        && hop.input.len() == left.inputs as usize
        && is_before(hop.next, before)
}

// Whether the hops are ones of the pair, each with an earlier one as its next.
fn are_hops(pair: &Pair, hops: &[Hop]) -> bool
    ensures { IsTrue result ↔ AreHops pair.now hops.now }
{
    for i in 0..hops.len() {
        if !is_hop(pair, &hops[i], i) {
            return false;
        }
    }
    true
}

// Whether the front is one of the pair.
fn is_front(pair: &Pair, front: &Front) -> bool
    ensures { IsTrue result ↔ IsFront pair.now front.now }
{
    let left = pair.left;
    front.equal.len() == left.states as usize
        && are_hops(pair, front.blocked.as_slice())
        && are_hops(pair, front.freed.as_slice())
}

// Whether both sides and the front are within the limits.
fn is_within(pair: &Pair, front: &Front) -> bool
    ensures { IsTrue result ↔ IsWithin pair.now front.now }
{
    is_small(pair.left)
        && is_small(pair.right)
        && front.blocked.len() <= MOST_HOPS
        && front.freed.len() <= MOST_HOPS
        && is_front(pair, front)
}

// Whether each input of the word is so wide.
fn is_word(word: &[Bits], inputs: usize) -> bool
    ensures { IsTrue result ↔ AllByRecursion (λ input. length input ≡ inputs) word.now }
{
    for input in word {
        if input.len() != inputs {
            return false;
        }
    }
    true
}

// Whether each cycle of the pattern is so wide.
fn is_pattern(pattern: &[Cube], inputs: usize) -> bool
    ensures { IsTrue result ↔ AllByRecursion (λ places. length places ≡ inputs) pattern.now }
{
    for places in pattern {
        if places.len() != inputs {
            return false;
        }
    }
    true
}

// Whether the query's word or pattern is one of the pair's inputs, and short enough.
fn speaks(pair: &Pair, query: &Query) -> bool
    ensures { IsTrue result ↔ (IsQueryOf pair.now query.now × (cycles_of query.now ≤ 128)) }
{
    let left = pair.left;
    let inputs = left.inputs as usize;
    match query {
        Query::Split | Query::Escape | Query::Stuck => true,
        Query::Land(word) => is_word(word.as_slice(), inputs) && word.len() <= MOST_CYCLES,
        Query::LandFree(pattern) => {
            is_pattern(pattern.as_slice(), inputs) && pattern.len() <= MOST_CYCLES
        }
    }
}

/// Whether a query may be posed: gates, hops and cycles are within the limits of every call, and
/// front and query fit the pair. It takes no memory.
pub fn is_posable(pair: &Pair, front: &Front, query: &Query) -> bool
    ensures { IsTrue result ↔ IsPosable pair.now front.now query.now }
{
    is_within(pair, front) && speaks(pair, query)
}
