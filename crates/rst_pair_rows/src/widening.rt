// Hops that are made wide, and pairs of the relation, worked by hand.
use crate::circuits::{chain, toggle};
use crate::fronts::front;
use crate::hops::{blocked_hop, freed_hop, related};
use rst_gate::{Bits, Gates};
use rst_outside::NoMemory;
use rst_pair::{Front, Hop, Pair};
use rst_value::Tern;
use rst_value::Tern::{One, Unknown, Zero};
use std::alloc::Global;
use std::test::Fail;

// Pairs of toggles that differ.
const DIFFER: [[Tern; 2]; 2] = [[One, Zero], [Zero, One]];

// A front without hops, of so many registers.
fn empty(alloc: Global, registers: &[bool]) -> Result<Front, NoMemory> {
    let equal = Bits::from_slice(alloc, registers)?;
    Ok(Front {
        equal,
        blocked: Vec::new(alloc),
        freed: Vec::new(alloc),
    })
}

// Whether the hop has this cube.
fn has_cube(hop: &Option<Hop>, cube: &[Tern]) -> bool {
    match hop {
        Some(hop) => hop.cube.as_slice() == cube,
        None => false,
    }
}

// Whether the blocked hop of the pair, with the input 0, has this cube when it is made wide.
fn widens_to(
    alloc: Global,
    gates: &Gates,
    front: &Front,
    left: &[bool],
    right: &[bool],
    cube: &[Tern],
) -> Result<bool, NoMemory> {
    let pair = Pair {
        left: gates,
        right: gates,
    };
    let hop = blocked_hop(alloc, &pair, front, left, right, &[false])?;
    Ok(has_cube(&hop, cube))
}

// Whether the freed hop of the pair of toggles has this cube when it is made wide. These
// pairs are blocked.
fn frees_to(
    alloc: Global,
    differ: &[[Tern; 2]],
    states: [bool; 2],
    reset: bool,
    cube: &[Tern],
) -> Result<bool, NoMemory> {
    let gates = toggle(alloc)?;
    let front = front(alloc, false, differ, &[])?;
    let pair = Pair {
        left: &gates,
        right: &gates,
    };
    let hop = freed_hop(alloc, &pair, &front, &[states[0]], &[states[1]], &[reset])?;
    Ok(has_cube(&hop, cube))
}

// The output is the first register alone, so that the second one is left open.
#[test]
fn registers_that_no_output_reads_are_open(rt: HostRuntime) -> Result<(), Fail> {
    let alloc = rt.alloc();
    let gates = chain(alloc)?;
    let front = empty(alloc, &[false, false])?;
    let wide = [One, Unknown, Zero, Unknown];
    let is = widens_to(
        alloc,
        &gates,
        &front,
        &[true, true],
        &[false, true],
        wide.as_slice(),
    )?;
    assert!(rt; is);
    Ok(())
}

// Were an output known on one side alone enough, one of the two places would be X.
#[test]
fn outputs_stay_known_on_both_sides(rt: HostRuntime) -> Result<(), Fail> {
    let alloc = rt.alloc();
    let gates = toggle(alloc)?;
    let front = empty(alloc, &[false])?;
    let same = [Zero, One];
    assert!(rt; widens_to(alloc, &gates, &front, &[false], &[true], same.as_slice())?);
    let same = [One, Zero];
    assert!(rt; widens_to(alloc, &gates, &front, &[true], &[false], same.as_slice())?);
    Ok(())
}

// A reset leads every pair to (0, 0), which is in neither blocked cube.
#[test]
fn resets_free_every_pair(rt: HostRuntime) -> Result<(), Fail> {
    let alloc = rt.alloc();
    let all = [Unknown, Unknown];
    assert!(rt; frees_to(alloc, &DIFFER, [true, false], true, all.as_slice())?);
    assert!(rt; frees_to(alloc, &DIFFER, [false, false], true, all.as_slice())?);
    Ok(())
}

// Without a reset each register changes. Both stay known where both blocked cubes must be left; one
// is enough to leave the first cube alone, and the left place is tried first. A pair that stays in
// a blocked cube has no freed hop.
#[test]
fn freed_hops_leave_each_blocked_cube(rt: HostRuntime) -> Result<(), Fail> {
    let alloc = rt.alloc();
    let same = [One, One];
    assert!(rt; frees_to(alloc, &DIFFER, [true, true], false, same.as_slice())?);
    let first = [Unknown, Zero];
    assert!(rt; frees_to(alloc, &DIFFER[..1], [true, false], false, first.as_slice())?);
    let nothing = [true, false];
    let all = [Unknown, Unknown];
    assert!(rt; !frees_to(alloc, &DIFFER, nothing, false, &[One, Zero])?);
    assert!(rt; frees_to(alloc, &[], nothing, false, all.as_slice())?);
    Ok(())
}

// Whether the pair of toggles is one of the relation of a front with one blocked cube.
fn is_related(alloc: Global, marked: bool, both: [bool; 2]) -> Result<Option<bool>, NoMemory> {
    let gates = toggle(alloc)?;
    let front = front(alloc, marked, &[[One, Zero]], &[])?;
    let pair = Pair {
        left: &gates,
        right: &gates,
    };
    let both = Bits::from_slice(alloc, both.as_slice())?;
    Ok(related(&pair, &front, &both))
}

#[test]
fn relation(rt: HostRuntime) -> Result<(), Fail> {
    let alloc = rt.alloc();
    assert_eq!(rt; is_related(alloc, false, [true, false])?, Some(false));
    assert_eq!(rt; is_related(alloc, false, [false, true])?, Some(true));
    assert_eq!(rt; is_related(alloc, false, [false, false])?, Some(true));
    assert_eq!(rt; is_related(alloc, true, [false, true])?, Some(false));
    assert_eq!(rt; is_related(alloc, true, [true, false])?, Some(false));
    assert_eq!(rt; is_related(alloc, true, [true, true])?, Some(true));
    Ok(())
}
