// Fronts of a circuit beside itself, and patterns.
use rst_gate::{Bits, Cube, Pattern};
use rst_outside::NoMemory;
use rst_pair::{Front, Hop};
use rst_value::Tern;
use std::alloc::Global;

// A hop of this cube: without a next one its input is 0, and else 1.
fn hop(alloc: Global, cube: &[Tern], next: Option<u32>) -> Result<Hop, NoMemory> {
    let cube = Cube::from_slice(alloc, cube)?;
    let input = Bits::from_slice(alloc, &[next.is_some()])?;
    Ok(Hop { cube, input, next })
}

// A front of one input with so many registers, none of them marked.
fn front(alloc: Global, registers: usize, blocked: Vec<Hop>) -> Result<Front, NoMemory> {
    let equal = Bits::from_vec(vec![in alloc; false; registers]?);
    Ok(Front {
        equal,
        blocked,
        freed: Vec::new(alloc),
    })
}

/// The front of the toggle: pairs that differ are told apart by their outputs.
pub(crate) fn of_toggle(alloc: Global) -> Result<Front, NoMemory> {
    let mut blocked = Vec::new(alloc);
    blocked.push(hop(alloc, &[Tern::One, Tern::Zero], None)?)?;
    blocked.push(hop(alloc, &[Tern::Zero, Tern::One], None)?)?;
    front(alloc, 1, blocked)
}

/// The front of the chain: pairs that differ in the first register are told apart by their outputs,
/// and those that differ in the second are led there.
pub(crate) fn of_chain(alloc: Global) -> Result<Front, NoMemory> {
    let x = Tern::Unknown;
    let zero = Tern::Zero;
    let one = Tern::One;
    let mut blocked = Vec::new(alloc);
    blocked.push(hop(alloc, &[zero, x, one, x], None)?)?;
    blocked.push(hop(alloc, &[one, x, zero, x], None)?)?;
    blocked.push(hop(alloc, &[x, zero, x, one], Some(0))?)?;
    blocked.push(hop(alloc, &[x, one, x, zero], Some(1))?)?;
    front(alloc, 2, blocked)
}

/// The pattern whose one input has these places, cycle by cycle.
pub(crate) fn pattern(alloc: Global, places: &[Tern]) -> Result<Pattern, NoMemory> {
    let mut pattern = Pattern::new(alloc);
    for place in places {
        pattern.push(Cube::from_slice(alloc, &[*place])?)?;
    }
    Ok(pattern)
}
