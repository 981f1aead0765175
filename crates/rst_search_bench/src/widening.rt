// Widening the cube of a blocked hop of a netlist beside itself.
use crate::netlist::{GATES, netlist};
use rst_gate::{Bits, Gates};
use rst_outside::NoMemory;
use rst_pair::{Front, Hop, Pair};
use rst_pair_rows::blocked_hop;
use rst_value::Tern;
use std::alloc::Global;
use std::io;

const REGISTERS: u32 = 96;

// How many places of the hop's cube are known; none without a hop.
fn known(hop: &Option<Hop>) -> usize {
    let mut count = 0;
    if let Some(hop) = hop {
        for place in hop.cube.as_slice() {
            if *place != Tern::Unknown && count < usize::MAX {
                count += 1;
            }
        }
    }
    count
}

fn front(alloc: Global) -> Result<Front, NoMemory> {
    let marks = vec![in alloc; false; REGISTERS as usize]?;
    Ok(Front {
        equal: Bits::from_vec(marks),
        blocked: Vec::new(alloc),
        freed: Vec::new(alloc),
    })
}

// Widens the hop of two states that differ in the first register, so often; answers how many places
// of the last cube are known.
fn widen_often(alloc: Global, gates: &Gates, times: u32) -> Result<usize, NoMemory> {
    let front = front(alloc)?;
    let pair = Pair {
        left: gates,
        right: gates,
    };
    let left = vec![in alloc; false; REGISTERS as usize]?;
    let mut right = vec![in alloc; false; REGISTERS as usize]?;
    right[0] = true;
    let mut last = 0;
    for _ in 0..times {
        let hop = blocked_hop(
            alloc,
            &pair,
            &front,
            left.as_slice(),
            right.as_slice(),
            &[true],
        )?;
        last = known(&hop);
    }
    Ok(last)
}

fn count_known(alloc: Global, count: u32, times: u32) -> Result<usize, NoMemory> {
    let gates = netlist(alloc, count.min(GATES), REGISTERS)?;
    widen_often(alloc, &gates, times)
}

/// Widens a hop of a netlist of so many gates so often, and prints how many places its cube has and
/// how many of them stay known.
pub(crate) fn print_widened<R: Print + AllocGlobal>(
    rt: &R,
    gates: u32,
    times: u32,
) -> io::Result<()> {
    match count_known(rt.alloc(), gates, times) {
        Ok(known) => println!(rt; "places {} known {}", 2 * REGISTERS, known),
        Err(NoMemory) => println!(rt; "no memory"),
    }
}
