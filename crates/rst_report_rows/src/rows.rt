// Rows of known registers.
use crate::values::{cube, two_ports};
use rst_gate::Cube;
use rst_outside::{Bytes, NoMemory};
use rst_report::{Ports, copied_ports, known_rows};
use std::alloc::Global;
use std::test::Fail;

fn states(alloc: Global, cycles: &[&[u8]]) -> Result<Vec<Cube>, NoMemory> {
    let mut states = Vec::new(alloc);
    for digits in cycles {
        states.push(cube(alloc, digits)?)?;
    }
    Ok(states)
}

fn rows(alloc: Global, ports: &Ports, cycles: &[&[u8]]) -> Result<Bytes, NoMemory> {
    let states = states(alloc, cycles)?;
    let ports = copied_ports(alloc, ports.as_slice())?;
    known_rows(alloc, ports.as_slice(), states.as_slice())
}

// A sum and an arithmetic shift: nothing is known at power-up, and all behind the first cycle.
#[test]
fn power_up_and_two_cycles(rt: HostRuntime) -> Result<(), Fail> {
    let alloc = rt.alloc();
    let registers = two_ports(alloc, b"s", 5, b"t", 4)?;
    let text = rows(
        alloc,
        &registers,
        &[b"xxxxxxxxx", b"111101111", b"010001100"],
    )?;
    assert!(rt;
        text.as_slice()
            == b"cycle 0 s=xxxxx t=xxxx\ncycle 1 s=11110 t=1111\ncycle 2 s=01000 t=1100\n".as_slice()
    );
    Ok(())
}

// Registers of instances, one of them known in part.
#[test]
fn known_in_part(rt: HostRuntime) -> Result<(), Fail> {
    let alloc = rt.alloc();
    let registers = two_ports(alloc, b"u0.q", 3, b"u1.q", 3)?;
    let text = rows(alloc, &registers, &[b"xxxxxx", b"0x1000"])?;
    assert!(rt;
        text.as_slice() == b"cycle 0 u0.q=xxx u1.q=xxx\ncycle 1 u0.q=0x1 u1.q=000\n".as_slice()
    );
    Ok(())
}

// Power-up alone, of a design without registers.
#[test]
fn power_up_of_no_register(rt: HostRuntime) -> Result<(), Fail> {
    let alloc = rt.alloc();
    let text = rows(alloc, &Ports::new(alloc), &[b""])?;
    assert!(rt; text.as_slice() == b"cycle 0\n".as_slice());
    Ok(())
}
