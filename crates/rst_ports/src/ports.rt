// Ports and registers of a design.
ghost use Rattle.std.specs.Prelude.{◌≡◌, ◌++◌, OnOk, IfOk, map};
ghost use Rattle.rst_net.specs.declared.signal.Role.TheVariants as role;
ghost use Rattle.rst_net.specs.Units.{plain_signal};
ghost use Rattle.rst_cycle.specs.Signals.{same_role};
ghost use Rattle.rst_ports.specs.Ports.{port_of, ports_with, port_at, output_ports};

use rst_net::{Role, Signal};
use rst_outside::{Items, Name, NoMemory, PortBits};
use std::alloc::Global;

/// Ports or registers in flat order.
pub type Ports = Items<PortBits>;

// The name and the width of a signal.
fn port_of(alloc: Global, signal: &Signal) -> Result<PortBits, NoMemory>
    ensures { IfOk result (λ port. port ≡ port_of (plain_signal signal.now)) }
{
    Ok(PortBits {
        name: Name::new(alloc, signal.name.as_slice())?,
        width: signal.shape.width,
    })
}

fn is_input(it: Role) -> bool
    ensures { result ≡ same_role it role.Input }
{
    matches!(it, Role::Input)
}

fn is_register(it: Role) -> bool
    ensures { result ≡ same_role it role.Register }
{
    matches!(it, Role::Register)
}

/// The inputs without the clock, in flat order.
pub fn inputs(alloc: Global, signals: &[Signal]) -> Result<Ports, NoMemory>
    ensures { IfOk result (λ ports. ports ≡ ports_with role.Input (map plain_signal signals.now)) }
{
    let mut ports = Ports::new(alloc);
    for signal in signals {
        if is_input(signal.role) {
            ports.push(port_of(alloc, signal)?)?;
        }
    }
    Ok(ports)
}

/// The registers in flat order.
pub fn registers(alloc: Global, signals: &[Signal]) -> Result<Ports, NoMemory>
    ensures { IfOk result (λ ports. ports ≡ ports_with role.Register (map plain_signal signals.now)) }
{
    let mut ports = Ports::new(alloc);
    for signal in signals {
        if is_register(signal.role) {
            ports.push(port_of(alloc, signal)?)?;
        }
    }
    Ok(ports)
}

// The name and the width of the signal with a number.
fn port_at(alloc: Global, signals: &[Signal], number: u32) -> Result<PortBits, NoMemory>
    ensures { IfOk result (λ port. port ≡ port_at (map plain_signal signals.now) number) }
{
    match signals.get(number as usize) {
        Some(signal) => port_of(alloc, signal),
        None => Ok(PortBits {
            name: Name::new(alloc, &[])?,
            width: 0,
        }),
    }
}

/// The outputs: the signals with these numbers.
pub fn outputs(alloc: Global, signals: &[Signal], numbers: &[u32]) -> Result<Ports, NoMemory>
    ensures { IfOk result (λ ports. ports ≡ output_ports (map plain_signal signals.now) numbers.now) }
{
    let mut ports = Ports::new(alloc);
    for number in numbers {
        ports.push(port_at(alloc, signals, *number)?)?;
    }
    Ok(ports)
}
