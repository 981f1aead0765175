// What a report says of the design itself.
ghost use Rattle.std.specs.Prelude.{◌≡◌, ◌≤◌, IfOk};
ghost use Rattle.rst_report.specs.Heads.{width_sum};

use rst_outside::{Items, Name, NoMemory, PortBits};
use std::alloc::Global;

/// Ports or registers in the order of the design.
pub type Ports = Items<PortBits>;

/// A copy of ports.
pub fn copied_ports(alloc: Global, ports: &[PortBits]) -> Result<Ports, NoMemory>
    ensures { IfOk result (λ copy. copy ≡ ports.now) }
{
    let mut copy = Ports::new(alloc);
    for port in ports {
        let name = Name::new(alloc, port.name.as_slice())?;
        copy.push(PortBits {
            name,
            width: port.width,
        })?;
    }
    Ok(copy)
}

/// The design that a verdict speaks of: its name, its ports and registers with their widths in bits,
/// and the budget of its search. The clock is no port here.
#[derive(Drop)]
pub struct Head {
    /// The name of the design's top module.
    pub top: Name,
    /// The inputs without the clock.
    pub inputs: Ports,
    /// The outputs.
    pub outputs: Ports,
    /// The registers.
    pub registers: Ports,
    /// How many steps of work the search had.
    pub budget: u32,
}

/// The number of bits of the ports together, at most 512. It takes no memory.
pub fn width_sum(ports: &[PortBits]) -> u64
    requires { width_sum ports.now ≤ 512 }
    ensures { result ≡ width_sum ports.now }
{
    let mut sum: u64 = 0;
    for port in ports {
        sum += u64::from(port.width);
    }
    sum
}
