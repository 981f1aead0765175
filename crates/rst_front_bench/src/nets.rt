// Netlists.
ghost use Rattle.std.specs.Prelude.{◌≤◌, length, IfOk};
ghost use Rattle.std.specs.List.{All};
ghost use Rattle.rst_design.specs.Texts.{IsShort};
ghost use Rattle.rst_net_gates.specs.Netlists.{plain_net, IsLowerable};

use crate::facts::print_net;
use crate::files::{clock_of, texts_of};
use crate::printing::print_stop;
use rst_design::read_design;
use rst_flow::{Net, weight};
use rst_reject::Stop;
use rst_source_machine::laws::nets_are_sources;
use std::alloc::Global;
use std::io;
use std::rt::Files;

// The netlist of the design that these texts spell. It has gates.
fn read_net(alloc: Global, texts: &[Vec<u8>], top: &[u8], clock: Option<&[u8]>) -> Result<Net, Stop>
    requires short { All IsShort texts.now }
    requires few { length texts.now ≤ 64 }
    ensures { IfOk result (λ net. IsLowerable (plain_net net)) }
{
    nets_are_sources();
    read_design(alloc, texts, top, clock)
}

/// The netlist of the design that these texts spell below the top, which has gates, or the refusal.
pub(crate) fn net_in(alloc: Global, texts: &[Vec<u8>], top: &str, clock: &str) -> Result<Net, Stop>
    requires { All IsShort texts.now }
    ensures { IfOk result (λ net. IsLowerable (plain_net net)) }
{
    if texts.len() > 64 {
        return Err(Stop::NoMemory);
    }
    read_net(alloc, texts, top.as_bytes(), clock_of(clock))
}

/// The netlist of the design of these files below the top, which has gates, or the refusal.
pub(crate) fn net_of<R: Files + AllocGlobal>(
    rt: &R,
    top: &str,
    clock: &str,
    files: &[String],
) -> Result<Net, Stop>
    ensures { IfOk result (λ net. IsLowerable (plain_net net)) }
{
    match texts_of(rt, files) {
        Some(texts) => net_in(rt.alloc(), &texts, top, clock),
        None => Err(Stop::NoMemory),
    }
}

/// Prints the netlist of these files below the top, or the refusal.
pub(crate) fn flow<R: Files + Print + AllocGlobal>(
    rt: &R,
    top: &str,
    clock: &str,
    files: &[String],
) -> io::Result<()> {
    match net_of(rt, top, clock, files) {
        Ok(net) => match weight(rt.alloc(), &net) {
            Ok(all) => print_net(rt, &net, all),
            Err(_) => println!(rt; "out of memory"),
        },
        Err(stop) => print_stop(rt, &stop),
    }
}

/// Prints how many units the netlist of these files has, for measurements.
pub(crate) fn order<R: Files + Print + AllocGlobal>(
    rt: &R,
    top: &str,
    clock: &str,
    files: &[String],
) -> io::Result<()> {
    match net_of(rt, top, clock, files) {
        Ok(net) => println!(rt; "units {}", net.units.len()),
        Err(stop) => print_stop(rt, &stop),
    }
}
