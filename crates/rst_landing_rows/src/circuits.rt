// Small circuits.
ghost use Rattle.std.specs.Prelude.{◌≡◌, false};

use rst_gate::{Edge, GateBuilder, Gates};
use rst_outside::NoMemory;
use std::alloc::Global;

// The value of a node.
fn plain(node: u32) -> Edge
    ensures { result ≡ record { node = node; inverted = false } }
{
    Edge {
        node,
        inverted: false,
    }
}

/// A register that changes in each cycle unless the input resets it to 0. It is the output.
pub(crate) fn toggle(alloc: Global) -> Result<Gates, NoMemory> {
    let mut builder = GateBuilder::new(alloc, 1, 1)?;
    let opposite = Edge {
        node: 2,
        inverted: true,
    };
    let next = builder.mux(plain(1), plain(0), opposite)?;
    let outs = vec![in alloc; plain(2)]?;
    let nexts = vec![in alloc; next]?;
    builder.finish(outs, nexts)
}

/// Two registers, of which the first takes the second, and the second the input. The first is the
/// output.
pub(crate) fn chain(alloc: Global) -> Result<Gates, NoMemory> {
    let builder = GateBuilder::new(alloc, 1, 2)?;
    let outs = vec![in alloc; plain(2)]?;
    let nexts = vec![in alloc; plain(3), plain(1)]?;
    builder.finish(outs, nexts)
}
