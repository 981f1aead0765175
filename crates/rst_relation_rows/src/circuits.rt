// Small circuits.
ghost use Rattle.std.specs.Prelude.{◌≡◌, false, true};

use rst_gate::{Edge, GateBuilder, Gates};
use rst_outside::NoMemory;
use std::alloc::Global;

// The value of a node.
fn plain(node: u32) -> Edge
    ensures { result ≡ record { node = node; inverted = false } }
{
    Edge {
        node,
        inverted: false,
    }
}

// The opposite of the value of a node.
fn inverted(node: u32) -> Edge
    ensures { result ≡ record { node = node; inverted = true } }
{
    Edge {
        node,
        inverted: true,
    }
}

/// A register that changes in each cycle unless the input resets it to 0. It is the output.
pub(crate) fn toggle(alloc: Global) -> Result<Gates, NoMemory> {
    let mut builder = GateBuilder::new(alloc, 1, 1)?;
    let next = builder.mux(plain(1), plain(0), inverted(2))?;
    let outs = vec![in alloc; plain(2)]?;
    let nexts = vec![in alloc; next]?;
    builder.finish(outs, nexts)
}

/// A register that changes in each cycle. The output is the input.
pub(crate) fn hidden_toggle(alloc: Global) -> Result<Gates, NoMemory> {
    let builder = GateBuilder::new(alloc, 1, 1)?;
    let outs = vec![in alloc; plain(1)]?;
    let nexts = vec![in alloc; inverted(2)]?;
    builder.finish(outs, nexts)
}

/// A register that takes the `xor` of itself with itself. The output is the register.
pub(crate) fn self_xor(alloc: Global) -> Result<Gates, NoMemory> {
    let mut builder = GateBuilder::new(alloc, 1, 1)?;
    let next = builder.xor(plain(2), plain(2))?;
    let outs = vec![in alloc; plain(2)]?;
    let nexts = vec![in alloc; next]?;
    builder.finish(outs, nexts)
}

/// Two registers, of which the first takes the second, and the second the input. The first is the
/// output.
pub(crate) fn shift(alloc: Global) -> Result<Gates, NoMemory> {
    let builder = GateBuilder::new(alloc, 1, 2)?;
    let outs = vec![in alloc; plain(2)]?;
    let nexts = vec![in alloc; plain(3), plain(1)]?;
    builder.finish(outs, nexts)
}

/// A register that holds its value, and that an input of 0 resets at once. It is the output.
pub(crate) fn reset_at_once(alloc: Global) -> Result<Gates, NoMemory> {
    let mut builder = GateBuilder::new(alloc, 1, 1)?;
    let value = builder.mux(plain(1), plain(2), plain(0))?;
    let outs = vec![in alloc; value]?;
    let nexts = vec![in alloc; value]?;
    builder.finish(outs, nexts)
}

/// Data of four bits beside a bit that says whether they are valid. The second input loads the four
/// last ones and makes them valid, unless the first input resets the valid bit to 0; without it the
/// data stay, and aren't valid. The outputs are the valid bit and the data that are valid.
pub(crate) fn guarded(alloc: Global) -> Result<Gates, NoMemory> {
    let mut builder = GateBuilder::new(alloc, 6, 5)?;
    let valid = builder.mux(plain(1), plain(0), plain(2))?;
    let next_0 = builder.mux(plain(2), plain(3), plain(8))?;
    let next_1 = builder.mux(plain(2), plain(4), plain(9))?;
    let next_2 = builder.mux(plain(2), plain(5), plain(10))?;
    let next_3 = builder.mux(plain(2), plain(6), plain(11))?;
    let out_0 = builder.and(plain(7), plain(8))?;
    let out_1 = builder.and(plain(7), plain(9))?;
    let out_2 = builder.and(plain(7), plain(10))?;
    let out_3 = builder.and(plain(7), plain(11))?;
    let outs = vec![in alloc; plain(7), out_0, out_1, out_2, out_3]?;
    let nexts = vec![in alloc; valid, next_0, next_1, next_2, next_3]?;
    builder.finish(outs, nexts)
}
