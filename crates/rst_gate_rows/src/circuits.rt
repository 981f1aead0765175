// Small circuits whose cycles were worked by hand.
ghost use Rattle.std.specs.Prelude.{◌≡◌, false, IfOk};

use rst_gate::{Edge, GateBuilder, Gates};
use rst_outside::NoMemory;
use std::alloc::Global;

/// The value of a node.
pub fn plain(node: u32) -> Edge
    ensures { result ≡ record { node = node; inverted = false } }
{
    Edge {
        node,
        inverted: false,
    }
}

/// A register that changes at each edge of the clock unless it is reset to 0.
pub fn toggle(alloc: Global) -> Result<Gates, NoMemory>
    ensures { IfOk result (λ g. (g.inputs ≡ 1) × (g.states ≡ 1)) }
{
    let mut builder = GateBuilder::new(alloc, 1, 1)?;
    let opposite = Edge {
        node: 2,
        inverted: true,
    };
    let next = builder.mux(plain(1), plain(0), opposite)?;
    let outs = vec![in alloc; plain(2)]?;
    let nexts = vec![in alloc; next]?;
    builder.finish(outs, nexts)
}

/// Two registers: the first becomes its exclusive or with itself, the second both of them.
pub fn own_xor(alloc: Global) -> Result<Gates, NoMemory>
    ensures { IfOk result (λ g. (g.inputs ≡ 0) × (g.states ≡ 2)) }
{
    let mut builder = GateBuilder::new(alloc, 0, 2)?;
    let none = builder.xor(plain(1), plain(1))?;
    let both = builder.and(plain(1), plain(2))?;
    let outs = Vec::new(alloc);
    let nexts = vec![in alloc; none, both]?;
    builder.finish(outs, nexts)
}

/// Three registers: the first holds, the second takes the first and itself, the third the first two.
pub fn chain(alloc: Global) -> Result<Gates, NoMemory>
    ensures { IfOk result (λ g. (g.inputs ≡ 0) × (g.states ≡ 3)) }
{
    let mut builder = GateBuilder::new(alloc, 0, 3)?;
    let second = builder.and(plain(1), plain(2))?;
    let third = builder.xor(plain(2), plain(1))?;
    let outs = Vec::new(alloc);
    let nexts = vec![in alloc; plain(1), second, third]?;
    builder.finish(outs, nexts)
}

/// A register that takes the two inputs' conjunction.
pub fn both_inputs(alloc: Global) -> Result<Gates, NoMemory>
    ensures { IfOk result (λ g. (g.inputs ≡ 2) × (g.states ≡ 1)) }
{
    let mut builder = GateBuilder::new(alloc, 2, 1)?;
    let next = builder.and(plain(1), plain(2))?;
    let outs = vec![in alloc; plain(3)]?;
    let nexts = vec![in alloc; next]?;
    builder.finish(outs, nexts)
}

/// Two registers: the first holds, the second holds or changes as the first says.
pub fn selected(alloc: Global) -> Result<Gates, NoMemory>
    ensures { IfOk result (λ g. (g.inputs ≡ 0) × (g.states ≡ 2)) }
{
    let mut builder = GateBuilder::new(alloc, 0, 2)?;
    let next = builder.mux(plain(1), plain(2), plain(2).turned(true))?;
    let outs = Vec::new(alloc);
    let nexts = vec![in alloc; plain(1), next]?;
    builder.finish(outs, nexts)
}

/// Whether the input port of two bits is the number 2: its higher bit is the first input.
pub fn is_two(alloc: Global) -> Result<Gates, NoMemory>
    ensures { IfOk result (λ g. (g.inputs ≡ 2) × (g.states ≡ 0)) }
{
    let mut builder = GateBuilder::new(alloc, 2, 0)?;
    let out = builder.and(plain(1), plain(2).turned(true))?;
    let outs = vec![in alloc; out]?;
    let nexts = Vec::new(alloc);
    builder.finish(outs, nexts)
}
