// Gates under construction: what is folded, what is shared, and what is neither.
ghost use Rattle.std.specs.Prelude.{◌≡◌, [], IfOk};

use crate::circuits::plain;
use rst_gate::{Edge, Gate, GateBuilder};
use rst_outside::NoMemory;
use std::test::Fail;

// Both orders of two operands, and the exclusive or of the answers.
fn either_order(builder: &mut GateBuilder) -> Result<[Edge; 3], NoMemory>
    requires { builder.old ≡ record { inputs = 2; states = 0; gates = [] } }
    ensures { builder.new.states ≡ 0 }
{
    let first = builder.and(plain(1), plain(2))?;
    let second = builder.and(plain(2), plain(1))?;
    let differ = builder.xor(first, second)?;
    Ok([first, second, differ])
}

// Both orders of an edge and its opposite.
fn opposites(builder: &mut GateBuilder) -> Result<[Edge; 2], NoMemory>
    requires { builder.old ≡ record { inputs = 2; states = 0; gates = [] } }
    ensures { builder.new.states ≡ 0 }
{
    let opposite = plain(1).turned(true);
    let first = builder.xor(opposite, plain(1))?;
    let second = builder.xor(plain(1), opposite)?;
    Ok([first, second])
}

// `and` and `xor` with a constant operand.
fn with_constants(builder: &mut GateBuilder) -> Result<[Edge; 5], NoMemory>
    requires { builder.old ≡ record { inputs = 2; states = 0; gates = [] } }
    ensures { builder.new.states ≡ 0 }
{
    let low = Edge::constant(false);
    let high = Edge::constant(true);
    let none = builder.and(low, plain(1))?;
    let either = builder.and(plain(1), low)?;
    let one = builder.and(high, plain(1))?;
    let same = builder.xor(plain(1), low)?;
    let opposite = builder.xor(high, plain(1))?;
    Ok([none, either, one, same, opposite])
}

// `mux` with either constant as its select.
fn constant_selects(builder: &mut GateBuilder) -> Result<[Edge; 2], NoMemory>
    requires { builder.old ≡ record { inputs = 2; states = 0; gates = [] } }
    ensures { builder.new.states ≡ 0 }
{
    let zero = builder.mux(Edge::constant(false), plain(1), plain(2))?;
    let one = builder.mux(Edge::constant(true), plain(1), plain(2))?;
    Ok([zero, one])
}

// Operations whose operands are equal.
fn equal_operands(builder: &mut GateBuilder) -> Result<[Edge; 3], NoMemory>
    requires { builder.old ≡ record { inputs = 2; states = 0; gates = [] } }
    ensures { builder.new.states ≡ 0 }
{
    let both = builder.and(plain(1), plain(1))?;
    let differ = builder.xor(plain(1), plain(1))?;
    let chosen = builder.mux(plain(1), plain(2), plain(2))?;
    Ok([both, differ, chosen])
}

// The edge of a gate, and the edge of the same gate asked for again behind another one, which may have been refused for want of
// memory: a refusal leaves the gates, and so the edges, that stand.
#[tactic(auto, unfolding(rst_gate::specs::SharedGates::asked_and, rst_gate::specs::SharedGates::asked_xor, rst_gate::specs::SharedGates::shared))]
fn asked_again(builder: &mut GateBuilder) -> Result<(Edge, Edge), NoMemory>
    requires { builder.old ≡ record { inputs = 2; states = 0; gates = [] } }
    ensures states { builder.new.states ≡ 0 }
    ensures same { IfOk result (λ edges. edges.0 ≡ edges.1) }
{
    let before = builder.and(plain(1), plain(2))?;
    let _ = builder.xor(plain(1), plain(2));
    let behind = builder.and(plain(1), plain(2))?;
    Ok((before, behind))
}

#[test]
fn operands_in_either_order_are_one_gate(rt: HostRuntime) -> Result<(), Fail> {
    let alloc = rt.alloc();
    let mut builder = GateBuilder::new(alloc, 2, 0)?;
    let edges = either_order(&mut builder)?;
    let gates = builder.finish(Vec::new(alloc), Vec::new(alloc))?.gates;
    assert_eq!(rt; edges.as_slice(), [plain(3), plain(3), plain(4)].as_slice());
    assert_eq!(rt;
        gates.as_slice(),
        [Gate::And(plain(1), plain(2)), Gate::Xor(plain(3), plain(3))].as_slice()
    );
    Ok(())
}

#[test]
fn of_one_node_the_plain_edge_comes_first(rt: HostRuntime) -> Result<(), Fail> {
    let alloc = rt.alloc();
    let mut builder = GateBuilder::new(alloc, 2, 0)?;
    let edges = opposites(&mut builder)?;
    let gates = builder.finish(Vec::new(alloc), Vec::new(alloc))?.gates;
    assert_eq!(rt; edges.as_slice(), [plain(3), plain(3)].as_slice());
    assert_eq!(rt;
        gates.as_slice(),
        [Gate::Xor(plain(1), plain(1).turned(true))].as_slice()
    );
    Ok(())
}

#[test]
fn constants_are_folded(rt: HostRuntime) -> Result<(), Fail> {
    let mut builder = GateBuilder::new(rt.alloc(), 2, 0)?;
    let edges = with_constants(&mut builder)?;
    drop(builder);
    let (input, low) = (plain(1), Edge::constant(false));
    assert_eq!(rt;
        edges.as_slice(),
        [low, low, input, input, input.turned(true)].as_slice()
    );
    Ok(())
}

#[test]
fn constant_selects_are_folded(rt: HostRuntime) -> Result<(), Fail> {
    let mut builder = GateBuilder::new(rt.alloc(), 2, 0)?;
    let edges = constant_selects(&mut builder)?;
    drop(builder);
    assert_eq!(rt; edges.as_slice(), [plain(2), plain(1)].as_slice());
    Ok(())
}

// Each of these has one value whatever the input is, or one in both branches, and is a gate all the
// same.
#[test]
fn equal_operands_make_a_gate(rt: HostRuntime) -> Result<(), Fail> {
    let mut builder = GateBuilder::new(rt.alloc(), 2, 0)?;
    let edges = equal_operands(&mut builder)?;
    drop(builder);
    assert_eq!(rt; edges.as_slice(), [plain(3), plain(4), plain(5)].as_slice());
    Ok(())
}

#[test]
fn a_refusal_leaves_earlier_edges(rt: HostRuntime) -> Result<(), Fail> {
    let mut builder = GateBuilder::new(rt.alloc(), 2, 0)?;
    let (before, behind) = asked_again(&mut builder)?;
    drop(builder);
    assert_eq!(rt; before, plain(3));
    assert_eq!(rt; behind, plain(3));
    Ok(())
}
