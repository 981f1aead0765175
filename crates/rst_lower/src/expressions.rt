// The gates of typed expressions.
ghost use Rattle.std.specs.Prelude.{◌≡◌, ◌+◌, ◌*◌, ◌^◌, ◌≤◌, ◌<◌, true, false, map, take, drop, length, OnOk, IfOk};
ghost use Rattle.std.specs.List.{All};
ghost use Rattle.rst_gate.specs.Circuits.{IsBelow};
ghost use Rattle.rst_gate.specs.GateLists.{next_node};
ghost use Rattle.rst_width.specs.Typed.{plain_typed, plain_node, plain_vec, sized_as};
ghost use Rattle.rst_word.specs.Binary.{binary_word};
ghost use Rattle.rst_width.specs.Values.{constant_word};
ghost use Rattle.rst_terms.specs.declared.kinds.Connective.TheVariants.{Or};
ghost use Rattle.rst_terms.specs.Recurrences.{reduced, chosen, selected};
ghost use Rattle.rst_terms.specs.Operators.{unary_bits, binary_bits, is_division, extended};
ghost use Rattle.rst_terms.specs.Weights.{unary_weight, binary_weight};
ghost use Rattle.rst_word_gates.specs.Operands.{TakesWidths};
ghost use Rattle.rst_width.specs.Fit.{IsShape, IsFit, IsFitNode, AreFit, widths};
ghost use Rattle.rst_width.specs.Reads.{ReadsInside, NodeReadsInside, AllReadInside};
ghost use Rattle.rst_typed_terms.specs.Expressions.{expression_bits, node_bits, list_bits, constants, copies};
ghost use Rattle.rst_typed_terms.specs.Weights.{expression_weight, node_weight, list_weight};
ghost use Rattle.rst_word_gates.specs.GateAlgebra.{gates_so_far};
ghost use Rattle.rst_lower.specs.WireWords.{word_of, widths_of, WiresStand};

use crate::Wires;
use rst_gate::{Edge, GateBuilder};
use rst_outside::NoMemory;
use rst_terms::Connective;
use rst_width::{Shape, TypedExpr, TypedNode, constant_word};
use rst_word::{BinaryOp, UnaryOp, Word};
use rst_word_gates::{all_bits, binary, choose, extend, select, unary};
use std::alloc::Global;

// The edges of a number's lowest bits, all of them constants.
#[tactic(auto, using(crate::proofs::Loops::constants_turn, crate::proofs::Loops::constants_end))]
fn constant_edges(alloc: Global, width: u8, value: u64) -> Result<Vec<Edge>, NoMemory>
    requires { width ≤ 64 }
    ensures { IfOk result (λ r. r.items ≡ constants gates_so_far width value) }
{
    let mut bits = Vec::new(alloc);
    let mut left = value;
    for _ in 0..width {
        bits.push(Edge::constant(left % 2 == 1))?;
        left /= 2;
    }
    Ok(bits)
}

// Whether the operator is `/` or `%`.
fn divides(op: BinaryOp) -> bool
    ensures { result ≡ is_division op }
{
    matches!(op, BinaryOp::Div | BinaryOp::Rem)
}

// A quotient or a remainder, a constant word. Its operands ask for nothing.
fn quotient(
    alloc: Global,
    width: u8,
    op: BinaryOp,
    a: &TypedExpr,
    b: &TypedExpr,
) -> Result<Vec<Edge>, NoMemory>
    requires division { is_division op ≡ true }
    requires width { width ≤ 64 }
    requires a_fit { IsFit (plain_typed a.now) }
    requires b_fit { IsFit (plain_typed b.now) }
    requires one_width { a.now.width ≡ b.now.width }
    requires not_zero { 0 < (constant_word (plain_typed b.now)).value }
    ensures { IfOk result (λ r. r.items ≡ constants gates_so_far width (binary_word op (constant_word (plain_typed a.now)) (constant_word (plain_typed b.now))).value) }
{
    let word = Word::binary(op, constant_word(a), constant_word(b));
    constant_edges(alloc, width, word.value)
}

// A word this many times.
#[tactic(auto, using(crate::proofs::Loops::copies_more))]
fn copies_of(alloc: Global, count: u8, word: &[Edge]) -> Result<Vec<Edge>, NoMemory>
    ensures { IfOk result (λ r. r.items ≡ copies count word.now) }
{
    let mut bits = Vec::new(alloc);
    for _ in 0..count {
        bits.extend_from_slice(word)?;
    }
    Ok(bits)
}

/// The edges of a typed expression's bits, lowest first, by those of the signals, with the gates that it asks for. Operands come
/// before operators, left before right, bit 0 first.
///
/// The widths inside have to fit together, and every bit that is read has to stand in its signal, as in every answer of
/// [`typed`](rst_width::typed).
#[cycle(expressions)]
pub fn expression(
    alloc: Global,
    gates: &mut GateBuilder,
    wires: &Wires,
    expr: &TypedExpr,
) -> Result<Vec<Edge>, NoMemory>
    requires fit { IsFit (plain_typed expr.now) }
    requires inside { ReadsInside (widths_of wires.now) (plain_typed expr.now) }
    requires stand { WiresStand (next_node gates.old) wires.now }
    requires room { next_node gates.old + expression_weight (widths_of wires.now) (plain_typed expr.now) ≤ 2 ^ 31 }
    ensures gates { OnOk result (gates.new ≡ (expression_bits gates_so_far (word_of wires.now) gates.old (plain_typed expr.now)).0) }
    ensures bits { IfOk result (λ r. r.items ≡ (expression_bits gates_so_far (word_of wires.now) gates.old (plain_typed expr.now)).1) }
    ensures stand { IfOk result (λ r. All (IsBelow (next_node gates.new)) r.items) }
    ensures width { IfOk result (λ r. length r.items ≡ expr.now.width) }
    ensures grows { OnOk result (next_node gates.old ≤ next_node gates.new) }
    ensures few { OnOk result (next_node gates.new ≤ next_node gates.old + expression_weight (widths_of wires.now) (plain_typed expr.now)) }
{
    place(alloc, gates, wires, expr.width, expr.signed, &expr.node)
}

// The edges of what stands at a place of this width and sign.
#[cycle(expressions)]
#[tactic(auto, using(rst_width::proofs::Rows::rows, crate::proofs::Stands::wires_later, crate::proofs::Stands::edges_later))]
fn place(
    alloc: Global,
    gates: &mut GateBuilder,
    wires: &Wires,
    width: u8,
    signed: bool,
    node: &TypedNode,
) -> Result<Vec<Edge>, NoMemory>
    requires shape { IsShape (sized_as width signed) }
    requires fit { IsFitNode (sized_as width signed) (plain_node node.now) }
    requires inside { NodeReadsInside (widths_of wires.now) (sized_as width signed) (plain_node node.now) }
    requires stand { WiresStand (next_node gates.old) wires.now }
    requires room { next_node gates.old + node_weight (widths_of wires.now) (sized_as width signed) (plain_node node.now) ≤ 2 ^ 31 }
    ensures gates { OnOk result (gates.new ≡ (node_bits gates_so_far (word_of wires.now) gates.old (sized_as width signed) (plain_node node.now)).0) }
    ensures bits { IfOk result (λ r. r.items ≡ (node_bits gates_so_far (word_of wires.now) gates.old (sized_as width signed) (plain_node node.now)).1) }
    ensures grows { OnOk result (next_node gates.old ≤ next_node gates.new) }
    ensures few { OnOk result (next_node gates.new ≤ next_node gates.old + node_weight (widths_of wires.now) (sized_as width signed) (plain_node node.now)) }
{
    match node {
        TypedNode::Word(word) => constant_edges(alloc, word.width, word.value),
        TypedNode::Signal(signal) => whole(alloc, wires, *signal),
        TypedNode::Slice(signal, low, count) => slice(alloc, wires, *signal, *low, *count),
        TypedNode::Pick(signal, index) => pick(alloc, gates, wires, *signal, index),
        TypedNode::Unary(op, a) => unary_operator(alloc, gates, wires, *op, a),
        TypedNode::Binary(op, a, b) => {
            if divides(*op) {
                return quotient(alloc, width, *op, a, b);
            }
            let left = expression(alloc, gates, wires, a)?;
            let shape = Shape {
                width: a.width,
                signed: a.signed,
            };
            right_operand(alloc, gates, wires, *op, shape, left.as_slice(), b)
        }
        TypedNode::Choose(test, a, b) => {
            let condition = expression(alloc, gates, wires, test)?;
            let one = expression(alloc, gates, wires, a)?;
            other_branch(alloc, gates, wires, condition.as_slice(), one.as_slice(), b)
        }
        TypedNode::Join(parts) => list(alloc, gates, wires, parts),
        TypedNode::Repeat(count, parts) => repetition(alloc, gates, wires, *count, parts),
        TypedNode::Extend(a) => extension(alloc, gates, wires, width, signed, a),
        TypedNode::Sign(a) => expression(alloc, gates, wires, a),
    }
}

// All bits of a signal. This asks for no gate.
#[tactic(auto, using(crate::proofs::Stands::signal_there))]
fn whole(alloc: Global, wires: &Wires, signal: u32) -> Result<Vec<Edge>, NoMemory>
    requires { 0 < widths_of wires.now signal }
    ensures { IfOk result (λ r. r.items ≡ word_of wires.now signal) }
{
    let bits = Vec::from_slice(alloc, wires.word(signal))?;
    Ok(bits)
}

// Two to the power of a number of places, at most `most`.
fn power(places: u8, most: usize) -> usize
    requires some { places ≤ 64 }
    requires fits { 2 ^ places ≤ most }
    ensures { result ≡ 2 ^ places }
{
    let _most = most;
    (1u128 << places) as usize
}

// Bits of a signal, from a place on. This asks for no gate.
#[tactic(auto, using(crate::proofs::Stands::signal_there, crate::proofs::Loops::range_take))]
fn slice(
    alloc: Global,
    wires: &Wires,
    signal: u32,
    low: u8,
    count: u8,
) -> Result<Vec<Edge>, NoMemory>
    requires some { 0 < count }
    requires inside { low + count ≤ widths_of wires.now signal }
    ensures { IfOk result (λ r. r.items ≡ take count (drop low (word_of wires.now signal))) }
{
    let word = wires.word(signal);
    let bits = Vec::from_slice(alloc, &word[low as usize..low as usize + count as usize])?;
    Ok(bits)
}

// One bit of a signal: the index, then the stages over the bits that it can name.
#[cycle(expressions)]
#[tactic(auto, using(crate::proofs::Stands::wires_later, crate::proofs::Stands::edges_later))]
fn pick(
    alloc: Global,
    gates: &mut GateBuilder,
    wires: &Wires,
    signal: u32,
    index: &TypedExpr,
) -> Result<Vec<Edge>, NoMemory>
    requires index_fit { IsFit (plain_typed index.now) }
    requires index_inside { ReadsInside (widths_of wires.now) (plain_typed index.now) }
    requires each_value { 2 ^ index.now.width ≤ widths_of wires.now signal }
    requires stand { WiresStand (next_node gates.old) wires.now }
    requires room { next_node gates.old + (expression_weight (widths_of wires.now) (plain_typed index.now) + widths_of wires.now signal) ≤ 2 ^ 31 }
    ensures gates { OnOk result (let n = expression_bits gates_so_far (word_of wires.now) gates.old (plain_typed index.now) in gates.new ≡ (selected gates_so_far n.0 n.1 (take (2 ^ length n.1) (word_of wires.now signal))).0) }
    ensures bits { IfOk result (λ v. let n = expression_bits gates_so_far (word_of wires.now) gates.old (plain_typed index.now) in v.items ≡ (selected gates_so_far n.0 n.1 (take (2 ^ length n.1) (word_of wires.now signal))).1) }
    ensures grows { OnOk result (next_node gates.old ≤ next_node gates.new) }
    ensures few { OnOk result (next_node gates.new ≤ next_node gates.old + (expression_weight (widths_of wires.now) (plain_typed index.now) + widths_of wires.now signal)) }
{
    let place = expression(alloc, gates, wires, index)?;
    let word = wires.word(signal);
    let count = power(index.width, word.len());
    select(alloc, gates, &word[..count], place.as_slice())
}

// An operator with one operand.
#[cycle(expressions)]
#[tactic(auto, using(crate::proofs::Stands::wires_later, crate::proofs::Stands::edges_later))]
fn unary_operator(
    alloc: Global,
    gates: &mut GateBuilder,
    wires: &Wires,
    op: UnaryOp,
    a: &TypedExpr,
) -> Result<Vec<Edge>, NoMemory>
    requires a_fit { IsFit (plain_typed a.now) }
    requires a_inside { ReadsInside (widths_of wires.now) (plain_typed a.now) }
    requires stand { WiresStand (next_node gates.old) wires.now }
    requires room { next_node gates.old + (expression_weight (widths_of wires.now) (plain_typed a.now) + unary_weight op a.now.width) ≤ 2 ^ 31 }
    ensures gates { OnOk result (let r = expression_bits gates_so_far (word_of wires.now) gates.old (plain_typed a.now) in gates.new ≡ (unary_bits gates_so_far op r.0 r.1).0) }
    ensures bits { IfOk result (λ v. let r = expression_bits gates_so_far (word_of wires.now) gates.old (plain_typed a.now) in v.items ≡ (unary_bits gates_so_far op r.0 r.1).1) }
    ensures grows { OnOk result (next_node gates.old ≤ next_node gates.new) }
    ensures few { OnOk result (next_node gates.new ≤ next_node gates.old + (expression_weight (widths_of wires.now) (plain_typed a.now) + unary_weight op a.now.width)) }
{
    let word = expression(alloc, gates, wires, a)?;
    unary(alloc, gates, op, word.as_slice())
}

// An operator behind its left operand, which has this width and sign.
#[cycle(expressions)]
#[tactic(auto, using(crate::proofs::Stands::wires_later, crate::proofs::Stands::edges_later))]
fn right_operand(
    alloc: Global,
    gates: &mut GateBuilder,
    wires: &Wires,
    op: BinaryOp,
    shape: Shape,
    left: &[Edge],
    b: &TypedExpr,
) -> Result<Vec<Edge>, NoMemory>
    requires left_width { length left.now ≡ shape.width }
    requires some_bits { 0 < shape.width }
    requires at_most_64 { shape.width ≤ 64 }
    requires left_stands { All (IsBelow (next_node gates.old)) left.now }
    requires operands { TakesWidths op shape.width b.now.width }
    requires b_fit { IsFit (plain_typed b.now) }
    requires b_inside { ReadsInside (widths_of wires.now) (plain_typed b.now) }
    requires stand { WiresStand (next_node gates.old) wires.now }
    requires room { next_node gates.old + (expression_weight (widths_of wires.now) (plain_typed b.now) + binary_weight op shape.width b.now.width) ≤ 2 ^ 31 }
    ensures gates { OnOk result (let r = expression_bits gates_so_far (word_of wires.now) gates.old (plain_typed b.now) in gates.new ≡ (binary_bits gates_so_far op shape.signed r.0 left.now r.1).0) }
    ensures bits { IfOk result (λ v. let r = expression_bits gates_so_far (word_of wires.now) gates.old (plain_typed b.now) in v.items ≡ (binary_bits gates_so_far op shape.signed r.0 left.now r.1).1) }
    ensures grows { OnOk result (next_node gates.old ≤ next_node gates.new) }
    ensures few { OnOk result (next_node gates.new ≤ next_node gates.old + (expression_weight (widths_of wires.now) (plain_typed b.now) + binary_weight op shape.width b.now.width)) }
{
    let right = expression(alloc, gates, wires, b)?;
    binary(alloc, gates, op, shape.signed, left, right.as_slice())
}

// A choice behind its condition and its first branch: the other branch, the `or` of the condition, and then the choice.
#[cycle(expressions)]
#[tactic(auto, using(crate::proofs::Stands::wires_later, crate::proofs::Stands::edges_later))]
fn other_branch(
    alloc: Global,
    gates: &mut GateBuilder,
    wires: &Wires,
    condition: &[Edge],
    one: &[Edge],
    b: &TypedExpr,
) -> Result<Vec<Edge>, NoMemory>
    requires one_width { length one.now ≡ b.now.width }
    requires condition_stands { All (IsBelow (next_node gates.old)) condition.now }
    requires one_stands { All (IsBelow (next_node gates.old)) one.now }
    requires b_fit { IsFit (plain_typed b.now) }
    requires b_inside { ReadsInside (widths_of wires.now) (plain_typed b.now) }
    requires stand { WiresStand (next_node gates.old) wires.now }
    requires room { next_node gates.old + (expression_weight (widths_of wires.now) (plain_typed b.now) + (length one.now + length condition.now)) ≤ 2 ^ 31 }
    ensures gates { OnOk result (let e = expression_bits gates_so_far (word_of wires.now) gates.old (plain_typed b.now) in let c = reduced gates_so_far Or e.0 condition.now in gates.new ≡ (chosen gates_so_far c.0 c.1 one.now e.1).0) }
    ensures bits { IfOk result (λ v. let e = expression_bits gates_so_far (word_of wires.now) gates.old (plain_typed b.now) in let c = reduced gates_so_far Or e.0 condition.now in v.items ≡ (chosen gates_so_far c.0 c.1 one.now e.1).1) }
    ensures grows { OnOk result (next_node gates.old ≤ next_node gates.new) }
    ensures few { OnOk result (next_node gates.new ≤ next_node gates.old + (expression_weight (widths_of wires.now) (plain_typed b.now) + (length one.now + length condition.now))) }
{
    let zero = expression(alloc, gates, wires, b)?;
    let select = all_bits(gates, Connective::Or, condition)?;
    choose(alloc, gates, select, one, zero.as_slice())
}

// A narrower expression, extended.
#[cycle(expressions)]
#[tactic(auto, using(crate::proofs::Stands::wires_later, crate::proofs::Stands::edges_later))]
fn extension(
    alloc: Global,
    gates: &mut GateBuilder,
    wires: &Wires,
    width: u8,
    signed: bool,
    a: &TypedExpr,
) -> Result<Vec<Edge>, NoMemory>
    requires a_fit { IsFit (plain_typed a.now) }
    requires a_inside { ReadsInside (widths_of wires.now) (plain_typed a.now) }
    requires wider { a.now.width < width }
    requires stand { WiresStand (next_node gates.old) wires.now }
    requires room { next_node gates.old + expression_weight (widths_of wires.now) (plain_typed a.now) ≤ 2 ^ 31 }
    ensures gates { OnOk result (let r = expression_bits gates_so_far (word_of wires.now) gates.old (plain_typed a.now) in gates.new ≡ r.0) }
    ensures bits { IfOk result (λ v. let r = expression_bits gates_so_far (word_of wires.now) gates.old (plain_typed a.now) in v.items ≡ extended gates_so_far signed width r.1) }
    ensures grows { OnOk result (next_node gates.old ≤ next_node gates.new) }
    ensures few { OnOk result (next_node gates.new ≤ next_node gates.old + expression_weight (widths_of wires.now) (plain_typed a.now)) }
{
    let word = expression(alloc, gates, wires, a)?;
    extend(alloc, signed, width as usize, word.as_slice())
}

// The parts of a join, the most significant first.
#[cycle(expressions)]
#[tactic(auto, using(crate::proofs::Stands::wires_later))]
fn list(
    alloc: Global,
    gates: &mut GateBuilder,
    wires: &Wires,
    parts: &Vec<TypedExpr>,
) -> Result<Vec<Edge>, NoMemory>
    requires fit { AreFit (plain_vec parts.now) }
    requires inside { AllReadInside (widths_of wires.now) (plain_vec parts.now) }
    requires stand { WiresStand (next_node gates.old) wires.now }
    requires room { next_node gates.old + list_weight (widths_of wires.now) (plain_vec parts.now) ≤ 2 ^ 31 }
    ensures gates { OnOk result (gates.new ≡ (list_bits gates_so_far (word_of wires.now) gates.old (plain_vec parts.now)).0) }
    ensures bits { IfOk result (λ v. v.items ≡ (list_bits gates_so_far (word_of wires.now) gates.old (plain_vec parts.now)).1) }
    ensures grows { OnOk result (next_node gates.old ≤ next_node gates.new) }
    ensures few { OnOk result (next_node gates.new ≤ next_node gates.old + list_weight (widths_of wires.now) (plain_vec parts.now)) }
{
    let mut bits = Vec::new(alloc);
    for part in parts {
        let mut word = expression(alloc, gates, wires, part)?;
        word.extend_from_slice(bits.as_slice())?;
        bits = word;
    }
    Ok(bits)
}

// The parts of a repetition, made once.
#[cycle(expressions)]
#[tactic(auto, using(crate::proofs::Stands::wires_later, crate::proofs::Stands::edges_later))]
fn repetition(
    alloc: Global,
    gates: &mut GateBuilder,
    wires: &Wires,
    count: u8,
    parts: &Vec<TypedExpr>,
) -> Result<Vec<Edge>, NoMemory>
    requires fit { AreFit (plain_vec parts.now) }
    requires inside { AllReadInside (widths_of wires.now) (plain_vec parts.now) }
    requires stand { WiresStand (next_node gates.old) wires.now }
    requires room { next_node gates.old + list_weight (widths_of wires.now) (plain_vec parts.now) ≤ 2 ^ 31 }
    ensures gates { OnOk result (gates.new ≡ (list_bits gates_so_far (word_of wires.now) gates.old (plain_vec parts.now)).0) }
    ensures bits { IfOk result (λ v. v.items ≡ copies count (list_bits gates_so_far (word_of wires.now) gates.old (plain_vec parts.now)).1) }
    ensures grows { OnOk result (next_node gates.old ≤ next_node gates.new) }
    ensures few { OnOk result (next_node gates.new ≤ next_node gates.old + list_weight (widths_of wires.now) (plain_vec parts.now)) }
{
    let word = list(alloc, gates, wires, parts)?;
    copies_of(alloc, count, word.as_slice())
}
