// The operators of expressions on gates.
ghost use Rattle.std.specs.Prelude.{◌≡◌, ◌+◌, ◌*◌, ◌^◌, ◌≤◌, ◌<◌, Bool, true, false, [], ◌∷◌, map, length, if◌then◌else◌, OnOk, IfOk};
ghost use Rattle.std.specs.List.{All};
ghost use Rattle.rst_gate.specs.Circuits.{IsBelow};
ghost use Rattle.rst_gate.specs.GateLists.{next_node};
ghost use Rattle.rst_gate.specs.SharedGates.{constant_edge, turned};
ghost use Rattle.rst_terms.specs.Recurrences.{connected, each, reduced, summed, equal};
ghost use Rattle.rst_terms.specs.Operators.{unary_bits, binary_bits, extended, top, less, decided};
ghost use Rattle.rst_terms.specs.declared.kinds.Connective.TheVariants.{Xor};
ghost use Rattle.rst_word.specs.declared.ops.UnaryOp.TheVariants.{Minus};
ghost use Rattle.rst_terms.specs.Weights.{unary_weight, binary_weight};
ghost use Rattle.rst_word_gates.specs.GateAlgebra.{gates_so_far};
ghost use Rattle.rst_word_gates.specs.Operands.{TakesWidths};

use crate::bits::{all_bits, connect, connect_each, invert, repeat};
use crate::moves::shift;
use crate::order::{equal, less};
use crate::products::multiply;
use crate::sums::add;
use rst_gate::{Edge, GateBuilder};
use rst_outside::NoMemory;
use rst_terms::{Connective, Direction};
use rst_word::{BinaryOp, UnaryOp};
use std::alloc::Global;

// A word of one bit.
fn one_bit(alloc: Global, edge: Edge) -> Result<Vec<Edge>, NoMemory>
    ensures { IfOk result (λ r. r.items ≡ edge ∷ []) }
{
    let mut bits = Vec::new(alloc);
    bits.push(edge)?;
    Ok(bits)
}

// The top bit where it counts, else the constant zero.
fn top_or_zero(signed: bool, word: &[Edge]) -> Edge
    requires { 0 < length word.now }
    ensures { result ≡ (if signed then top gates_so_far word.now else constant_edge false) }
{
    if signed {
        word[word.len() - 1]
    } else {
        Edge::constant(false)
    }
}

/// The word at a width that is not smaller. The new bits copy the top bit where the extension is
/// signed, and are 0 where it is not. This asks for no gate.
pub fn extend(
    alloc: Global,
    signed: bool,
    width: usize,
    word: &[Edge],
) -> Result<Vec<Edge>, NoMemory>
    requires some_bits { 0 < length word.now }
    requires wider { length word.now ≤ width }
    ensures bits { IfOk result (λ r. r.items ≡ extended gates_so_far signed width word.now) }
    ensures width { IfOk result (λ r. length r.items ≡ width) }
{
    let fills = repeat(alloc, top_or_zero(signed, word), width - word.len())?;
    let mut bits = Vec::from_slice(alloc, word)?;
    bits.extend_from_slice(fills.as_slice())?;
    Ok(bits)
}

// All bits of a word joined, and inverted where asked for.
fn reduce(
    alloc: Global,
    gates: &mut GateBuilder,
    op: Connective,
    inverted: bool,
    word: &[Edge],
) -> Result<Vec<Edge>, NoMemory>
    requires stand { All (IsBelow (next_node gates.old)) word.now }
    requires room { next_node gates.old + length word.now ≤ 2 ^ 31 }
    ensures gates { OnOk result (gates.new ≡ (reduced gates_so_far op gates.old word.now).0) }
    ensures bits { IfOk result (λ r. r.items ≡ turned inverted (reduced gates_so_far op gates.old word.now).1 ∷ []) }
    ensures stand { IfOk result (λ r. All (IsBelow (next_node gates.new)) r.items) }
    ensures grows { OnOk result (next_node gates.old ≤ next_node gates.new) }
    ensures few { OnOk result (next_node gates.new ≤ next_node gates.old + length word.now) }
{
    let bit = all_bits(gates, op, word)?;
    one_bit(alloc, bit.turned(inverted))
}

// `a - b` as `a + ~b + 1`, over words of one width.
fn subtract(
    alloc: Global,
    gates: &mut GateBuilder,
    a: &[Edge],
    b: &[Edge],
) -> Result<Vec<Edge>, NoMemory>
    requires one_width { length a.now ≡ length b.now }
    requires a_stands { All (IsBelow (next_node gates.old)) a.now }
    requires b_stands { All (IsBelow (next_node gates.old)) b.now }
    requires room { next_node gates.old + 6 * length a.now ≤ 2 ^ 31 }
    ensures gates { OnOk result (gates.new ≡ (summed gates_so_far gates.old (constant_edge true) a.now (map (turned true) b.now)).state) }
    ensures bits { IfOk result (λ r. r.items ≡ (summed gates_so_far gates.old (constant_edge true) a.now (map (turned true) b.now)).bits) }
    ensures stand { IfOk result (λ r. All (IsBelow (next_node gates.new)) r.items) }
    ensures width { IfOk result (λ r. length r.items ≡ length a.now) }
    ensures grows { OnOk result (next_node gates.old ≤ next_node gates.new) }
    ensures few { OnOk result (next_node gates.new ≤ next_node gates.old + 6 * length a.now) }
{
    let inverted = invert(alloc, b)?;
    add(alloc, gates, a, inverted.as_slice(), Edge::constant(true))
}

// `0 - a`
fn negate(alloc: Global, gates: &mut GateBuilder, a: &[Edge]) -> Result<Vec<Edge>, NoMemory>
    requires stand { All (IsBelow (next_node gates.old)) a.now }
    requires room { next_node gates.old + 6 * length a.now ≤ 2 ^ 31 }
    ensures gates { OnOk result (gates.new ≡ (unary_bits gates_so_far Minus gates.old a.now).0) }
    ensures bits { IfOk result (λ r. r.items ≡ (unary_bits gates_so_far Minus gates.old a.now).1) }
    ensures stand { IfOk result (λ r. All (IsBelow (next_node gates.new)) r.items) }
    ensures width { IfOk result (λ r. length r.items ≡ length a.now) }
    ensures grows { OnOk result (next_node gates.old ≤ next_node gates.new) }
    ensures few { OnOk result (next_node gates.new ≤ next_node gates.old + 6 * length a.now) }
{
    let zero = repeat(alloc, Edge::constant(false), a.len())?;
    subtract(alloc, gates, zero.as_slice(), a)
}

/// What an operator with one operand gives, a word of 1 to 64 bits.
pub fn unary(
    alloc: Global,
    gates: &mut GateBuilder,
    op: UnaryOp,
    a: &[Edge],
) -> Result<Vec<Edge>, NoMemory>
    requires stand { All (IsBelow (next_node gates.old)) a.now }
    requires room { next_node gates.old + unary_weight op (length a.now) ≤ 2 ^ 31 }
    ensures gates { OnOk result (gates.new ≡ (unary_bits gates_so_far op gates.old a.now).0) }
    ensures bits { IfOk result (λ r. r.items ≡ (unary_bits gates_so_far op gates.old a.now).1) }
    ensures stand { IfOk result (λ r. All (IsBelow (next_node gates.new)) r.items) }
    ensures grows { OnOk result (next_node gates.old ≤ next_node gates.new) }
    ensures few { OnOk result (next_node gates.new ≤ next_node gates.old + unary_weight op (length a.now)) }
{
    match op {
        UnaryOp::Plus => {
            let bits = Vec::from_slice(alloc, a)?;
            Ok(bits)
        }
        UnaryOp::Minus => negate(alloc, gates, a),
        UnaryOp::Invert => invert(alloc, a),
        UnaryOp::Not => reduce(alloc, gates, Connective::Or, true, a),
        UnaryOp::And => reduce(alloc, gates, Connective::And, false, a),
        UnaryOp::Nand => reduce(alloc, gates, Connective::And, true, a),
        UnaryOp::Or => reduce(alloc, gates, Connective::Or, false, a),
        UnaryOp::Nor => reduce(alloc, gates, Connective::Or, true, a),
        UnaryOp::Xor => reduce(alloc, gates, Connective::Xor, false, a),
        UnaryOp::Xnor => reduce(alloc, gates, Connective::Xor, true, a),
    }
}

// Whether `a` is below `b`, or whether it is not.
fn compare(
    alloc: Global,
    gates: &mut GateBuilder,
    signed: bool,
    inverted: bool,
    a: &[Edge],
    b: &[Edge],
) -> Result<Vec<Edge>, NoMemory>
    requires some_bits { 0 < length a.now }
    requires one_width { length a.now ≡ length b.now }
    requires a_stands { All (IsBelow (next_node gates.old)) a.now }
    requires b_stands { All (IsBelow (next_node gates.old)) b.now }
    requires room { next_node gates.old + 4 * length a.now ≤ 2 ^ 31 }
    ensures gates { OnOk result (gates.new ≡ (less gates_so_far signed gates.old a.now b.now).0) }
    ensures bits { IfOk result (λ r. r.items ≡ turned inverted (less gates_so_far signed gates.old a.now b.now).1 ∷ []) }
    ensures stand { IfOk result (λ r. All (IsBelow (next_node gates.new)) r.items) }
    ensures grows { OnOk result (next_node gates.old ≤ next_node gates.new) }
    ensures few { OnOk result (next_node gates.new ≤ next_node gates.old + 4 * length a.now) }
{
    let bit = less(alloc, gates, signed, a, b)?;
    one_bit(alloc, bit.turned(inverted))
}

// Whether two words are equal, or whether they differ.
fn match_words(
    alloc: Global,
    gates: &mut GateBuilder,
    inverted: bool,
    a: &[Edge],
    b: &[Edge],
) -> Result<Vec<Edge>, NoMemory>
    requires one_width { length a.now ≡ length b.now }
    requires a_stands { All (IsBelow (next_node gates.old)) a.now }
    requires b_stands { All (IsBelow (next_node gates.old)) b.now }
    requires room { next_node gates.old + 4 * length a.now ≤ 2 ^ 31 }
    ensures gates { OnOk result (gates.new ≡ (equal gates_so_far gates.old a.now b.now).0) }
    ensures bits { IfOk result (λ r. r.items ≡ turned inverted (equal gates_so_far gates.old a.now b.now).1 ∷ []) }
    ensures stand { IfOk result (λ r. All (IsBelow (next_node gates.new)) r.items) }
    ensures grows { OnOk result (next_node gates.old ≤ next_node gates.new) }
    ensures few { OnOk result (next_node gates.new ≤ next_node gates.old + 4 * length a.now) }
{
    let bit = equal(alloc, gates, a, b)?;
    one_bit(alloc, bit.turned(inverted))
}

// Two words bit by bit, each bit inverted.
fn inverted_xor(
    alloc: Global,
    gates: &mut GateBuilder,
    a: &[Edge],
    b: &[Edge],
) -> Result<Vec<Edge>, NoMemory>
    requires one_width { length a.now ≡ length b.now }
    requires a_stands { All (IsBelow (next_node gates.old)) a.now }
    requires b_stands { All (IsBelow (next_node gates.old)) b.now }
    requires room { next_node gates.old + length a.now ≤ 2 ^ 31 }
    ensures gates { OnOk result (gates.new ≡ (each gates_so_far Xor gates.old a.now b.now).0) }
    ensures bits { IfOk result (λ r. r.items ≡ map (turned true) (each gates_so_far Xor gates.old a.now b.now).1) }
    ensures stand { IfOk result (λ r. All (IsBelow (next_node gates.new)) r.items) }
    ensures grows { OnOk result (next_node gates.old ≤ next_node gates.new) }
    ensures few { OnOk result (next_node gates.new ≤ next_node gates.old + length a.now) }
{
    let differ = connect_each(alloc, gates, Connective::Xor, a, b)?;
    invert(alloc, differ.as_slice())
}

// `&&` and `||`: whether a bit of the left word is one, then of the right one, then both.
fn decide(
    alloc: Global,
    gates: &mut GateBuilder,
    op: Connective,
    a: &[Edge],
    b: &[Edge],
) -> Result<Vec<Edge>, NoMemory>
    requires a_stands { All (IsBelow (next_node gates.old)) a.now }
    requires b_stands { All (IsBelow (next_node gates.old)) b.now }
    requires room { next_node gates.old + (length a.now + length b.now + 1) ≤ 2 ^ 31 }
    ensures gates { OnOk result (gates.new ≡ (decided gates_so_far op gates.old a.now b.now).0) }
    ensures bits { IfOk result (λ r. r.items ≡ (decided gates_so_far op gates.old a.now b.now).1) }
    ensures stand { IfOk result (λ r. All (IsBelow (next_node gates.new)) r.items) }
    ensures grows { OnOk result (next_node gates.old ≤ next_node gates.new) }
    ensures few { OnOk result (next_node gates.new ≤ next_node gates.old + (length a.now + length b.now + 1)) }
{
    let left = all_bits(gates, Connective::Or, a)?;
    let right = all_bits(gates, Connective::Or, b)?;
    let bit = connect(gates, op, left, right)?;
    one_bit(alloc, bit)
}

/// What an operator with two operands gives, of words of 1 to 64 bits. Comparisons read both as
/// signed, and `>>>` copies the top bit of the first, where `signed` is true. `/` and `%` have
/// constant operands, and are no gates.
pub fn binary(
    alloc: Global,
    gates: &mut GateBuilder,
    op: BinaryOp,
    signed: bool,
    a: &[Edge],
    b: &[Edge],
) -> Result<Vec<Edge>, NoMemory>
    requires some_bits { 0 < length a.now }
    requires width { length a.now ≤ 64 }
    requires widths { TakesWidths op (length a.now) (length b.now) }
    requires a_stands { All (IsBelow (next_node gates.old)) a.now }
    requires b_stands { All (IsBelow (next_node gates.old)) b.now }
    requires room { next_node gates.old + binary_weight op (length a.now) (length b.now) ≤ 2 ^ 31 }
    ensures gates { OnOk result (gates.new ≡ (binary_bits gates_so_far op signed gates.old a.now b.now).0) }
    ensures bits { IfOk result (λ r. r.items ≡ (binary_bits gates_so_far op signed gates.old a.now b.now).1) }
    ensures stand { IfOk result (λ r. All (IsBelow (next_node gates.new)) r.items) }
    ensures grows { OnOk result (next_node gates.old ≤ next_node gates.new) }
    ensures few { OnOk result (next_node gates.new ≤ next_node gates.old + binary_weight op (length a.now) (length b.now)) }
{
    let zero = Edge::constant(false);
    match op {
        BinaryOp::Mul => multiply(alloc, gates, a, b),
        BinaryOp::Div | BinaryOp::Rem => Ok(Vec::new(alloc)),
        BinaryOp::Add => add(alloc, gates, a, b, zero),
        BinaryOp::Sub => subtract(alloc, gates, a, b),
        BinaryOp::Shl | BinaryOp::ArithShl => shift(alloc, gates, Direction::Up, zero, a, b),
        BinaryOp::Shr => shift(alloc, gates, Direction::Down, zero, a, b),
        BinaryOp::ArithShr => {
            let fill = top_or_zero(signed, a);
            shift(alloc, gates, Direction::Down, fill, a, b)
        }
        BinaryOp::Lt => compare(alloc, gates, signed, false, a, b),
        BinaryOp::Le => compare(alloc, gates, signed, true, b, a),
        BinaryOp::Gt => compare(alloc, gates, signed, false, b, a),
        BinaryOp::Ge => compare(alloc, gates, signed, true, a, b),
        BinaryOp::Eq => match_words(alloc, gates, false, a, b),
        BinaryOp::Ne => match_words(alloc, gates, true, a, b),
        BinaryOp::And => connect_each(alloc, gates, Connective::And, a, b),
        BinaryOp::Xor => connect_each(alloc, gates, Connective::Xor, a, b),
        BinaryOp::Xnor => inverted_xor(alloc, gates, a, b),
        BinaryOp::Or => connect_each(alloc, gates, Connective::Or, a, b),
        BinaryOp::LogicAnd => decide(alloc, gates, Connective::And, a, b),
        BinaryOp::LogicOr => decide(alloc, gates, Connective::Or, a, b),
    }
}
